//! Walks over a certificate's items and takes each entry at its word.
//!
//!     item       tested at once                                   put off
//!     groups     the partition before ends its output
//!     entries    a line stands next; it tells the group's key
//!     entry      there is such a record; names rise; the key's     the pair of this name
//!                partition, its order; the group's text stands     has the group's key
//!
//! The steps are those of the judge (`JudgeState`), made with the pair that the entry claims: its
//! key is the one that the output's line tells, and its value is known from the record. So no byte
//! of the input is read here, and no pair is looked up. All entries of a group have its key, so of
//! one that is neither first nor last only the name is tested. What is put off goes to the list of its
//! window (`Claims`), to be tested when that window is mapped.
ghost use Rattle.std.specs.Prelude.{◌≡◌, ◌<◌, ◌-◌, ◌^◌, [], IfSome, IsTrue, Some};
ghost use Rattle.mr_certform.specs.declared.grammar_state.Item.TheVariants.{End};
ghost use Rattle.mr_verdict.specs.Steps.{HasRoom};
ghost use Rattle.mr_verdict.specs.Verdict.{after_entry, entry_tests};
ghost use Rattle.mr_judge.specs.Borders.{at_border};
ghost use Rattle.mr_judge.specs.Rows.{row_subject, row_tests, row_after};
ghost use Rattle.mr_check.specs.Claims.{claims_of};
ghost use Rattle.mr_judge.specs.Borders.{IsSmall};
ghost use Rattle.mr_check.specs.Walk.{IsTold, Stands, TakesItem, Takes, known};

use crate::claims::Claims;
use crate::given::Given;
use crate::lines::told_key;
use mr_bytes::{Name, Phase, Progress, Throttle, Value};
use mr_certform::Item;
use mr_judge::{Border, FoundItem, JudgeState, MemoryOutputs};
use mr_verdict::ItemSource;
use std::alloc::Global;

/// A group's key as a line tells it, and the place of that line in all outputs.
#[derive(Clone, Copy)]
pub(crate) struct Told<'a> {
    pub key: &'a [u8],
    pub line: u32,
}

/// A walk: where it stands, what is left of the outputs, the open group, and what was put off.
#[derive(Drop)]
pub(crate) struct Walk<'a> {
    pub judging: JudgeState<'a>,
    pub outputs: MemoryOutputs<'a>,
    pub told: Option<Told<'a>>,
    pub claims: Claims<'a>,
}

/// Where a walk came to.
#[derive(Clone, Copy)]
pub(crate) enum Came<'a> {
    /// It took as many items as it was to take, up to this border.
    To(Border<'a>),
    /// It took all items.
    ToEnd,
    /// A test failed, or something couldn't be claimed.
    Nowhere,
}

/// A walk that is over: where it began, how many items it was to take, where it came to, how many
/// entries it named, and what it put off.
#[derive(Drop)]
pub(crate) struct Walked<'a> {
    pub began: Border<'a>,
    pub most: u64,
    pub came: Came<'a>,
    pub named: u64,
    pub claims: Claims<'a>,
}

impl<'a> Walk<'a> {
    /// A walk that begins at a border. Nothing is put off.
    pub(crate) fn at(
        alloc: Global,
        given: &Given<'a>,
        border: &Border<'a>,
        claims: Claims<'a>,
    ) -> Walk<'a>
        ensures begins { result.judging ≡ at_border border.now }
        ensures claims { result.claims ≡ claims.entry }
        ensures stands { Stands (known given.now) result }
    {
        Walk {
            judging: JudgeState::at(alloc, border),
            outputs: MemoryOutputs::at(given.outputs.outputs(), border.next, border.from),
            told: None,
            claims,
        }
    }

    /// The group of the line that stands next.
    fn next_group(&self, given: &Given<'a>) -> Option<Told<'a>>
        requires { Stands (known given.now) self.now }
        ensures { IfSome result (IsTold (known given.now)) }
    {
        let key = told_key(self.outputs.rest)?;
        let line = given
            .outputs
            .line(self.judging.partition(), self.outputs.passed)?;
        Some(Told { key, line })
    }

    /// Makes the judge's tests of a row, over outputs at hand. Returns whether all passed.
    #[inline(always)]
    fn step(&mut self, given: &Given<'a>, row: &FoundItem<'a>) -> bool
        requires room { HasRoom self.old.judging }
        requires stands { Stands (known given.now) self.old }
        requires key { IfSome row.now.found (λ p. IfSome self.old.told (λ t. t.key.now ≡ p.0.now)) }
        ensures tested { let s = row_subject given.now.request.now given.now.outputs.now in
            IsTrue result → (row_tests s self.old.judging row.now ≡ [])
            × (self.new.judging ≡ row_after s self.old.judging row.now) }
        ensures stands { IsTrue result → Stands (known given.now) self.new }
        ensures claims { self.new.claims ≡ self.old.claims }
    {
        matches!(
            self.judging.step(given.request, &mut self.outputs, row),
            Ok(())
        )
    }

    /// Makes the judge's tests of an entry, by the pair that it claims. Returns whether all passed.
    #[inline(always)]
    fn step_entry(&mut self, given: &Given<'a>, name: Name, told: Told<'a>, value: Value) -> bool
        requires room { HasRoom self.old.judging }
        requires stands { Stands (known given.now) self.old }
        requires told { self.old.told ≡ Some told }
        ensures tested { let s = row_subject given.now.request.now given.now.outputs.now in
            let t = Some (record { key = told.entry.key.now; value = value; name = name }) in
            IsTrue result → (entry_tests s (self.old.judging.next - 1) self.old.judging name t ≡ [])
            × (self.new.judging ≡ after_entry s self.old.judging t) }
        ensures stands { IsTrue result → Stands (known given.now) self.new }
        ensures claims { self.new.claims ≡ self.old.claims }
    {
        if self.judging.is_within_group() {
            return matches!(self.judging.take_within_group(name, value), Ok(true));
        }
        let row = FoundItem {
            item: Item::Entry(name),
            found: Some((told.key, value)),
        };
        self.step(given, &row)
    }

    /// Takes an entry at its word. Returns whether all tests passed that can be made now.
    #[inline(always)]
    fn take_entry(&mut self, given: &Given<'a>, name: Name) -> bool
        requires room { HasRoom self.old.judging }
        requires stands { Stands (known given.now) self.old }
        ensures windows { self.new.claims.windows ≡ self.old.claims.windows }
        ensures taken { IsTrue result
            → TakesItem (known given.now) self.old self.new (Item.Entry name) }
        ensures stands { IsTrue result → Stands (known given.now) self.new }
    {
        let Some(told) = self.told else {
            return false;
        };
        let Some(value) = given.value_of(name) else {
            return false;
        };
        let Ok(true) = self.claims.take(name, told.line, told.key.len()) else {
            return false;
        };
        self.step_entry(given, name, told, value)
    }

    /// Takes an item that is not the end. Returns whether all tests passed that can be made now.
    #[inline(always)]
    pub(crate) fn take(&mut self, given: &Given<'a>, item: Item) -> bool
        requires room { HasRoom self.old.judging }
        requires stands { Stands (known given.now) self.old }
        requires more { item ≡ End → ⊥ }
        ensures windows { self.new.claims.windows ≡ self.old.claims.windows }
        ensures taken { IsTrue result → TakesItem (known given.now) self.old self.new item }
        ensures stands { IsTrue result → Stands (known given.now) self.new }
    {
        if let Item::Entry(name) = item {
            return self.take_entry(given, name);
        }
        if !self.step(given, &FoundItem { item, found: None }) {
            return false;
        }
        if let Item::Entries(_) = item {
            self.told = self.next_group(given);
        }
        true
    }

    /// Takes the next `most` items, or all up to the end, as far as all tests are passed.
    pub(crate) fn take_some<I: ItemSource>(
        &mut self,
        given: &Given<'a>,
        items: &mut I,
        most: u64,
        progress: &dyn Progress,
    ) -> Came<'a>
        requires sound { I.sound items.old }
        requires few { I.most items.old < 2 ^ 63 }
        requires begins { (b : Border) × (IsSmall b × (self.old.judging ≡ at_border b)) }
        requires stands { Stands (known given.now) self.old }
        ensures windows { self.new.claims.windows ≡ self.old.claims.windows }
        ensures takes { Takes (I.gives items.old) (I.gives items.new) (known given.now)
            self.old.judging self.new most result }
    {
        let mut pace = Throttle::new(Phase::Judging, given.outputs.len());
        let mut left = most;
        while left > 0 {
            let line = self.told.map_or(0, |told| told.line);
            pace.reach(u64::from(line), progress);
            let Ok(item) = items.next_item() else {
                return Came::Nowhere;
            };
            if let Item::End = item {
                return Came::ToEnd;
            }
            if !self.take(given, item) {
                return Came::Nowhere;
            }
            left -= 1;
        }
        Came::To(self.judging.border())
    }

    /// The walk is over.
    pub(crate) fn end(self, began: Border<'a>, most: u64, came: Came<'a>) -> Walked<'a>
        ensures { result ≡ record {
          began = began.entry;
          most = most;
          came = came.entry;
          named = self.entry.judging.named;
          claims = self.entry.claims;
        } }
    {
        Walked {
            began,
            most,
            came,
            named: self.judging.named(),
            claims: self.claims,
        }
    }
}
