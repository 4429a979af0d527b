//! The state of the judge in the partitions, and its steps, item by item.
ghost use Rattle.std.specs.Prelude.{◌≡◌, ◌<◌, ◌≤◌, ◌+◌, ◌-◌, ◌^◌, ◌++◌, ◌∷◌, []};
ghost use Rattle.std.specs.Prelude.{IfOk, IsTrue, MatchResult, OnOk, None, Some, true, length};
ghost use Rattle.mr_verdict.specs.Verdict.{Subject as Judged};
ghost use Rattle.std.specs.Ordering.{is_lt};
ghost use Rattle.mr_bytes.specs.Order.{name_order};
ghost use Rattle.mr_input.specs.Files.{nth_file};
ghost use Rattle.mr_sequential.specs.Rules.{rules_of};
ghost use Rattle.mr_certform.specs.declared.grammar_state.Item.TheVariants.{Entry};
ghost use Rattle.mr_verdict.specs.Verdict.{first_tests, order_tests};
ghost use Rattle.mr_verdict.specs.Verdict.{with_entry, group_tests, behind_group, entry_tests};
ghost use Rattle.mr_verdict.specs.Verdict.{after_entry, end_tests};
ghost use Rattle.mr_verdict.specs.Steps.{Answers, HasRoom, opens};
ghost use Rattle.mr_judge.specs.Rows.{row_subject, brought, row_tests, row_after};
ghost use Rattle.mr_judge.specs.Borders.{at_border, behind_entries, between};
ghost use Rattle.mr_judge.specs.Outputs.{CanCome, Tested, Halts};

use crate::border::{Border, FoundItem};
use crate::lines::test_group;
use crate::outputs::{Outputs, test_end};
use mr_bytes::{Name, Value, ValueColumn, compare_keys, compare_names};
use mr_certform::Item;
use mr_jobs::Request;
use mr_partition::partition_by;
use mr_verdict::{JudgeError, No};
use std::alloc::{AllocError, Global};
use std::marker::Model;

/// `next` is the next partition. `groups` and `entries` are left of this partition and group;
/// `group` and `entry` came before. `before` is the last name, `from` the place in the output where
/// the next text begins, `named` the number of entries so far. `text` is a buffer for a line.
#[derive(Drop)]
pub struct JudgeState<'a> {
    next: u64,
    groups: u64,
    group: u64,
    entries: u64,
    entry: u64,
    key_before: Option<&'a [u8]>,
    key: &'a [u8],
    before: Name,
    values: ValueColumn,
    from: u64,
    named: u64,
    text: Vec<u8>,
}

impl<'a> Model for JudgeState<'a> {
    ghost use Rattle.std.specs.Option.{option_map};
    ghost use Rattle.mr_verdict.specs.Verdict.{Reached};

    ghost Value = { Reached };

    ghost view = { λ j. record {
      next = j.next;
      groups = j.groups;
      group = j.group;
      entries = j.entries;
      entry = j.entry;
      key_before = option_map (λ r. r.now) j.key_before;
      key = j.key.now;
      before = j.before;
      values = j.values;
      from = j.from;
      named = j.named;
    } };
}

impl<'a> JudgeState<'a> {
    /// At a border, with nothing known of what comes before it.
    pub fn at(alloc: Global, border: &Border<'a>) -> JudgeState<'a>
        ensures { result ≡ at_border border.now }
    {
        JudgeState::resume(alloc, border, 0)
    }

    /// At a border, after `named` entries.
    pub fn resume(alloc: Global, border: &Border<'a>, named: u64) -> JudgeState<'a>
        ensures { result ≡ behind_entries border.now named }
    {
        JudgeState {
            next: border.next,
            groups: border.groups,
            group: border.group,
            entries: 0,
            entry: 0,
            key_before: border.key_before,
            key: b"",
            before: Name {
                split: 0,
                rec: 0,
                place: 0,
            },
            values: ValueColumn::new(alloc),
            from: border.from,
            named,
            text: Vec::new(alloc),
        }
    }

    /// The border that was reached, after a group.
    pub fn border(&self) -> Border<'a>
        ensures { at_border result ≡ between self.now }
    {
        Border {
            next: self.next,
            groups: self.groups,
            group: self.group,
            key_before: self.key_before,
            from: self.from,
        }
    }

    /// The number of entries so far.
    pub fn named(&self) -> u64
        ensures { result ≡ self.now.named }
    {
        self.named
    }

    pub fn partition(&self) -> u64
        ensures { result ≡ self.now.next - 1 }
    {
        self.next.saturating_sub(1)
    }

    #[inline(always)]
    fn take_later(&mut self, name: Name, value: Value) -> Result<(), AllocError>
        requires { HasRoom self.old }
        ensures { OnOk result (self.new
            ≡ record self.old {
              entry = self.old.entry + 1;
              entries = self.old.entries - 1;
              before = name;
              values = self.old.values ++ value ∷ [];
              named = self.old.named + 1;
            }) }
    {
        self.values.push(value)?;
        self.entry += 1;
        self.entries = self.entries.saturating_sub(1);
        self.before = name;
        self.named += 1;
        Ok(())
    }
}

impl<'a> JudgeState<'a> {
    /// Tests a whole group's text, and the end of its partition where it is the last.
    fn end_group<O: Outputs>(
        &mut self,
        request: &Request,
        outputs: &mut O,
        p: u64,
    ) -> Result<(), JudgeError>
        requires room { (self.old.group + 1 < 2 ^ 64) × (length self.old.values < 2 ^ 64) }
        requires here { p ≡ self.old.next - 1 }
        requires begun { O.begun outputs.old }
        requires some { CanCome (O.gives outputs.old) }
        requires place { O.place outputs.old ≡ self.old.from }
        ensures tested { Tested (O.gives outputs.old) (O.gives outputs.new) self.old self.new
            (λ outs. group_tests (row_subject request.now outs) p self.old 0)
            (λ outs. behind_group (row_subject request.now outs) self.old 0) result }
        ensures some { CanCome (O.gives outputs.new) }
        ensures place { OnOk result (O.place outputs.new ≡ self.new.from) }
        ensures begun { O.begun outputs.new }
        ensures halts { Halts O.steady (O.failed outputs.old) (O.failed outputs.new) result }
    {
        test_group(outputs, request, p, self.key, &self.values, &mut self.text)?;
        test_end(outputs, p, self.groups.saturating_sub(1))?;
        self.groups = self.groups.saturating_sub(1);
        self.group += 1;
        self.key_before = Some(self.key);
        self.from = outputs.place();
        Ok(())
    }

    /// Takes a group's first entry: its key is of this partition, and past the key of the group
    /// before.
    #[inline(never)]
    fn first_entry(
        &mut self,
        request: &Request,
        name: Name,
        key: &'a [u8],
        value: Value,
    ) -> Result<(), No>
        requires { HasRoom self.old }
        ensures { let fs = first_tests (rules_of request.now).part
            (self.old.next - 1) self.old.group self.old.key_before key.entry.now in
            MatchResult result (λ _. (fs ≡ []) × (self.new
            ≡ with_entry self.old (record { key = key.entry.now; value = value; name = name }) 0))
            (λ e. Answers fs e) }
    {
        let partition = self.partition();
        let group = self.group;
        if u64::from(partition_by(request.by(), key, request.parts())) != partition {
            return Err(No::WrongPartition {
                partition,
                group,
                entry: 0,
            });
        }
        if let Some(before) = self.key_before {
            if compare_keys(before, key).is_ge() {
                return Err(No::KeyOrder {
                    partition,
                    group,
                    entry: 0,
                });
            }
        }
        self.values.clear();
        self.values.push(value)?;
        self.entry = 1;
        self.entries = self.entries.saturating_sub(1);
        self.key = key;
        self.before = name;
        self.named += 1;
        Ok(())
    }

    /// Whether the next entry is neither the first nor the last one of its group.
    #[inline(always)]
    pub fn is_within_group(&self) -> bool
        ensures { IsTrue result → (1 ≤ self.now.entry) × (2 ≤ self.now.entries) }
    {
        self.entry > 0 && self.entries > 1
    }

    /// Takes an entry with the group's key that is neither the first nor the last one of its group.
    /// Returns whether its name is past the one before: nothing else is tested of it.
    #[inline(always)]
    pub fn take_within_group(&mut self, name: Name, value: Value) -> Result<bool, AllocError>
        requires room { HasRoom self.old }
        requires within { (1 ≤ self.old.entry) × (2 ≤ self.old.entries) }
        ensures { IfOk result (λ b. IsTrue b → (s : Judged)
            → (entry_tests s (self.old.next - 1) self.old name (Some
            (record { key = self.old.key; value = value; name = name })) ≡ [])
            × (self.new ≡ after_entry s self.old (Some
            (record { key = self.old.key; value = value; name = name })))) }
    {
        let is_past = is_name_less(self.before, name);
        if !is_past {
            return Ok(false);
        }
        self.take_later(name, value)?;
        Ok(true)
    }

    /// Takes an entry by its order. A later one's name is past the one before, and its key is the
    /// group's.
    #[inline(always)]
    #[tactic(auto, using(crate::proofs::Faults::order_zero, crate::proofs::Faults::with_zero, crate::proofs::Faults::order_suc, crate::proofs::Faults::with_suc))]
    fn order_entry(
        &mut self,
        request: &Request,
        name: Name,
        key: &'a [u8],
        value: Value,
    ) -> Result<(), No>
        requires { HasRoom self.old }
        ensures { let fs = order_tests (rules_of request.now).part
            (self.old.next - 1) self.old name key.entry.now self.old.entry in
            MatchResult result (λ _. (fs ≡ [])
            × (self.new ≡ with_entry self.old
            (record { key = key.entry.now; value = value; name = name }) self.old.entry))
            (λ e. Answers fs e) }
    {
        if self.entry == 0 {
            return self.first_entry(request, name, key, value);
        }
        let partition = self.partition();
        let group = self.group;
        let entry = self.entry;
        if !is_name_less(self.before, name) {
            return Err(No::EntryOrder {
                partition,
                group,
                entry,
            });
        }
        if key != self.key {
            return Err(No::KeyDiffers {
                partition,
                group,
                entry,
            });
        }
        self.take_later(name, value)?;
        Ok(())
    }

    /// Tests an entry, given its row.
    #[inline(always)]
    fn entry<O: Outputs>(
        &mut self,
        request: &Request,
        outputs: &mut O,
        name: Name,
        row: &FoundItem<'a>,
    ) -> Result<(), JudgeError>
        requires room { HasRoom self.old }
        requires begun { O.begun outputs.old }
        requires some { CanCome (O.gives outputs.old) }
        requires place { O.place outputs.old ≡ self.old.from }
        ensures tested { let t = brought name row.now in
            Tested (O.gives outputs.old) (O.gives outputs.new) self.old self.new
            (λ outs. entry_tests (row_subject request.now outs) (self.old.next - 1) self.old name t)
            (λ outs. after_entry (row_subject request.now outs) self.old t) result }
        ensures some { CanCome (O.gives outputs.new) }
        ensures place { OnOk result (O.place outputs.new ≡ self.new.from) }
        ensures begun { O.begun outputs.new }
        ensures halts { Halts O.steady (O.failed outputs.old) (O.failed outputs.new) result }
    {
        let partition = self.partition();
        let Some((key, value)) = row.found else {
            return Err(JudgeError::Fault(No::NoSuchPair {
                partition,
                group: self.group,
                entry: self.entry,
            }));
        };
        self.order_entry(request, name, key, value)?;
        if self.entries == 0 {
            return self.end_group(request, outputs, partition);
        }
        Ok(())
    }

    /// Begins the next partition, and opens its output.
    fn open_partition<O: Outputs>(&mut self, outputs: &mut O, groups: u64) -> Result<(), JudgeError>
        requires room { HasRoom self.old }
        requires some { CanCome (O.gives outputs.old) }
        ensures tested { Tested (O.gives outputs.old) (O.gives outputs.new) self.old self.new
            (λ outs. end_tests (nth_file outs self.old.next) self.old.next groups 0)
            (λ _. record self.old {
              next = self.old.next + 1;
              groups = groups;
              group = 0;
              key_before = None;
              from = 0;
            }) result }
        ensures some { CanCome (O.gives outputs.new) }
        ensures place { OnOk result (O.place outputs.new ≡ self.new.from) }
        ensures begun { O.begun outputs.new }
        ensures halts { Halts O.steady (O.failed outputs.old) (O.failed outputs.new) result }
    {
        outputs.open_next();
        test_end(outputs, self.next, groups)?;
        self.next += 1;
        self.groups = groups;
        self.group = 0;
        self.key_before = None;
        self.from = 0;
        Ok(())
    }

    /// Makes all tests of a row's item in their order, by the pair that the row brings. The end
    /// isn't tested: it is tested against the number of all pairs.
    #[inline(always)]
    pub fn step<O: Outputs>(
        &mut self,
        request: &Request,
        outputs: &mut O,
        row: &FoundItem<'a>,
    ) -> Result<(), JudgeError>
        requires room { HasRoom self.old }
        requires begun { (name : _) → row.now.item ≡ Entry name → O.begun outputs.old }
        requires some { CanCome (O.gives outputs.old) }
        requires place { O.place outputs.old ≡ self.old.from }
        ensures tested { Tested (O.gives outputs.old) (O.gives outputs.new) self.old self.new
            (λ outs. row_tests (row_subject request.now outs) self.old row.now)
            (λ outs. row_after (row_subject request.now outs) self.old row.now) result }
        ensures some { CanCome (O.gives outputs.new) }
        ensures place { OnOk result (O.place outputs.new ≡ self.new.from) }
        ensures begun { O.begun outputs.old → O.begun outputs.new }
        ensures opens { opens row.now.item ≡ true → O.begun outputs.new }
        ensures halts { Halts O.steady (O.failed outputs.old) (O.failed outputs.new) result }
    {
        match row.item {
            Item::Groups(groups) => self.open_partition(outputs, u64::from(groups)),
            Item::Entries(entries) => {
                self.entries = u64::from(entries);
                self.entry = 0;
                Ok(())
            }
            Item::Entry(name) => self.entry(request, outputs, name, row),
            _ => Ok(()),
        }
    }
}

fn is_name_less(before: Name, name: Name) -> bool
    ensures { result ≡ is_lt (name_order before name) }
{
    compare_names(before, name).is_lt()
}
