//! The records of a plan that are kept: all but those that a list leaves out. The left-out records
//! are a flag per record of the input, or nothing if all are kept.
ghost use Rattle.std.specs.Prelude.{◌≡◌, ◌≢◌, ℕ, ◌+◌, ◌-◌, ◌≤◌, ◌<◌, ◌^◌, [], ◌∷◌, None, IfOk};
ghost use Rattle.std.specs.Prelude.{IfNone, IfSome, IsOk, MatchOption, length, ◌||◌, Bool, false};
ghost use Rattle.std.specs.Prelude.{slice_index_or};
ghost use Rattle.mr_input.specs.Files.{split_total};
ghost use Rattle.mr_splits.specs.Named.{is_left_out, of_split};
ghost use Rattle.mr_splits.specs.Cut.{records_of, nth_named, has_record_name, left_out_flags};
ghost use Rattle.mr_splits.specs.Kept.{first_fault, kept_between, kept_from};
ghost use Rattle.mr_splits.specs.Kept.{kept_records, list_fault, name_fault};

use crate::plan::{Plan, RecordAt};
use mr_bytes::{RecordName, compare_records};
use std::alloc::{AllocError, Global};
use std::cmp::Ordering;
use std::marker::Model;

/// Why a list of left-out records is not valid: there are too many, a name is not after the one
/// before it, or there is no record of that name. Finding a fault takes no memory.
#[derive(Clone, Copy, Debug, PartialEq, Eq, Drop)]
pub enum SkipFault {
    TooMany,
    Order,
    NoSuchRecord,
}

/// A plan without some records, given by name.
#[derive(Drop)]
pub struct KeptPlan<'a> {
    plan: &'a Plan<'a>,
    skips: &'a [RecordName],
    left_out: LeftOutSet,
}

impl<'a> Model for KeptPlan<'a> {
    ghost use Rattle.std.specs.Prelude.{◌≡◌};
    ghost use Rattle.mr_splits.specs.Cut.{left_out_flags, records_of};
    ghost use Rattle.mr_splits.specs.Kept.{Choice};

    ghost Value = { Choice };

    ghost view = { λ k. record { cut = k.plan.now; skips = k.skips.now } };

    ghost invariant = { λ k. k.left_out ≡ left_out_flags k.skips.now (records_of k.plan.now) };
}

/// The kept records of consecutive splits, one after another.
#[derive(Drop)]
pub struct KeptRecords<'a> {
    kept: &'a KeptPlan<'a>,
    next: RecordName,
    end: u32,
}

impl<'a> Model for KeptRecords<'a> {
    ghost use Rattle.std.specs.Prelude.{List, length, ◌≤◌};
    ghost use Rattle.mr_input.specs.Files.{split_total};
    ghost use Rattle.mr_splits.specs.Named.{NamedRecord, of_split};
    ghost use Rattle.mr_splits.specs.Cut.{records_of};
    ghost use Rattle.mr_splits.specs.Kept.{kept_from};

    ghost Value = { List NamedRecord };

    ghost view = { λ w. kept_from w.kept.now w.next.split w.next.rec w.end };

    ghost invariant = { λ w. record {
      order : w.next.split ≤ w.end;
      within : w.end ≤ split_total w.kept.now.cut.size w.kept.now.cut.files;
      here : w.next.rec ≤ length (of_split w.next.split (records_of w.kept.now.cut));
    } };
}

impl<'a> Plan<'a> {
    /// This plan without the records that a list names. Names may be in any order, repeat, and need
    /// not be those of records. Fails only for want of memory, and takes none for an empty list.
    pub fn without<'k>(
        &'k self,
        alloc: Global,
        skips: &'k [RecordName],
    ) -> Result<KeptPlan<'k>, AllocError>
        ensures ok { IfOk result (λ k. k ≡ record { cut = self.entry.now; skips = skips.entry.now }) }
        ensures none { skips.entry.now ≡ [] → IsOk result }
    {
        let left_out = self.left_out(alloc, skips)?;
        Ok(KeptPlan {
            plan: self,
            skips,
            left_out,
        })
    }

    /// The fault of `name` after `before` in a list: first its order, then whether it exists.
    pub fn name_fault(&self, before: Option<RecordName>, name: RecordName) -> Option<SkipFault>
        ensures first { result ≡ name_fault (records_of self.now) before name }
        ensures other { IfSome result (λ e. e ≢ SkipFault.TooMany) }
    {
        if let Some(before) = before {
            if compare_records(before, name) != Ordering::Less {
                return Some(SkipFault::Order);
            }
        }
        if !self.has_record(name) {
            return Some(SkipFault::NoSuchRecord);
        }
        None
    }

    /// The first fault of a list of at most `most` names: tests their number, then each in turn.
    pub fn list_fault(&self, most: u32, skips: &[RecordName]) -> Option<SkipFault>
        ensures { result ≡ list_fault (records_of self.now) most skips.now }
    {
        if (most as usize) < skips.len() {
            return Some(SkipFault::TooMany);
        }
        self.first_fault(skips)
    }

    /// The first fault of a list of any length, so never `TooMany`.
    pub fn first_fault(&self, skips: &[RecordName]) -> Option<SkipFault>
        ensures first { result ≡ first_fault (records_of self.now) None skips.now }
        ensures other { IfSome result (λ e. e ≢ SkipFault.TooMany) }
    {
        let mut before = None;
        for name in skips {
            if let Some(fault) = self.name_fault(before, *name) {
                return Some(fault);
            }
            before = Some(*name);
        }
        None
    }
}

impl<'a> KeptPlan<'a> {
    pub fn plan(&self) -> &'a Plan<'a>
        ensures { result.now ≡ self.now.cut }
    {
        self.plan
    }

    /// The records that are left out, by their numbers over all splits.
    pub fn left_out(&self) -> &LeftOutSet
        ensures { result.now ≡ left_out_flags self.now.skips (records_of self.now.cut) }
    {
        &self.left_out
    }

    fn leaves_out(&self, name: RecordName) -> bool
        requires split { name.split < split_total self.now.cut.size self.now.cut.files }
        requires record { name.rec < length (of_split name.split (records_of self.now.cut)) }
        ensures { result ≡ is_left_out self.now.skips
            (nth_named (of_split name.split (records_of self.now.cut)) name.rec).name }
    {
        self.left_out
            .has(self.plan.record_index(name.split, name.rec))
    }

    fn records_in(&self, s: u32) -> u32
        requires { s < split_total self.now.cut.size self.now.cut.files }
        ensures { result ≡ length (of_split s (records_of self.now.cut)) }
    {
        self.plan.records_in(s)
    }

    fn locate(&self, name: RecordName) -> RecordAt<'a>
        requires split { name.split < split_total self.now.cut.size self.now.cut.files }
        requires record { name.rec < length (of_split name.split (records_of self.now.cut)) }
        ensures record { nth_named (of_split name.split (records_of self.now.cut)) name.rec
            ≡ record { name = name; file = result.file; start = result.start; bytes = result.bytes.now } }
        ensures small { length result.bytes.now ≤ 2 ^ 30 }
    {
        self.plan.locate(name.split, name.rec)
    }

    /// The first kept record at or after `from`, in the splits before `end`.
    fn first_from(&self, from: RecordName, end: u32) -> Option<RecordName>
        requires order { from.split ≤ end }
        requires within { end ≤ split_total self.now.cut.size self.now.cut.files }
        requires here { from.rec ≤ length (of_split from.split (records_of self.now.cut)) }
        ensures first { MatchOption result (kept_from self.now from.split from.rec end ≡ [])
            (λ n. kept_from self.now from.split from.rec end
            ≡ nth_named (of_split n.split (records_of self.now.cut)) n.rec
            ∷ kept_from self.now n.split (n.rec + 1) end) }
        ensures place { IfSome result
            (λ n. (n.split < end) × (n.rec < length (of_split n.split (records_of self.now.cut)))) }
        ensures small { IfSome result (λ n. n.rec + 1 < 2 ^ 32) }
    {
        let mut split = from.split;
        let mut rec = from.rec;
        while split < end {
            if rec == self.records_in(split) {
                split += 1;
                rec = 0;
            } else {
                let name = RecordName { split, rec };
                if !self.leaves_out(name) {
                    return Some(name);
                }
                rec += 1;
            }
        }
        None
    }

    /// The kept records of the splits from `first` to before `end`.
    pub fn between(&self, first: u32, end: u32) -> KeptRecords<'_>
        requires order { first ≤ end }
        requires within { end ≤ split_total self.now.cut.size self.now.cut.files }
        ensures { result ≡ kept_between self.entry.now first end }
    {
        KeptRecords {
            kept: self,
            next: RecordName {
                split: first,
                rec: 0,
            },
            end,
        }
    }

    pub fn of_split(&self, s: u32) -> KeptRecords<'_>
        requires { s < split_total self.now.cut.size self.now.cut.files }
        ensures { result ≡ kept_records self.entry.now.skips (of_split s (records_of self.entry.now.cut)) }
    {
        // A plan has far fewer splits than a `u32` can count.
        let _few = self.plan.splits();
        self.between(s, s + 1)
    }

    pub fn records(&self) -> KeptRecords<'_>
        ensures { result ≡ kept_records self.entry.now.skips (records_of self.entry.now.cut) }
    {
        // The size is at least 1, so the splits have all records.
        let _size = self.plan.size();
        self.between(0, self.plan.splits())
    }
}

impl<'a> KeptRecords<'a> {
    /// The next record with its name, or `None` once none is left. Takes no memory.
    pub fn next(&mut self) -> Option<(RecordName, RecordAt<'a>)>
        ensures next { MatchOption result (self.old ≡ [])
            (λ r. self.old
            ≡ record { name = r.0; file = r.1.file; start = r.1.start; bytes = r.1.bytes.now }
            ∷ self.new) }
        ensures ended { IfNone result (self.new ≡ []) }
        ensures small { IfSome result (λ r. length r.1.bytes.now ≤ 2 ^ 30) }
    {
        let kept = self.kept;
        let name = kept.first_from(self.next, self.end)?;
        self.next = RecordName {
            split: name.split,
            rec: name.rec + 1,
        };
        Some((name, kept.locate(name)))
    }
}

#[derive(Drop)]
pub struct LeftOutSet {
    count: usize,
    flags: Vec<bool>,
}

impl Model for LeftOutSet {
    ghost use Rattle.std.specs.Prelude.{◌≡◌, ◌≤◌, ◌^◌, Bool, List, length, [], ◌⊎◌};
    ghost use Rattle.mr_splits.specs.Cut.{flags_of};

    ghost Value = { List Bool };

    ghost view = { λ l. flags_of l.count l.flags.items };

    ghost invariant = { λ l. record {
      few : l.count ≤ 2 ^ 30;
      all : (l.flags.items ≡ []) ⊎ (length l.flags.items ≡ l.count);
    } };
}

impl LeftOutSet {
    pub fn has(&self, number: usize) -> bool
        requires { number < length self.now }
        ensures { result ≡ slice_index_or self.now number false }
    {
        !self.flags.is_empty() && self.flags[number]
    }
}

impl<'a> Plan<'a> {
    /// The records that `skips` leaves out, as for `without`. An empty list takes no memory.
    pub fn left_out(&self, alloc: Global, skips: &[RecordName]) -> Result<LeftOutSet, AllocError>
        ensures ok { IfOk result (λ l. l ≡ left_out_flags skips.now (records_of self.now)) }
        ensures none { skips.now ≡ [] → IsOk result }
    {
        let count = self.count();
        if skips.is_empty() {
            return Ok(LeftOutSet {
                count,
                flags: Vec::new(alloc),
            });
        }
        let mut flags = vec![in alloc; false; count]?;
        self.mark(skips, flags.as_mut_slice());
        Ok(LeftOutSet { count, flags })
    }

    fn mark(&self, skips: &[RecordName], flags: &mut [bool])
        requires count { length flags.old ≡ length (records_of self.now) }
        requires none { (i : ℕ) → slice_index_or flags.old i false ≡ false }
        ensures { flags.new ≡ left_out_flags skips.now (records_of self.now) }
    {
        for name in skips {
            self.mark_one(*name, flags);
        }
    }

    fn mark_one(&self, name: RecordName, flags: &mut [bool])
        requires { length flags.old ≡ length (records_of self.now) }
        ensures { (i : ℕ) → i < length (records_of self.now)
            → slice_index_or flags.new i false
            ≡ (slice_index_or flags.old i false || has_record_name name
            (nth_named (records_of self.now) i)) }
    {
        if self.has_record(name) {
            flags[self.record_index(name.split, name.rec)] = true;
        }
    }
}
