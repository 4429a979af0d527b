//! The splits of a job: the output of each, the records left out of it, and those that failed.
ghost use Rattle.std.specs.Prelude.{◌≡◌, ◌+◌, if◌then◌else◌, is_none, List, [], None, false, Some};
ghost use Rattle.std.specs.Prelude.{true, map, is_some, nat_lt, replicate, length, IfOk, OnOk};
ghost use Rattle.std.specs.Prelude.{OnErr, ℕ, ◌==◌, ◌<◌, ◌≤◌, ◌≢◌, slice_index, ◌∷◌, ◌++◌};
ghost use Rattle.std.specs.Prelude.{slice_get};
ghost use Rattle.std.specs.List.{list_all, sum_by, count_by, list_any, insert};
ghost use Rattle.mr_core.specs.Master.{update_at, gone_with, is_numbered, with_number};
ghost use Rattle.mr_core.specs.Master.{without_output, same_list};
ghost use Rattle.mr_core.specs.Index.{IsLonger};

use crate::entries::Split;
use std::alloc::{AllocError, Global};
use std::marker::Model;

/// The splits, and how many have no output: `is_whole` takes one look.
#[derive(Drop)]
pub(crate) struct Splits {
    items: Vec<Split>,
    missing: usize,
}

impl Model for Splits {
    ghost use Rattle.std.specs.Prelude.{◌≡◌, List, is_none};
    ghost use Rattle.std.specs.List.{count_by};
    ghost use Rattle.mr_core.specs.declared.entries.Split.{Split};

    ghost Value = { List Split };

    ghost view = { λ s. s.items.items };

    ghost invariant = { λ s. s.missing ≡ count_by (λ sp. is_none sp.output) s.items.items };
}

impl Splits {
    pub(crate) fn new(alloc: Global, count: u32) -> Result<Splits, AllocError>
        ensures { IfOk result
            (λ s. s ≡ replicate count (record { skips = []; fixed = false; output = None })) }
    {
        let mut items = Vec::new(alloc);
        for _i in 0..count {
            items.push(Split {
                skips: Skips::none(alloc),
                fixed: false,
                output: None,
            })?;
        }
        let missing = count_missing(items.as_slice());
        Ok(Splits { items, missing })
    }

    pub(crate) fn as_slice(&self) -> &[Split]
        ensures { result.now ≡ self.now }
    {
        self.items.as_slice()
    }

    /// Whether every split has an output.
    #[tactic(auto, using(crate::proofs::Missing::none_missing))]
    pub(crate) fn is_whole(&self) -> bool
        ensures { result ≡ list_all (λ sp. is_some sp.output) self.now }
    {
        self.missing == 0
    }

    /// Sets the split's output and worker. Its left-out records become `skips`, and are fixed.
    #[tactic(auto, using(crate::proofs::Missing::split_filled, crate::proofs::Updates::update_is_set, crate::proofs::Updates::update_past))]
    pub(crate) fn complete(&mut self, at: u32, skips: &mut Skips, output: u64, worker: u32)
        ensures { self.new ≡ update_at
            (λ sp. record {
              skips = skips.old;
              fixed = true;
              output = Some
                  (output, worker);
            }) at self.old }
    {
        let at = at as usize;
        if at >= self.items.len() {
            return;
        }
        let filled = fix(&mut self.items[at], skips, output, worker);
        self.missing -= filled;
    }

    /// Adds a record to those left out of the split, where `adds` says so.
    #[tactic(auto, using(crate::proofs::Updates::update_is_set, crate::proofs::Updates::update_past, crate::proofs::Updates::set_same, crate::proofs::Missing::count_set))]
    pub(crate) fn leave_out(&mut self, at: u32, number: u32, adds: bool) -> Result<(), AllocError>
        ensures noted { OnOk result (adds ≡ false → self.new ≡ self.old) }
        ensures added { OnOk result (adds ≡ true → self.new ≡ update_at
            (λ sp. record sp { skips = with_number number sp.skips }) at self.old) }
        ensures err { OnErr result (self.new ≡ self.old) }
    {
        let at = at as usize;
        if !adds || at >= self.items.len() {
            return Ok(());
        }
        self.items[at].skips.add(number)
    }

    /// Removes the outputs that a worker holds. It visits all splits.
    pub(crate) fn leave(&mut self, worker: u32)
        ensures { self.new ≡ map (gone_with worker) self.old }
    {
        leave_outputs(self.items.as_mut_slice(), worker);
        self.missing = count_missing(self.items.as_slice());
    }

    /// Removes the split's output, where it has this number.
    #[tactic(auto, using(crate::proofs::Missing::split_emptied, crate::proofs::Updates::update_is_set, crate::proofs::Updates::update_past))]
    pub(crate) fn damage(&mut self, at: u32, output: u64)
        ensures { self.new ≡ update_at (without_output output) at self.old }
    {
        let at = at as usize;
        if at >= self.items.len() {
            return;
        }
        let emptied = empty(&mut self.items[at], output);
        self.missing += emptied;
    }

    /// Whether fewer records than the limit are left out.
    pub(crate) fn has_room(&self, limit: u32) -> bool
        ensures { result ≡ nat_lt (sum_by (λ sp. length sp.skips) self.now) limit }
    {
        let mut room = limit as usize;
        let splits = self.as_slice();
        for split in splits {
            let count = split.skips.as_slice().len();
            if count >= room {
                return false;
            }
            room -= count;
        }
        room > 0
    }
}

/// Removes the outputs that a worker holds.
#[tactic(auto, using(crate::proofs::Updates::map_one_more, crate::proofs::Updates::map_none_yet, crate::proofs::Updates::map_all))]
fn leave_outputs(splits: &mut [Split], worker: u32)
    ensures { splits.new ≡ map (gone_with worker) splits.old }
{
    for i in 0..splits.len() {
        leave_output(&mut splits[i], worker);
    }
}

fn leave_output(split: &mut Split, worker: u32)
    ensures { split.new ≡ gone_with worker split.old }
{
    if matches!(split.output, Some((_, holder)) if holder == worker) {
        split.output = None;
    }
}

/// The number of splits without output.
fn count_missing(splits: &[Split]) -> usize
    ensures { result ≡ count_by (λ sp. is_none sp.output) splits.now }
{
    splits.iter().filter(|split| split.output.is_none()).count()
}

/// Completes the split. Returns 1 where it had no output.
fn fix(split: &mut Split, skips: &mut Skips, output: u64, worker: u32) -> usize
    ensures split { split.new ≡ record { skips = skips.old; fixed = true; output = Some (output, worker) } }
    ensures count { result ≡ (if is_none split.old.output then 1 else 0) }
{
    let filled = if split.output.is_none() { 1 } else { 0 };
    std::mem::swap(skips, &mut split.skips);
    split.fixed = true;
    split.output = Some((output, worker));
    filled
}

/// Removes the output, where it has this number. Returns how many it removed.
fn empty(split: &mut Split, output: u64) -> usize
    ensures split { split.new ≡ without_output output split.old }
    ensures count { result ≡ (if is_numbered output split.old.output then 1 else 0) }
{
    if !matches!(split.output, Some((own, _)) if own == output) {
        return 0;
    }
    split.output = None;
    1
}

/// Numbers of records, rising. Contracts see the list.
#[derive(Debug, Drop)]
pub struct Skips {
    items: Vec<u32>,
}

impl Model for Skips {
    ghost use Rattle.std.specs.Prelude.{List, ℕ};

    ghost Value = { List ℕ };

    ghost view = { λ s. s.items.items };
}

impl Skips {
    pub(crate) fn none(alloc: Global) -> Skips
        ensures { result ≡ [] }
    {
        Skips {
            items: Vec::new(alloc),
        }
    }

    pub(crate) fn copy_of(alloc: Global, items: &[u32]) -> Result<Skips, AllocError>
        ensures { IfOk result (λ s. s ≡ items.now) }
    {
        Ok(Skips {
            items: Vec::from_slice(alloc, items)?,
        })
    }

    pub fn as_slice(&self) -> &[u32]
        ensures { result.now ≡ self.now }
    {
        self.items.as_slice()
    }

    pub(crate) fn has(&self, number: u32) -> bool
        ensures { result ≡ list_any (λ x. x == number) self.now }
    {
        self.items.as_slice().contains(&number)
    }

    pub(crate) fn is_same(&self, other: &Skips) -> bool
        ensures { result ≡ same_list self.now other.now }
    {
        self.items.as_slice() == other.items.as_slice()
    }

    /// Adds the number at its place, unless it is there.
    pub(crate) fn add(&mut self, number: u32) -> Result<(), AllocError>
        ensures ok { OnOk result (self.new ≡ with_number number self.old) }
        ensures err { OnErr result (self.new ≡ self.old) }
    {
        let at = place_of(self.items.as_slice(), number);
        if at < self.items.len() && self.items[at] == number {
            return Ok(());
        }
        self.items.insert(at, number)?;
        Ok(())
    }
}

/// The place of the first number that isn't below `number`.
#[tactic(auto, using(crate::proofs::Inserts::place_there, crate::proofs::Inserts::place_new))]
fn place_of(items: &[u32], number: u32) -> usize
    ensures bound { result ≤ length items.now }
    ensures there { result < length items.now → slice_index items.now result ≡ number
        → with_number number items.now ≡ items.now }
    ensures new { (result < length items.now → slice_index items.now result ≢ number)
        → with_number number items.now ≡ insert items.now result number }
{
    for (at, item) in items.iter().enumerate() {
        if *item >= number {
            return at;
        }
    }
    items.len()
}

/// Numbers of failed records, in order of failure: at most one for each attempt of the split.
#[derive(Drop)]
pub(crate) struct Failed {
    records: Vec<u32>,
}

impl Model for Failed {
    ghost use Rattle.std.specs.Prelude.{List, ℕ};

    ghost Value = { List ℕ };

    ghost view = { λ f. f.records.items };
}

impl Failed {
    fn none(alloc: Global) -> Failed
        ensures { result ≡ [] }
    {
        Failed {
            records: Vec::new(alloc),
        }
    }

    pub(crate) fn has(&self, number: u32) -> bool
        ensures { result ≡ list_any (λ x. x == number) self.now }
    {
        self.records.as_slice().contains(&number)
    }

    /// A copy with one record more.
    pub(crate) fn with(&self, number: u32) -> Result<Failed, AllocError>
        ensures { IfOk result (λ f. f ≡ self.now ++ number ∷ []) }
    {
        let mut records = self.records.clone()?;
        records.push(number)?;
        Ok(Failed { records })
    }
}

pub(crate) fn none_failed(alloc: Global, count: u32) -> Result<Vec<Failed>, AllocError>
    ensures { IfOk result (λ v. v.items ≡ replicate count []) }
{
    let mut lists = Vec::new(alloc);
    for _i in 0..count {
        lists.push(Failed::none(alloc))?;
    }
    Ok(lists)
}

/// A copy of the list at `at` with one record more, where there is such a list.
pub(crate) fn longer_list(
    lists: &[Failed],
    at: u32,
    number: u32,
) -> Result<Option<Failed>, AllocError>
    ensures { IfOk result (λ longer. IsLonger longer (slice_get lists.now at) number) }
{
    match lists.get(at as usize) {
        Some(list) => Ok(Some(list.with(number)?)),
        None => Ok(None),
    }
}

#[tactic(auto, using(crate::proofs::Updates::longer_set, crate::proofs::Updates::longer_none, crate::proofs::Updates::longer_past))]
pub(crate) fn put_longer(lists: &mut [Failed], at: u32, number: u32, longer: Option<Failed>)
    requires { IsLonger longer (slice_get lists.old at) number }
    ensures { lists.new ≡ update_at (λ f. f ++ number ∷ []) at lists.old }
{
    let Some(longer) = longer else {
        return;
    };
    let at = at as usize;
    if at >= lists.len() {
        return;
    }
    lists[at] = longer;
}
