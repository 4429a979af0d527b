//! The entries of a master's lists: splits, attempts, and committed outputs.
//!
//! A reduce attempt has an entry for each split: the output that it fetched there last. A map
//! attempt has none. A map attempt holds its left-out records twice: one list stays with the
//! attempt, and the split takes over the other when it accepts the output, so acceptance allocates
//! nothing. `Outputs` counts what is missing, so whether all partitions are committed is one look.
ghost use Rattle.std.specs.Prelude.{◌≡◌, ℕ, true, false, Option, Some, None, List};
ghost use Rattle.std.specs.Prelude.{◌==◌, map, is_some, is_none, slice_get};
ghost use Rattle.std.specs.Prelude.{IfOk, replicate};
ghost use Rattle.std.specs.List.{list_all, count_by};
ghost use Rattle.mr_core.specs.Master.{Attempt, update_at, latest_in};

use crate::event::Task;
use crate::splits::{Skips, Splits};
use std::alloc::{AllocError, Global};
use std::marker::Model;

/// A split: its left-out records, whether they are fixed, and its output's number and worker.
#[derive(Drop)]
pub(crate) struct Split {
    pub skips: Skips,
    pub fixed: bool,
    pub output: Option<(u64, u32)>,
}

/// An execution of a task. Its split can take over `spare` without allocating.
#[derive(Drop)]
pub(crate) struct Attempt {
    worker: u32,
    task: Task,
    skips: Skips,
    spare: Skips,
    fetched: Vec<Option<u64>>,
    live: bool,
}

impl Model for Attempt {
    ghost use Rattle.std.specs.Prelude.{◌≡◌, true};
    ghost use Rattle.mr_core.specs.Master.{Attempt};

    ghost Value = { Attempt };

    ghost view = { λ a. record { worker = a.worker; task = a.task; skips = a.skips; fetched = a.fetched.items; live = a.live } };

    ghost invariant = { λ a. a.live ≡ true → a.spare ≡ a.skips };
}

impl Attempt {
    /// A live attempt that has fetched from none of `splits` splits. For 0 it allocates no entry.
    pub(crate) fn new(
        alloc: Global,
        worker: u32,
        task: Task,
        skips: &[u32],
        splits: u32,
    ) -> Result<Attempt, AllocError>
        ensures { IfOk result (λ a. a ≡ record { worker = worker; task = task; skips = skips.now; fetched = replicate splits None; live = true }) }
    {
        Ok(Attempt {
            worker,
            task,
            skips: Skips::copy_of(alloc, skips)?,
            spare: Skips::copy_of(alloc, skips)?,
            fetched: copies(alloc, None, splits)?,
            live: true,
        })
    }

    pub(crate) fn worker(&self) -> u32
        ensures { result ≡ self.now.worker }
    {
        self.worker
    }

    pub(crate) fn task(&self) -> Task
        ensures { result ≡ self.now.task }
    {
        self.task
    }

    pub(crate) fn is_live(&self) -> bool
        ensures { result ≡ self.now.live }
    {
        self.live
    }

    pub(crate) fn skips(&self) -> &Skips
        ensures { result.now ≡ self.now.skips }
    {
        &self.skips
    }

    /// Whether the attempt has fetched from every split.
    pub(crate) fn has_all(&self) -> bool
        ensures { result ≡ list_all is_some self.now.fetched }
    {
        self.fetched.iter().all(|x| x.is_some())
    }

    /// The output of the latest fetch from the split.
    pub(crate) fn latest(&self, map: u32) -> Option<u64>
        ensures { result ≡ latest_in (slice_get self.now.fetched map) }
    {
        match self.fetched.as_slice().get(map as usize) {
            Some(output) => *output,
            None => None,
        }
    }

    pub(crate) fn end(&mut self)
        ensures { self.new ≡ record self.old { live = false } }
    {
        self.live = false;
    }

    /// Ends the attempt. The split gets the output, and the attempt's left-out records for good.
    pub(crate) fn give(&mut self, splits: &mut Splits, split: u32, output: u64)
        requires { self.old.live ≡ true }
        ensures ended { self.new ≡ record self.old { live = false } }
        ensures splits { splits.new ≡ update_at
            (λ sp. record {
              skips = self.old.skips;
              fixed = true;
              output = Some
                  (output, self.old.worker);
            }) split splits.old }
    {
        splits.complete(split, &mut self.spare, output, self.worker);
        self.live = false;
    }

    pub(crate) fn note_fetch(&mut self, map: u32, output: u64)
        ensures { self.new ≡ record self.old { fetched = update_at (λ x. Some output) map self.old.fetched } }
    {
        put(self.fetched.as_mut_slice(), map, Some(output));
    }
}

/// Sets the item at `at`, where there is one.
#[tactic(auto, using(crate::proofs::Updates::set_is_update, crate::proofs::Updates::update_past))]
pub(crate) fn put<T: Copy>(items: &mut [T], at: u32, value: T)
    ensures { items.new ≡ update_at (λ x. value) at items.old }
{
    let at = at as usize;
    if at < items.len() {
        items[at] = value;
    }
}

pub(crate) fn all_true(items: &[bool]) -> bool
    ensures { result ≡ list_all (λ x. x) items.now }
{
    items.iter().all(|x| *x)
}

pub(crate) fn copies<T: Copy>(alloc: Global, value: T, count: u32) -> Result<Vec<T>, AllocError>
    ensures { IfOk result (λ v. v.items ≡ replicate count value) }
{
    let mut items = Vec::new(alloc);
    for _i in 0..count {
        items.push(value)?;
    }
    Ok(items)
}

/// Each partition's committed output, and how many have none: `is_whole` takes one look.
#[derive(Drop)]
pub(crate) struct Outputs {
    items: Vec<Option<u64>>,
    missing: u32,
}

impl Model for Outputs {
    ghost use Rattle.std.specs.Prelude.{◌≡◌, List, ℕ, Option, is_none};
    ghost use Rattle.std.specs.List.{count_by};

    ghost Value = { List (Option ℕ) };

    ghost view = { λ o. o.items.items };

    ghost invariant = { λ o. o.missing ≡ count_by is_none o.items.items };
}

impl Outputs {
    #[tactic(auto, using(crate::proofs::Missing::none_yet))]
    pub(crate) fn new(alloc: Global, count: u32) -> Result<Outputs, AllocError>
        ensures { IfOk result (λ o. o ≡ replicate count None) }
    {
        Ok(Outputs {
            items: copies(alloc, None, count)?,
            missing: count,
        })
    }

    pub(crate) fn as_slice(&self) -> &[Option<u64>]
        ensures { result.now ≡ self.now }
    {
        self.items.as_slice()
    }

    /// Whether every partition has an output.
    #[tactic(auto, using(crate::proofs::Missing::no_output_missing))]
    pub(crate) fn is_whole(&self) -> bool
        ensures { result ≡ list_all is_some self.now }
    {
        self.missing == 0
    }

    /// Commits the partition's output, where there is such a partition.
    #[tactic(auto, using(crate::proofs::Updates::set_is_update, crate::proofs::Updates::update_past))]
    pub(crate) fn commit(&mut self, at: u32, output: u64)
        ensures { self.new ≡ update_at (λ x. Some output) at self.old }
    {
        let at = at as usize;
        if at >= self.items.len() {
            return;
        }
        if self.items[at].is_none() {
            self.missing -= 1;
        }
        self.items[at] = Some(output);
    }
}
