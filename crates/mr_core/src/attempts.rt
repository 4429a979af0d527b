//! The attempts of a job, with two indices.
//!
//!     items      [ a0 a1 a2 a3 ]           all attempts in the order of issue, live or ended
//!     counts     task    ->  how many were issued, and how many of these are live
//!     current    worker  ->  its live attempt; it has at most one
//!
//! Invariant: the indices are what a search of `items` would find (`IsIndexed`).
//! Cost: each question and each change takes one step, whatever the number of attempts.
ghost use Rattle.std.specs.Prelude.{◌≡◌, ℕ, ◌<◌, ◌^◌, true, false, Some, [], ◌∷◌, ◌++◌, ◌&&◌, ◌==◌};
ghost use Rattle.std.specs.Prelude.{map, length, slice_get, MatchOption, OnOk, OnErr, IfOk, ◌+◌};
ghost use Rattle.std.specs.Prelude.{◌≤◌, replicate, Option, None};
ghost use Rattle.std.specs.List.{list_any};
ghost use Rattle.mr_core.specs.declared.event.Task.{Task};
ghost use Rattle.mr_core.specs.Master.{Attempt, update_at, left_by};
ghost use Rattle.mr_core.specs.Index.{counted, IsCurrent, IsBelow, count_of, change_count, begun};
ghost use Rattle.mr_core.specs.Index.{ended, no_count, or_none, entry};

use crate::entries::{Attempt, copies, put};
use crate::event::Task;
use crate::splits::Splits;
use std::alloc::{AllocError, Global};
use std::marker::Model;

/// All attempts, in the order of their issue.
#[derive(Drop)]
pub(crate) struct Attempts {
    items: Vec<Attempt>,
    counts: Counts,
    /// The number of each worker's live attempt.
    current: Vec<Option<u32>>,
}

impl Model for Attempts {
    ghost use Rattle.std.specs.Prelude.{length};
    ghost use Rattle.mr_core.specs.Index.{Issued, IsIndexed};

    ghost Value = { Issued };

    ghost view = { λ a. record { items = a.items.items; maps = length a.counts.maps; parts = length a.counts.parts; workers = length a.current.items } };

    ghost invariant = { λ a. IsIndexed a.items.items a.counts a.current.items };
}

impl Attempts {
    pub(crate) fn new(
        alloc: Global,
        maps: u32,
        parts: u32,
        workers: u32,
    ) -> Result<Attempts, AllocError>
        ensures { IfOk result
            (λ a. a ≡ record { items = []; maps = maps; parts = parts; workers = workers }) }
    {
        Ok(Attempts {
            items: Vec::new(alloc),
            counts: Counts::new(alloc, maps, parts)?,
            current: copies(alloc, None, workers)?,
        })
    }

    pub(crate) fn as_slice(&self) -> &[Attempt]
        ensures { result.now ≡ self.now.items }
    {
        self.items.as_slice()
    }

    pub(crate) fn count(&self, task: Task) -> Count
        ensures { result ≡ counted self.now.items task }
    {
        self.counts.of(task)
    }

    pub(crate) fn current(&self, worker: usize) -> Option<u32>
        ensures current { MatchOption result
            (list_any (λ a. (a.worker == worker) && a.live) self.now.items ≡ false)
            (λ a. IsCurrent self.now.items worker a) }
        ensures only { (a : ℕ) (x : Attempt) → slice_get self.now.items a ≡ Some x
            → x.live ≡ true → x.worker ≡ worker → result ≡ Some a }
        ensures left { MatchOption result (map (left_by worker) self.now.items ≡ self.now.items)
            (λ a. map (left_by worker) self.now.items ≡ update_at
            (λ t. record t { live = false }) a self.now.items) }
    {
        entry_at(self.current.as_slice(), worker)
    }

    pub(crate) fn workers(&self) -> usize
        ensures count { result ≡ self.now.workers }
        ensures all { (a : ℕ) (x : Attempt) → slice_get self.now.items a ≡ Some x
            → x.live ≡ true → x.worker < self.now.workers }
    {
        self.current.len()
    }

    pub(crate) fn end(&mut self, at: u32)
        requires { (x : Attempt) × (slice_get self.old.items at ≡ Some x) × (x.live ≡ true) }
        ensures ended { self.new ≡ record self.old {
          items = update_at
              (λ t. record t { live = false }) at self.old.items;
        } }
        ensures below { (x : Attempt) → slice_get self.old.items at ≡ Some x
            → IsBelow self.old.maps self.old.parts x.task }
    {
        let attempt = &mut self.items[at as usize];
        let task = attempt.task();
        let worker = attempt.worker();
        attempt.end();
        self.counts.end(task);
        put(self.current.as_mut_slice(), worker, None);
    }

    /// Records that the attempt, if there is one, fetched this output of split `map`.
    pub(crate) fn note_fetch(&mut self, at: u32, map: u32, output: u64)
        ensures { self.new
            ≡ record self.old {
              items = update_at (λ t. record t {
                fetched = update_at
                    (λ x. Some output) map t.fetched;
              }) at self.old.items;
            } }
    {
        let at = at as usize;
        if at >= self.items.len() {
            return;
        }
        self.items[at].note_fetch(map, output);
    }

    /// Ends the live attempt. The split gets its output, and its left-out records for good.
    pub(crate) fn complete(&mut self, at: u32, splits: &mut Splits, split: u32, output: u64)
        requires { (x : Attempt) × (slice_get self.old.items at ≡ Some x) × (x.live ≡ true) }
        ensures ended { self.new ≡ record self.old {
          items = update_at
              (λ t. record t { live = false }) at self.old.items;
        } }
        ensures below { (x : Attempt) → slice_get self.old.items at ≡ Some x
            → IsBelow self.old.maps self.old.parts x.task }
        ensures splits { (x : Attempt) → slice_get self.old.items at ≡ Some x
            → splits.new ≡ update_at
            (λ sp. record { skips = x.skips; fixed = true; output = Some (output, x.worker) }) split splits.old }
    {
        let attempt = &mut self.items[at as usize];
        let task = attempt.task();
        let worker = attempt.worker();
        attempt.give(splits, split, output);
        self.counts.end(task);
        put(self.current.as_mut_slice(), worker, None);
    }

    /// Ends the worker's live attempt, where it has one.
    pub(crate) fn lose(&mut self, worker: u32)
        ensures { self.new ≡ record self.old { items = map (left_by worker) self.old.items } }
    {
        if let Some(attempt) = self.current(worker as usize) {
            self.end(attempt);
        }
    }

    /// Adds a live attempt.
    pub(crate) fn push(&mut self, attempt: Attempt) -> Result<(), AllocError>
        requires few { length self.old.items < 2 ^ 31 }
        requires live { attempt.live ≡ true }
        requires free { list_any (λ a. (a.worker == attempt.worker) && a.live) self.old.items ≡ false }
        requires worker { attempt.worker < self.old.workers }
        requires task { IsBelow self.old.maps self.old.parts attempt.task }
        ensures ok { OnOk result (self.new ≡ record self.old { items = self.old.items ++ attempt ∷ [] }) }
        ensures err { OnErr result (self.new ≡ self.old) }
    {
        let number = self.items.len() as u32;
        let task = attempt.task();
        let worker = attempt.worker();
        self.items.push(attempt)?;
        self.counts.begin(task);
        put(self.current.as_mut_slice(), worker, Some(number));
        Ok(())
    }
}

/// How many attempts of a task were issued, and how many of them are live.
#[derive(Clone, Copy, Debug, PartialEq, Eq)]
pub(crate) struct Count {
    pub issued: u32,
    pub live: u32,
}

/// A count for each task.
#[derive(Drop)]
pub(crate) struct Counts {
    maps: Vec<Count>,
    parts: Vec<Count>,
}

impl Model for Counts {
    ghost use Rattle.mr_core.specs.Index.{CountsView};

    ghost Value = { CountsView };

    ghost view = { λ c. record { maps = c.maps.items; parts = c.parts.items } };
}

impl Counts {
    pub(crate) fn new(alloc: Global, maps: u32, parts: u32) -> Result<Counts, AllocError>
        ensures { IfOk result
            (λ c. c ≡ record { maps = replicate maps no_count; parts = replicate parts no_count }) }
    {
        let none = Count { issued: 0, live: 0 };
        Ok(Counts {
            maps: copies(alloc, none, maps)?,
            parts: copies(alloc, none, parts)?,
        })
    }

    /// The task's count; zero where there is no such task.
    pub(crate) fn of(&self, task: Task) -> Count
        ensures { result ≡ count_of self.now task }
    {
        match task {
            Task::Map(split) => count_at(self.maps.as_slice(), split),
            Task::Reduce(partition) => count_at(self.parts.as_slice(), partition),
        }
    }

    pub(crate) fn begin(&mut self, task: Task)
        requires issued { (count_of self.old task).issued + 1 < 2 ^ 32 }
        requires live { (count_of self.old task).live + 1 < 2 ^ 32 }
        ensures { self.new ≡ change_count begun task self.old }
    {
        let count = self.of(task);
        let raised = Count {
            issued: count.issued + 1,
            live: count.live + 1,
        };
        self.set(task, raised);
    }

    pub(crate) fn end(&mut self, task: Task)
        requires { 1 ≤ (count_of self.old task).live }
        ensures { self.new ≡ change_count ended task self.old }
    {
        let count = self.of(task);
        let lowered = Count {
            issued: count.issued,
            live: count.live - 1,
        };
        self.set(task, lowered);
    }

    fn set(&mut self, task: Task, count: Count)
        ensures { self.new ≡ change_count (λ c. count) task self.old }
    {
        match task {
            Task::Map(split) => put(self.maps.as_mut_slice(), split, count),
            Task::Reduce(partition) => put(self.parts.as_mut_slice(), partition, count),
        }
    }
}

fn count_at(counts: &[Count], at: u32) -> Count
    ensures { result ≡ or_none (slice_get counts.now at) }
{
    match counts.get(at as usize) {
        Some(count) => *count,
        None => Count { issued: 0, live: 0 },
    }
}

fn entry_at(entries: &[Option<u32>], at: usize) -> Option<u32>
    ensures { result ≡ entry (slice_get entries.now at) }
{
    match entries.get(at) {
        Some(attempt) => *attempt,
        None => None,
    }
}
