//! Gives tasks to workers that ask: idle ones first, then a second execution of one in progress.
//!
//!     the worker is lost, or unknown                     Stop, dismissed
//!     it has a live attempt                              Wait
//!     a map task is idle                                 Map, with its split's left-out records
//!     a reduce task is idle, no map output is missing    Reduce
//!     a task has one live attempt and may have more      Map or Reduce, as a backup
//!     else                                               Wait
//!
//! The first row that holds decides. A backup of a reduce task needs all map outputs, too. Where a
//! row allows several tasks, any is right; of idle ones it gives the first.
//! Cost: a search from a cursor; for a backup one step a worker. Replies are made twice.
//! Source: OSDI 2004, sections 3.1 and 3.6.
ghost use Rattle.std.specs.Prelude.{◌≡◌, ℕ, ◌<◌, ◌≤◌, ◌^◌, true, false, Option, Some, None, [], ◌∷◌, ◌++◌, ◌&&◌, length, slice_get, MatchOption, OnOk, OnErr, IfOk};
ghost use Rattle.std.specs.List.{list_any};
ghost use Rattle.mr_core.specs.declared.event.Shape.{Shape};
ghost use Rattle.mr_core.specs.declared.event.Task.{Task};
ghost use Rattle.mr_core.specs.Queries.{is_lone, is_ready};
ghost use Rattle.mr_core.specs.Master.{Attempt, tasks, is_task, may_newly, may_give, given, asked, has_live};
ghost use Rattle.mr_core.specs.Index.{is_idle, IsGoing, IsBelow};

use super::MasterState;
use crate::entries::Attempt;
use crate::event::{End, Reply, Shape, Task};
use crate::splits::Skips;
use std::alloc::{AllocError, Global};

impl MasterState {
    /// Whether the task is incomplete and has no live attempt.
    fn is_idle(&self, task: Task) -> bool
        ensures { result ≡ is_idle self.now task }
    {
        !self.is_complete(task) && self.has_live(task, 0)
    }

    /// The first idle map task from `from` on, or `maps`.
    fn idle_map_from(&self, from: u32, maps: u32) -> u32
        ensures passed { (s : ℕ) → from ≤ s → s < result → is_idle self.now (Task.Map s) ≡ false }
        ensures there { result < maps → is_idle self.now (Task.Map result) ≡ true }
    {
        for split in from..maps {
            if self.is_idle(Task::Map(split)) {
                return split;
            }
        }
        maps
    }

    /// The first idle reduce task from `from` on, or `parts`.
    fn idle_part_from(&self, from: u32, parts: u32) -> u32
        ensures passed { (p : ℕ) → from ≤ p → p < result → is_idle self.now (Task.Reduce p) ≡ false }
        ensures there { result < parts → is_idle self.now (Task.Reduce result) ≡ true }
    {
        for partition in from..parts {
            if self.is_idle(Task::Reduce(partition)) {
                return partition;
            }
        }
        parts
    }

    /// The first idle map task, or `maps`. It searches from the cursor, and moves it there.
    fn next_map(&mut self, maps: u32) -> u32
        ensures same { self.new ≡ self.old }
        ensures passed { (s : ℕ) → s < result → is_idle self.old (Task.Map s) ≡ false }
        ensures there { result < maps → is_idle self.old (Task.Map result) ≡ true }
    {
        let next = self.idle_map_from(self.next_map, maps);
        self.next_map = next;
        next
    }

    /// The first idle reduce task, or `parts`. It searches from the cursor, and moves it there.
    fn next_part(&mut self, parts: u32) -> u32
        ensures same { self.new ≡ self.old }
        ensures passed { (p : ℕ) → p < result → is_idle self.old (Task.Reduce p) ≡ false }
        ensures there { result < parts → is_idle self.old (Task.Reduce result) ≡ true }
    {
        let next = self.idle_part_from(self.next_part, parts);
        self.next_part = next;
        next
    }

    /// An idle task that is ready.
    #[tactic(auto, using(crate::proofs::IdleTasks::newly_map, crate::proofs::IdleTasks::newly_part, crate::proofs::IdleTasks::none_waiting, crate::proofs::IdleTasks::none_at_all))]
    fn find_newly(&mut self, shape: Shape) -> Option<Task>
        requires { IsGoing shape self.old }
        ensures same { self.new ≡ self.old }
        ensures found { MatchOption result (list_any (may_newly shape self.old) (tasks shape)
            ≡ false) (λ t. (may_newly shape self.old t ≡ true) × (is_task shape t ≡ true)) }
    {
        let split = self.next_map(shape.maps);
        if split < shape.maps {
            return Some(Task::Map(split));
        }
        if !self.splits.is_whole() {
            return None;
        }
        let partition = self.next_part(shape.parts);
        if partition < shape.parts {
            Some(Task::Reduce(partition))
        } else {
            None
        }
    }

    /// Whether the task needs no map output that is missing.
    fn is_ready(&self, task: Task) -> bool
        ensures { result ≡ is_ready self.now task }
    {
        match task {
            Task::Map(_) => true,
            Task::Reduce(_) => self.splits.is_whole(),
        }
    }

    /// Whether the task may have a second live attempt beside its only one.
    #[tactic(auto, using(crate::proofs::BackupTasks::lone_yes, crate::proofs::BackupTasks::lone_no))]
    fn is_lone(&self, shape: Shape, task: Task) -> bool
        ensures { result ≡ is_lone shape self.now task }
    {
        !self.is_complete(task)
            && self.has_few(shape, task)
            && self.has_live(task, 1)
            && self.is_ready(task)
    }

    /// The task of the worker's live attempt.
    fn current_task(&self, worker: usize) -> Option<Task>
        ensures there { (t : Task) → result ≡ Some t
            → (a : ℕ) × (x : Attempt) × (slice_get self.now.attempts a ≡ Some x) × (x.task ≡ t) }
        ensures only { (a : ℕ) (x : Attempt) → slice_get self.now.attempts a ≡ Some x
            → x.live ≡ true → x.worker ≡ worker → result ≡ Some x.task }
    {
        match self.attempts.current(worker) {
            Some(attempt) => self.task_at(attempt),
            None => None,
        }
    }

    /// A task that may have a second attempt: one of those that workers execute now.
    fn find_lone(&self, shape: Shape) -> Option<Task>
        requires { IsGoing shape self.now }
        ensures { MatchOption result (list_any (is_lone shape self.now) (tasks shape) ≡ false)
            (λ t. (is_lone shape self.now t ≡ true) × (is_task shape t ≡ true)) }
    {
        for worker in 0..self.attempts.workers() {
            if let Some(task) = self.current_task(worker) {
                if self.is_lone(shape, task) {
                    return Some(task);
                }
            }
        }
        None
    }

    /// A task that the worker may get.
    fn task_for(&mut self, shape: Shape, worker: u32) -> Option<Task>
        requires { IsGoing shape self.old }
        ensures same { self.new ≡ self.old }
        ensures found { MatchOption result (list_any (may_give shape self.old worker) (tasks shape)
            ≡ false) (λ t. may_give shape self.old worker t ≡ true) }
    {
        if self.attempts.current(worker as usize).is_some() {
            return None;
        }
        if let Some(task) = self.find_newly(shape) {
            return Some(task);
        }
        self.find_lone(shape)
    }

    /// Issues an attempt of a map task. Returns two equal replies.
    fn issue_map(
        &mut self,
        alloc: Global,
        shape: Shape,
        worker: u32,
        split: u32,
    ) -> Result<(Reply, Reply), AllocError>
        requires going { IsGoing shape self.old }
        requires may { may_give shape self.old worker (Task.Map split) ≡ true }
        requires active { worker < length self.old.lost }
        ensures ok { IfOk result (λ r. given shape self.old worker r.0 ≡ Some self.new) }
        ensures twice { IfOk result (λ r. r.0 ≡ r.1) }
        ensures err { OnErr result (self.new ≡ self.old) }
    {
        let attempt = self.attempts.as_slice().len() as u32;
        let skips = Skips::copy_of(alloc, self.set(split))?;
        let again = Skips::copy_of(alloc, skips.as_slice())?;
        let issued = Attempt::new(alloc, worker, Task::Map(split), skips.as_slice(), 0)?;
        self.push(issued)?;
        Ok((
            Reply::Map {
                attempt,
                split,
                skips,
            },
            Reply::Map {
                attempt,
                split,
                skips: again,
            },
        ))
    }

    fn push(&mut self, attempt: Attempt) -> Result<(), AllocError>
        requires few { length self.old.attempts < 2 ^ 31 }
        requires live { attempt.live ≡ true }
        requires free { has_live self.old attempt.worker ≡ false }
        requires worker { attempt.worker < length self.old.lost }
        requires task { IsBelow (length self.old.splits) (length self.old.committed) attempt.task }
        ensures ok { OnOk result (self.new
            ≡ record self.old { attempts = self.old.attempts ++ attempt ∷ [] }) }
        ensures err { OnErr result (self.new ≡ self.old) }
    {
        self.attempts.push(attempt)?;
        Ok(())
    }

    /// Issues an attempt of a reduce task. Returns two equal replies.
    fn issue_reduce(
        &mut self,
        alloc: Global,
        shape: Shape,
        worker: u32,
        partition: u32,
    ) -> Result<(Reply, Reply), AllocError>
        requires going { IsGoing shape self.old }
        requires may { may_give shape self.old worker (Task.Reduce partition) ≡ true }
        requires active { worker < length self.old.lost }
        ensures ok { IfOk result (λ r. given shape self.old worker r.0 ≡ Some self.new) }
        ensures twice { IfOk result (λ r. r.0 ≡ r.1) }
        ensures err { OnErr result (self.new ≡ self.old) }
    {
        let attempt = self.attempts.as_slice().len() as u32;
        let issued = Attempt::new(alloc, worker, Task::Reduce(partition), &[], shape.maps)?;
        self.push(issued)?;
        Ok((
            Reply::Reduce { attempt, partition },
            Reply::Reduce { attempt, partition },
        ))
    }

    /// A worker asks for a task. Returns two equal replies.
    #[tactic(auto, using(crate::proofs::Asks::asked_lost, crate::proofs::Asks::asked_active, crate::proofs::Asks::given_wait))]
    pub(crate) fn ask(
        &mut self,
        alloc: Global,
        shape: Shape,
        worker: u32,
    ) -> Result<(Reply, Reply), AllocError>
        requires { IsGoing shape self.old }
        ensures ok { IfOk result (λ r. asked shape self.old worker r.0 ≡ Some self.new) }
        ensures twice { IfOk result (λ r. r.0 ≡ r.1) }
        ensures err { OnErr result (self.new ≡ self.old) }
    {
        if !self.is_active(worker) {
            return Ok((Reply::Stop(End::Dismissed), Reply::Stop(End::Dismissed)));
        }
        match self.task_for(shape, worker) {
            None => Ok((Reply::Wait, Reply::Wait)),
            Some(Task::Map(split)) => self.issue_map(alloc, shape, worker, split),
            Some(Task::Reduce(partition)) => self.issue_reduce(alloc, shape, worker, partition),
        }
    }
}
