//! The master's tables, and the ends of the job.
//!
//!     lost       [ worker ]     a flag           attempts   in the order of issue (`attempts.rt`)
//!     splits     [ split ]      left-out records, whether they are fixed, output and its worker
//!     committed  [ partition ]  an output        failures   [ split ]  the records that failed
//!     next_map, next_part       no task below is idle: incomplete and without a live attempt
//!
//! Cost: a few steps an event, whatever the number of attempts and tasks. An ask searches on from a
//! cursor; an attempt that ends without completing its task moves the cursor back to it. A task
//! that is incomplete, without a live attempt and out of attempts is stuck. No task is so before an
//! event, so the ends are tested for the tasks that the event touched. Only the loss of a worker
//! visits all tasks, and resets both cursors.
ghost use Rattle.std.specs.Prelude.{◌≡◌, true, false, Option, Some, None, ◌==◌, ◌<◌, nat_lt};
ghost use Rattle.std.specs.Prelude.{MatchOption, IfOk};
ghost use Rattle.std.specs.List.{list_any};
ghost use Rattle.std.specs.Option.{option_map_or};
ghost use Rattle.mr_core.specs.declared.event.Shape.{Shape};
ghost use Rattle.mr_core.specs.declared.event.Task.{Task};
ghost use Rattle.mr_core.specs.Looks.{output_of, committed_of, set_of};
ghost use Rattle.mr_core.specs.Master.{State, tasks, is_active, is_complete, first_end, issued};
ghost use Rattle.mr_core.specs.Master.{live, is_stuck, live_attempt, settled, opening};
ghost use Rattle.mr_core.specs.Index.{task_at, IsTouched};

use crate::attempts::{Attempts, Count};
use crate::entries::{Attempt, Outputs, all_true, copies};
use crate::event::{End, JobFault, Shape, Task};
use crate::splits::{Failed, Splits, none_failed};
use std::alloc::{AllocError, Global};
use std::marker::Model;

mod asks;
mod reports;

#[derive(Drop)]
pub(crate) struct MasterState {
    lost: Vec<bool>,
    splits: Splits,
    committed: Outputs,
    attempts: Attempts,
    failures: Vec<Failed>,
    end: Option<End>,
    next_map: u32,
    next_part: u32,
}

impl Model for MasterState {
    ghost use Rattle.mr_core.specs.Master.{State};
    ghost use Rattle.mr_core.specs.Index.{IsTabled};

    ghost Value = { State };

    ghost view = { λ t. record { lost = t.lost.items; splits = t.splits; committed = t.committed; attempts = t.attempts.items; failures = t.failures.items; end = t.end } };

    ghost invariant = { λ t. IsTabled (record { lost = t.lost.items; splits = t.splits; committed = t.committed; attempts = t.attempts.items; failures = t.failures.items; end = t.end }) t.attempts t.next_map t.next_part };
}

impl MasterState {
    pub(crate) fn end(&self) -> Option<End>
        ensures { result ≡ self.now.end }
    {
        self.end
    }

    /// Whether the worker exists and isn't lost.
    pub(crate) fn is_active(&self, worker: u32) -> bool
        ensures { result ≡ is_active self.now worker }
    {
        match self.lost.as_slice().get(worker as usize) {
            Some(lost) => !*lost,
            None => false,
        }
    }

    pub(crate) fn is_complete(&self, task: Task) -> bool
        ensures { result ≡ is_complete self.now task }
    {
        match task {
            Task::Map(split) => match self.splits.as_slice().get(split as usize) {
                Some(split) => split.output.is_some(),
                None => false,
            },
            Task::Reduce(partition) => match self.committed.as_slice().get(partition as usize) {
                Some(output) => output.is_some(),
                None => false,
            },
        }
    }

    /// Whether the task may have more attempts.
    fn has_few(&self, shape: Shape, task: Task) -> bool
        ensures { result ≡ nat_lt (issued self.now task) shape.limits.attempts }
    {
        self.attempts.count(task).issued < shape.limits.attempts
    }

    /// Whether exactly `number` attempts of the task are live.
    fn has_live(&self, task: Task, number: u32) -> bool
        ensures { result ≡ (live self.now task == number) }
    {
        self.attempts.count(task).live == number
    }

    /// Whether the task can't be completed any more.
    fn is_stuck(&self, shape: Shape, task: Task) -> bool
        ensures { result ≡ is_stuck shape self.now task }
    {
        !self.is_complete(task) && self.has_live(task, 0) && !self.has_few(shape, task)
    }

    /// The attempt of this number, where it is live.
    fn live(&self, attempt: u32) -> Option<&Attempt>
        ensures { MatchOption result (live_attempt self.now attempt ≡ None) (λ at. live_attempt self.now attempt ≡ Some at.now) }
    {
        let attempt = self.attempts.as_slice().get(attempt as usize)?;
        if attempt.is_live() {
            Some(attempt)
        } else {
            None
        }
    }

    pub(crate) fn task_at(&self, attempt: u32) -> Option<Task>
        ensures { result ≡ task_at self.now attempt }
    {
        Some(self.attempts.as_slice().get(attempt as usize)?.task())
    }

    pub(crate) fn output(&self, map: u32) -> Option<u64>
        ensures { result ≡ output_of self.now map }
    {
        let (number, _) = self.splits.as_slice().get(map as usize)?.output?;
        Some(number)
    }

    pub(crate) fn set(&self, split: u32) -> &[u32]
        ensures { result.now ≡ set_of self.now split }
    {
        match self.splits.as_slice().get(split as usize) {
            Some(split) => split.skips.as_slice(),
            None => &[],
        }
    }

    pub(crate) fn committed(&self, partition: u32) -> Option<u64>
        ensures { result ≡ committed_of self.now partition }
    {
        match self.committed.as_slice().get(partition as usize) {
            Some(output) => *output,
            None => None,
        }
    }

    /// Whether some task can't be completed any more. It visits all tasks.
    #[tactic(auto, using(crate::proofs::TaskSearch::none_more, crate::proofs::TaskSearch::none_of_all, crate::proofs::TaskSearch::one_map, crate::proofs::TaskSearch::one_part))]
    fn has_stuck(&self, shape: Shape) -> bool
        ensures { result ≡ list_any (is_stuck shape self.now) (tasks shape) }
    {
        for split in 0..shape.maps {
            if self.is_stuck(shape, Task::Map(split)) {
                return true;
            }
        }
        for partition in 0..shape.parts {
            if self.is_stuck(shape, Task::Reduce(partition)) {
                return true;
            }
        }
        false
    }

    /// Tests the ends after the loss of a worker. It visits all tasks.
    pub(crate) fn settle(&mut self, shape: Shape)
        ensures { self.new ≡ settled shape self.old false }
    {
        let lost = all_true(self.lost.as_slice());
        let stuck = self.has_stuck(shape);
        self.end = first_end(self.committed.is_whole(), lost, false, stuck);
    }

    /// Whether one of two tasks is stuck, which are the only ones that can be.
    #[tactic(auto, using(crate::proofs::EndTests::stuck_first, crate::proofs::EndTests::stuck_second))]
    fn is_stuck_at(&self, shape: Shape, task: Option<Task>, other: Option<Task>) -> bool
        requires { IsTouched shape self.now task other }
        ensures { result ≡ list_any (is_stuck shape self.now) (tasks shape) }
    {
        self.is_stuck_one(shape, task) || self.is_stuck_one(shape, other)
    }

    fn is_stuck_one(&self, shape: Shape, task: Option<Task>) -> bool
        ensures { result ≡ option_map_or (is_stuck shape self.now) task false }
    {
        match task {
            Some(task) => self.is_stuck(shape, task),
            None => false,
        }
    }

    /// Tests the ends after an event that touched only `task` and `other`.
    pub(crate) fn settle_at(
        &mut self,
        shape: Shape,
        task: Option<Task>,
        other: Option<Task>,
        over: bool,
    )
        requires { IsTouched shape self.old task other }
        ensures { self.new ≡ settled shape self.old over }
    {
        let stuck = self.is_stuck_at(shape, task, other);
        self.end = first_end(self.committed.is_whole(), false, over, stuck);
    }

    pub(crate) fn new(alloc: Global, shape: Shape) -> Result<MasterState, AllocError>
        ensures { IfOk result (λ t. t ≡ opening shape) }
    {
        let lost = copies(alloc, false, shape.workers)?;
        let attempts = Attempts::new(alloc, shape.maps, shape.parts, shape.workers)?;
        Ok(MasterState {
            lost,
            splits: Splits::new(alloc, shape.maps)?,
            committed: Outputs::new(alloc, shape.parts)?,
            attempts,
            failures: none_failed(alloc, shape.maps)?,
            end: None,
            next_map: 0,
            next_part: 0,
        })
    }
}

/// The end of a job, or `None`: its partitions are committed, its workers are lost, one record too
/// many would be left out, or a task is stuck.
fn first_end(done: bool, lost: bool, over: bool, stuck: bool) -> Option<End>
    ensures { result ≡ first_end done lost over stuck }
{
    if done {
        Some(End::Done)
    } else if lost {
        Some(End::Failed(JobFault::NoWorkers))
    } else if over {
        Some(End::Failed(JobFault::TooManySkips))
    } else if stuck {
        Some(End::Failed(JobFault::TooManyAttempts))
    } else {
        None
    }
}
