//! A worker: it asks for a task, does it, reports, and asks again.
//!
//!     map       records -> a piece, mostly one run -> a region a partition -> store; next piece
//!     reduce    split by split: fetch -> its regions, one by one in a buffer -> Reduction -> output
//!
//! So a worker holds one run, or one region, at a time, whatever the size of a split. Stored
//! regions have numbers, which the report of a map task carries and a fetch returns. Bytes that are
//! no region of this split and partition are damage: the worker reports it, and the map task is done
//! again. A worker whose store fails is lost, as one whose machine fails.
//! Cost: as the tasks; a lock for each ask, fetch and report.
//! Source: OSDI 2004, sections 3.1 and 3.3.
ghost use Rattle.std.specs.Prelude.{◌<◌};
ghost use Rattle.mr_input.specs.Files.{split_total};

use crate::workers::Shared;
use mr_book::Seat;
use mr_bytes::{Gate, Progress};
use mr_core::{Reply, Task};
use mr_input::Input;
use mr_script::Directive;
use mr_spill::{GetFault, PutFault, RegionStore, RegionView};
use mr_splits::Plan;
use mr_task::{
    Cancellation, MapOutput, MapTask, Place, ReduceOutput, Reduction, Stored, TaskFault,
    reduce_pairs,
};
use std::alloc::AllocError;
use std::sync::Wait;
use std::sync::atomic::Ordering;
use std::sync::ledger::Ledger;

#[derive(Clone, Copy, PartialEq, Eq)]
enum Next {
    Ask,
    End,
}

/// A worker by number, with its seat at the book and the count of its reports.
#[derive(Drop)]
pub(crate) struct Worker<'s, L: Ledger, G: Gate, W: Progress, S: RegionStore, R: Wait> {
    pub rt: &'s R,
    pub shared: &'s Shared<'s, L, G, W, S>,
    pub number: u32,
    pub seat: Seat<L>,
    pub reports: u32,
}

/// A worker's seat, and whether memory ran out.
#[derive(Drop)]
pub(crate) struct WorkerEnd<L: Ledger> {
    pub seat: Seat<L>,
    pub refused: bool,
}

/// The end of a reduce attempt.
#[derive(Drop)]
enum ReduceResult {
    Output(ReduceOutput),
    /// No longer wanted.
    Unwanted,
    /// A split has no output any more; the attempt has ended.
    Gone,
    /// This split's stored regions can't be read.
    Damaged(u32),
}

/// The most pairs of an input: each takes two of its bytes, or ends a file.
fn most_pairs(input: &Input) -> usize {
    let mut bytes = input.files();
    for i in 0..input.files() {
        bytes = bytes.saturating_add(input.len(i));
    }
    bytes / 2
}

/// A guess of all pairs from those of the first split: 1/16 more than as many from each split, and
/// at most what the input can have, since shorter files may follow a long one.
fn guess_pairs(first: usize, plan: &Plan<'_>) -> usize {
    first
        .saturating_add(first / 16)
        .saturating_mul(plan.splits() as usize)
        .min(most_pairs(plan.input()))
}

impl<'s, L: Ledger, G: Gate, W: Progress, S: RegionStore, R: Wait> Worker<'s, L, G, W, S, R> {
    /// Does what the script orders just before the worker's next report, in the order of the lines.
    fn before_report(&mut self, task: Task) -> Result<(), AllocError> {
        let shared = self.shared;
        for line in shared.orders.before_report(self.number, self.reports) {
            match shared.orders.directive(line) {
                Some(Directive::Zombie { .. }) => self.lose()?,
                Some(Directive::Hold { .. }) => self.hold(task),
                _ => {}
            }
        }
        Ok(())
    }

    /// Puts the regions of each run of a piece, damaged where the script says so, and frees them;
    /// false if the store's device failed.
    fn put_piece(
        &self,
        split: u32,
        piece: MapOutput,
        stored: &mut Stored,
    ) -> Result<bool, AllocError> {
        let shared = self.shared;
        for run in piece.into_runs() {
            let mut partition = 0u32;
            for mut region in run.into_texts() {
                shared
                    .orders
                    .damage(split, partition, region.as_mut_slice());
                match shared.store.put_owned(self.number, region) {
                    Ok(number) => stored.push(number)?,
                    Err(PutFault::OutOfMemory) => return Err(AllocError),
                    Err(PutFault::Device) => return Ok(false),
                }
                partition = partition.saturating_add(1);
            }
        }
        Ok(true)
    }

    /// Executes a map task and reports. A worker whose store fails is lost.
    fn map(&mut self, attempt: u32, split: u32, skips: &[u32]) -> Result<Next, AllocError>
        requires { split < split_total self.old.shared.now.plan.size self.old.shared.now.plan.files }
    {
        let shared = self.shared;
        if let Some(rec) = shared.orders.failing(&shared.plan, split, skips) {
            self.before_report(Task::Map(split))?;
            self.report_failure(attempt, rec)?;
        } else if !self.map_pieces(attempt, split, skips)? {
            self.lose()?;
            return Ok(Next::End);
        }
        self.reports = self.reports.saturating_add(1);
        Ok(Next::Ask)
    }

    /// Maps a split piece by piece: puts the regions of a piece, maps the next, and reports at the
    /// end; false if the store's device failed. Once another worker has completed the task, it
    /// stops without output, and its regions stay in the store. If that worker's output is lost
    /// meanwhile, it goes on.
    fn map_pieces(&mut self, attempt: u32, split: u32, skips: &[u32]) -> Result<bool, AllocError>
        requires { split < split_total self.old.shared.now.plan.size self.old.shared.now.plan.files }
    {
        let shared = self.shared;
        let task = Task::Map(split);
        let demand = shared.completed.demand(task);
        let mut stored = Stored::new(shared.alloc, shared.request.parts(), self.number);
        let mut is_ordered = false;
        let mut rest = MapTask::new(shared.alloc, &shared.plan, shared.request, split, skips)?;
        while !rest.is_done() {
            if !demand.is_wanted() {
                if !is_ordered {
                    self.before_report(task)?;
                    is_ordered = true;
                }
                if self.leave_map(attempt, split)? {
                    return Ok(true);
                }
                shared.completed.mark(task, false);
            }
            let (piece, behind) = rest.next_piece(&demand)?;
            if !self.put_piece(split, piece, &mut stored)? {
                return Ok(false);
            }
            rest = behind;
        }
        if !is_ordered {
            self.before_report(task)?;
        }
        self.report_map(attempt, split, stored)?;
        Ok(true)
    }

    /// Passes a split's regions to the reduction, one after another in `bytes`; false if one can't
    /// be read or isn't of the split and the partition.
    fn take_split(
        &self,
        stored: &Stored,
        split: u32,
        bytes: &mut Vec<u8>,
        reduction: &mut Reduction,
    ) -> Result<bool, AllocError> {
        let partition = reduction.partition();
        if partition >= stored.parts() {
            return Ok(false);
        }
        for run in 0..stored.runs() {
            bytes.clear();
            let Place { worker, number } = stored.place(partition, run);
            match self.shared.store.get(worker, number, bytes) {
                Ok(()) => {}
                Err(GetFault::OutOfMemory) => return Err(AllocError),
                Err(GetFault::Device | GetFault::NoRegion) => return Ok(false),
            }
            if !reduction.take(&RegionView::of(bytes.as_slice(), split))? {
                return Ok(false);
            }
        }
        Ok(true)
    }

    /// Fetches each split's output, and takes its regions one at a time. If each is sound but not all
    /// together, it reports split 0, the least that it fetched.
    fn fetch_and_reduce(
        &mut self,
        attempt: u32,
        partition: u32,
    ) -> Result<ReduceResult, AllocError> {
        let shared = self.shared;
        let demand = shared.completed.demand(Task::Reduce(partition));
        let mut reduction = Reduction::new(shared.alloc, partition);
        let mut bytes = Vec::new(shared.alloc);
        for split in 0..shared.plan.splits() {
            if !demand.is_wanted() {
                return Ok(ReduceResult::Unwanted);
            }
            let Some(stored) = self.fetch(attempt, split)? else {
                return Ok(ReduceResult::Gone);
            };
            if !self.take_split(&stored, split, &mut bytes, &mut reduction)? {
                return Ok(ReduceResult::Damaged(split));
            }
            if split == 0 {
                reduction.reserve(guess_pairs(reduction.len(), &shared.plan))?;
            }
        }
        match reduce_pairs(shared.alloc, shared.request.job(), reduction) {
            Ok(output) => Ok(ReduceResult::Output(output)),
            Err(TaskFault::OutOfMemory) => Err(AllocError),
            Err(TaskFault::RegionDamaged) => Ok(ReduceResult::Damaged(0)),
        }
    }

    /// Executes a reduce task and reports. It reports nothing if an output is gone, and damage if
    /// one can't be read. If another worker has completed the task, it reports an empty output,
    /// which the book ignores: what is committed stays.
    fn reduce(&mut self, attempt: u32, partition: u32) -> Result<(), AllocError> {
        let output = match self.fetch_and_reduce(attempt, partition)? {
            ReduceResult::Output(mut output) => {
                self.shared.orders.spoil(partition, &mut output);
                output
            }
            ReduceResult::Unwanted => ReduceOutput::new(self.shared.alloc),
            ReduceResult::Gone => return Ok(()),
            ReduceResult::Damaged(split) => return self.report_damage(attempt, split),
        };
        self.before_report(Task::Reduce(partition))?;
        self.report_reduce(attempt, partition, output)?;
        self.reports = self.reports.saturating_add(1);
        Ok(())
    }

    /// Makes an attempt, between entering the gate and leaving it.
    fn attempt(&mut self, reply: &Reply) -> Result<Next, AllocError> {
        let shared = self.shared;
        let (attempt, done) = match reply {
            Reply::Map {
                attempt,
                split,
                skips,
            } if *split < shared.plan.splits() => {
                shared.gate.enter(self.number, *attempt);
                let done = self.map(*attempt, *split, skips.as_slice());
                (*attempt, done)
            }
            Reply::Reduce { attempt, partition } if *partition < shared.request.parts() => {
                shared.gate.enter(self.number, *attempt);
                let done = self.reduce(*attempt, *partition);
                (*attempt, done.map(|()| Next::Ask))
            }
            Reply::Wait => return Ok(Next::Ask),
            _ => return Ok(Next::End),
        };
        shared.gate.leave(self.number, attempt);
        done
    }

    /// Loses the worker if that is due; else asks for a task and does it.
    fn turn(&mut self) -> Result<Next, AllocError> {
        if self.shared.orders.loses(self.number, self.reports) {
            self.lose()?;
            return Ok(Next::End);
        }
        let reply = self.ask()?;
        self.attempt(&reply)
    }

    /// Turn after turn, until the book dismisses the worker or a worker can't go on.
    pub(crate) fn work(mut self) -> WorkerEnd<L> {
        let mut refused = false;
        for _ in self.rt.forever() {
            match self.turn() {
                Ok(Next::Ask) if !self.shared.stopped.load(Ordering::SeqCst) => {}
                Ok(_) => break,
                Err(_) => {
                    refused = true;
                    self.stop();
                    break;
                }
            }
        }
        let Worker { seat, .. } = self;
        WorkerEnd { seat, refused }
    }
}
