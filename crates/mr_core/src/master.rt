//! The master: a call for each event, queries between events, and laws of every run.
//!
//!     event  ->  after the end: Stop for an ask, Ignored for the rest
//!            ->  before it: a row of the tables, then a test of the ends  ->  reply
//!
//! Of several ends the first holds: every partition is committed; every worker is lost; one record
//! too many would be left out; a task is stuck. A worker learns of it by its next ask. Only `ask`
//! and `map_failed` allocate, and a refusal leaves all as it was. So no completion is lost for want
//! of memory. `apply_with_copy` makes both replies before the state changes, for the same reason: a
//! copy made afterwards could fail.
//! Cost: a few steps an event, but for a lost worker (`tables.rt`).
//! Source: OSDI 2004, sections 3.2, 3.3, 3.6 and 4.6.
ghost use Rattle.std.specs.Prelude.{◌≡◌, OnErr, IfOk, [], ◌<◌, ℕ, true, Some, None, List};
ghost use Rattle.std.specs.Prelude.{◌∷◌, ◌++◌, ◌↔◌, is_some, slice_get};
ghost use Rattle.mr_core.specs.declared.event.Event.{Event};
ghost use Rattle.mr_core.specs.Core.{IsStep, InLimits, IsRun, GoesOn, TakesMemory};
ghost use Rattle.mr_core.specs.Master.{opening, is_complete, State, Step, Run, replay};
ghost use Rattle.mr_core.specs.Index.{IsPlain};
ghost use Rattle.std.specs.Ordering.{nat_cmp};
ghost use Rattle.mr_bytes.specs.Lists.{Rises, Has};
ghost use Rattle.mr_core.specs.Looks.{output_of, committed_of, set_of};
ghost use Rattle.mr_core.specs.declared.event.Shape.{Shape};
ghost use Rattle.mr_core.specs.declared.event.Reply.{Reply};
ghost use Rattle.mr_core.specs.declared.entries.Split.{Split};
ghost use Rattle.mr_core.specs.Promises.{OneSet, CommittedHaveFetched, CommitsStay, FixedSetsStay};
ghost use Rattle.mr_core.specs.Promises.{FewAreLeftOut, FewAttempts, LiveAreActive};
ghost use Rattle.mr_core.specs.Promises.{SomeTaskMayBeGiven, OfEveryRun, OfEveryJob};
ghost use Rattle.mr_core.specs.Promises.{OfEveryLaterState};
ghost use Rattle.mr_core.specs.Laws.{IsMapOf, IsOutputOf, IsPartOf};
ghost use Rattle.mr_core.specs.Worked.{shape, repeated, lost_output, left_out_late, damaged_region};
ghost use Rattle.mr_core.specs.Worked.{too_many_attempts, no_maps, no_workers};

use crate::event::{End, Event, Limits, Reply, Shape, Task};
use crate::tables::MasterState;
use std::alloc::{AllocError, Global};
use std::marker::Model;

/// The master of a job. Contracts see its shape and its state.
#[derive(Drop)]
pub struct Core {
    shape: Shape,
    tables: MasterState,
}

impl Model for Core {
    ghost use Rattle.mr_core.specs.Core.{CoreView, InLimits, IsReached};

    ghost Value = { CoreView };

    ghost view = { λ c. record { shape = c.shape; state = c.tables } };

    ghost invariant = { λ c. InLimits c.shape × IsReached c.shape c.tables };
}

impl Core {
    /// A reduce attempt wants the output of a split. It allocates nothing.
    pub fn fetch(&mut self, attempt: u32, map: u32) -> Reply
        ensures { IsStep self.old (Event.Fetch attempt map) result self.new }
    {
        if self.tables.end().is_some() {
            return Reply::Ignored;
        }
        let task = self.tables.task_at(attempt);
        let reply = self.tables.fetch(attempt, map);
        self.tables.settle_at(self.shape, task, None, false);
        reply
    }

    /// A map attempt is done, and its output has this number. It allocates nothing.
    pub fn map_done(&mut self, attempt: u32, output: u64) -> Reply
        ensures { IsStep self.old (Event.MapDone attempt output) result self.new }
    {
        if self.tables.end().is_some() {
            return Reply::Ignored;
        }
        let task = self.tables.task_at(attempt);
        let reply = self.tables.map_done(attempt, output);
        self.tables.settle_at(self.shape, task, None, false);
        reply
    }

    /// A reduce attempt is done, and its output has this number. It allocates nothing.
    pub fn reduce_done(&mut self, attempt: u32, output: u64) -> Reply
        ensures { IsStep self.old (Event.ReduceDone attempt output) result self.new }
    {
        if self.tables.end().is_some() {
            return Reply::Ignored;
        }
        let task = self.tables.task_at(attempt);
        let reply = self.tables.reduce_done(attempt, output);
        self.tables.settle_at(self.shape, task, None, false);
        reply
    }

    /// A worker is lost. It allocates nothing.
    pub fn lose(&mut self, worker: u32) -> Reply
        ensures { IsStep self.old (Event.Lose worker) result self.new }
    {
        if self.tables.end().is_some() {
            return Reply::Ignored;
        }
        let reply = self.tables.lose(worker);
        self.tables.settle(self.shape);
        reply
    }

    /// A reduce attempt can't read what it fetched from a split. It allocates nothing.
    pub fn damaged(&mut self, attempt: u32, map: u32) -> Reply
        ensures { IsStep self.old (Event.Damaged attempt map) result self.new }
    {
        if self.tables.end().is_some() {
            return Reply::Ignored;
        }
        let task = self.tables.task_at(attempt);
        let reply = self.tables.damaged(attempt, map);
        let other = (map < self.shape.maps).then_some(Task::Map(map));
        self.tables.settle_at(self.shape, task, other, false);
        reply
    }

    /// A map attempt failed on a record of its split.
    pub fn map_failed(&mut self, attempt: u32, number: u32) -> Result<Reply, AllocError>
        ensures ok { IfOk result (λ r. IsStep self.old (Event.MapFailed attempt number) r self.new) }
        ensures err { OnErr result (self.new ≡ self.old) }
    {
        if self.tables.end().is_some() {
            return Ok(Reply::Ignored);
        }
        let task = self.tables.task_at(attempt);
        let (reply, over) = self.tables.map_failed(self.shape, attempt, number)?;
        self.tables.settle_at(self.shape, task, None, over);
        Ok(reply)
    }

    /// A master of `maps` splits, `parts` partitions and `workers` workers.
    pub fn new(
        alloc: Global,
        maps: u32,
        parts: u32,
        workers: u32,
        limits: Limits,
    ) -> Result<Core, AllocError>
        requires { InLimits (record { maps = maps; parts = parts; workers = workers; limits = limits }) }
        ensures opening { IfOk result
            (λ c. c ≡ record { shape = record { maps = maps; parts = parts; workers = workers; limits = limits }; state = opening (record { maps = maps; parts = parts; workers = workers; limits = limits }) }) }
        ensures run { IfOk result (λ c. IsRun c []) }
    {
        let shape = Shape {
            maps,
            parts,
            workers,
            limits,
        };
        Ok(Core {
            shape,
            tables: MasterState::new(alloc, shape)?,
        })
    }

    /// The limits that it was opened with. Its shape is within the limits of a job.
    pub fn limits(&self) -> Limits
        ensures same { result ≡ self.now.shape.limits }
        ensures within { InLimits self.now.shape }
    {
        self.shape.limits
    }

    /// A worker asks for a task.
    pub fn ask(&mut self, alloc: Global, worker: u32) -> Result<Reply, AllocError>
        ensures ok { IfOk result (λ r. IsStep self.old (Event.Ask worker) r self.new) }
        ensures err { OnErr result (self.new ≡ self.old) }
    {
        let (reply, _again) = self.ask_twice(alloc, worker)?;
        Ok(reply)
    }

    /// Returns two equal replies.
    fn ask_twice(&mut self, alloc: Global, worker: u32) -> Result<(Reply, Reply), AllocError>
        ensures ok { IfOk result (λ r. IsStep self.old (Event.Ask worker) r.0 self.new) }
        ensures twice { IfOk result (λ r. r.0 ≡ r.1) }
        ensures err { OnErr result (self.new ≡ self.old) }
    {
        if let Some(end) = self.tables.end() {
            return Ok((Reply::Stop(end), Reply::Stop(end)));
        }
        // The ends need no test: the task that it gives has a live attempt.
        let (reply, again) = self.tables.ask(alloc, self.shape, worker)?;
        Ok((reply, again))
    }

    /// Applies an event. Only `Ask` and `MapFailed` allocate; a refusal leaves all as it was.
    pub fn apply(&mut self, alloc: Global, event: Event) -> Result<Reply, AllocError>
        ensures ok { IfOk result (λ r. IsStep self.old event r self.new) }
        ensures run { IfOk result (λ r. GoesOn self.old event r self.new) }
        ensures memory { OnErr result (TakesMemory event) }
        ensures err { OnErr result (self.new ≡ self.old) }
    {
        let (reply, _again) = self.apply_with_copy(alloc, event)?;
        Ok(reply)
    }

    /// Returns two equal replies.
    fn step(&mut self, alloc: Global, event: Event) -> Result<(Reply, Reply), AllocError>
        ensures ok { IfOk result (λ r. IsStep self.old event r.0 self.new) }
        ensures twice { IfOk result (λ r. r.0 ≡ r.1) }
        ensures memory { OnErr result (TakesMemory event) }
        ensures err { OnErr result (self.new ≡ self.old) }
    {
        match event {
            Event::Ask(worker) => self.ask_twice(alloc, worker),
            Event::Fetch(attempt, map) => Ok(twice(self.fetch(attempt, map))),
            Event::MapDone(attempt, output) => Ok(twice(self.map_done(attempt, output))),
            Event::MapFailed(attempt, number) => Ok(twice(self.map_failed(attempt, number)?)),
            Event::ReduceDone(attempt, output) => Ok(twice(self.reduce_done(attempt, output))),
            Event::Lose(worker) => Ok(twice(self.lose(worker))),
            Event::Damaged(attempt, map) => Ok(twice(self.damaged(attempt, map))),
        }
    }

    /// What `apply` does, with the reply made twice: one to keep, and one to return.
    pub fn apply_with_copy(
        &mut self,
        alloc: Global,
        event: Event,
    ) -> Result<(Reply, Reply), AllocError>
        ensures ok { IfOk result (λ r. IsStep self.old event r.0 self.new) }
        ensures run { IfOk result (λ r. GoesOn self.old event r.0 self.new) }
        ensures twice { IfOk result (λ r. r.0 ≡ r.1) }
        ensures memory { OnErr result (TakesMemory event) }
        ensures err { OnErr result (self.new ≡ self.old) }
    {
        // This shows the invariant: the shape is within the limits.
        let _ = &self.shape;
        self.step(alloc, event)
    }
}

/// Copies a reply without a list.
fn twice(reply: Reply) -> (Reply, Reply)
    requires { IsPlain reply }
    ensures reply { result.0 ≡ reply }
    ensures same { result.0 ≡ result.1 }
{
    match reply {
        Reply::Reduce { attempt, partition } => (
            Reply::Reduce { attempt, partition },
            Reply::Reduce { attempt, partition },
        ),
        Reply::Wait => (Reply::Wait, Reply::Wait),
        Reply::Stop(end) => (Reply::Stop(end), Reply::Stop(end)),
        Reply::Region { output } => (Reply::Region { output }, Reply::Region { output }),
        Reply::Gone => (Reply::Gone, Reply::Gone),
        Reply::Accepted => (Reply::Accepted, Reply::Accepted),
        Reply::Ignored => (Reply::Ignored, Reply::Ignored),
        Reply::Map { .. } => unreachable!(),
    }
}

impl Core {
    /// The job's sizes and limits.
    pub fn shape(&self) -> Shape
        ensures { result ≡ self.now.shape }
    {
        self.shape
    }

    /// The job's end, once it has ended.
    pub fn end(&self) -> Option<End>
        ensures { result ≡ self.now.state.end }
    {
        self.tables.end()
    }

    /// Whether the task is complete; false where there is no such task.
    pub fn complete(&self, task: Task) -> bool
        ensures { result ≡ is_complete self.now.state task }
    {
        self.tables.is_complete(task)
    }

    /// The records left out of a split so far, rising.
    pub fn set(&self, split: u32) -> &[u32]
        requires { split < self.now.shape.maps }
        ensures set { result.now ≡ set_of self.now.state split }
        ensures rises { Rises nat_cmp result.now }
    {
        self.tables.set(split)
    }

    /// The output of a split that is complete.
    pub fn output(&self, map: u32) -> Option<u64>
        requires { map < self.now.shape.maps }
        ensures { result ≡ output_of self.now.state map }
    {
        self.tables.output(map)
    }

    /// The committed output of a partition.
    pub fn committed(&self, partition: u32) -> Option<u64>
        requires { partition < self.now.shape.parts }
        ensures { result ≡ committed_of self.now.state partition }
    {
        self.tables.committed(partition)
    }
}

pub fn worked_runs()
    ensures repeated { is_some (replay (shape 1 1 2 8 0) repeated) ≡ true }
    ensures lost { is_some (replay (shape 1 1 2 8 0) lost_output) ≡ true }
    ensures late { is_some (replay (shape 1 1 2 8 1) left_out_late) ≡ true }
    ensures damaged { is_some (replay (shape 1 1 2 8 0) damaged_region) ≡ true }
    ensures attempts { is_some (replay (shape 1 1 1 1 0) too_many_attempts) ≡ true }
    ensures none { is_some (replay (shape 0 1 2 8 0) no_maps) ≡ true }
    ensures workers { is_some (replay (shape 1 1 1 8 0) no_workers) ≡ true }
    ensures wait { replay (shape 1 1 2 8 0) ((Event.Ask 0, Reply.Wait) ∷ []) ≡ None }
    ensures second { replay (shape 1 1 2 8 0) (lost_output ++ (Event.Ask 0, Reply.Map 3 0 []) ∷ []) ≡ None }
{}

/// All outputs ever accepted for a split leave out the same records. The left-out records of all
/// splits, and the attempts of each task, are within the limits.
pub fn every_run()
    ensures one_set { OfEveryRun (λ sh h st. OneSet h st) }
    ensures skips { OfEveryRun (λ sh h st. FewAreLeftOut sh st) }
    ensures attempts { OfEveryRun (λ sh h st. FewAttempts sh st) }
{}

/// Committed outputs and fixed left-out sets stay. While a job goes on, workers of live attempts
/// aren't lost, and where no attempt is live, each worker that isn't lost may get a task.
pub fn goes_on()
    ensures stays { OfEveryJob (OfEveryLaterState CommitsStay) }
    ensures fixed { OfEveryRun (OfEveryLaterState FixedSetsStay) }
    ensures live { OfEveryJob (λ sh h st. LiveAreActive st) }
    ensures given { OfEveryJob (λ sh h st. SomeTaskMayBeGiven sh st) }
{}

/// A step has one next state, a run goes on by a step, and replays are runs.
pub fn runs()
    ensures one { (sh : Shape) (st : State) (e : Event) (r : Reply) (a b : State)
        → Step sh st e r a → Step sh st e r b → a ≡ b }
    ensures longer { (sh : Shape) (st : State) (h : List (Event × Reply)) (mid : State)
        (e : Event) (r : Reply) (new : State) → Run sh st h mid
        → Step sh mid e r new → Run sh st (h ++ (e, r) ∷ []) new }
    ensures replayed { (sh : Shape) (h : List (Event × Reply)) (st : State)
        → (replay sh h ≡ Some st) ↔ Run sh (opening sh) h st }
{}

/// A committed reduce attempt has fetched from each split, before its completion was accepted, an
/// output that had been accepted for that split before the fetch.
pub fn fetched()
    ensures { OfEveryRun CommittedHaveFetched }
{}

/// The records left out of a split rise, and an accepted failure in the split reported each.
pub fn left_out_sets()
    ensures rise { (sh : Shape) (h : List (Event × Reply)) (st : State)
        → Run sh (opening sh) h st → (s : ℕ) (sp : Split)
        → slice_get st.splits s ≡ Some sp → Rises nat_cmp sp.skips }
    ensures failed { (sh : Shape) (h : List (Event × Reply)) (st : State)
        → Run sh (opening sh) h st → (s r : ℕ) (sp : Split)
        → slice_get st.splits s ≡ Some sp → Has sp.skips r
        → (a : ℕ) × Has h (Event.MapFailed a r, Reply.Accepted) × (k : List ℕ) × IsMapOf st a s k }
{}

/// Each output of a split, and each committed one, was accepted for it.
pub fn accepted_outputs()
    ensures splits { (sh : Shape) (h : List (Event × Reply)) (st : State)
        → Run sh (opening sh) h st → (s : ℕ) (sp : Split) (x w : ℕ)
        → slice_get st.splits s ≡ Some sp → sp.output ≡ Some (x, w) → IsOutputOf h st s x }
    ensures parts { (sh : Shape) (h : List (Event × Reply)) (st : State)
        → Run sh (opening sh) h st → (p o : ℕ)
        → slice_get st.committed p ≡ Some (Some o) → IsPartOf h st p o }
{}
