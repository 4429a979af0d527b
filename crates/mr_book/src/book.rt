//! The master's book, and laws of every book and of the result that a master's state names.
//!
//!     ask, map_failed, lose, damaged     a step of the master
//!     fetch                              and a share of the output, where there is one
//!     map_done, reduce_done              and the output is stored, where it is accepted
//!
//! An output is shared (`Arc`) and never copied. A call takes its memory, for the event, the output
//! or the share, before the master steps, so a refusal changes nothing.
//! Invariant: each accepted output is stored, under the number of events before its own. A lost one
//! stays stored, since an attempt may still hold it.
//! Cost: a step of the master, and a binary search for a fetch. The laws speak of the state and of
//! reduce outputs by number, and of no region or merge.
ghost use Rattle.std.specs.Prelude.{◌≡◌, ◌+◌, [], Some, None, IfOk, IfErr, OnOk, OnErr, length};
ghost use Rattle.std.specs.Prelude.{replicate, sum, vec_len, is_some, if◌then◌else◌, IsSome};
ghost use Rattle.mr_core.specs.declared.event.Event.{Event};
ghost use Rattle.mr_core.specs.Core.{InLimits, IsRun};
ghost use Rattle.mr_core.specs.Master.{opening, is_complete, replay};
ghost use Rattle.mr_core.specs.Looks.{output_of};
ghost use Rattle.mr_core.specs.Promises.{Promises};
ghost use Rattle.mr_book.specs.View.{IsKept, output_with};
ghost use Rattle.mr_book.specs.Calls.{Calls, StoresNothing, Hands, Shares, region_in, grown};
ghost use Rattle.mr_book.specs.Calls.{has_damage};
ghost use Rattle.mr_book.specs.Stored.{stored_at, stored_by};
ghost use Rattle.mr_book.specs.Laws.{OutputsAreStored, CommitsAreStored};
ghost use Rattle.mr_book.specs.Worked.{WorkedCertificate, WorkedCut, WorkedEnd, WorkedIsDone};
ghost use Rattle.mr_book.specs.Worked.{WorkedOutput, WorkedRegion, WorkedValue, WorkedWithout};
ghost use Rattle.mr_book.specs.AssembledLaws.{AttemptsHaveOneValue, CommittedHaveAValue};
ghost use Rattle.mr_book.specs.AssembledLaws.{CutsDontMatter, DoneIsAGoodResult, DoneIsCertified};
ghost use Rattle.mr_book.specs.AssembledLaws.{DoneIsGood, DoneIsSequential, DoneSetsAreFixed};
ghost use Rattle.mr_book.specs.AssembledLaws.{ValuesAreSequential};

use crate::event_log::{EventLog, HistoryEntry, Seat};
use crate::output_store::{Kept, OutputStore};
use mr_core::{Core, End, Event, Limits, Reply, Shape, Task};
use mr_task::{ReduceOutput, Stored};
use std::alloc::{AllocError, AllocFailed, Global};
use std::marker::Model;
use std::sync::Arc;
use std::sync::ledger::{Blank, Ledger};

/// A closed book: its shape, its events with replies, and its accepted outputs, by rising number.
#[derive(Drop)]
pub struct History {
    pub shape: Shape,
    pub entries: Vec<HistoryEntry>,
    pub maps: Vec<Kept<Stored>>,
    pub reduces: Vec<Kept<ReduceOutput>>,
}

/// The master of a job, its whole history and its accepted outputs. Each call is one event of the
/// master, and its seat counts it. Workers in many threads share a book under one lock. `L` names
/// the book, so that its seats fit no other. A refusal of memory leaves book and seat as they were.
#[derive(Drop)]
pub struct Book<L: Ledger> {
    log: EventLog<L>,
    maps: OutputStore<Stored>,
    reduces: OutputStore<ReduceOutput>,
    alloc: Global,
}

impl<L: Ledger> Model for Book<L> {
    ghost use Rattle.mr_book.specs.View.{BookView, StoresAccepted};

    ghost Value = { BookView };

    ghost view = { λ b. record { shape = b.log.core.shape; state = b.log.core.state; history = b.log.history; maps = b.maps.outputs; reduces = b.reduces.outputs } };

    ghost invariant = { λ b. StoresAccepted b.log.history b.maps.outputs b.reduces.outputs };
}

impl<L: Ledger> Book<L> {
    /// An empty book of `maps` splits, `parts` partitions and `workers` workers, with its seats.
    pub fn open(
        alloc: Global,
        blank: Blank,
        maps: u32,
        parts: u32,
        workers: u32,
        limits: Limits,
        seats: usize,
    ) -> Result<(Book<L>, Vec<Seat<L>>), AllocError>
        requires ledger { (blank.name ≡ L.name) × (blank.parts ≡ L.parts) }
        requires seats { blank.parts ≡ seats }
        requires limits { InLimits
            (record { maps = maps; parts = parts; workers = workers; limits = limits }) }
        ensures book { IfOk result (λ r. r.0 ≡ record {
          shape = record { maps = maps; parts = parts; workers = workers; limits = limits };
          state = opening (record { maps = maps; parts = parts; workers = workers; limits = limits });
          history = [];
          maps = [];
          reduces = [];
        }) }
        ensures seats { IfOk result (λ r. r.1.items ≡ replicate seats 0) }
    {
        let core = Core::new(alloc, maps, parts, workers, limits)?;
        let (log, made) = EventLog::open(alloc, blank, core, seats)?;
        let book = Book {
            log,
            maps: OutputStore::new(alloc),
            reduces: OutputStore::new(alloc),
            alloc,
        };
        Ok((book, made))
    }

    /// The job's sizes and limits. A look at a book shows what every book keeps.
    pub fn shape(&self) -> Shape
        ensures shape { result ≡ self.now.shape }
        ensures kept { IsKept self.now }
        ensures replay { replay self.now.shape self.now.history ≡ Some self.now.state }
    {
        self.log.core().shape()
    }

    /// The job's end, once it has ended.
    pub fn end(&self) -> Option<End>
        ensures { result ≡ self.now.state.end }
    {
        self.log.core().end()
    }

    /// Whether the task is complete; false where there is no such task.
    pub fn complete(&self, task: Task) -> bool
        ensures { result ≡ is_complete self.now.state task }
    {
        self.log.core().complete(task)
    }

    /// The number of its events, without asks that were answered by `Wait`.
    pub fn grown(&self) -> u64
        ensures { result ≡ grown self.now.history }
    {
        self.log.grown()
    }

    /// Whether some attempt could not read what it had fetched.
    pub fn has_damage(&self) -> bool
        ensures { result ≡ has_damage self.now.history }
    {
        self.log.has_damage()
    }

    /// A worker asks for a task.
    pub fn ask(&mut self, seat: &mut Seat<L>, worker: u32) -> Result<Reply, AllocError>
        ensures call { IfOk result (λ r. Calls self.old (Event.Ask worker) r self.new) }
        ensures stored { StoresNothing self.old self.new }
        ensures seat { OnOk result (seat.new ≡ seat.old + 1) }
        ensures err { OnErr result ((self.new ≡ self.old) × (seat.new ≡ seat.old)) }
    {
        self.hear(seat, Event::Ask(worker))
    }

    /// A reduce attempt wants the output of a split, and gets a share of it where there is one.
    pub fn fetch(
        &mut self,
        seat: &mut Seat<L>,
        attempt: u32,
        map: u32,
    ) -> Result<(Reply, Option<Arc<Stored>>), AllocError>
        ensures call { IfOk result (λ r. Calls self.old (Event.Fetch attempt map) r.0 self.new) }
        ensures output { IfOk result (λ r. Hands self.old.maps r.0 r.1) }
        ensures stored { StoresNothing self.old self.new }
        ensures seat { OnOk result (seat.new ≡ seat.old + 1) }
        ensures err { OnErr result ((self.new ≡ self.old) × (seat.new ≡ seat.old)) }
    {
        let share = self.output(map)?;
        let reply = self.hear(seat, Event::Fetch(attempt, map))?;
        let share = handed(&reply, share);
        Ok((reply, share))
    }

    /// A map attempt is done. Its output's number is the number of events before. It is stored
    /// where it is accepted, and comes back where memory is refused.
    pub fn map_done(
        &mut self,
        seat: &mut Seat<L>,
        attempt: u32,
        output: Stored,
    ) -> Result<Reply, AllocFailed<Stored>>
        ensures call { IfOk result
            (λ r. Calls self.old (Event.MapDone attempt (length self.old.history)) r self.new) }
        ensures maps { IfOk result
            (λ r. self.new.maps ≡ stored_by self.old.maps (length self.old.history) output r) }
        ensures reduces { self.new.reduces ≡ self.old.reduces }
        ensures seat { OnOk result (seat.new ≡ seat.old + 1) }
        ensures err { IfErr result (λ e. (self.new ≡ self.old) × (seat.new ≡ seat.old) × (e.value ≡ output)) }
    {
        if self.log.reserve().is_err() || self.maps.reserve().is_err() {
            return Err(AllocFailed { value: output });
        }
        let output = Arc::new(self.alloc, output)?;
        let number = self.log.len();
        let event = Event::MapDone(attempt, number);
        let Ok(reply) = self.log.enter(self.alloc, seat, event) else {
            unreachable!()
        };
        self.maps.store(number, output, &reply);
        Ok(reply)
    }

    /// A map attempt failed on a record of its split.
    pub fn map_failed(
        &mut self,
        seat: &mut Seat<L>,
        attempt: u32,
        number: u32,
    ) -> Result<Reply, AllocError>
        ensures call { IfOk result (λ r. Calls self.old (Event.MapFailed attempt number) r self.new) }
        ensures stored { StoresNothing self.old self.new }
        ensures seat { OnOk result (seat.new ≡ seat.old + 1) }
        ensures err { OnErr result ((self.new ≡ self.old) × (seat.new ≡ seat.old)) }
    {
        self.hear(seat, Event::MapFailed(attempt, number))
    }

    /// A reduce attempt is done. Its output's number is the number of events before. It is stored
    /// where it is accepted, and comes back where memory is refused.
    pub fn reduce_done(
        &mut self,
        seat: &mut Seat<L>,
        attempt: u32,
        output: ReduceOutput,
    ) -> Result<Reply, AllocFailed<ReduceOutput>>
        ensures call { IfOk result
            (λ r. Calls self.old (Event.ReduceDone attempt (length self.old.history)) r self.new) }
        ensures reduces { IfOk result (λ r. self.new.reduces
            ≡ stored_by self.old.reduces (length self.old.history) output r) }
        ensures maps { self.new.maps ≡ self.old.maps }
        ensures seat { OnOk result (seat.new ≡ seat.old + 1) }
        ensures err { IfErr result (λ e. (self.new ≡ self.old) × (seat.new ≡ seat.old) × (e.value ≡ output)) }
    {
        if self.log.reserve().is_err() || self.reduces.reserve().is_err() {
            return Err(AllocFailed { value: output });
        }
        let output = Arc::new(self.alloc, output)?;
        let number = self.log.len();
        let event = Event::ReduceDone(attempt, number);
        let Ok(reply) = self.log.enter(self.alloc, seat, event) else {
            unreachable!()
        };
        self.reduces.store(number, output, &reply);
        Ok(reply)
    }

    /// A worker is lost. Its outputs stay stored.
    pub fn lose(&mut self, seat: &mut Seat<L>, worker: u32) -> Result<Reply, AllocError>
        ensures call { IfOk result (λ r. Calls self.old (Event.Lose worker) r self.new) }
        ensures stored { StoresNothing self.old self.new }
        ensures seat { OnOk result (seat.new ≡ seat.old + 1) }
        ensures err { OnErr result ((self.new ≡ self.old) × (seat.new ≡ seat.old)) }
    {
        self.hear(seat, Event::Lose(worker))
    }

    /// A reduce attempt can't read what it fetched from a split. The output stays stored.
    pub fn damaged(
        &mut self,
        seat: &mut Seat<L>,
        attempt: u32,
        map: u32,
    ) -> Result<Reply, AllocError>
        ensures call { IfOk result (λ r. Calls self.old (Event.Damaged attempt map) r self.new) }
        ensures stored { StoresNothing self.old self.new }
        ensures seat { OnOk result (seat.new ≡ seat.old + 1) }
        ensures err { OnErr result ((self.new ≡ self.old) × (seat.new ≡ seat.old)) }
    {
        self.hear(seat, Event::Damaged(attempt, map))
    }

    /// The whole history. It takes all seats that the book was opened with.
    pub fn close(self, seats: Vec<Seat<L>>) -> History
        requires { vec_len seats ≡ L.parts }
        ensures shape { result.shape ≡ self.shape }
        ensures entries { result.entries.items ≡ self.history }
        ensures maps { result.maps.items ≡ self.maps }
        ensures reduces { result.reduces.items ≡ self.reduces }
        ensures calls { length self.history ≡ sum seats.items }
        ensures kept { IsKept self }
        ensures replay { replay self.shape self.history ≡ Some self.state }
        ensures promises { Promises self.shape self.history self.state }
    {
        let Book {
            log,
            maps,
            reduces,
            alloc: _,
        } = self;
        let (shape, entries) = log.close(seats);
        History {
            shape,
            entries,
            maps: maps.into_vec(),
            reduces: reduces.into_vec(),
        }
    }

    pub(crate) fn core(&self) -> &Core
        ensures core { result.now ≡ record { shape = self.now.shape; state = self.now.state } }
        ensures run { IsRun result.now self.now.history }
    {
        self.log.core()
    }

    /// The reduce output that is committed under a number.
    pub(crate) fn reduce_output(&self, number: u64) -> &ReduceOutput
        requires { IsSome (stored_at self.now.reduces number) }
        ensures { stored_at self.now.reduces number ≡ Some result.now }
    {
        self.reduces.at(number).output()
    }

    /// Applies an event that comes with no output.
    fn hear(&mut self, seat: &mut Seat<L>, event: Event) -> Result<Reply, AllocError>
        requires { output_with event ≡ None }
        ensures call { IfOk result (λ r. Calls self.old event r self.new) }
        ensures stored { StoresNothing self.old self.new }
        ensures seat { OnOk result (seat.new ≡ seat.old + 1) }
        ensures err { OnErr result ((self.new ≡ self.old) × (seat.new ≡ seat.old)) }
    {
        self.log.reserve()?;
        self.log.enter(self.alloc, seat, event)
    }

    /// A share of the output of a complete split.
    fn output(&self, map: u32) -> Result<Option<Arc<Stored>>, AllocError>
        ensures { IfOk result (λ share. Shares self.now.maps (output_of self.now.state map) share) }
    {
        let core = self.log.core();
        if map >= core.shape().maps {
            return Ok(None);
        }
        match core.output(map) {
            Some(number) => Ok(Some(self.maps.at(number).share()?)),
            None => Ok(None),
        }
    }
}

fn handed(reply: &Reply, share: Option<Arc<Stored>>) -> Option<Arc<Stored>>
    ensures { result ≡ (if is_some (region_in reply.now) then share else None) }
{
    match reply {
        Reply::Region { .. } => share,
        _ => None,
    }
}

/// What is complete is stored: the output of a split, and the committed one of a partition.
pub fn what_is_complete_is_stored()
    ensures outputs { OutputsAreStored }
    ensures commits { CommitsAreStored }
{}

/// The reduce value over the map values of all splits is the sequential execution's for the
/// partition, and so it is over their regions, however these are cut.
pub fn values_law()
    ensures sequential { ValuesAreSequential }
    ensures cuts { CutsDontMatter }
{}

/// A committed reduce attempt has exactly one value: that over the fixed left-out sets.
pub fn attempts_law()
    ensures one { AttemptsHaveOneValue }
    ensures some { CommittedHaveAValue }
{}

/// Once a job is done, each split's left-out set is fixed. Where each committed reduce output is
/// its attempt's value and each accepted failure names a record of its split, the assembled files
/// are the sequential execution's without the fixed sets, and good with the assembled certificate.
pub fn done_law()
    ensures fixed { DoneSetsAreFixed }
    ensures sequential { DoneIsSequential }
    ensures certified { DoneIsCertified }
    ensures good { DoneIsGood }
    ensures result { DoneIsAGoodResult }
{}

/// A worked run that leaves out a record. The premises of the laws above hold for it.
pub fn worked_law()
    ensures region { WorkedRegion }
    ensures without { WorkedWithout }
    ensures value { WorkedValue }
    ensures cut { WorkedCut }
    ensures end { WorkedEnd }
    ensures output { WorkedOutput }
    ensures certificate { WorkedCertificate }
    ensures premises { WorkedIsDone }
{}
