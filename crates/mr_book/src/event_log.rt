//! The master with its history: each event, and its reply. Workers reach a book through their
//! seats.
//!
//!     seat 0    3 calls  \
//!     seat 1    2 calls   >   ledger: 5 calls   =   5 entries of the history
//!     seat 2    0 calls  /
//!
//! Invariant: the history is a run of the master, and the ledger's total is its length. `close`
//! takes all seats, so it shows that the history has as many events as the seats made calls,
//! whoever held them. The ledger takes no room at run time. A waiting worker looks at `grown` to
//! see news.
//! Cost: an entry and two equal replies a call; one reply is kept, and one returned.
ghost use Rattle.std.specs.Prelude.{◌≡◌, ◌+◌, ◌≤◌, ◌∷◌, ◌++◌, [], length, replicate, sum, vec_len};
ghost use Rattle.std.specs.Prelude.{IfOk, OnOk, OnErr, ◌^◌, ◌<◌, ℕ};
ghost use Rattle.mr_core.specs.declared.event.Reply.{Reply};
ghost use Rattle.mr_core.specs.Core.{IsStep, IsRun, TakesMemory};
ghost use Rattle.mr_book.specs.Calls.{grown, has_damage, is_damage, is_wait};

use mr_core::{Core, End, Event, Limits, Reply, Shape, Task};
use std::alloc::{AllocError, Global};
use std::marker::Model;
use std::sync::ledger;
use std::sync::ledger::{Blank, Ledger, Share};

/// A master and its history. `growth` counts the events without asks that were answered by `Wait`;
/// `damage` says whether a region could not be read. `calls` is the ledger of all calls, of which
/// each seat has a share; `rest` has no part.
#[derive(Drop)]
pub(crate) struct EventLog<L: Ledger> {
    core: Core,
    entries: Vec<HistoryEntry>,
    growth: u64,
    damage: bool,
    calls: ledger::Book<L>,
    rest: Share<L>,
}

impl<L: Ledger> Model for EventLog<L> {
    ghost use Rattle.std.specs.Prelude.{◌≡◌, ◌-◌, vec_len, vec_capacity};
    ghost use Rattle.mr_core.specs.Core.{IsRun};
    ghost use Rattle.mr_book.specs.Log.{LogView};
    ghost use Rattle.mr_book.specs.Calls.{grown, has_damage};

    ghost Value = { LogView };

    ghost view = { λ l. record { core = l.core; history = l.entries.items; room = vec_capacity l.entries - vec_len l.entries } };

    ghost invariant = { λ l. record {
      run : IsRun l.core l.entries.items;
      growth : l.growth ≡ grown l.entries.items;
      damage : l.damage ≡ has_damage l.entries.items;
      calls : l.calls.total ≡ vec_len l.entries;
      rest : (l.rest.parts ≡ 0) × (l.rest.amount ≡ 0);
    } };
}

impl<L: Ledger> EventLog<L> {
    pub(crate) fn open(
        alloc: Global,
        blank: Blank,
        core: Core,
        seats: usize,
    ) -> Result<(EventLog<L>, Vec<Seat<L>>), AllocError>
        requires ledger { (blank.name ≡ L.name) × (blank.parts ≡ L.parts) }
        requires seats { blank.parts ≡ seats }
        requires opening { IsRun core [] }
        ensures core { IfOk result (λ r. r.0.core ≡ core) }
        ensures history { IfOk result (λ r. r.0.history ≡ []) }
        ensures seats { IfOk result (λ r. r.1.items ≡ replicate seats 0) }
    {
        let (calls, mut rest) = blank.open::<L>();
        let made = seats_of(alloc, &mut rest, seats)?;
        let log = EventLog {
            core,
            entries: Vec::new(alloc),
            growth: 0,
            damage: false,
            calls,
            rest,
        };
        Ok((log, made))
    }

    pub(crate) fn len(&self) -> u64
        ensures { result ≡ length self.now.history }
    {
        self.entries.len() as u64
    }

    pub(crate) fn grown(&self) -> u64
        ensures { result ≡ grown self.now.history }
    {
        self.growth
    }

    pub(crate) fn has_damage(&self) -> bool
        ensures { result ≡ has_damage self.now.history }
    {
        self.damage
    }

    pub(crate) fn core(&self) -> &Core
        ensures core { result.now ≡ self.now.core }
        ensures run { IsRun self.now.core self.now.history }
    {
        &self.core
    }

    /// Makes room for one event more.
    pub(crate) fn reserve(&mut self) -> Result<(), AllocError>
        ensures ok { OnOk result (1 ≤ self.new.room) }
        ensures core { self.new.core ≡ self.old.core }
        ensures history { self.new.history ≡ self.old.history }
    {
        self.entries.reserve(1)
    }

    /// Applies an event to the master, and appends it with its reply.
    pub(crate) fn enter(
        &mut self,
        alloc: Global,
        seat: &mut Seat<L>,
        event: Event,
    ) -> Result<Reply, AllocError>
        requires { 1 ≤ self.old.room }
        ensures step { IfOk result (λ r. IsStep self.old.core event r self.new.core) }
        ensures history { IfOk result (λ r. self.new.history ≡ self.old.history ++ (event, r) ∷ []) }
        ensures seat { OnOk result (seat.new ≡ seat.old + 1) }
        ensures memory { OnErr result (TakesMemory event) }
        ensures err { OnErr result ((self.new ≡ self.old) × (seat.new ≡ seat.old)) }
    {
        let (reply, again) = self.core.apply_with_copy(alloc, event)?;
        if !is_wait(event, &reply) {
            self.growth += 1;
        }
        self.damage = self.damage || is_damage(event);
        self.entries.push_reserved(HistoryEntry::of(event, again));
        seat.count(&mut self.calls);
        Ok(reply)
    }

    pub(crate) fn close(self, seats: Vec<Seat<L>>) -> (Shape, Vec<HistoryEntry>)
        requires { vec_len seats ≡ L.parts }
        ensures shape { result.0 ≡ self.core.shape }
        ensures entries { result.1.items ≡ self.history }
        ensures calls { length self.history ≡ sum seats.items }
        ensures run { IsRun self.core self.history }
    {
        let EventLog {
            core,
            entries,
            growth: _,
            damage: _,
            mut calls,
            mut rest,
        } = self;
        gather(&mut rest, seats);
        calls.audit(&mut rest);
        (core.shape(), entries)
    }
}

fn is_wait(event: Event, reply: &Reply) -> bool
    ensures { result ≡ is_wait (event, reply.now) }
{
    matches!((event, reply), (Event::Ask(_), Reply::Wait))
}

fn is_damage(event: Event) -> bool
    ensures { (reply : Reply) → result ≡ is_damage (event, reply) }
{
    matches!(event, Event::Damaged(..))
}

/// An event with its reply.
#[derive(Debug, Drop)]
pub struct HistoryEntry {
    event: Event,
    reply: Reply,
}

impl Model for HistoryEntry {
    ghost use Rattle.mr_core.specs.declared.event.Event.{Event};
    ghost use Rattle.mr_core.specs.declared.event.Reply.{Reply};

    ghost Value = { Event × Reply };

    ghost view = { λ e. (e.event, e.reply) };
}

impl HistoryEntry {
    pub(crate) fn of(event: Event, reply: Reply) -> HistoryEntry
        ensures { result ≡ (event, reply) }
    {
        HistoryEntry { event, reply }
    }

    pub fn event(&self) -> Event
        ensures { result ≡ self.now.0 }
    {
        self.event
    }

    pub fn reply(&self) -> &Reply
        ensures { result.now ≡ self.now.1 }
    {
        &self.reply
    }
}

/// A worker's place at a book. Contracts see the number of calls that were made with it.
#[derive(Drop)]
pub struct Seat<L: Ledger> {
    calls: u64,
    share: Share<L>,
}

impl<L: Ledger> Model for Seat<L> {
    ghost use Rattle.std.specs.Prelude.{◌≡◌, ℕ};

    ghost Value = { ℕ };

    ghost view = { λ s. s.calls };

    ghost invariant = { λ s. (s.share.amount ≡ s.calls) × (s.share.parts ≡ 1) };
}

impl<L: Ledger> Seat<L> {
    fn of(share: Share<L>) -> Seat<L>
        requires { (share.amount ≡ 0) × (share.parts ≡ 1) }
        ensures { result ≡ 0 }
    {
        Seat { calls: 0, share }
    }

    pub fn calls(&self) -> u64
        ensures { result ≡ self.now }
    {
        self.calls
    }

    /// Counts a call, here and in the ledger of all calls.
    pub(crate) fn count(&mut self, calls: &mut ledger::Book<L>)
        requires { calls.old.total < 2 ^ 63 }
        ensures seat { self.new ≡ self.old + 1 }
        ensures calls { calls.new.total ≡ calls.old.total + 1 }
    {
        calls.audit(&mut self.share);
        calls.add(&mut self.share, 1);
        self.calls += 1;
    }

    fn into_share(self) -> Share<L>
        ensures { (result.amount ≡ self) × (result.parts ≡ 1) }
    {
        let Seat { calls: _, share } = self;
        share
    }
}

/// A seat for each part of the share, which keeps none.
pub(crate) fn seats_of<L: Ledger>(
    alloc: Global,
    rest: &mut Share<L>,
    count: usize,
) -> Result<Vec<Seat<L>>, AllocError>
    requires { (rest.old.parts ≡ count) × (rest.old.amount ≡ 0) }
    ensures seats { IfOk result (λ v. v.items ≡ replicate count 0) }
    ensures rest { OnOk result ((rest.new.parts ≡ 0) × (rest.new.amount ≡ 0)) }
{
    let mut seats = Vec::with_capacity(alloc, count)?;
    for _i in 0..count {
        let share = rest.split_off(1, 0);
        seats.push(Seat::of(share))?;
    }
    Ok(seats)
}

/// Merges all seats' calls into one share.
pub(crate) fn gather<L: Ledger>(rest: &mut Share<L>, mut seats: Vec<Seat<L>>)
    ensures parts { rest.new.parts ≡ rest.old.parts + vec_len seats }
    ensures amount { rest.new.amount ≡ rest.old.amount + sum seats.items }
{
    while let Some(seat) = seats.pop() {
        rest.merge(seat.into_share());
    }
}
