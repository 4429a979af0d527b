//! Numbers below a limit, and the seats that draw them from one atomic word.
//!
//!     word      5              the next number; a draw is one `fetch_add` of 1
//!     seat 0    0  2  3        the numbers that it drew: known to contracts, not stored
//!     seat 1    1  4
//!
//! Invariant: the seats together drew the numbers below the word, each once. It is said by weights:
//! whatever a number weighs, the sums agree. A seat that got `None` makes no step any more, so the
//! word passes the limit by at most one a seat. A lock would let one slow thread hold up the
//! others.
//! Cost: one step a draw, which waits for nobody. First comes the rule of the word. Of its types
//! only `Limits` has values at run time: the others say what each seat knows.
ghost use Rattle.std.specs.Prelude.{◌≡◌, ◌<◌, ℕ, [], ◌∷◌, ◌++◌, true, false, IfOk, IfSome, IfNone};
ghost use Rattle.std.specs.Prelude.{All, length, replicate, vec_len, if◌then◌else◌};
ghost use Rattle.mr_tickets.specs.Drawn.{below, weigh, total, kept, past};
ghost use Rattle.mr_tickets.specs.Views.{TicketsView, SeatView, IsSeatOf};

use atomic_table::{Join, Play, Seat, Split, Table, TableRule};
use std::alloc::{AllocError, Global};
use std::collections::LinkedList;
use std::marker::Model;

/// A seat's parts of the right to know the whole, and all numbers that its steps returned.
pub struct Hand {
    pub parts: u64,
    pub drawn: LinkedList<u64>,
}

/// How many numbers there are, and how many seats.
#[derive(Clone, Copy)]
pub struct Limits {
    pub limit: u32,
    pub seats: u32,
}

/// The rule of the word: the numbers in all views are those below it, each once.
pub struct Numbers;

impl TableRule<(), Hand, Limits> for Numbers {
    ghost use Rattle.mr_tickets.specs.Rule.{IsKept, hand};
    ghost use Rattle.std.specs.Prelude.{[]};

    ghost holds = { IsKept };

    ghost first = { λ l. hand l.seats [] };
}

/// A step that draws.
pub struct Draw;

impl Play<(), Hand> for Draw {
    ghost use Rattle.mr_tickets.specs.Plays.{Draws};

    ghost then = { Draws };
}

/// Gives one part to a new seat.
pub struct Part;

impl Split<Hand> for Part {
    ghost use Rattle.mr_tickets.specs.Rule.{hand};
    ghost use Rattle.mr_tickets.specs.Plays.{one_less};
    ghost use Rattle.std.specs.Prelude.{[]};

    ghost left = { one_less };

    ghost right = { λ v. hand 1 [] };
}

/// Joins two seats.
pub struct Both;

impl Join<Hand> for Both {
    ghost use Rattle.mr_tickets.specs.Rule.{hand};
    ghost use Rattle.mr_tickets.specs.Plays.{both};
    ghost use Rattle.std.specs.Prelude.{[]};

    ghost both = { both };

    ghost spent = { hand 0 [] };
}

/// The numbers below a limit, for any number of threads to draw at once.
#[derive(Drop)]
pub struct Tickets {
    limit: u32,
    table: Table<(), Hand, Limits, Numbers, Global>,
}

impl Model for Tickets {
    ghost use Rattle.std.specs.Prelude.{◌≡◌, ◌^◌, ◌<◌};
    ghost use Rattle.mr_tickets.specs.Views.{TicketsView};

    ghost Value = { TicketsView };

    ghost view = { λ t. record { table = t.table.shared.table_id; limit = t.limit; seats = t.table.shared.key.seats } };

    ghost invariant = { λ t. (t.table.shared.table_id.words ≡ 1) × (t.table.shared.table_id.slots ≡ 0) × (t.table.shared.key.limit ≡ t.limit)
        × (t.table.shared.key.limit < 2 ^ 32) × (0 < t.table.shared.key.seats)
        × (t.table.shared.key.seats < 2 ^ 32) };
}

/// Draws numbers of one `Tickets`. It knows which it drew, and whether it got `None`.
#[derive(Drop)]
pub struct TicketSeat {
    limit: u32,
    told: bool,
    seat: Seat<(), Hand>,
}

impl Model for TicketSeat {
    ghost use Rattle.std.specs.Prelude.{◌≡◌, [], if◌then◌else◌};
    ghost use Rattle.mr_tickets.specs.Drawn.{kept, weigh, past};
    ghost use Rattle.mr_tickets.specs.Views.{SeatView};

    ghost Value = { SeatView };

    ghost view = { λ s. record { table = s.seat.table_id; limit = s.limit; drawn = kept s.limit s.seat.me.0.drawn; told = s.told } };

    ghost invariant = { λ s. (s.seat.me.1 ≡ []) × (s.seat.me.0.parts ≡ 1) × (weigh (past s.limit) s.seat.me.0.drawn ≡ (if s.told then 1 else 0)) };
}

impl TicketSeat {
    fn of(limit: u32, seat: Seat<(), Hand>) -> TicketSeat
        requires { (seat.me.1 ≡ []) × (seat.me.0.parts ≡ 1) × (seat.me.0.drawn ≡ []) }
        ensures { result ≡ record { table = seat.table_id; limit = limit; drawn = []; told = false } }
    {
        TicketSeat {
            limit,
            told: false,
            seat,
        }
    }

    /// The seat at the word, which also knows the numbers past the limit.
    fn into_seat(self) -> Seat<(), Hand>
        ensures table { result.table_id ≡ self.table }
        ensures one { (result.me.1 ≡ []) × (result.me.0.parts ≡ 1) }
        ensures drawn { kept self.limit result.me.0.drawn ≡ self.drawn }
        ensures told { weigh (past self.limit) result.me.0.drawn ≡ (if self.told then 1 else 0) }
    {
        let TicketSeat {
            limit: _,
            told: _,
            seat,
        } = self;
        seat
    }
}

impl Tickets {
    /// The numbers below `limit`, and seats that draw them. Fails only for want of memory.
    pub fn open(
        alloc: Global,
        limit: u32,
        seats: u32,
    ) -> Result<(Tickets, Vec<TicketSeat>), AllocError>
        requires { 0 < seats }
        ensures tickets { IfOk result (λ r. (r.0.limit ≡ limit) × (r.0.seats ≡ seats)) }
        ensures seats { IfOk result (λ r. r.1.items ≡ replicate seats
            (record { table = r.0.table; limit = limit; drawn = []; told = false })) }
    {
        let about = Limits { limit, seats };
        let (table, mut first) = Table::<(), Hand, Limits, Numbers, Global>::of_words(
            alloc,
            &[0],
            &about,
        )?;
        let mut made = Vec::new(alloc);
        for _i in 0..seats {
            let seat = table.shared.split_seat::<Part>(&mut first);
            made.push(TicketSeat::of(limit, seat))?;
        }
        Ok((Tickets { limit, table }, made))
    }

    /// The next number, or `None` once all are drawn, by a single step of the word. A seat that got
    /// `None` gets it from then on, without a step. The seat must be one of these tickets'.
    pub fn draw(&self, seat: &mut TicketSeat) -> Option<u32>
        requires { IsSeatOf self.now seat.old }
        ensures some { IfSome result (λ n. (n < self.now.limit) × (seat.old.told ≡ false)
            × (length seat.old.drawn < self.now.limit)
            × (seat.new ≡ record seat.old { drawn = seat.old.drawn ++ n ∷ [] })) }
        ensures none { IfNone result (seat.new ≡ record seat.old { told = true }) }
    {
        if seat.told {
            return None;
        }
        // No seat makes more than one step past the limit, so a word of 64 bits has room.
        let found = self.table.shared.fetch_add::<Draw>(&mut seat.seat, 0, 1);
        if found < self.limit as u64 {
            Some(found as u32)
        } else {
            seat.told = true;
            None
        }
    }

    /// Takes all seats back. Where each got `None`, the numbers below the limit were drawn, each
    /// once: under any weights their sums agree.
    pub fn close(self, mut seats: Vec<TicketSeat>)
        requires mine { All (IsSeatOf self) seats.items }
        requires all { vec_len seats ≡ self.seats }
        ensures { All (λ s. s.told ≡ true) seats.items → (h : ℕ → ℕ)
            → total (λ s. weigh h s.drawn) seats.items ≡ below h self.limit }
    {
        let Tickets { limit: _, table } = self;
        let Some(seat) = seats.pop() else {
            unreachable!()
        };
        let mut base = seat.into_seat();
        while let Some(seat) = seats.pop() {
            table.shared.join_seat::<Both>(&mut base, seat.into_seat());
        }
        table.close_with(base).free();
    }
}
