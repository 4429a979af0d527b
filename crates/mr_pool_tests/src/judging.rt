//! Numbers that seats draw, and a result that several threads judge.
ghost use Rattle.mr_tickets.specs.Views.{IsSeatOf};

use crate::asked::Order;
use crate::onlookers::Holding;
use crate::telling::Teller;
use mr_bytes::{Gate, Unwatched};
use mr_check::{Computation, No, Yes, accept_read, check_gated};
use mr_pool::Certified;
use mr_store::{CountedRead, MemoryReader};
use mr_tickets::{TicketSeat, Tickets};
use std::alloc::{AllocError, Global};
use std::thread::Threads;

/// Holds the first section that enters until another has left, and likewise the first window.
#[derive(Drop)]
pub struct PhasesHeld {
    /// The number of windows, if each split has one. They are numbered before the sections.
    count: u32,
    windows: Holding,
    sections: Holding,
}

impl PhasesHeld {
    /// Nobody is held yet.
    pub fn of(certified: &Certified) -> PhasesHeld {
        PhasesHeld {
            count: certified.history.shape.maps,
            windows: Holding::new(),
            sections: Holding::new(),
        }
    }

    fn holder(&self, piece: u32) -> &Holding {
        if piece < self.count {
            &self.windows
        } else {
            &self.sections
        }
    }
}

impl Gate for PhasesHeld {
    fn enter(&self, worker: u32, piece: u32) {
        self.holder(piece).enter(worker, piece);
    }

    fn leave(&self, worker: u32, piece: u32) {
        self.holder(piece).leave(worker, piece);
    }
}

/// The verdict on a run's result, by as many threads as it had workers.
pub fn judged<G: Gate, R: Threads + Sync>(
    rt: &R,
    alloc: Global,
    order: &Order,
    certified: &Certified,
    gate: &G,
) -> Option<Result<Yes, No>> {
    let request = &order.request;
    let input = &order.input;
    let workers = order.workers;
    if !request.fits(input) || workers < 1 || 64 < workers {
        return None;
    }
    Some(check_gated(
        rt,
        alloc,
        request,
        input,
        certified.outputs.as_slice(),
        certified.certificate.as_slice(),
        workers,
        gate,
    ))
}

/// Whether the fast judge accepts a run's result: one thread, of a certificate that a reader gives.
fn is_accepted(alloc: Global, order: &Order, certified: &Certified) -> Result<bool, AllocError> {
    let request = &order.request;
    let input = &order.input;
    if !request.fits(input) {
        return Ok(false);
    }
    let bytes = Vec::from_slice(alloc, certified.certificate.as_slice())?;
    let mut certificate = MemoryReader::new(bytes, 65_536, None);
    // What is left to read are bytes.
    let _known = certificate.failures();
    let computation = Computation { request, input };
    let outputs = certified.outputs.as_slice();
    let yes = accept_read(alloc, &computation, outputs, &mut certificate, &Unwatched);
    Ok(yes.is_some())
}

/// Tells whether the fast judge accepts a run's result.
pub fn show_accepted(out: &Teller, alloc: Global, order: &Order, certified: &Certified) {
    match is_accepted(alloc, order, certified) {
        Ok(accepted) => out.named("accepted", &accepted),
        Err(refused) => out.lack(refused),
    }
}

/// Tells the verdict on a run's result.
fn show_verdict(out: &Teller, verdict: &Option<Result<Yes, No>>) {
    match verdict {
        Some(Ok(yes)) => out.tell(format_args!("yes {} {}\n", yes.pairs, yes.skips.len())),
        Some(Err(no)) => out.named("no", no),
        None => out.line("out of limits"),
    }
}

/// Prints the verdict on a run's result, and whether a second section went on while the first was
/// held, and likewise a second window.
pub fn show(out: &Teller, verdict: &Option<Result<Yes, No>>, gate: &PhasesHeld) {
    show_verdict(out, verdict);
    out.tell(format_args!("gate {}, {}\n", gate.sections.says(), gate.windows.says()));
}

/// Tells what a seat draws.
fn show_draw(out: &Teller, tickets: &Tickets, seat: &mut TicketSeat)
    requires before { IsSeatOf tickets.now seat.old }
    ensures behind { IsSeatOf tickets.now seat.new }
{
    let drawn = tickets.draw(seat);
    out.tell(format_args!("drawn {drawn:?}\n"));
}

/// Tells what a seat draws five times, and what the other draws behind it.
fn show_six_draws(out: &Teller, tickets: &Tickets, alone: &mut TicketSeat, other: &mut TicketSeat)
    requires alone { IsSeatOf tickets.now alone.old }
    requires other { IsSeatOf tickets.now other.old }
{
    show_draw(out, tickets, alone);
    show_draw(out, tickets, alone);
    show_draw(out, tickets, alone);
    show_draw(out, tickets, alone);
    show_draw(out, tickets, alone);
    show_draw(out, tickets, other);
}

/// Tells what one of two seats draws of three numbers, alone, and what the other draws behind it.
pub fn show_draws(out: &Teller, alloc: Global) {
    let Ok((tickets, mut seats)) = Tickets::open(alloc, 3, 2) else {
        return out.line("out of memory");
    };
    let (Some(mut other), Some(mut alone)) = (seats.pop(), seats.pop()) else {
        return out.line("no seats");
    };
    show_six_draws(out, &tickets, &mut alone, &mut other);
}
