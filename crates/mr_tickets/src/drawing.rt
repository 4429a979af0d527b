//! Shares pieces of work among threads, which draw them.
//!
//!     thread 0    0  3  5 ...       draws a number, does that piece, and draws again
//!     thread 1    1 ........        a long piece holds up only its own thread
//!     thread 2    2  4  6 ...
//!     found       (piece, result) of all threads, in any order
//!     slots       [ r0 r1 r2 ... ]  a result for each piece, and then a list in their order
//!
//! Invariant: each piece is drawn once (`Tickets::close`), so each slot is filled, and once.
//! Cost: one atomic step a piece, and one more a thread; a result and a slot for each piece.
ghost use Rattle.std.specs.Prelude.{ℕ, IfOk, ◌≡◌, ◌^◌, ◌<◌, ◌≤◌, ◌+◌, [], ◌∷◌, ◌++◌, None, OnOk};
ghost use Rattle.std.specs.Prelude.{All, length, replicate, slice_index_or, slice_set, Some};
ghost use Rattle.std.specs.Prelude.{vec_len};
ghost use Rattle.mr_tickets.specs.Views.{IsSeatOf};
ghost use Rattle.mr_tickets.specs.Drawn.{weigh, below};
ghost use Rattle.mr_tickets.specs.Pieces.{IsFresh, IsDone, AllGiven, AllSlots, numbers_of};

use crate::tickets::{TicketSeat, Tickets};
use mr_bytes::Gate;
use std::alloc::{AllocError, Global};
use std::thread;
use std::thread::Threads;

/// Work in pieces, numbered from 0, which several threads do at once.
pub trait WorkPieces: Sync {
    type Out: Send + Drop;

    /// The pieces that there are.
    ghost has: { Self → ℕ → Type 0 };

    /// What a piece may return.
    ghost gives: { Self → ℕ → Self.Out → Type 0 };

    /// Does one piece. Fails only for want of memory.
    fn do_piece(&self, alloc: Global, number: u32) -> Result<Self::Out, AllocError>
        requires { has self.now number }
        ensures { IfOk result (gives self.now number) };
}

/// How threads draw the pieces of some work.
#[derive(Drop)]
pub struct Drawing<'g, G: Gate> {
    /// The number of pieces.
    pub count: u32,
    /// The number of threads.
    pub threads: u32,
    /// The gate's number for the first piece.
    pub first: u32,
    /// Each thread calls it before and after each piece.
    pub gate: &'g G,
    pub ghost some: { 0 < threads },
    pub ghost room: { first + count < 2 ^ 32 },
}

#[derive(Drop)]
pub(crate) struct Found<X> {
    pub piece: u32,
    pub out: X,
}

/// A thread's number, which is the place of its seat among all, and its seat.
#[derive(Drop)]
pub(crate) struct Job {
    pub worker: u32,
    pub seat: TicketSeat,
}

/// A thread's seat after its work, and the results of the pieces that it drew.
#[derive(Drop)]
pub(crate) struct Done<X> {
    pub seat: TicketSeat,
    pub found: Vec<Found<X>>,
}

/// Draws pieces until none is left, and does each between the gate's two calls.
fn work<W: WorkPieces, G: Gate>(
    alloc: Global,
    tickets: &Tickets,
    job: Job,
    all: &W,
    drawing: &Drawing<'_, G>,
) -> Result<Done<W::Out>, AllocError>
    requires fresh { IsFresh tickets.now job }
    requires limit { tickets.now.limit ≡ drawing.now.count }
    requires all { (p : ℕ) → p < tickets.now.limit → W.has all.now p }
    ensures { IfOk result (IsDone (W.gives all.now) tickets.now) }
{
    let Job { worker, mut seat } = job;
    let mut found = Vec::new(alloc);
    while let Some(piece) = tickets.draw(&mut seat) {
        let number = drawing.first + piece;
        drawing.gate.enter(worker, number);
        let out = all.do_piece(alloc, piece);
        drawing.gate.leave(worker, number);
        found.push(Found { piece, out: out? })?;
    }
    Ok(Done { seat, found })
}

/// Each seat with its place among all, the last one first.
fn jobs_of(
    alloc: Global,
    tickets: &Tickets,
    mut seats: Vec<TicketSeat>,
) -> Result<Vec<Job>, AllocError>
    requires few { vec_len seats < 2 ^ 32 }
    requires fresh { All (λ s. IsSeatOf tickets.now s × (s.drawn ≡ [])) seats.items }
    ensures count { IfOk result (λ v. vec_len v ≡ vec_len seats) }
    ensures fresh { IfOk result (λ v. All (IsFresh tickets.now) v.items) }
{
    let mut jobs = Vec::with_capacity(alloc, seats.len())?;
    while let Some(seat) = seats.pop() {
        let worker = seats.len() as u32;
        jobs.push(Job { worker, seat })?;
    }
    Ok(jobs)
}

fn take_in<X: Drop>(
    seats: &mut Vec<TicketSeat>,
    found: &mut Vec<Found<X>>,
    done: Done<X>,
) -> Result<(), AllocError>
    ensures seats { OnOk result (seats.new.items ≡ seats.old.items ++ done.seat ∷ []) }
    ensures found { OnOk result (found.new.items ≡ found.old.items ++ done.found.items) }
{
    let Done {
        seat,
        found: mut more,
    } = done;
    found.append(&mut more)?;
    seats.push(seat)?;
    Ok(())
}

/// The results of all threads, in some order: one for each piece.
fn gather<W: WorkPieces>(
    alloc: Global,
    all: &W,
    tickets: Tickets,
    mut dones: Vec<Result<Done<W::Out>, AllocError>>,
) -> Result<Vec<Found<W::Out>>, AllocError>
    requires count { vec_len dones ≡ tickets.seats }
    requires done { All (λ r. IfOk r (IsDone (W.gives all.now) tickets)) dones.items }
    ensures once { IfOk result (λ v. (h : ℕ → ℕ) → weigh h (numbers_of v.items) ≡ below h tickets.limit) }
    ensures given { IfOk result (λ v. AllGiven (W.gives all.now) v.items) }
{
    let mut seats = Vec::new(alloc);
    let mut found = Vec::new(alloc);
    while let Some(done) = dones.pop() {
        let done = done?;
        take_in(&mut seats, &mut found, done)?;
    }
    tickets.close(seats);
    Ok(found)
}

fn empty_slots<X: Drop>(alloc: Global, count: u32) -> Result<Vec<Option<X>>, AllocError>
    ensures { IfOk result (λ v. v.items ≡ replicate count None) }
{
    let mut slots = Vec::new(alloc);
    for _i in 0..count {
        slots.push(None)?;
    }
    Ok(slots)
}

fn put<X: Drop>(slots: &mut [Option<X>], at: usize, out: X)
    requires { at < length slots.old }
    ensures { slots.new ≡ slice_set slots.old at (Some out) }
{
    slots[at] = Some(out);
}

/// Puts each result into its slot. Slots are in falling order of pieces.
fn fill<W: WorkPieces>(
    all: &W,
    count: u32,
    slots: &mut [Option<W::Out>],
    mut found: Vec<Found<W::Out>>,
)
    requires len { length slots.old ≡ count }
    requires within { All (λ f. f.piece < count) found.items }
    requires given { AllGiven (W.gives all.now) found.items }
    requires slots { AllSlots (W.gives all.now) (numbers_of found.items) count slots.old }
    ensures { AllSlots (W.gives all.now) [] count slots.new }
{
    while let Some(next) = found.pop() {
        let Found { piece, out } = next;
        put(slots, (count - 1 - piece) as usize, out);
    }
}

/// The results in the slots, the last slot first.
fn take_all<W: WorkPieces>(
    alloc: Global,
    all: &W,
    count: u32,
    mut slots: Vec<Option<W::Out>>,
) -> Result<Vec<W::Out>, AllocError>
    requires len { vec_len slots ≡ count }
    requires slots { AllSlots (W.gives all.now) [] count slots.items }
    ensures len { IfOk result (λ v. vec_len v ≡ count) }
    ensures each { IfOk result (λ v. (p : ℕ) (d : _) → p < count → W.gives all.now p (slice_index_or v.items p d)) }
{
    let mut outs = Vec::new(alloc);
    while let Some(slot) = slots.pop() {
        let Some(out) = slot else { unreachable!() };
        outs.push(out)?;
    }
    Ok(outs)
}

fn in_order<W: WorkPieces>(
    alloc: Global,
    all: &W,
    count: u32,
    found: Vec<Found<W::Out>>,
) -> Result<Vec<W::Out>, AllocError>
    requires once { (h : ℕ → ℕ) → weigh h (numbers_of found.items) ≡ below h count }
    requires given { AllGiven (W.gives all.now) found.items }
    ensures len { IfOk result (λ v. vec_len v ≡ count) }
    ensures each { IfOk result (λ v. (p : ℕ) (d : _) → p < count → W.gives all.now p (slice_index_or v.items p d)) }
{
    let mut slots = empty_slots(alloc, count)?;
    fill(all, count, slots.as_mut_slice(), found);
    take_all(alloc, all, count, slots)
}

/// Does all pieces on `drawing.threads` threads, and returns the results in the order of the pieces,
/// as one thread would. Each thread draws a piece, does it, and draws again until none is left.
/// Where a thread can't be started, the calling thread does its share. Fails only for want of
/// memory, even in only one thread.
///
/// A thread calls the gate before and after each piece, with its own number, from 0, and the
/// piece's, counted from `drawing.first`.
pub fn draw_all<W: WorkPieces, G: Gate, R: Threads + Sync>(
    rt: &R,
    alloc: Global,
    all: &W,
    drawing: &Drawing<'_, G>,
) -> Result<Vec<W::Out>, AllocError>
    requires { (p : ℕ) → p < drawing.now.count → W.has all.now p }
    ensures len { IfOk result (λ v. vec_len v ≡ drawing.now.count) }
    ensures each { IfOk result (λ v. (p : ℕ) (d : _) → p < drawing.now.count
        → W.gives all.now p (slice_index_or v.items p d)) }
{
    let (tickets, seats) = Tickets::open(alloc, drawing.count, drawing.threads)?;
    let shared = &tickets;
    let jobs = jobs_of(alloc, shared, seats)?;
    let dones = thread::map_vec(
        rt,
        jobs,
        &|job: Job| -> Result<Done<W::Out>, AllocError>
            requires { IsFresh shared.now job
                × (shared.now.limit ≡ drawing.now.count)
                × ((p : ℕ) → p < shared.now.limit → W.has all.now p) }
            ensures { IfOk result (IsDone (W.gives all.entry.now) shared.entry.now) }
        { work(alloc, shared, job, all, drawing) },
    )?;
    let found = gather(alloc, all, tickets, dones)?;
    in_order(alloc, all, drawing.count, found)
}
