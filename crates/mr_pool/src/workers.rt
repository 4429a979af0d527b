//! Runs the workers, each in a thread of its own, over what they share (`Shared`).
//!
//!     book, news, stopped        one lock; waiting workers sleep on `news`
//!     plan, request, orders      read by all
//!     completed                  a flag for each task, read without the lock
//!     store, progress            regions; counts of accepted outputs, without the lock
//!
//! A flag is set by an accepted report. Who does the same task looks at it now and then, and leaves
//! off. That ends backups early, at the end of the map phase and of the job. Where a thread can't
//! be made, the calling thread works in its place; a worker that has not begun holds no attempt, so
//! nobody waits for it. The observer is called outside the lock.
//! Source: OSDI 2004, section 3.6.
ghost use Rattle.std.specs.Prelude.{◌≡◌, ◌<◌, ◌^◌, IfOk, vec_len};

use crate::fault_plan::FaultPlan;
use crate::worker::{Worker, WorkerEnd};
use mr_book::{Book, Seat};
use mr_bytes::{Gate, Phase, Progress};
use mr_core::Task;
use mr_jobs::Request;
use mr_spill::RegionStore;
use mr_splits::Plan;
use mr_task::Cancellation;
use std::alloc::{AllocError, Global};
use std::sync::atomic::{AtomicBool, AtomicU64, Ordering};
use std::sync::ledger::Ledger;
use std::sync::{Condvar, Mutex, Wait};
use std::thread;
use std::thread::Threads;

/// The last seat comes first; the last worker has the number 0.
fn workers_of<'s, L: Ledger, G: Gate, W: Progress, S: RegionStore, R: Wait>(
    rt: &'s R,
    shared: &'s Shared<'s, L, G, W, S>,
    mut seats: Vec<Seat<L>>,
) -> Result<Vec<Worker<'s, L, G, W, S, R>>, AllocError>
    requires { vec_len seats < 2 ^ 32 }
    ensures { IfOk result (λ v. vec_len v ≡ vec_len seats) }
{
    let mut workers = Vec::with_capacity(shared.alloc, seats.len())?;
    while let Some(seat) = seats.pop() {
        let number = seats.len() as u32;
        workers.push(Worker {
            rt,
            shared,
            number,
            seat,
            reports: 0,
        })?;
    }
    Ok(workers)
}

/// The seats; an error if a worker ran out of memory.
fn seats_of<L: Ledger>(
    alloc: Global,
    mut ends: Vec<WorkerEnd<L>>,
) -> Result<Vec<Seat<L>>, AllocError>
    ensures { IfOk result (λ v. vec_len v ≡ vec_len ends) }
{
    let mut seats = Vec::with_capacity(alloc, ends.len())?;
    while let Some(one) = ends.pop() {
        let WorkerEnd { seat, refused } = one;
        if refused {
            return Err(AllocError);
        }
        seats.push(seat)?;
    }
    Ok(seats)
}

/// Runs the workers, each in a thread if one can be made. Returns the book and the seats.
pub(crate) fn run_workers<
    L: Ledger + Send + Sync,
    G: Gate,
    W: Progress,
    S: RegionStore + Drop,
    R: Threads + Wait + Sync,
>(
    rt: &R,
    shared: Shared<'_, L, G, W, S>,
    seats: Vec<Seat<L>>,
) -> Result<(Book<L>, Vec<Seat<L>>), AllocError>
    requires { vec_len seats < 2 ^ 32 }
    ensures { IfOk result (λ r. vec_len r.1 ≡ vec_len seats) }
{
    let workers = workers_of(rt, &shared, seats)?;
    let ends = thread::map_vec(rt, workers, &|worker| worker.work())?;
    let seats = seats_of(shared.alloc, ends)?;
    let Shared { book, .. } = shared;
    Ok((book.into_inner(), seats))
}

/// The lock holds the book for one call and nothing else. `news` wakes workers that wait for a
/// task; `stopped` is set once a worker can't go on.
#[derive(Drop)]
pub(crate) struct Shared<'a, L: Ledger, G: Gate, W: Progress, S: RegionStore> {
    pub alloc: Global,
    pub book: Mutex<Book<L>>,
    pub news: Condvar,
    pub stopped: AtomicBool,
    pub plan: Plan<'a>,
    pub request: &'a Request,
    pub orders: FaultPlan<'a>,
    pub completed: TaskFlags,
    pub gate: &'a G,
    pub store: S,
    pub progress: RunProgress<'a, W>,
}

/// The tasks that were complete at some time, without the book's lock. A hint: a map task is
/// incomplete again if its worker was lost.
#[derive(Drop)]
pub(crate) struct TaskFlags {
    maps: Vec<AtomicBool>,
    parts: Vec<AtomicBool>,
}

fn flags(alloc: Global, count: u32) -> Result<Vec<AtomicBool>, AllocError> {
    let mut flags = Vec::with_capacity(alloc, count as usize)?;
    for _ in 0..count {
        flags.push(AtomicBool::new(false))?;
    }
    Ok(flags)
}

impl TaskFlags {
    pub(crate) fn new(alloc: Global, maps: u32, parts: u32) -> Result<TaskFlags, AllocError> {
        Ok(TaskFlags {
            maps: flags(alloc, maps)?,
            parts: flags(alloc, parts)?,
        })
    }

    fn flag(&self, task: Task) -> Option<&AtomicBool> {
        match task {
            Task::Map(split) => self.maps.get(split as usize),
            Task::Reduce(partition) => self.parts.get(partition as usize),
        }
    }

    /// Whether the task is complete. After a loss another output is wanted.
    pub(crate) fn mark(&self, task: Task, is_complete: bool) {
        if let Some(flag) = self.flag(task) {
            flag.store(is_complete, Ordering::SeqCst);
        }
    }

    pub(crate) fn demand(&self, task: Task) -> UntilComplete<'_> {
        UntilComplete {
            flag: self.flag(task),
        }
    }
}

/// The demand for a task's output, until another worker has completed the task.
#[derive(Drop)]
pub(crate) struct UntilComplete<'a> {
    flag: Option<&'a AtomicBool>,
}

impl<'a> Cancellation for UntilComplete<'a> {
    fn is_wanted(&self) -> bool {
        self.flag.is_none_or(|flag| !flag.load(Ordering::SeqCst))
    }
}

/// Counts accepted outputs without the book's lock. A map task that is done again after a loss
/// counts again, so the count stops at the total.
#[derive(Drop)]
pub(crate) struct RunProgress<'a, W: Progress> {
    watch: &'a W,
    maps: u64,
    parts: u64,
    mapped: AtomicU64,
    reduced: AtomicU64,
}

fn count(done: &AtomicU64, all: u64) -> u64 {
    done.fetch_add(1, Ordering::SeqCst)
        .saturating_add(1)
        .min(all)
}

impl<'a, W: Progress> RunProgress<'a, W> {
    pub(crate) fn new(watch: &'a W, maps: u32, parts: u32) -> RunProgress<'a, W> {
        RunProgress {
            watch,
            maps: u64::from(maps),
            parts: u64::from(parts),
            mapped: AtomicU64::new(0),
            reduced: AtomicU64::new(0),
        }
    }

    pub(crate) fn mapped(&self) {
        let done = count(&self.mapped, self.maps);
        self.watch.report(Phase::Mapping, done, self.maps);
    }

    pub(crate) fn reduced(&self) {
        let done = count(&self.reduced, self.parts);
        self.watch.report(Phase::Reducing, done, self.parts);
    }

    pub(crate) fn worker_lost(&self) {
        self.watch.worker_lost();
    }
}

/// Reports the judge's work as one phase: the walk over the certificate is its first half, the
/// windows of the input are the second.
#[derive(Drop)]
pub(crate) struct JudgesProgress<'a, W: Progress> {
    pub watch: &'a W,
}

impl<'a, W: Progress> Progress for JudgesProgress<'a, W> {
    fn report(&self, phase: Phase, done: u64, all: u64) {
        let before = match phase {
            Phase::Reducing | Phase::Judging => 0,
            Phase::Mapping => all,
        };
        self.watch.report(
            Phase::Judging,
            before.saturating_add(done),
            all.saturating_mul(2),
        );
    }

    fn worker_lost(&self) {
        self.watch.worker_lost();
    }
}
