//! What long work calls while it runs: a gate around each piece, and an observer of its progress.

/// Workers call `enter` before each piece of work and `leave` after it. A test may block them here.
pub trait Gate: Sync {
    fn enter(&self, worker: u32, piece: u32);

    fn leave(&self, worker: u32, piece: u32);
}

/// A gate that blocks nobody.
pub struct OpenGate;

impl Gate for OpenGate {
    fn enter(&self, _worker: u32, _piece: u32) {}

    fn leave(&self, _worker: u32, _piece: u32) {}
}

/// A phase of long work.
#[derive(Clone, Copy, PartialEq, Eq, Debug)]
pub enum Phase {
    /// Mapping records, or map tasks.
    Mapping,
    /// Reducing groups, or reduce tasks.
    Reducing,
    /// Judging a result.
    Judging,
}

/// Receives reports of progress, perhaps from several threads at once. No clause mentions it.
pub trait Progress: Sync {
    /// The phase has done `done` of `all` records, pairs or tasks.
    fn report(&self, phase: Phase, done: u64, all: u64);

    /// A worker is lost.
    fn worker_lost(&self);
}

/// Ignores all reports.
pub struct Unwatched;

impl Progress for Unwatched {
    fn report(&self, _phase: Phase, _done: u64, _all: u64) {}

    fn worker_lost(&self) {}
}

impl<'a> Progress for &'a dyn Progress {
    fn report(&self, phase: Phase, done: u64, all: u64) {
        (**self).report(phase, done, all);
    }

    fn worker_lost(&self) {
        (**self).worker_lost();
    }
}

/// The work between two reports: enough never to hold it up, little enough for a terminal.
const STRIDE: u64 = 4096;

/// Reports the progress of one phase, one report a stride.
#[derive(Drop)]
pub struct Throttle {
    phase: Phase,
    all: u64,
    next: u64,
}

impl Throttle {
    /// A phase with `all` to do. Reports nothing yet.
    pub fn new(phase: Phase, all: u64) -> Throttle {
        Throttle {
            phase,
            all,
            next: 0,
        }
    }

    /// Reports at the first call, and then once `done` is a stride beyond the last report.
    #[inline]
    pub fn reach(&mut self, done: u64, watch: &dyn Progress) {
        if done < self.next {
            return;
        }
        watch.report(self.phase, done, self.all);
        self.next = done.saturating_add(STRIDE);
    }
}
