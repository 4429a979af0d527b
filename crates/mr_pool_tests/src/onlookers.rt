//! A gate that holds one attempt back, and a watch that counts what it is told.
use crate::telling::Teller;
use mr_bytes::{Gate, Phase, Progress};
use std::sync::atomic::{AtomicBool, AtomicU64, Ordering};
use std::thread;

/// How many turns an attempt is held at most.
const TURNS: u32 = 1_000_000;

/// Holds the first attempt that enters until another has left.
#[derive(Drop)]
pub struct Holding {
    entered: AtomicU64,
    left: AtomicU64,
    is_failed: AtomicBool,
}

impl Holding {
    pub fn new() -> Holding {
        Holding {
            entered: AtomicU64::new(0),
            left: AtomicU64::new(0),
            is_failed: AtomicBool::new(false),
        }
    }

    /// Whether another attempt left in time, and whether as many have left as have entered.
    pub fn says(&self) -> &str {
        let entered = self.entered.load(Ordering::SeqCst);
        if self.is_failed.load(Ordering::SeqCst) {
            "failed"
        } else if entered != self.left.load(Ordering::SeqCst) {
            "not left"
        } else {
            "passed"
        }
    }
}

impl Gate for Holding {
    fn enter(&self, _worker: u32, _piece: u32) {
        if self.entered.fetch_add(1, Ordering::SeqCst) != 0 {
            return;
        }
        for _ in 0..TURNS {
            if self.left.load(Ordering::SeqCst) != 0 {
                return;
            }
            thread::yield_now();
        }
        self.is_failed.store(true, Ordering::SeqCst);
    }

    fn leave(&self, _worker: u32, _piece: u32) {
        self.left.fetch_add(1, Ordering::SeqCst);
    }
}

/// How often a phase was told, and the most that was done of it.
#[derive(Drop)]
struct Told {
    times: AtomicU64,
    most: AtomicU64,
    all: AtomicU64,
}

impl Told {
    fn new() -> Told {
        Told {
            times: AtomicU64::new(0),
            most: AtomicU64::new(0),
            all: AtomicU64::new(0),
        }
    }

    fn hear(&self, done: u64, all: u64) {
        self.times.fetch_add(1, Ordering::SeqCst);
        self.most.fetch_max(done, Ordering::SeqCst);
        self.all.fetch_max(all, Ordering::SeqCst);
    }

    fn show(&self, out: &Teller, phase: Phase) {
        let times = self.times.load(Ordering::SeqCst);
        let most = self.most.load(Ordering::SeqCst);
        let all = self.all.load(Ordering::SeqCst);
        out.tell(format_args!("told {phase:?} {times} times, {most} of {all}\n"));
    }
}

/// Counts what it is told.
#[derive(Drop)]
pub struct Tally {
    mapping: Told,
    reducing: Told,
    judging: Told,
    lost: AtomicU64,
}

impl Tally {
    pub fn new() -> Tally {
        Tally {
            mapping: Told::new(),
            reducing: Told::new(),
            judging: Told::new(),
            lost: AtomicU64::new(0),
        }
    }

    pub fn show(&self, out: &Teller) {
        self.mapping.show(out, Phase::Mapping);
        self.reducing.show(out, Phase::Reducing);
        self.judging.show(out, Phase::Judging);
        out.tell(format_args!("told {} lost\n", self.lost.load(Ordering::SeqCst)));
    }
}

impl Progress for Tally {
    fn report(&self, phase: Phase, done: u64, all: u64) {
        match phase {
            Phase::Mapping => self.mapping.hear(done, all),
            Phase::Reducing => self.reducing.hear(done, all),
            Phase::Judging => self.judging.hear(done, all),
        }
    }

    fn worker_lost(&self) {
        self.lost.fetch_add(1, Ordering::SeqCst);
    }
}
