//! Where answers are told, and what a run answers, line by line.
use mr_book::{History, HistoryEntry};
use mr_core::Reply;
use mr_pool::{Certified, RunFault};
use std::alloc::{AllocError, Global};
use std::cell::Cell;
use std::fmt::{Debug, Display, Write};
use std::io;

/// Where answers are told. The first fault is remembered, nothing is told behind it, and the program ends with it: so who
/// tells something need not ask whether that was done.
#[derive(Drop)]
pub struct Teller {
    rt: HostRuntime,
    fault: Cell<Option<io::Error>>,
}

impl Teller {
    /// Nothing has failed yet.
    pub fn new(rt: HostRuntime) -> Teller {
        Teller {
            rt,
            fault: Cell::new(None),
        }
    }

    /// The system that answers are told to.
    pub fn runtime(&self) -> &HostRuntime {
        &self.rt
    }

    pub fn alloc(&self) -> Global {
        self.rt.alloc()
    }

    /// The first fault, where there was one.
    pub fn end(self) -> io::Result<()> {
        match self.fault.into_inner() {
            Some(fault) => Err(fault),
            None => Ok(()),
        }
    }

    pub fn has_failed(&self) -> bool {
        let fault = self.fault.take();
        let has_failed = fault.is_some();
        self.fault.set(fault);
        has_failed
    }

    /// Remembers a fault, where there was none before it.
    pub fn fail(&self, fault: io::Error) {
        let first = self.fault.take().unwrap_or(fault);
        self.fault.set(Some(first));
    }

    /// Remembers that memory was refused.
    pub fn lack(&self, refused: AllocError) {
        self.fail(io::Error::from(refused));
    }

    /// Tells a text, where nothing has failed before it.
    pub fn tell<D: Display + Drop>(&self, text: D) {
        let fault = match self.fault.take() {
            Some(fault) => Some(fault),
            None => self.rt.print(text).err(),
        };
        self.fault.set(fault);
    }

    /// A text, on a line of its own or at the end of one.
    pub fn line(&self, text: &str) {
        self.tell(format_args!("{text}\n"));
    }

    /// What something is and its value, on a line of their own.
    pub fn named<A: Display>(&self, what: &str, a: &A) {
        self.tell(format_args!("{what} {a}\n"));
    }

    /// A value, on a line that goes on.
    pub fn value<A: Debug>(&self, a: &A) {
        self.tell(format_args!("{a:?}"));
    }

    /// A value and a bar behind it, on a line that goes on.
    pub fn before_bar<A: Debug>(&self, a: &A) {
        self.tell(format_args!("{a:?}|"));
    }

    /// A value behind a bar, on a line that goes on.
    pub fn behind_bar<A: Debug>(&self, a: &A) {
        self.tell(format_args!("|{a:?}"));
    }

    /// Two values behind a bar, on a line that goes on.
    pub fn behind_bar_with<A: Debug, B: Debug>(&self, a: &A, b: &B) {
        self.tell(format_args!("|{a:?} {b:?}"));
    }

    /// A reply and a bar behind it, where there was memory for one.
    pub fn reply(&self, reply: Result<Reply, AllocError>) {
        match reply {
            Ok(reply) => self.before_bar(&reply),
            Err(refused) => self.lack(refused),
        }
    }

    /// A line of bytes, each as two digits.
    fn bytes(&self, what: &str, bytes: &[u8]) {
        match digits_of(self.rt.alloc(), bytes) {
            Ok(digits) => self.named(what, &digits),
            Err(refused) => self.lack(refused),
        }
    }

    /// The files and the certificate of a result, each on a line.
    pub fn result(&self, outputs: &[Vec<u8>], certificate: &[u8]) {
        for output in outputs {
            self.bytes("file", output.as_slice());
        }
        self.bytes("certificate", certificate);
    }
}

/// Bytes, each as two digits.
fn digits_of(alloc: Global, bytes: &[u8]) -> Result<String, AllocError> {
    let mut digits = String::new(alloc);
    for byte in bytes {
        write!(digits, "{byte:02x}")?;
    }
    Ok(digits)
}

fn show_entry(out: &Teller, entry: &HistoryEntry) {
    out.tell(format_args!("{:?}: {:?}\n", entry.event(), entry.reply()));
}

/// How many events there were, and each with its reply where that is asked for.
fn show_history(out: &Teller, history: &History, has_events: bool) {
    out.named("events", &history.entries.len());
    if has_events {
        for entry in &history.entries {
            show_entry(out, entry);
        }
    }
}

fn show_skips(out: &Teller, certified: &Certified) {
    for skip in &certified.skips {
        out.tell(format_args!("skip {} {}\n", skip.split, skip.rec));
    }
}

fn show_certified(out: &Teller, certified: &Certified) {
    out.tell(format_args!("certified {} pairs\n", certified.pairs));
    out.result(
        certified.outputs.as_slice(),
        certified.certificate.as_slice(),
    );
    show_skips(out, certified);
}

/// Tells why a run has no result.
fn show_fault(out: &Teller, fault: &RunFault, has_events: bool) {
    out.tell(format_args!("{fault}\n"));
    match fault {
        RunFault::Failed(_, history) | RunFault::Uncertified(_, history) => {
            show_history(out, history, has_events);
        }
        RunFault::OutOfMemory => {}
    }
}

/// Tells the answer of a run, or that there was none.
pub fn answer(out: &Teller, done: &Option<Result<Certified, RunFault>>, has_events: bool) {
    match done {
        Some(Ok(certified)) => {
            show_certified(out, certified);
            show_history(out, &certified.history, has_events);
        }
        Some(Err(fault)) => show_fault(out, fault, has_events),
        None => out.line("out of limits"),
    }
}
