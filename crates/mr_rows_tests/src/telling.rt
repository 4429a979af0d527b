//! Where handlers tell what they answer. A `?` behind each print is dear to prove, so a line that could not be written is
//! remembered here, and the program's end tells it. Each value that one call prints adds to what the proof of the function
//! costs in which it stands, so these are few to a method, each proved once.
use std::alloc::Global;
use std::cell::Cell;
use std::fmt::{Debug, Display};
use std::io;
use std::io::{Lines, Read, StdinLock};

/// Standard output and input, and what was the last fault of writing.
#[derive(Drop)]
pub struct Teller {
    rt: HostRuntime,
    fault: Cell<Option<io::Error>>,
}

impl Teller {
    pub fn new(rt: HostRuntime) -> Teller {
        Teller {
            rt,
            fault: Cell::new(None),
        }
    }

    pub fn alloc(&self) -> Global {
        self.rt.alloc()
    }

    /// All bytes of standard input.
    pub fn all_bytes(&self) -> io::Result<Vec<u8>> {
        let mut bytes = Vec::new(self.rt.alloc());
        self.rt.stdin().read_to_end(&mut bytes)?;
        Ok(bytes)
    }

    /// The lines of standard input.
    pub fn lines(&self) -> Lines<StdinLock<'_>, Global> {
        self.rt.lines(self.rt.alloc())
    }

    fn remember(&self, told: io::Result<()>) {
        if let Err(fault) = told {
            self.fault.set(Some(fault));
        }
    }

    /// The fault of a line that could not be written, where there is one.
    pub fn end(&self) -> io::Result<()> {
        match self.fault.take() {
            Some(fault) => Err(fault),
            None => Ok(()),
        }
    }

    /// A line of what is told as it is displayed.
    pub fn line<A: Display>(&self, a: &A) {
        self.remember(self.rt.println(a));
    }

    /// The end of a line that goes on.
    pub fn end_line(&self) {
        self.remember(self.rt.println(""));
    }

    /// What is told as it is displayed, and a text, on a line that goes on.
    pub fn shown<A: Display>(&self, a: &A, behind: &str) {
        self.remember(print!(&self.rt; "{a}{behind}"));
    }

    /// A text, on a line that goes on.
    pub fn text(&self, text: &str) {
        self.remember(self.rt.print(text));
    }

    /// A line of a value.
    pub fn one<A: Debug>(&self, a: &A) {
        self.remember(println!(&self.rt; "{a:?}"));
    }

    /// A line of two values.
    pub fn two<A: Debug, B: Debug>(&self, a: &A, b: &B) {
        self.before(a, " ");
        self.one(b);
    }

    /// A line of four values, each behind a space.
    pub fn four<A: Debug, B: Debug, C: Debug, D: Debug>(&self, a: &A, b: &B, c: &C, d: &D) {
        self.behind(" ", a);
        self.behind(" ", b);
        self.behind(" ", c);
        self.named(" ", d);
    }

    /// A value, on a line that goes on.
    pub fn part<A: Debug>(&self, a: &A) {
        self.remember(print!(&self.rt; "{a:?}"));
    }

    /// A value and a text, on a line that goes on.
    pub fn before<A: Debug>(&self, a: &A, text: &str) {
        self.remember(print!(&self.rt; "{a:?}{text}"));
    }

    /// A text and a value, on a line that goes on.
    pub fn behind<A: Debug>(&self, text: &str, a: &A) {
        self.remember(print!(&self.rt; "{text}{a:?}"));
    }

    /// A line of a text and a value.
    pub fn named<A: Debug>(&self, text: &str, a: &A) {
        self.remember(println!(&self.rt; "{text}{a:?}"));
    }

    /// Two values behind a bar, on a line that goes on.
    pub fn two_behind_bar<A: Debug, B: Debug>(&self, a: &A, b: &B) {
        self.behind("|", a);
        self.behind(" ", b);
    }

    /// Three values behind a bar, on a line that goes on.
    pub fn three_behind_bar<A: Debug, B: Debug, C: Debug>(&self, a: &A, b: &B, c: &C) {
        self.two_behind_bar(a, b);
        self.behind(" ", c);
    }

    /// A fault, both ways in which it is told, on a line that goes on.
    pub fn fault_part<F: Display + Debug>(&self, fault: &F) {
        self.shown(fault, " ");
        self.before(fault, " ");
    }

    /// A line of a fault, both ways in which it is told.
    pub fn fault<F: Display + Debug>(&self, fault: &F) {
        self.shown(fault, " ");
        self.one(fault);
    }
}
