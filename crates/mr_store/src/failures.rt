//! Counts the failed calls of a reader or a writer of std: a file, or standard output.
//!
//! An interrupted call has failed, and so has a write that takes no byte. No clause of std says what
//! bytes a file holds, so those of a `Counted` are unknown.
ghost use Rattle.std.specs.Prelude.{◌≡◌, ◌↔◌, ◌⊎◌, ◌≤◌, ◌<◌, false, None, IfOk, IsErr, IsTrue};
ghost use Rattle.std.specs.Prelude.{MatchResult, length};
ghost use Rattle.std.specs.IoError.{error_kind};
ghost use Rattle.std.specs.declared.io.ErrorKind.TheVariants.{OutOfMemory as no_memory};
ghost use Rattle.std.specs.Io.KnownBytes.{ReadConsumes, WriteAppends};
ghost use Rattle.mr_store.specs.Devices.{Counts};

use crate::device::{CountedRead, CountedWrite, Device};
use std::io::{self, ErrorKind, Read, Write};

/// How many calls failed, in 64 bits, and whether one was refused memory.
#[derive(Drop)]
pub struct Failures {
    pub count: u64,
    pub lacked_memory: bool,
}

impl Failures {
    /// None so far.
    pub fn new() -> Failures
        ensures count { result.count ≡ 0 }
        ensures lacked { result.lacked_memory ≡ false }
    {
        Failures {
            count: 0,
            lacked_memory: false,
        }
    }

    /// The answer of a call, which is counted if it failed.
    pub fn counted<T: Drop>(&mut self, answer: io::Result<T>) -> Result<T, Device>
        ensures ok { IfOk result (λ v. answer ≡ Ok v) }
        ensures err { IsErr result ↔ IsErr answer }
        ensures count { Counts self.old.count self.new.count result }
        ensures lacked { MatchResult answer (λ _. self.new.lacked_memory ≡ self.old.lacked_memory)
            (λ e. IsTrue self.new.lacked_memory
            ↔ (IsTrue self.old.lacked_memory ⊎ (error_kind e ≡ no_memory))) }
    {
        match answer {
            Ok(value) => Ok(value),
            Err(error) => {
                self.count = self.count.wrapping_add(1);
                self.lacked_memory = self.lacked_memory || error.kind() == ErrorKind::OutOfMemory;
                Err(Device)
            }
        }
    }
}

/// One read.
pub fn read_some<F: Read>(file: &mut F, buffer: &mut [u8]) -> io::Result<usize>
    ensures bound { IfOk result (λ n. n ≤ length buffer.new) }
    ensures bytes { ReadConsumes (F.remaining file.old) (F.remaining file.new) result buffer.new }
{
    file.read(buffer)
}

/// One write. It fails if the file takes none of some bytes.
pub fn write_some<F: Write>(file: &mut F, bytes: &[u8]) -> io::Result<usize>
    ensures bound { IfOk result (λ n. n ≤ length bytes.now) }
    ensures some { IfOk result (λ n. 0 < length bytes.now → 0 < n) }
    ensures bytes { IfOk result
        (λ n. WriteAppends (F.contents file.old) (F.contents file.new) result bytes.now) }
{
    let count = file.write(bytes)?;
    if count == 0 && !bytes.is_empty() {
        return Err(io::Error::from(ErrorKind::WriteZero));
    }
    Ok(count)
}

/// A reader or a writer that counts its failed calls.
#[derive(Drop)]
pub struct Counted<F: Drop> {
    file: F,
    failures: Failures,
}

impl<F: Drop> Counted<F> {
    /// None of its calls has failed so far.
    pub fn of(file: F) -> Counted<F> {
        Counted {
            file,
            failures: Failures::new(),
        }
    }
}

impl<F: Read + Drop> CountedRead for Counted<F> {
    ghost failed = { λ r. r.failures.count };

    ghost lacked = { λ r. r.failures.lacked_memory };

    fn read(&mut self, buffer: &mut [u8]) -> Result<usize, Device> {
        let answer = read_some(&mut self.file, buffer);
        self.failures.counted(answer)
    }

    fn failures(&self) -> u64 {
        self.failures.count
    }

    fn is_out_of_memory(&self) -> bool {
        self.failures.lacked_memory
    }
}

impl<F: Write + Drop> CountedWrite for Counted<F> {
    ghost seen = { λ w. record { contents = None; handed_on = None; failed = w.failures.count } };

    ghost lacked = { λ w. w.failures.lacked_memory };

    fn write(&mut self, bytes: &[u8]) -> Result<usize, Device> {
        let answer = write_some(&mut self.file, bytes);
        self.failures.counted(answer)
    }

    fn flush(&mut self) -> Result<(), Device> {
        let answer = self.file.flush();
        self.failures.counted(answer)
    }

    fn failures(&self) -> u64 {
        self.failures.count
    }

    fn is_out_of_memory(&self) -> bool {
        self.failures.lacked_memory
    }
}
