//! Outputs from readers, one after another, each read through a borrow that ends with it.
ghost use Rattle.std.specs.Prelude.{◌≡◌, ◌⊎◌, ℕ, ◌≤◌, ◌<◌, ◌+◌, ◌-◌, ◌^◌, [], List, IfOk, OnOk};
ghost use Rattle.std.specs.Prelude.{MatchResult, map, nat_eq, true, false, length, take, drop};
ghost use Rattle.std.specs.Prelude.{◌++◌};
ghost use Rattle.std.specs.List.{common_prefix_len};
ghost use Rattle.std.specs.Io.KnownBytes.{Consumes, Keeps, IsAtEnd};
ghost use Rattle.mr_judge.specs.Outputs.{Lacks, counted_at};
ghost use Rattle.mr_store.specs.Devices.{Counts};
ghost use Rattle.mr_judge.specs.Reading.{known_at};

use crate::outputs::{OutputError, Outputs, agreement, behind};
use mr_store::{CountedRead, Device, ReadBuffer};
use std::alloc::{AllocError, Global};

/// Outputs from readers. A reader is asked only after those before it were opened, and never after
/// its end. The bytes of all go through one buffer.
#[derive(Drop)]
pub(crate) struct ReaderOutputs<'a, R> {
    readers: &'a mut [R],
    opened: u64,
    piece: ReadBuffer,
    exhausted: bool,
    passed: u64,
    ghost within: { exhausted ≡ false → opened ≤ length readers.now },
}

impl<'a, R: CountedRead> ReaderOutputs<'a, R> {
    ghost use Rattle.mr_judge.specs.Readers.{reading};
    ghost use Rattle.mr_judge.specs.Reading.{IsToCome};

    /// No output is open yet. It allocates all memory that it ever uses.
    pub fn new(alloc: Global, readers: &'a mut [R]) -> Result<ReaderOutputs<'a, R>, AllocError>
        ensures opened { IfOk result (λ o. o.opened ≡ 0) }
        ensures readers { IfOk result (λ o. o.readers.now ≡ readers.old) }
        ensures passed { IfOk result (λ o. o.passed ≡ 0) }
    {
        let piece = ReadBuffer::new(alloc)?;
        Ok(ReaderOutputs {
            readers,
            opened: 0,
            piece,
            exhausted: true,
            passed: 0,
        })
    }

    /// Reads until the buffer has bytes of the open output, or its reader is at its end.
    fn fill(&mut self) -> Result<(), OutputError>
        requires begun { 1 ≤ self.old.opened }
        ensures filled { OnOk result ((1 ≤ length self.new.piece) ⊎ (self.new.exhausted ≡ true)) }
        ensures come { (rest : List ℕ) (later : List (List ℕ))
            → IsToCome (reading R.remaining self.new) rest later
            → IsToCome (reading R.remaining self.old) rest later }
        ensures same { (self.new.opened ≡ self.old.opened) × (self.new.passed ≡ self.old.passed) }
        ensures lacks { Lacks ⊥ (map R.failed self.old.readers.now)
            (map R.failed self.new.readers.now) result }
    {
        if self.exhausted || !self.piece.bytes().is_empty() {
            return Ok(());
        }
        let partition = self.opened - 1;
        let readers = &mut *self.readers;
        match self.piece.read_more(&mut readers[partition as usize]) {
            Ok(count) => {
                self.exhausted = count == 0;
                Ok(())
            }
            Err(_) => Err(OutputError::Device { partition }),
        }
    }

    /// Passes the common prefix of the text and the buffer, and returns its length.
    fn pass_held(&mut self, text: &[u8]) -> Result<u64, OutputError>
        requires begun { 1 ≤ self.old.opened }
        requires filled { (1 ≤ length self.old.piece) ⊎ (self.old.exhausted ≡ true) }
        requires some { 1 ≤ length text.now }
        ensures within { IfOk result (λ n. n ≤ length text.now) }
        ensures come { IfOk result (λ n. (rest : List ℕ) (later : List (List ℕ))
            → IsToCome (reading R.remaining self.new) rest later
            → IsToCome (reading R.remaining self.old) (take n text.now ++ rest) later) }
        ensures none { IfOk result (λ n. n ≡ 0 → (rest : List ℕ) (later : List (List ℕ))
            → IsToCome (reading R.remaining self.new) rest later
            → common_prefix_len nat_eq text.now rest ≡ 0) }
        ensures passed { IfOk result (λ n. self.new.passed ≡ self.old.passed + n) }
        ensures same { self.new.opened ≡ self.old.opened }
        ensures lacks { Lacks ⊥ (map R.failed self.old.readers.now)
            (map R.failed self.new.readers.now) result }
    {
        if self.passed >= 1 << 63 {
            return Err(OutputError::TooLong);
        }
        let same = agreement(text, self.piece.bytes());
        self.piece.pass(same as usize);
        self.passed += same;
        Ok(same)
    }
}

impl<'a, R: CountedRead> Outputs for ReaderOutputs<'a, R> {
    ghost use Rattle.mr_judge.specs.Readers.{reading};
    ghost use Rattle.mr_judge.specs.Reading.{IsToCome};

    ghost gives = { λ o. IsToCome (reading R.remaining o) };

    ghost place = { λ o. o.passed };

    ghost begun = { λ o. 1 ≤ o.opened };

    ghost failed = { λ o. map R.failed o.readers.now };

    ghost steady = { ⊥ };

    fn open_next(&mut self) {
        self.exhausted = self.opened >= self.readers.len() as u64;
        self.opened = self.opened.saturating_add(1);
        self.piece.clear();
        self.passed = 0;
    }

    fn pass_text(&mut self, text: &[u8]) -> Result<bool, OutputError> {
        let mut wanted = text;
        while !wanted.is_empty() {
            self.fill()?;
            let same = self.pass_held(wanted)?;
            if same == 0 {
                return Ok(false);
            }
            wanted = behind(wanted, same);
        }
        Ok(true)
    }

    fn is_passed(&mut self) -> Result<bool, OutputError> {
        self.fill()?;
        Ok(self.piece.bytes().is_empty())
    }

    fn place(&self) -> u64 {
        self.passed
    }
}

/// A reader that is lent.
#[derive(Drop)]
pub struct ByRef<'a, R> {
    pub reader: &'a mut R,
}

impl<'a, R: CountedRead> CountedRead for ByRef<'a, R> {
    ghost remaining = { λ l. R.remaining l.reader.now };

    ghost failed = { λ l. R.failed l.reader.now };

    ghost can_fail = { λ l. R.can_fail l.reader.now };

    ghost lacked = { λ l. R.lacked l.reader.now };

    fn read(&mut self, buffer: &mut [u8]) -> Result<usize, Device> {
        self.reader.read(buffer)
    }

    fn failures(&self) -> u64 {
        self.reader.failures()
    }

    fn is_out_of_memory(&self) -> bool {
        self.reader.is_out_of_memory()
    }
}
