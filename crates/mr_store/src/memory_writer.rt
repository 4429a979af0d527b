//! A writer into memory, for tests of code that writes.
ghost use Rattle.std.specs.Prelude.{◌≡◌, ◌↔◌, ◌≤◌, ◌<◌, [], Option, IsSome, IfSome, IfOk, IsErr};
ghost use Rattle.std.specs.Prelude.{MatchResult, length};
ghost use Rattle.std.specs.Prelude.{take, min, true, false};
ghost use Rattle.mr_store.specs.Devices.{FailsOnly, with_bytes, flushed, once_failed};
ghost use Rattle.mr_store.specs.Memory.{fails_now as does_fail, behind_call as what_is_behind};
ghost use Rattle.mr_store.specs.Memory.{seen_of};

use crate::device::{CountedWrite, Device};
use crate::memory_reader::{behind_call, fails_now};
use std::alloc::Global;
use std::marker::Model;

/// Accepts at most a set number of bytes per call, and can fail once, or for want of memory.
#[derive(Drop)]
pub struct MemoryWriter {
    bytes: Vec<u8>,
    handed_on: usize,
    most: usize,
    failing: Option<u64>,
    failed: u64,
    lacked: bool,
}

impl Model for MemoryWriter {
    ghost use Rattle.std.specs.Prelude.{ℕ, ◌≤◌, IfSome, length, take};
    ghost use Rattle.mr_store.specs.Memory.{WrittenMemory};

    ghost Value = { WrittenMemory };

    ghost view = { λ a. record {
      bytes = a.bytes.items;
      handed_on = take a.handed_on a.bytes.items;
      most = a.most;
      failing = a.failing;
      failed = a.failed;
      lacked = a.lacked;
    } };

    ghost invariant = { λ a. record {
      within : a.handed_on ≤ length a.bytes.items;
      some : 1 ≤ a.most;
      later : IfSome a.failing (λ n. 1 ≤ n);
    } };
}

impl MemoryWriter {
    /// Accepts at most `most` bytes per call. Call `failing`, a write or flush, from 1, fails.
    pub fn new(alloc: Global, most: usize, failing: Option<u64>) -> MemoryWriter
        requires some { 1 ≤ most }
        requires later { IfSome failing (λ n. 1 ≤ n) }
        ensures { result
            ≡ record { bytes = []; handed_on = []; most = most; failing = failing; failed = 0; lacked = false } }
    {
        MemoryWriter {
            bytes: Vec::new(alloc),
            handed_on: 0,
            most,
            failing,
            failed: 0,
            lacked: false,
        }
    }

    /// The bytes written so far.
    pub fn bytes(&self) -> &[u8]
        ensures { result.now ≡ self.now.bytes }
    {
        self.bytes.as_slice()
    }

    /// The bytes written before its last successful flush; none without one.
    pub fn flushed(&self) -> &[u8]
        ensures { result.now ≡ self.now.handed_on }
    {
        &self.bytes[..self.handed_on]
    }
}

impl CountedWrite for MemoryWriter {
    ghost seen = { seen_of };

    ghost can_fail = { λ w. IsSome w.failing };

    ghost lacked = { λ w. w.lacked };

    fn write(&mut self, bytes: &[u8]) -> Result<usize, Device>
        ensures bound { IfOk result (λ n. n ≤ length bytes.now) }
        ensures some { IfOk result (λ n. 0 < length bytes.now → 0 < n) }
        ensures takes { MatchResult result
            (λ n. seen_of self.new ≡ with_bytes (seen_of self.old) (take n bytes.now))
            (λ _. seen_of self.new ≡ once_failed (seen_of self.old)) }
        ensures fails { FailsOnly (IsSome self.old.failing) self.new.lacked result }
        ensures later { IsSome self.new.failing → IsSome self.old.failing }
        ensures most { IfOk result (λ n. n ≡ min self.old.most (length bytes.now)) }
        ensures fails_now { does_fail self.old.failing ≡ true → IsErr result }
        ensures behind { (self.new.failing ≡ what_is_behind self.old.failing)
            × (self.new.most ≡ self.old.most) }
    {
        let fails = fails_now(self.failing);
        self.failing = behind_call(self.failing);
        let count = self.most.min(bytes.len());
        let (taken, _) = bytes.split_at(count);
        if fails {
            self.failed = self.failed.wrapping_add(1);
            return Err(Device);
        }
        if self.bytes.extend_from_slice(taken).is_err() {
            self.failed = self.failed.wrapping_add(1);
            self.lacked = true;
            return Err(Device);
        }
        Ok(count)
    }

    fn flush(&mut self) -> Result<(), Device>
        ensures hands { MatchResult result (λ _. seen_of self.new ≡ flushed (seen_of self.old))
            (λ _. seen_of self.new ≡ once_failed (seen_of self.old)) }
        ensures fails { FailsOnly (IsSome self.old.failing) self.new.lacked result }
        ensures later { IsSome self.new.failing → IsSome self.old.failing }
        ensures fails_now { (does_fail self.old.failing ≡ true) ↔ IsErr result }
        ensures behind { (self.new.failing ≡ what_is_behind self.old.failing)
            × (self.new.most ≡ self.old.most) }
    {
        let fails = fails_now(self.failing);
        self.failing = behind_call(self.failing);
        if fails {
            self.failed = self.failed.wrapping_add(1);
            return Err(Device);
        }
        self.handed_on = self.bytes.len();
        Ok(())
    }

    fn failures(&self) -> u64 {
        self.failed
    }

    fn is_out_of_memory(&self) -> bool {
        self.lacked
    }
}
