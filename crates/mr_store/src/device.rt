//! Readers and writers that may fail at any call, and count the calls that failed.
//!
//!     call     succeeded                               failed
//!     read     some bytes, and 0 only at the end       consumes nothing
//!     write    at least one byte of those given        writes nothing
//!     flush    all that was written is flushed         flushes nothing
//!
//! The count has 64 bits and wraps, so that a device keeps it in a word. Code that passes a reader
//! on compares the counts before and after, and so sees that a read failed. A device also reports
//! whether memory was lacking, since that is no fault of a file. Bytes may be unknown, as those of
//! a file on disk are: then the clauses about bytes say nothing. A writer shows what it flushed
//! beside what it holds, so a clause can refuse a result that is not flushed.
ghost use Rattle.std.specs.Prelude.{◌≡◌, ℕ, ◌≤◌, ◌<◌, ⊤, Bool, List, Option, None, IfOk, IfSome};
ghost use Rattle.std.specs.Prelude.{MatchResult, length, take};
ghost use Rattle.std.specs.Io.KnownBytes.{ReadConsumes};
ghost use Rattle.mr_store.specs.Devices.{AreBytes, Counts, FailsOnly, Seen, with_bytes, flushed};
ghost use Rattle.mr_store.specs.Devices.{once_failed};

use thiserror::Error;

/// A call of a device failed.
#[derive(Clone, Copy, Debug, PartialEq, Eq, Drop, Error)]
#[error("Device")]
pub struct Device;

/// A reader that counts its failed calls, in 64 bits. An interrupted call counts as failed.
pub trait CountedRead {
    // The bytes that reads will still return, if they are known, each below 256.
    ghost remaining: { Self → Option (List ℕ) } = { λ _. None };

    ghost failed: { Self → ℕ };

    // A call can fail, now or later, for another reason than memory.
    ghost can_fail: { Self → Type 0 } = { λ _. ⊤ };

    ghost lacked: { Self → Bool };

    /// Reads some bytes into the front of the buffer and returns how many: 0 only at the end of the
    /// bytes, or for an empty buffer. A failed call consumes none of the bytes.
    fn read(&mut self, buffer: &mut [u8]) -> Result<usize, Device>
        ensures bound { IfOk result (λ n. n ≤ length buffer.new) }
        ensures bytes { ReadConsumes (remaining self.old) (remaining self.new) result buffer.new }
        ensures known { IfSome (remaining self.new) AreBytes }
        ensures count { Counts (failed self.old) (failed self.new) result }
        ensures fails { FailsOnly (can_fail self.old) (lacked self.new) result }
        ensures later { can_fail self.new → can_fail self.old };

    fn failures(&self) -> u64
        ensures count { result ≡ failed self.now }
        ensures known { IfSome (remaining self.now) AreBytes };

    /// Whether a call was refused memory.
    fn is_out_of_memory(&self) -> bool
        ensures { result ≡ lacked self.now };
}

/// A writer that counts its failed calls: interrupted ones too, and writes that accept no byte.
pub trait CountedWrite {
    // The bytes written, if they are known, and how many calls failed.
    ghost seen: { Self → Seen };

    // A call can fail, now or later, for another reason than memory.
    ghost can_fail: { Self → Type 0 } = { λ _. ⊤ };

    ghost lacked: { Self → Bool };

    /// Writes some of the bytes, from their front, and returns how many: 0 only if there are none.
    /// A failed call writes none.
    fn write(&mut self, bytes: &[u8]) -> Result<usize, Device>
        ensures bound { IfOk result (λ n. n ≤ length bytes.now) }
        ensures some { IfOk result (λ n. 0 < length bytes.now → 0 < n) }
        ensures takes { MatchResult result
            (λ n. seen self.new ≡ with_bytes (seen self.old) (take n bytes.now))
            (λ _. seen self.new ≡ once_failed (seen self.old)) }
        ensures fails { FailsOnly (can_fail self.old) (lacked self.new) result }
        ensures later { can_fail self.new → can_fail self.old };

    /// Flushes what was written. A failed call flushes nothing.
    fn flush(&mut self) -> Result<(), Device>
        ensures hands { MatchResult result (λ _. seen self.new ≡ flushed (seen self.old))
            (λ _. seen self.new ≡ once_failed (seen self.old)) }
        ensures fails { FailsOnly (can_fail self.old) (lacked self.new) result }
        ensures later { can_fail self.new → can_fail self.old };

    fn failures(&self) -> u64
        ensures { result ≡ (seen self.now).failed };

    /// Whether a call was refused memory.
    fn is_out_of_memory(&self) -> bool
        ensures { result ≡ lacked self.now };
}
