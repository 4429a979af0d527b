//! Reads a reader to its end, onto a list, up to a limit of bytes.
ghost use Rattle.std.specs.Prelude.{◌≡◌, ◌↔◌, ◌⊎◌, ◌≤◌, ◌<◌, ◌+◌, ℕ, List, ◌++◌, IfOk, OnOk, OnErr};
ghost use Rattle.std.specs.Prelude.{IfSome, true, length};
ghost use Rattle.std.specs.Io.KnownBytes.{Consumes, IsAtEnd, ReadConsumes};
ghost use Rattle.mr_store.specs.Devices.{Counts, FailsOnly, counted};
ghost use Rattle.mr_store.specs.Reads.{Grew, LimitedOnto};

use crate::device::{CountedRead, Device};
use std::alloc::AllocError;
use thiserror::Error;

/// Why a reader was not read to its end.
#[derive(Clone, Copy, Debug, PartialEq, Eq, Drop, Error)]
pub enum LimitedFault {
    #[error("Device")]
    Device,
    #[error("OutOfMemory")]
    OutOfMemory,
    /// The reader returned a byte past the limit.
    #[error("TooLong")]
    TooLong,
}

impl From<Device> for LimitedFault {
    ghost use Rattle.mr_store.specs.declared.limited.LimitedFault.TheVariants.{Device as told_device};

    ghost from_gives = { λ _ f. f ≡ told_device };

    fn from(_fault: Device) -> LimitedFault {
        LimitedFault::Device
    }
}

impl From<AllocError> for LimitedFault {
    ghost use Rattle.mr_store.specs.declared.limited.LimitedFault.TheVariants.{OutOfMemory as told_memory};

    ghost from_gives = { λ _ f. f ≡ told_memory };

    fn from(_fault: AllocError) -> LimitedFault {
        LimitedFault::OutOfMemory
    }
}

/// The most bytes that one read asks for.
pub const PIECE: usize = 65_536;

/// How many bytes the next read asks for if `left` may still come: one more, to notice an excess.
pub fn bytes_asked(left: u64) -> usize
    ensures some { 0 < result }
    ensures within { result ≤ left + 1 }
    ensures piece { result ≤ 65536 }
{
    left.min(PIECE as u64 - 1) as usize + 1
}

/// Reads at most so many bytes into the front of the buffer, and returns how many; 0 at the end.
pub fn read_at_most<R: CountedRead>(
    reader: &mut R,
    buffer: &mut [u8],
    most: usize,
) -> Result<usize, Device>
    requires room { most ≤ length buffer.old }
    requires some { 0 < most }
    ensures bound { IfOk result (λ n. n ≤ most) }
    ensures len { length buffer.new ≡ length buffer.old }
    ensures bytes { ReadConsumes (R.remaining reader.old) (R.remaining reader.new) result buffer.new }
    ensures count { Counts (R.failed reader.old) (R.failed reader.new) result }
    ensures fails { FailsOnly (R.can_fail reader.old) (R.lacked reader.new) result }
    ensures later { R.can_fail reader.new → R.can_fail reader.old }
{
    let (front, _) = buffer.split_at_mut(most);
    reader.read(front)
}

fn read_limited_onto<R: CountedRead>(
    reader: &mut R,
    out: &mut Vec<u8>,
    limit: u64,
) -> Result<(), LimitedFault>
    ensures onto { LimitedOnto (R.remaining reader.old) (R.remaining reader.new)
        (R.failed reader.old) (R.failed reader.new) limit out.old.items out.new.items result }
    ensures fails { result ≡ Err LimitedFault.Device → R.can_fail reader.old ⊎ (R.lacked reader.new ≡ true) }
{
    let mut buffer = [0u8; PIECE];
    let mut left = limit;
    loop {
        let count = read_at_most(reader, &mut buffer, bytes_asked(left))?;
        if count == 0 {
            return Ok(());
        }
        if count as u64 > left {
            return Err(LimitedFault::TooLong);
        }
        out.extend_from_slice(&buffer[..count])?;
        left -= count as u64;
    }
}

/// Appends all bytes of the reader, at most `limit`, up to its end. Returns `TooLong` exactly if
/// it gave a byte past the limit, and reads none after it; `Device` exactly if a read failed in
/// this call. A failure leaves the list as before; the reader has passed what was read.
pub fn read_limited<R: CountedRead>(
    reader: &mut R,
    out: &mut Vec<u8>,
    limit: u64,
) -> Result<(), LimitedFault>
    ensures grew { OnOk result
        (Grew (R.remaining reader.old) (R.remaining reader.new) out.old.items out.new.items) }
    ensures bytes { OnOk result (IfSome (R.remaining reader.old)
        (λ xs. out.new.items ≡ out.old.items ++ xs)) }
    ensures end { OnOk result (IsAtEnd (R.remaining reader.new)) }
    ensures err { OnErr result (out.new.items ≡ out.old.items) }
    ensures within { OnOk result (length out.new.items ≤ length out.old.items + limit) }
    ensures consumes { (got : List ℕ)
        × Consumes (R.remaining reader.old) (R.remaining reader.new) got × (length got ≤ limit + 1)
        × ((result ≡ Err LimitedFault.TooLong) ↔ (limit < length got)) }
    ensures device { (result ≡ Err LimitedFault.Device)
        ↔ (R.failed reader.new ≡ counted (R.failed reader.old)) }
    ensures count { (result ≡ Err LimitedFault.Device → ⊥) → R.failed reader.new ≡ R.failed reader.old }
    ensures fails { result ≡ Err LimitedFault.Device → R.can_fail reader.old ⊎ (R.lacked reader.new ≡ true) }
{
    let before = out.len();
    let answer = read_limited_onto(reader, out, limit);
    if answer.is_err() {
        out.truncate(before);
    }
    answer
}
