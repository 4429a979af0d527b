//! Reads a reader to its end, onto a list, or piece by piece through a buffer of fixed size: bytes
//! that were read and not passed yet.
//!
//!     buffer  [ passed | bytes | room ]        65,536 bytes, all allocated by `new`
//!                      from    to
//!
//! Cost: a read moves the bytes that are left to the front, and then fills the room.
ghost use Rattle.std.specs.Prelude.{◌≡◌, ◌↔◌, ◌⊎◌, ℕ, List, ◌++◌, OnOk, OnErr, IfSome, MatchResult};
ghost use Rattle.std.specs.Prelude.{true, length, ◌≤◌, ◌<◌, ◌+◌, ◌-◌, [], IfOk, take, drop};
ghost use Rattle.std.specs.Io.KnownBytes.{Consumes, IsAtEnd, Keeps, ReadConsumes};
ghost use Rattle.mr_store.specs.Devices.{counted, AreBytes, Counts, FailsOnly};
ghost use Rattle.mr_store.specs.Reads.{Grew, ReadOnto};

use crate::device::{CountedRead, Device};
use std::alloc::{AllocError, Global};
use std::marker::Model;
use thiserror::Error;

/// Why a reader was not read to its end.
#[derive(Clone, Copy, Debug, PartialEq, Eq, Drop, Error)]
pub enum ReadFault {
    #[error("Device")]
    Device,
    #[error("OutOfMemory")]
    OutOfMemory,
}

impl From<Device> for ReadFault {
    ghost use Rattle.mr_store.specs.declared.reading.ReadFault.TheVariants.{Device as told_device};

    ghost from_gives = { λ _ f. f ≡ told_device };

    fn from(_fault: Device) -> ReadFault {
        ReadFault::Device
    }
}

impl From<AllocError> for ReadFault {
    ghost use Rattle.mr_store.specs.declared.reading.ReadFault.TheVariants.{OutOfMemory as told_memory};

    ghost from_gives = { λ _ f. f ≡ told_memory };

    fn from(_fault: AllocError) -> ReadFault {
        ReadFault::OutOfMemory
    }
}

const PIECE: usize = 65_536;

fn read_onto<R: CountedRead>(reader: &mut R, out: &mut Vec<u8>) -> Result<(), ReadFault>
    ensures onto { ReadOnto (R.remaining reader.old) (R.remaining reader.new)
        (R.failed reader.old) (R.failed reader.new) out.old.items out.new.items result }
    ensures fails { result ≡ Err ReadFault.Device → R.can_fail reader.old ⊎ (R.lacked reader.new ≡ true) }
{
    let mut buffer = [0u8; PIECE];
    loop {
        let count = reader.read(&mut buffer)?;
        if count == 0 {
            return Ok(());
        }
        out.extend_from_slice(&buffer[..count])?;
    }
}

/// Appends all bytes of the reader, up to its end. Returns `Device` exactly if a read failed in
/// this call. A failure leaves the list as before; the reader has passed what was read.
pub fn read_all<R: CountedRead>(reader: &mut R, out: &mut Vec<u8>) -> Result<(), ReadFault>
    ensures grew { OnOk result
        (Grew (R.remaining reader.old) (R.remaining reader.new) out.old.items out.new.items) }
    ensures bytes { OnOk result (IfSome (R.remaining reader.old)
        (λ xs. out.new.items ≡ out.old.items ++ xs)) }
    ensures end { OnOk result (IsAtEnd (R.remaining reader.new)) }
    ensures err { OnErr result (out.new.items ≡ out.old.items) }
    ensures consumes { (got : List ℕ) × Consumes (R.remaining reader.old) (R.remaining reader.new) got }
    ensures device { (result ≡ Err ReadFault.Device) ↔ (R.failed reader.new ≡ counted (R.failed reader.old)) }
    ensures count { (result ≡ Err ReadFault.Device → ⊥) → R.failed reader.new ≡ R.failed reader.old }
    ensures fails { result ≡ Err ReadFault.Device → R.can_fail reader.old ⊎ (R.lacked reader.new ≡ true) }
{
    let before = out.len();
    let answer = read_onto(reader, out);
    if answer.is_err() {
        out.truncate(before);
    }
    answer
}

const SIZE: usize = 65_536;

/// Bytes that were read and not passed yet, at most 65,536.
#[derive(Drop)]
pub struct ReadBuffer {
    buffer: Vec<u8>,
    from: usize,
    to: usize,
}

impl Model for ReadBuffer {
    ghost use Rattle.std.specs.Prelude.{◌≡◌, ℕ, ◌≤◌, List, length, take, drop};

    ghost Value = { List ℕ };

    ghost view = { λ b. drop b.from (take b.to b.buffer.items) };

    ghost invariant = { λ b. record {
      order : b.from ≤ b.to;
      within : b.to ≤ length b.buffer.items;
      size : length b.buffer.items ≡ 65536;
    } };
}

fn read_behind<R: CountedRead>(
    reader: &mut R,
    buffer: &mut [u8],
    from: usize,
    to: usize,
) -> Result<usize, Device>
    requires order { from ≤ to }
    requires within { to ≤ length buffer.old }
    ensures size { length buffer.new ≡ length buffer.old }
    ensures front { take (to - from) buffer.new ≡ drop from (take to buffer.old) }
    ensures bound { IfOk result (λ n. to - from + n ≤ length buffer.new) }
    ensures bytes { ReadConsumes (R.remaining reader.old) (R.remaining reader.new) result
        (drop (to - from) buffer.new) }
    ensures known { IfSome (R.remaining reader.new) AreBytes }
    ensures given { AreBytes buffer.new }
    ensures count { Counts (R.failed reader.old) (R.failed reader.new) result }
    ensures fails { FailsOnly (R.can_fail reader.old) (R.lacked reader.new) result }
    ensures later { R.can_fail reader.new → R.can_fail reader.old }
{
    buffer.copy_within(from..to, 0);
    let (_, space) = buffer.split_at_mut(to - from);
    reader.read(space)
}

impl ReadBuffer {
    /// An empty buffer. It takes all the memory that it ever has.
    pub fn new(alloc: Global) -> Result<ReadBuffer, AllocError>
        ensures { IfOk result (λ b. b ≡ []) }
    {
        let buffer = vec![in alloc; 0u8; SIZE]?;
        Ok(ReadBuffer {
            buffer,
            from: 0,
            to: 0,
        })
    }

    #[inline]
    pub fn bytes(&self) -> &[u8]
        ensures { result.now ≡ self.now }
    {
        &self.buffer[self.from..self.to]
    }

    /// Drops `count` bytes from the front.
    #[inline]
    pub fn pass(&mut self, count: usize)
        requires { count ≤ length self.old }
        ensures { self.new ≡ drop count self.old }
    {
        self.from += count;
    }

    pub fn clear(&mut self)
        ensures { self.new ≡ [] }
    {
        self.from = self.to;
    }

    /// Appends more bytes from the reader and returns how many: 0 only at its end. A failed call
    /// leaves the bytes as they were.
    #[inline(never)]
    pub fn read_more<R: CountedRead>(&mut self, reader: &mut R) -> Result<usize, Device>
        requires room { length self.old < 65536 }
        ensures more { MatchResult result
            (λ n. (got : List ℕ) × (length got ≡ n) × (self.new ≡ self.old ++ got) × AreBytes got
            × Consumes (R.remaining reader.old) (R.remaining reader.new) got
            × (n ≡ 0 → IsAtEnd (R.remaining reader.new)))
            (λ _. (self.new ≡ self.old) × Keeps (R.remaining reader.old) (R.remaining reader.new)) }
        ensures known { IfSome (R.remaining reader.new) AreBytes }
        ensures count { Counts (R.failed reader.old) (R.failed reader.new) result }
        ensures fails { FailsOnly (R.can_fail reader.old) (R.lacked reader.new) result }
        ensures later { R.can_fail reader.new → R.can_fail reader.old }
    {
        let held = self.to - self.from;
        let answer = read_behind(reader, self.buffer.as_mut_slice(), self.from, self.to);
        self.from = 0;
        self.to = held;
        let count = answer?;
        self.to = held + count;
        Ok(count)
    }
}
