//! What accepts bytes piece by piece: a list, or a writer behind a buffer.
//!
//!     put, put, put ...  ->  piece [ filled | room ]  ->  write_all, when the next does not fit
//!
//! The buffer collects small pieces, and writes some 64 KiB at a time. After a call fails it drops
//! all bytes, and `finish` reports the failure. So the code that puts numbers can't fail at a
//! writer, and the same code encodes onto a list. `std::io::BufWriter` would allocate, and its
//! writer can't report whether memory was lacking.
//! Cost: each byte is copied once. The buffer is on the stack; it allocates nothing.
ghost use Rattle.std.specs.Prelude.{◌≡◌, ◌≤◌, ◌+◌, List, ℕ, [], ◌++◌, true, false, OnOk};
ghost use Rattle.std.specs.Prelude.{MatchResult, length, take};
ghost use Rattle.mr_certform.specs.Sinks.{Passes, list_joined, list_same};

use mr_store::{CountedWrite, Device, write_all};
use std::alloc::AllocError;
use std::convert::Infallible;
use std::marker::Model;

/// Accepts bytes. It may keep them, or pass them on.
pub(crate) trait Sink {
    /// Why it accepts no more.
    type Fault;

    // It accepted these bytes between the first state and the second.
    ghost takes: { Self → Self → List ℕ → Type 0 };

    fn put(&mut self, bytes: &[u8]) -> Result<(), Self::Fault>
        ensures { OnOk result (takes self.old self.new bytes.now) };

    // No bytes leave it as it was; pieces accepted in turn were accepted together.
    ghost none: { (a : Self) → takes a a [] };

    ghost joined: { (a b c : Self) (xs ys : List ℕ) → takes a b xs → takes b c ys → takes a c (xs ++ ys) };
}

impl Sink for Vec<u8> {
    type Fault = AllocError;

    ghost takes = { λ a b bytes. b.items ≡ a.items ++ bytes };

    fn put(&mut self, bytes: &[u8]) -> Result<(), AllocError> {
        self.extend_from_slice(bytes)
    }

    ghost none = { λ a. list_same a.items };

    ghost joined = { λ a b c xs ys. list_joined a.items b.items c.items xs ys };
}

const SIZE: usize = 65_536;

/// Some bytes, up to 64 KiB.
#[derive(Drop)]
struct Piece {
    bytes: [u8; SIZE],
    filled: usize,
}

impl Model for Piece {
    ghost use Rattle.std.specs.Prelude.{ℕ, List, ◌≤◌, take};

    ghost Value = { List ℕ };

    ghost view = { λ p. take p.filled p.bytes };

    ghost invariant = { λ p. p.filled ≤ 65536 };
}

fn place(room: &mut [u8], filled: usize, bytes: &[u8])
    requires { filled + length bytes.now ≤ length room.old }
    ensures { take (filled + length bytes.now) room.new ≡ take filled room.old ++ bytes.now }
{
    let (_, free) = room.split_at_mut(filled);
    let (next, _) = free.split_at_mut(bytes.len());
    next.copy_from_slice(bytes);
}

impl Piece {
    pub fn new() -> Piece
        ensures { result ≡ [] }
    {
        Piece {
            bytes: [0u8; SIZE],
            filled: 0,
        }
    }

    pub fn bytes(&self) -> &[u8]
        ensures { result.now ≡ self.now }
    {
        &self.bytes[..self.filled]
    }

    /// Appends the bytes if there is room for all of them.
    pub fn push(&mut self, bytes: &[u8]) -> bool
        ensures fits { result ≡ true → self.new ≡ self.old ++ bytes.now }
        ensures full { result ≡ false → self.new ≡ self.old }
    {
        if SIZE - self.filled < bytes.len() {
            return false;
        }
        place(&mut self.bytes, self.filled, bytes);
        self.filled += bytes.len();
        true
    }

    pub fn clear(&mut self)
        ensures { self.new ≡ [] }
    {
        self.filled = 0;
    }
}

/// A writer behind a buffer. After a failed call it drops all bytes, and `finish` reports it.
#[derive(Drop)]
pub(crate) struct WriteBuffer<'a, W> {
    writer: &'a mut W,
    piece: Piece,
    failed: bool,
}

/// Writes all the bytes unless a call failed before; returns whether a call has failed.
fn send<W: CountedWrite>(writer: &mut W, failed: bool, bytes: &[u8]) -> bool
    ensures { Passes W.seen W.can_fail W.lacked writer.old writer.new failed result bytes.now [] }
{
    if failed {
        return true;
    }
    write_all(writer, bytes).is_err()
}

impl<'a, W: CountedWrite> WriteBuffer<'a, W> {
    ghost use Rattle.mr_certform.specs.Buffers.{Takes};

    pub fn new(writer: &'a mut W) -> WriteBuffer<'a, W>
        ensures same_reference { result.writer.ghost_name ≡ writer.entry.ghost_name }
        ensures writer { result.writer.now ≡ writer.old }
        ensures empty { result.piece ≡ [] }
        ensures begins { result.failed ≡ false }
    {
        WriteBuffer {
            writer,
            piece: Piece::new(),
            failed: false,
        }
    }

    fn hand_over(&mut self)
        ensures takes { Takes W.seen W.can_fail W.lacked self.old self.new [] }
        ensures empty { self.new.piece ≡ [] }
    {
        self.failed = send(self.writer, self.failed, self.piece.bytes());
        self.piece.clear();
    }

    /// Writes what the buffer holds, and reports whether any call failed.
    pub fn finish(&mut self) -> Result<(), Device>
        ensures takes { Takes W.seen W.can_fail W.lacked self.old self.new [] }
        ensures ended { MatchResult result (λ _. (self.new.failed ≡ false) × (self.new.piece ≡ []))
            (λ _. self.new.failed ≡ true) }
    {
        self.hand_over();
        if self.failed { Err(Device) } else { Ok(()) }
    }
}

impl<'a, W: CountedWrite> Sink for WriteBuffer<'a, W> {
    ghost use Rattle.mr_certform.specs.Buffers.{Takes, takes_none, takes_joined};

    type Fault = Infallible;

    ghost takes = { Takes W.seen W.can_fail W.lacked };

    fn put(&mut self, bytes: &[u8]) -> Result<(), Infallible> {
        if self.piece.push(bytes) {
            return Ok(());
        }
        self.hand_over();
        if !self.piece.push(bytes) {
            self.failed = send(self.writer, self.failed, bytes);
        }
        Ok(())
    }

    ghost none = { takes_none W.seen W.can_fail W.lacked };

    ghost joined = { takes_joined W.seen W.can_fail W.lacked };
}
