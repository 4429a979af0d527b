//! Reads a range of a file: bytes `from` up to before `to`, or up to the file's end. A range begins
//! and ends where lines do; at the file's end it may end inside a line.
//!
//!     file    [ .. \n | from  ..  \n | to .. ]
//!               before     range      behind
//!
//! It opens the file at the byte before the range, and reads that byte, the range and one byte
//! behind it. So it sees whether lines end there, and whether the file does.
//! Cost: the bytes of the range, all held. A range that has more than its limit is read to its end
//! too, to see how that fails, but no more of it is held than one read.
ghost use Rattle.std.specs.Prelude.{◌≡◌, ◌≤◌, ◌<◌, ◌⊎◌, ◌++◌, IfOk, IfErr, OnOk, MatchOption};
ghost use Rattle.std.specs.Prelude.{true, false, ℕ, Option, List, length};
ghost use Rattle.std.specs.Option.{ForSome};
ghost use Rattle.std.specs.Io.KnownBytes.{IsAtEnd};
ghost use Rattle.mr_files.specs.Holding.{Agrees};
ghost use Rattle.mr_files.specs.Refusals.{IsUnread};
ghost use Rattle.mr_files.specs.Ranges.{EndsLine, IsFront, IsOpenAt, IsRangeOf, IsRangeRefusal, IsRead};

use crate::reading::{LimitFault, fault_of, read_rest};
use crate::store::{FileFault, Store};
use mr_store::{CountedRead, PIECE, ReadFault, read_at_most};
use std::alloc::{AllocError, Global};

/// Why a range of a file was not read.
#[derive(Drop)]
pub enum RangeFault {
    File(FileFault),
    /// The range begins or ends behind the file's end.
    PastEnd,
    /// No line begins at this byte, which is the range's first or the one behind its last.
    InsideALine { byte: u64 },
    /// The range has more bytes than the limit.
    TooLong,
}

fn ends_line(bytes: &[u8]) -> bool
    ensures yes { result ≡ true → EndsLine bytes.now }
    ensures no { result ≡ false → ¬ EndsLine bytes.now }
{
    matches!(bytes.last(), None | Some(b'\n'))
}

/// Whether a range of these bytes may end there.
fn may_end(bytes: &[u8], ends: bool) -> bool
    ensures yes { result ≡ true → ends ≡ false → EndsLine bytes.now }
    ensures no { result ≡ false → (ends ≡ false) × (EndsLine bytes.now → ⊥) }
{
    ends || ends_line(bytes)
}

/// Appends a piece of what is read; if nothing is to be kept, the list has this piece alone.
fn take_piece(bytes: &mut Vec<u8>, piece: &[u8], keep: bool) -> Result<(), AllocError>
    ensures kept { OnOk result (keep ≡ true → bytes.new.items ≡ bytes.old.items ++ piece.now) }
    ensures last { OnOk result (keep ≡ false → bytes.new.items ≡ piece.now) }
{
    if !keep {
        bytes.clear();
    }
    bytes.extend_from_slice(piece)?;
    Ok(())
}

fn read_pieces<R: CountedRead>(
    reader: &mut R,
    alloc: Global,
    most: u64,
    keep: bool,
) -> Result<(Vec<u8>, u64), ReadFault>
    ensures read { IfOk result (λ r. IsRead (R.remaining reader.old) (R.remaining reader.new)
        most keep r.0.items r.1) }
    ensures end { IfOk result (λ r. 0 < r.1 → IsAtEnd (R.remaining reader.new)) }
    ensures fails { result ≡ Err ReadFault.Device → R.can_fail reader.old ⊎ (R.lacked reader.new ≡ true) }
    ensures later { R.can_fail reader.new → R.can_fail reader.old }
{
    let mut buffer = [0u8; PIECE];
    let mut bytes = Vec::new(alloc);
    let mut left = most;
    while left > 0 {
        let most = left.min(PIECE as u64) as usize;
        let count = read_at_most(reader, &mut buffer, most)?;
        if count == 0 {
            return Ok((bytes, left));
        }
        take_piece(&mut bytes, &buffer[..count], keep)?;
        left -= count as u64;
    }
    Ok((bytes, 0))
}

/// Reads up to `most` bytes, fewer only at the reader's end, and returns how many it lacks. If none
/// are to be kept it returns the last of them.
fn read_up_to<R: CountedRead>(
    reader: &mut R,
    alloc: Global,
    name: &str,
    most: u64,
    keep: bool,
) -> Result<(Vec<u8>, u64), FileFault>
    ensures read { IfOk result (λ r. IsRead (R.remaining reader.old) (R.remaining reader.new)
        most keep r.0.items r.1) }
    ensures end { IfOk result (λ r. 0 < r.1 → IsAtEnd (R.remaining reader.new)) }
    ensures refused { IfErr result (λ e. IsUnread (λ _. R.can_fail reader.old) name.now e) }
    ensures later { R.can_fail reader.new → R.can_fail reader.old }
{
    match read_pieces(reader, alloc, most, keep) {
        Ok(read) => Ok(read),
        Err(_) if reader.is_out_of_memory() => Err(FileFault::OutOfMemory),
        Err(fault) => Err(fault_of(alloc, name, fault)),
    }
}

/// A reader of the file from that byte on, and whether a line begins there.
fn open_range<S: Store>(
    store: &S,
    alloc: Global,
    name: &str,
    from: u64,
) -> Result<(S::Reader, bool), RangeFault>
    ensures opened { IfOk result
        (λ r. IsOpenAt (S.holds store.now) name.now from r.1 (S.Reader.remaining r.0)) }
    ensures fails { IfOk result (λ r. S.Reader.can_fail r.0 → S.unreadable store.now name.now) }
    ensures refused { IfErr result (λ e. (to : Option ℕ) → (limit : ℕ)
        → IsRangeRefusal (S.holds store.now) (S.unreadable store.now) name.now from to limit e) }
{
    let at = from.saturating_sub(1);
    let mut reader = match store.reader_from(alloc, name, at) {
        Ok(reader) => reader,
        Err(fault) => return Err(RangeFault::File(fault_of(alloc, name, fault))),
    };
    let (before, lacking) = match read_up_to(&mut reader, alloc, name, from - at, true) {
        Ok(read) => read,
        Err(fault) => return Err(RangeFault::File(fault)),
    };
    if lacking > 0 {
        return Err(RangeFault::PastEnd);
    }
    Ok((reader, ends_line(&before)))
}

/// Reads so many bytes, and one more to see whether there are more; none if there are too few.
fn read_front<R: CountedRead>(
    reader: &mut R,
    alloc: Global,
    name: &str,
    count: u64,
    keep: bool,
) -> Result<Option<(Vec<u8>, bool)>, FileFault>
    ensures read { IfOk result (λ o. (b : List ℕ) × Agrees (R.remaining reader.old) b
        × MatchOption o (length b < count) (λ r. IsFront b count keep r.0.items r.1)) }
    ensures refused { IfErr result (λ e. IsUnread (λ _. R.can_fail reader.old) name.now e) }
{
    let (bytes, lacking) = read_up_to(reader, alloc, name, count, keep)?;
    if lacking > 0 {
        return Ok(None);
    }
    let (_, ends) = read_up_to(reader, alloc, name, 1, true)?;
    Ok(Some((bytes, ends > 0)))
}

/// Reads bytes `from` up to before `to` of the file of that name, or up to its end, at most `limit`
/// of them, and returns whether the file ends there.
pub fn read_range_within<S: Store>(
    store: &S,
    alloc: Global,
    name: &str,
    from: u64,
    to: Option<u64>,
    limit: u64,
) -> Result<(Vec<u8>, bool), RangeFault>
    requires { ForSome to (λ t. from ≤ t) }
    ensures bytes { IfOk result (λ r. (file : List ℕ) × S.holds store.now name.now file
        × IsRangeOf file from to r.0.items r.1) }
    ensures within { IfOk result (λ r. length r.0.items ≤ limit) }
    ensures refused { IfErr result (λ e. IsRangeRefusal (S.holds store.now)
        (S.unreadable store.now) name.now from to limit e) }
{
    let (mut reader, begins) = open_range(store, alloc, name, from)?;
    let Some(end) = to else {
        if !begins {
            return Err(RangeFault::InsideALine { byte: from });
        }
        let bytes = match read_rest(&mut reader, alloc, name, limit) {
            Ok(bytes) => bytes,
            Err(LimitFault::File(fault)) => return Err(RangeFault::File(fault)),
            Err(LimitFault::TooLong) => return Err(RangeFault::TooLong),
        };
        return Ok((bytes, true));
    };
    let count = end - from;
    let (bytes, ends) = match read_front(&mut reader, alloc, name, count, count <= limit) {
        Ok(Some(range)) => range,
        Ok(None) => return Err(RangeFault::PastEnd),
        Err(fault) => return Err(RangeFault::File(fault)),
    };
    if !begins {
        return Err(RangeFault::InsideALine { byte: from });
    }
    if !may_end(&bytes, ends) {
        return Err(RangeFault::InsideALine { byte: end });
    }
    if count > limit {
        return Err(RangeFault::TooLong);
    }
    Ok((bytes, ends))
}
