//! Where lines begin near a byte inside a line, which helps against `InsideALine`.
//!
//!     .. \n | before   byte   \n | behind
//!
//! It reads up to 16 MiB in front of the byte and behind it, in pieces, and gives up at a fault or
//! if it sees no line feed there and no end of the file.

use mr_args::Options;
use mr_files::Store;
use mr_store::CountedRead;
use std::alloc::{AllocError, Global};

const PIECE: usize = 65_536;

/// How many pieces it reads at most on each side.
const MOST_PIECES: u64 = 256;

/// The last place in front of the byte where a line begins.
fn line_before<S: Store>(store: &S, alloc: Global, name: &str, byte: u64) -> Option<u64> {
    let mut place = byte.saturating_sub(MOST_PIECES * PIECE as u64);
    let mut line = if place == 0 { Some(0) } else { None };
    let mut reader = store.reader_from(alloc, name, place).ok()?;
    let mut piece = [0u8; PIECE];
    for _ in 0..MOST_PIECES {
        if byte <= place {
            return line;
        }
        let count = reader.read(&mut piece).ok()?;
        let front = (byte - place).min(count as u64) as usize;
        if let Some(at) = piece.get(..front)?.iter().rposition(|byte| *byte == b'\n') {
            line = Some(place.saturating_add(at as u64).saturating_add(1));
        }
        place = place.saturating_add(count as u64);
    }
    line
}

/// The first place behind the byte where a line begins, or the file's end.
fn line_behind<S: Store>(store: &S, alloc: Global, name: &str, byte: u64) -> Option<u64> {
    let mut place = byte;
    let mut reader = store.reader_from(alloc, name, place).ok()?;
    let mut piece = [0u8; PIECE];
    for _ in 0..MOST_PIECES {
        let count = reader.read(&mut piece).ok()?;
        if count == 0 {
            return Some(place);
        }
        if let Some(at) = piece.get(..count)?.iter().position(|byte| *byte == b'\n') {
            return Some(place.saturating_add(at as u64).saturating_add(1));
        }
        place = place.saturating_add(count as u64);
    }
    None
}

/// The hint for a byte inside a line of the file with that number; empty if the nearest lines can't
/// be found.
pub fn line_hint<S: Store>(
    store: &S,
    alloc: Global,
    options: Option<&Options<'_>>,
    file: usize,
    byte: u64,
) -> Result<String, AllocError> {
    if let Some(name) = options.and_then(|options| options.files.get(file))
        && let Some(before) = line_before(store, alloc, name, byte)
        && let Some(behind) = line_behind(store, alloc, name, byte)
    {
        return format!(in alloc;
            "--from and --to stand where a line begins, or at the file's end: the nearest in {name} are {before} and {behind}"
        );
    }
    Ok(String::new(alloc))
}
