//! Reads a verdict: finds each value by the word of its line, and accepts the text only if it is
//! the text of the verdict so found.
//!
//!     text  ->  values by word  ->  Verdict  ->  write_verdict  ->  the same text?
//!
//! Finding checks nothing: a value that is missing or malformed becomes another, such as 0, and
//! then the two texts differ. So one comparison replaces a grammar, and no rule of the text is
//! written twice. A refusal reports the first line in which the texts differ. Texts of version 1
//! are read too, if they leave out no record: their inputs are whole files.
//! Cost: a fixed number of passes over the text, and the memory of its values and of a second text.
//! Source: docs/FORMATS.md, "The verdict".
ghost use Rattle.std.specs.Prelude.{◌≡◌, ◌⊎◌, ℕ, ◌<◌, ◌^◌, List, ◌∷◌, ◌++◌, IfErr, IfOk};
ghost use Rattle.std.specs.Prelude.{MatchOption, None, Some, OnOk, codes, decimal};
ghost use Rattle.std.specs.Prelude.{Bool, false, true};
ghost use Rattle.std.specs.List.{AllByRecursion};
ghost use Rattle.mr_bytes.specs.Cut.{Lacks};
ghost use Rattle.mr_shards.specs.Lines.{lines};
ghost use Rattle.mr_shards.specs.RangeNotes.{RangeNote};
ghost use Rattle.mr_shards.specs.Reading.{Fits, NoteFits, RangeFits, SpotFits, told_of, told_under};
ghost use Rattle.mr_shards.specs.Reading.{Adds, IsOldNote, IsOldText, IsRefused};
ghost use Rattle.mr_shards.specs.Verdict.{Told, note_told, place_told, range_told, spelled};
ghost use Rattle.mr_shards.specs.Verdict.{spelling, spot_told};

use crate::numbers::number_of;
use crate::ranges::FileRange;
use crate::shift::Spot;
use crate::verdict::{FileNote, Verdict, VerdictFault, text_of};
use hex::decode_to_slice;
use mr_bytes::cut;
use mr_lanes::first_difference;
use std::alloc::{AllocError, Global};

/// What follows the word of a line, if it is this word.
fn behind<'a>(line: &'a [u8], word: &[u8]) -> Option<&'a [u8]>
    ensures { MatchOption result (told_of word.now line.entry.now ≡ None)
        (λ t. told_of word.now line.entry.now ≡ Some t.now) }
{
    let (front, told) = cut(line, b' ')?;
    if front == word { Some(told) } else { None }
}

/// What follows the word in its first line; empty if no line has the word.
fn first_told<'a>(text: &'a [u8], word: &[u8]) -> &'a [u8]
    ensures { (t : List ℕ) (ts : List (List ℕ)) → told_under word.now (lines text.entry.now) ≡ t ∷ ts → result.now ≡ t }
{
    let mut rest = text;
    while let Some((line, more)) = cut(rest, b'\n') {
        if let Some(told) = behind(line, word) {
            return told;
        }
        rest = more;
    }
    b""
}

/// Splits at the first space.
fn parted(told: &[u8]) -> (&[u8], &[u8])
    ensures { (a b : List ℕ) → Lacks 32 a → told.now ≡ a ++ 32 ∷ b → (result.0.now ≡ a) × (result.1.now ≡ b) }
{
    match cut(told, b' ') {
        Some(parts) => parts,
        None => (told, b""),
    }
}

fn number_or_zero(digits: &[u8]) -> u64
    ensures { (n : ℕ) → n < 2 ^ 64 → digits.now ≡ decimal n → result ≡ n }
{
    number_of(digits).unwrap_or(0)
}

fn small_or_zero(digits: &[u8]) -> u32
    ensures { (n : ℕ) → n < 2 ^ 32 → digits.now ≡ decimal n → result ≡ n }
{
    u32::try_from(number_or_zero(digits)).unwrap_or(0)
}

/// Where a range begins, how it ends, and the name of its file.
#[derive(Clone, Copy)]
struct RangePlace<'a> {
    from: u64,
    closed: bool,
    ends: bool,
    name: &'a [u8],
}

fn place_of<'a>(old: bool, told: &'a [u8]) -> RangePlace<'a>
    ensures place { (n : RangeNote) → RangeFits old n → told.entry.now ≡ place_told old n
        → (result.from ≡ n.from) × (result.closed ≡ n.closed) × (result.ends ≡ n.ends)
        × (result.name.now ≡ n.name) }
    ensures all { old ≡ true → (result.from ≡ 0) × (result.closed ≡ false) × (result.ends ≡ true) }
{
    if old {
        return RangePlace {
            from: 0,
            closed: false,
            ends: true,
            name: told,
        };
    }
    let (from, rest) = parted(told);
    let (ending, name) = parted(rest);
    RangePlace {
        from: number_or_zero(from),
        closed: ending != b"open".as_slice(),
        ends: ending != b"more".as_slice(),
        name,
    }
}

/// Adds the range of a line, if the line tells one.
fn add_range(
    alloc: Global,
    old: bool,
    ranges: &mut Vec<FileRange>,
    line: &[u8],
) -> Result<(), AllocError>
    ensures range { OnOk result (Adds (range_told old) (RangeFits old)
        (told_of (codes "input") line.now) ranges.old.items ranges.new.items) }
    ensures all { OnOk result (old ≡ true → AllByRecursion IsOldNote ranges.old.items
        → AllByRecursion IsOldNote ranges.new.items) }
{
    let Some(told) = behind(line, b"input") else {
        return Ok(());
    };
    let (digits, rest) = parted(told);
    let (length, rest) = parted(rest);
    let place = place_of(old, rest);
    let mut digest = [0u8; 32];
    let _ = decode_to_slice(digits, &mut digest);
    ranges.push(FileRange {
        name: Vec::from_slice(alloc, place.name)?,
        from: place.from,
        length: number_or_zero(length),
        digest,
        closed: place.closed,
        ends: place.ends,
    })?;
    Ok(())
}

/// Adds the part of a line, if the line tells one.
fn add_note(alloc: Global, notes: &mut Vec<FileNote>, line: &[u8]) -> Result<(), AllocError>
    ensures { OnOk result (Adds note_told NoteFits
        (told_of (codes "output") line.now) notes.old.items notes.new.items) }
{
    let Some(told) = behind(line, b"output") else {
        return Ok(());
    };
    let (digits, rest) = parted(told);
    let (length, name) = parted(rest);
    let mut digest = [0u8; 32];
    let _ = decode_to_slice(digits, &mut digest);
    notes.push(FileNote {
        name: Vec::from_slice(alloc, name)?,
        length: number_or_zero(length),
        digest,
    })?;
    Ok(())
}

/// Adds the spot of a line, if the line tells where a record begins that is left out.
fn add_spot(spots: &mut Vec<Spot>, line: &[u8]) -> Result<(), AllocError>
    ensures { OnOk result (Adds spot_told SpotFits
        (told_of (codes "without") line.now) spots.old.items spots.new.items) }
{
    let Some(told) = behind(line, b"without") else {
        return Ok(());
    };
    let (file, start) = parted(told);
    spots.push(Spot {
        file: small_or_zero(file),
        start: number_or_zero(start),
    })?;
    Ok(())
}

/// Whether the text says that it is of version 1.
fn is_old(text: &[u8]) -> bool
    ensures { (old : Bool) (v : Told) → Fits old v → text.now ≡ spelled old v → result ≡ old }
{
    number_or_zero(first_told(text, b"verdict")) == 1
}

/// Finds each value by its word; it checks nothing.
fn told_verdict(alloc: Global, old: bool, text: &[u8]) -> Result<Verdict, AllocError>
    ensures verdict { IfOk result (λ r. (v : Told) → Fits old v → text.now ≡ spelled old v → r ≡ v) }
    ensures all { IfOk result (λ r. old ≡ true → AllByRecursion IsOldNote r.inputs) }
{
    let literal = Vec::from_slice(alloc, first_told(text, b"literal"))?;
    let (mut inputs, mut outputs, mut left_out) = (
        Vec::new(alloc),
        Vec::new(alloc),
        Vec::new(alloc),
    );
    let mut rest = text;
    while let Some((line, more)) = cut(rest, b'\n') {
        add_range(alloc, old, &mut inputs, line)?;
        add_note(alloc, &mut outputs, line)?;
        add_spot(&mut left_out, line)?;
        rest = more;
    }
    Ok(Verdict {
        job: small_or_zero(first_told(text, b"job")),
        flags: small_or_zero(first_told(text, b"flags")),
        literal,
        parts: small_or_zero(first_told(text, b"partitions")),
        split: small_or_zero(first_told(text, b"split")),
        inputs,
        outputs,
        left_out,
        pairs: number_or_zero(first_told(text, b"emitted")),
    })
}

/// The first line, from 0, in which two different texts differ.
fn parting_line(bytes: &[u8], spelled: &[u8]) -> u64 {
    let at = first_difference(bytes, spelled).unwrap_or(0);
    let front = bytes.get(..at).unwrap_or(bytes);
    front.iter().filter(|byte| **byte == b'\n').count() as u64
}

/// Parses the text of a verdict. It refuses exactly the texts of no verdict, and old ones that name
/// left-out records.
pub fn read_verdict(alloc: Global, bytes: &[u8]) -> Result<Verdict, VerdictFault>
    ensures ok { IfOk result (λ v. (bytes.now ≡ spelling v) ⊎ IsOldText v bytes.now) }
    ensures err { IfErr result (IsRefused bytes.now) }
{
    let old = is_old(bytes);
    let verdict = told_verdict(alloc, old, bytes)?;
    let spelled = text_of(alloc, old, &verdict)?;
    if spelled.as_slice() != bytes {
        return Err(VerdictFault::BadLine {
            line: parting_line(bytes, spelled.as_slice()),
        });
    }
    if old && !verdict.left_out.as_slice().is_empty() {
        return Err(VerdictFault::OldVerdict);
    }
    Ok(verdict)
}
