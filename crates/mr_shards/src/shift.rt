//! How far the places behind a portion move.
//!
//!     a.log  0 .. 900 more        the first portion: two files, the last one cut at 600
//!     b.log  0 .. 600 more
//!     b.log  600 .. 650 end       the second: its file 0 is file 1 of both, and byte 0 there is
//!     c.log  0 .. 40  open        byte 600; its file 1 is file 2, with the same offsets
//!
//! File numbers move by the files before, where a file that is cut counts once. In the first file
//! of a portion that goes on, offsets move by the bytes of the file before it. Lines of grep and
//! spots of left-out records move alike. Cost: one pass over the ranges, from the last one on.
ghost use Rattle.std.specs.Prelude.{◌≡◌, ◌+◌, ◌<◌, ◌≤◌, ◌^◌, ◌⊎◌, MatchOption, true, false};
ghost use Rattle.std.specs.Prelude.{length};
ghost use Rattle.mr_shards.specs.RangeVerdicts.{end_of, file_lengths, files_of, last_goes_on};
ghost use Rattle.mr_shards.specs.RangeVerdicts.{last_number, shift_past as do_shift_past};
ghost use Rattle.mr_shards.specs.Joined.{IsNearShift};
ghost use Rattle.mr_shards.specs.Portions.{behind as both, past_shard};
ghost use Rattle.mr_shards.specs.Portions.{shifted_start as moved_start};
ghost use Rattle.mr_shards.specs.Spots.{shifted_spot};

use crate::ranges::{FileRange, goes_on, goes_on_at};
use std::marker::Model;

/// File numbers move by `files`, and offsets in file 0 by `bytes`.
#[derive(Clone, Copy, PartialEq, Eq, Debug)]
pub struct Shift {
    pub files: u64,
    pub bytes: u64,
}

/// How many files a shard has. If the next shard goes on with the last one, `cut` is how many bytes
/// of it come before: in the last range and all ranges of that file before it.
#[derive(Clone, Copy, PartialEq, Eq, Debug)]
pub struct ShardFiles {
    pub count: u32,
    pub cut: Option<u64>,
}

impl ShardFiles {
    /// How far the places of the shards behind move. A file that is cut counts once.
    pub fn shift(&self) -> Shift
        ensures { result ≡ past_shard self.now }
    {
        match self.cut {
            Some(bytes) => Shift {
                files: self.count.saturating_sub(1) as u64,
                bytes,
            },
            None => Shift {
                files: self.count as u64,
                bytes: 0,
            },
        }
    }
}

/// Where a record begins: the number of its file, and the offset there.
#[derive(Debug, Drop)]
pub struct Spot {
    pub file: u32,
    pub start: u64,
}

impl Model for Spot {
    ghost use Rattle.mr_shards.specs.Spots.{Spot as Beginning};

    ghost Value = { Beginning };

    ghost view = { λ s. record { file = s.file; start = s.start } };
}

/// The files that the ranges make up, if the ranges behind come next.
pub fn shard_files(ranges: &[FileRange], behind: &[FileRange]) -> ShardFiles
    requires { length ranges.now < 2 ^ 32 }
    ensures { result ≡ files_of ranges.now behind.now }
{
    let Counted { files, begin } = count_files(ranges);
    let count = files as u32;
    match end_of_cut(ranges, behind) {
        Some(end) => ShardFiles {
            count,
            cut: Some(end - begin),
        },
        None => ShardFiles { count, cut: None },
    }
}

/// The spot, moved; none if its file doesn't fit in 32 bits or its offset in 64.
pub fn shifted(shift: &Shift, spot: &Spot) -> Option<Spot>
    ensures { MatchOption result
        ((2 ^ 32 ≤ (shifted_spot shift.now spot.now).file)
        ⊎ (2 ^ 64 ≤ (shifted_spot shift.now spot.now).start))
        (λ s. s ≡ shifted_spot shift.now spot.now) }
{
    let start = shifted_start(shift, spot.file as u64, spot.start)?;
    let file = shifted_file(shift, spot.file as u64)?;
    Some(Spot { file, start })
}

/// The file's number, moved; none if it doesn't fit in 32 bits.
pub(crate) fn shifted_file(shift: &Shift, file: u64) -> Option<u32>
    ensures { MatchOption result (2 ^ 32 ≤ shift.now.files + file) (λ n. n ≡ shift.now.files + file) }
{
    let moved = shift.files.checked_add(file)?;
    u32::try_from(moved).ok()
}

/// The offset in that file, moved; none if it doesn't fit in 64 bits.
pub(crate) fn shifted_start(shift: &Shift, file: u64, start: u64) -> Option<u64>
    ensures { MatchOption result (2 ^ 64 ≤ moved_start shift.now file start)
        (λ n. n ≡ moved_start shift.now file start) }
{
    if file == 0 {
        return shift.bytes.checked_add(start);
    }
    Some(start)
}

/// One shift behind another; none if a number of it doesn't fit in 64 bits.
pub(crate) fn behind(first: Shift, second: Shift) -> Option<Shift>
    ensures { MatchOption result (IsNearShift (both first second) → ⊥)
        (λ s. (s ≡ both first second) × IsNearShift s) }
{
    let bytes = shifted_start(&first, second.files, second.bytes)?;
    let files = first.files.checked_add(second.files)?;
    Some(Shift { files, bytes })
}

/// The shift of what is behind the ranges.
pub(crate) fn shift_past(ranges: &[FileRange], behind: &[FileRange]) -> Shift
    ensures { result ≡ do_shift_past ranges.now behind.now }
{
    let Counted { files, begin } = count_files(ranges);
    match end_of_cut(ranges, behind) {
        Some(end) => Shift {
            files: files - 1,
            bytes: end - begin,
        },
        None => Shift { files, bytes: 0 },
    }
}

/// How many files ranges make up, and where in its file the first range of the last one begins.
#[derive(Clone, Copy)]
struct Counted {
    files: u64,
    begin: u64,
}

fn count_files(ranges: &[FileRange]) -> Counted
    ensures count { result.files ≡ length (file_lengths ranges.now) }
    ensures begin { 0 < result.files
        → result.begin + last_number (file_lengths ranges.now) ≡ end_of ranges.now }
{
    let mut at = ranges.len();
    let mut files = 0;
    let mut begin = 0;
    while at > 0 {
        at -= 1;
        if !goes_on_at(ranges, at + 1) {
            files += 1;
        }
        let range = &ranges[at];
        if files == 1 {
            begin = range.from;
        }
    }
    Counted { files, begin }
}

/// Where the last range ends, if the first of the ranges behind goes on with it.
fn end_of_cut(ranges: &[FileRange], behind: &[FileRange]) -> Option<u64>
    ensures { MatchOption result (last_goes_on ranges.now behind.now ≡ false)
        (λ end. (last_goes_on ranges.now behind.now ≡ true) × (end ≡ end_of ranges.now)) }
{
    let count = ranges.len();
    if count == 0 {
        return None;
    }
    let more = behind.len();
    if more == 0 {
        return None;
    }
    let first = &behind[0];
    if goes_on(&ranges[count - 1], first) {
        return Some(first.from);
    }
    None
}
