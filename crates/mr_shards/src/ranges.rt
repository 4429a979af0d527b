//! Ranges: a file, or a stretch of it between line ends, that is judged as if it were a file.
//!
//!     a.log    0 .. 900 more  |  900 .. 1500 end      the second goes on with the first
//!     b.log    0 .. 40  open                          another file
//!
//! A range goes on with the one before if it has the same name, begins where that one ends, and is
//! not at the file's beginning. Ranges tile files if each one that doesn't go on begins its file,
//! and each one that the next doesn't go on with ends its file. Cost: one pass over the ranges.
ghost use Rattle.std.specs.Prelude.{◌≡◌, ◌<◌, MatchOption, length};
ghost use Rattle.mr_shards.specs.Gaps.{BeginsWell, IsFirstGap, IsGap, Stands, gap_input};
ghost use Rattle.mr_shards.specs.Gaps.{goes_on_at as is_going_on_at};
ghost use Rattle.mr_shards.specs.RangeNotes.{TileFiles, TilesAreFiles, goes_on as do_go_on};
ghost use Rattle.mr_shards.specs.RangeVerdicts.{JoinedIsTrueOfRanges, RangesAreFiles};

use std::marker::Model;

/// A range as it was judged.
#[derive(Debug, Drop)]
pub struct FileRange {
    /// The file's name.
    pub name: Vec<u8>,
    /// Where the range begins in the file.
    pub from: u64,
    pub length: u64,
    /// The SHA-256 of its bytes.
    pub digest: [u8; 32],
    /// It is empty or ends with a line feed.
    pub closed: bool,
    /// It ends where its file ended.
    pub ends: bool,
}

impl Model for FileRange {
    ghost use Rattle.mr_shards.specs.RangeNotes.{RangeNote};

    ghost Value = { RangeNote };

    ghost view = { λ n. record {
      name = n.name.items;
      from = n.from;
      length = n.length;
      digest = n.digest;
      closed = n.closed;
      ends = n.ends;
    } };
}

/// Why ranges don't tile files. Ranges are numbered from 0.
#[derive(Clone, Copy, Debug, PartialEq, Eq, Drop)]
pub enum Gap {
    /// A range begins inside its file, and doesn't go on with the one before.
    NoBeginning { input: usize },
    /// A range ends before its file does, and the next one doesn't go on with it.
    NoEnd { input: usize },
}

/// Ranges that tile files make up just these files.
pub fn tile_law()
    ensures { TilesAreFiles }
{}

/// If each verdict is true of its ranges and outputs, the joined one is true of all ranges and the
/// merged outputs. If each range but the first begins its file, each range is a file of its own.
pub fn ranges_law()
    ensures all { JoinedIsTrueOfRanges }
    ensures one { RangesAreFiles }
{}

/// Whether the second range goes on where the first ends.
pub fn goes_on(first: &FileRange, second: &FileRange) -> bool
    ensures { result ≡ do_go_on first.now second.now }
{
    let from = second.from;
    let Some(end) = first.from.checked_add(first.length) else {
        return false;
    };
    first.name.as_slice() == second.name.as_slice() && from == end && 0 < from && first.closed
}

/// The first gap between ranges that should tile files, each from its beginning to its end. Of
/// partial ranges the first one may begin inside its file, and the last one may end there. Of two
/// gaps of a range it reports `NoBeginning`.
pub fn first_gap(ranges: &[FileRange], partial: bool) -> Option<Gap>
    ensures { MatchOption result (TileFiles partial ranges.now) (IsFirstGap partial ranges.now) }
{
    for at in 0..ranges.len() {
        if let Some(gap) = gap_at(ranges, at, partial) {
            return Some(gap);
        }
    }
    None
}

/// The gap in front of the range with that number, or behind it.
fn gap_at(ranges: &[FileRange], at: usize, partial: bool) -> Option<Gap>
    requires { at < length ranges.now }
    ensures { MatchOption result (Stands partial ranges.now at)
        (λ g. IsGap partial ranges.now g × (gap_input g ≡ at) × BeginsWell partial ranges.now g) }
{
    let range = &ranges[at];
    let is_first = partial && at == 0;
    if range.from != 0 && !is_first && !goes_on_at(ranges, at) {
        return Some(Gap::NoBeginning { input: at });
    }
    let is_last = partial && at + 1 == ranges.len();
    if !range.ends && !is_last && !goes_on_at(ranges, at + 1) {
        return Some(Gap::NoEnd { input: at });
    }
    None
}

/// Whether the range with that number goes on with the one before; false if there is none.
pub(crate) fn goes_on_at(ranges: &[FileRange], at: usize) -> bool
    ensures { result ≡ is_going_on_at ranges.now at }
{
    if at == 0 {
        return false;
    }
    if at >= ranges.len() {
        return false;
    }
    goes_on(&ranges[at - 1], &ranges[at])
}
