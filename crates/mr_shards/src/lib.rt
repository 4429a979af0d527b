//! Shards: stretches of an input's files are judged apart; their outputs merge to the whole's, for
//! each job.
//! A shard may begin and end inside a file, at a line end (`ranges.rt`).
//! Verdicts: what a judge accepted, as text for others; the verdicts of shards join to one.
#![tactic(auto)]

mod cursor;
mod cutting;
mod file_numbers;
mod joining;
mod line;
mod merger;
mod numbers;
mod portions;
mod ranges;
mod reading;
mod shift;
mod spots;
mod verdict;
mod waiting;

ghost use Rattle.mr_shards.specs.Judged.{GoodIsJudged, StretchIsTrue};
ghost use Rattle.mr_shards.specs.Lines.{OneReading};
ghost use Rattle.mr_shards.specs.Laws.{OneText};

pub use cutting::{cut_first, cut_last};
pub use file_numbers::index_law;
pub use joining::{JoinFault, first_repeat, join_verdicts, joined_law};
pub use merger::{MergeFault, Merger, ShardText, Window, merge_parts};
pub use numbers::number_of;
pub use portions::{left_out_law, lines_law, portions_law, worked_law};
pub use ranges::{FileRange, Gap, first_gap, goes_on, ranges_law, tile_law};
pub use reading::read_verdict;
pub use shift::{ShardFiles, Shift, Spot, shard_files, shifted};
pub use spots::spots_for;
pub use verdict::{
    FileNote, Verdict, VerdictFault, asks, is_note_of, note_for, range_for, ranges_for, request_of,
    verdict_for, write_verdict,
};

/// A text of lines has one reading.
pub fn reading_law()
    ensures { OneReading }
{}

/// A good result over files within an input's limits is one of a shard whose outputs can be merged.
/// The verdict on a good result over a stretch of files is true of it.
pub fn judged_law()
    ensures shard { GoodIsJudged }
    ensures stretch { StretchIsTrue }
{}

/// Verdicts within their fields' ranges that have the same text are equal.
pub fn verdict_law()
    ensures { OneText }
{}
