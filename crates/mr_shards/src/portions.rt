//! The laws of portions: an input is cut at line ends into portions, which are executed and judged
//! apart, each of their ranges as if it were a file.
//!
//!     a.log   | x x x | x x |          portion 0: the first three lines of a.log
//!     b.log   | y y |                  portion 1: the rest of a.log, and b.log
//!
//! A record lies between line feeds, so a cut at a line end divides no record. What a job emits for
//! a record depends on its bytes, its file's number and its start. So the merged outputs of the
//! portions are those of the whole once their places are moved: file numbers by the files before,
//! and in a file that goes on, offsets by its bytes before. Splits of a portion need not be splits
//! of the whole: they appear only in the names of records, which `left_out_law` translates.
ghost use Rattle.mr_shards.specs.Cut.{RecordsOfBoth};
ghost use Rattle.mr_shards.specs.PortionLaws.{EmittedOfBoth, MergedIsWhole, NamesBack, NamesStand};
ghost use Rattle.mr_shards.specs.PortionLaws.{OutputsAreTexts, SpotsBack};
ghost use Rattle.mr_shards.specs.PortionLines.{LinesAreWhole};
ghost use Rattle.mr_shards.specs.Portions.{MergedAtOnce};
ghost use Rattle.mr_shards.specs.Rows.{WorkedFiles, WorkedIndex, WorkedLines, WorkedNames};
ghost use Rattle.mr_shards.specs.Rows.{WorkedSpots};

/// The records of a file that is cut at a line end are those of both pieces. A job emits over the
/// whole what it emits over the portions, with places moved. An output is the text of its groups,
/// and the merged groups of the portions are those of the whole; each portion can be moved at once,
/// by the sum of the shifts before it.
pub fn portions_law()
    ensures records { RecordsOfBoth }
    ensures emitted { EmittedOfBoth }
    ensures texts { OutputsAreTexts }
    ensures merged { MergedIsWhole }
    ensures at_once { MergedAtOnce }
{}

/// Left-out records are known by where they begin, however files are cut. Names and spots determine
/// each other; the spots of the whole are those of the portions, moved, and its names rise and
/// exist.
pub fn left_out_law()
    ensures names { NamesBack }
    ensures spots { SpotsBack }
    ensures stand { NamesStand }
{}

/// The lines of the portions' outputs, merged with their places moved, are the output of the
/// sequential execution over the whole files, for each job.
pub fn lines_law()
    ensures { LinesAreWhole }
{}

/// Rows computed by hand: a log cut behind its first line, a left-out record, a second file.
pub fn worked_law()
    ensures files { WorkedFiles }
    ensures spots { WorkedSpots }
    ensures names { WorkedNames }
    ensures lines { WorkedLines }
    ensures index { WorkedIndex }
{}
