//! The evidence behind a count: the records of an input that give a key, or that give nothing.
//!
//!     kept records      -> those that give the key, up to a limit    FILE:LINE:OFFSET:record
//!                       -> how many pairs and records                KEY: N pairs in M records
//!     left-out records  -> the same, each line behind `left out:`
//!     a part, a key     -> the key's lines against the text of its group
//!     a file            -> the few lines of it that matter (`sift`), and their places in the file
//!
//! A record that doesn't contain the key's bytes is not mapped (`needle.rt`): one search over a file
//! finds the few that do. Line feeds are counted only up to the last record that is printed.
//! `explain` over what `sift` keeps of files prints what it prints over the whole files.
//! Cost: one pass over the input; nothing is allocated for a record. It prints by many small writes,
//! so the writer should have a buffer.
#![tactic(auto)]

ghost use Rattle.mr_explain.specs.Laws.{GivesItsKeys, LeftOutAreNamed};
ghost use Rattle.mr_explain.specs.Sifting.{SiftingIsExact, SiftingIsNoLonger};

mod comparing;
mod counting;
mod evidence;
mod group;
mod lines;
mod needle;
mod query;
mod sifting;

pub use comparing::{Comparison, compare};
pub use evidence::explain;
pub use group::group_text;
pub use lines::line_feeds;
pub use query::{ExplainFault, Explained, Query, SourceFile, Totals, Wanted};
pub use sifting::{Excerpt, Sifted, add_excerpts, plan_excerpts, sift};

/// A record gives a key exactly where the key is among the keys that it emits. The records that a
/// good list of left-out records names are just those that it leaves out, in the input's order.
pub fn evidence_law()
    ensures keys { GivesItsKeys }
    ensures left_out { LeftOutAreNamed }
{}

/// A query over what is kept of files that were sifted prints and counts what the same query over
/// the whole files does, if it leaves out no record. What is kept of a file is no longer than that.
pub fn sifting_law()
    ensures exact { SiftingIsExact }
    ensures no_longer { SiftingIsNoLonger }
{}
