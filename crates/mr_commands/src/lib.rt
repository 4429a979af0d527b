//! The program's commands over a store of files, and the lines that they print.
#![tactic(auto)]

mod accepting;
mod check_job;
mod commands;
mod counts;
mod explaining;
mod feeds;
mod input;
mod judging;
mod merging;
mod old_verdicts;
mod picturing;
mod running;
mod sifted;
mod texts;
mod verifying;

pub use crate::commands::{execute, seq};
pub use crate::counts::{Facts, JobFacts};
pub use crate::explaining::explain;
pub use crate::judging::check;
pub use crate::merging::merge;
pub use crate::picturing::{PagePlan, draw, picture};
pub use crate::running::{Machine, RunOutcome, run};
pub use crate::texts::{CommandOutput, history_text, no_line};
pub use crate::verifying::verify;
