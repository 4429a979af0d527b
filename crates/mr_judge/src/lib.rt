//! The judge of a result by one thread, over bytes at hand and over readers, with the steps that
//! the judge by many threads shares.
#![tactic(auto)]

mod border;
mod from;
mod judge;
mod judge_state;
mod lines;
mod outputs;
mod parts;
mod readers;
mod remainder;

pub use border::{Border, FoundItem};
pub use from::{check_from, judge_readers};
pub use judge::{check_metered, judge_plainly, plan_of, walk};
pub use judge_state::JudgeState;
pub use outputs::{MemoryOutputs, OutputError, Outputs};
pub use parts::test_named;
pub use readers::ByRef;
pub use remainder::{Remainder, judge_remainder};
