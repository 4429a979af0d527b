//! The judge of a result: by one thread (`mr_judge`) and by many, with the verdict of `mr_verdict`.
#![tactic(auto)]

mod accept;
mod checking;
mod claims;
mod given;
mod guesses;
mod joined;
mod joining;
mod lines;
mod section;
mod sections;
mod threads;
mod walk;
mod windows;

pub use checking::{accept_read, check, judge_on_one_thread};
pub use mr_judge::{check_from, check_metered, judge_readers};
pub use mr_verdict::{
    Case, Computation, No, Source, Yes, fault_law, is_same_fault, locality_law, partition_law,
    place_law, worked_places, worked_rows, yes_law,
};
pub use threads::{JudgeOptions, check_gated, check_threads, judge};
