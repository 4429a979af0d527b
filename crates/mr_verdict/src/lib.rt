//! What a judge must return: the verdict over bytes, its faults, what a yes is worth, and laws of
//! these. It also tests a certificate's header and its left-out records, over any source of items.
#![tactic(auto)]

mod answers;
mod case;
mod heading;
mod items;

pub use answers::{
    No, Source, Yes, fault_law, is_same_fault, locality_law, partition_law, place_law,
    worked_places, worked_rows, yes_law,
};
pub use case::{Case, Computation};
pub use heading::{expect_count, expect_header, read_skips};
pub use items::{ItemError, ItemSource, JudgeError};
