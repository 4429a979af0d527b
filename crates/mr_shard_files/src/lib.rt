//! Merges shards over a store of files. A shard is a folder with its parts and their verdict. It
//! may begin and end inside a file: the inputs of all shards, one behind another, tile files.
#![tactic(auto)]

mod fault;
mod listing;
mod merging;
mod pairs;
mod partition;
mod rounds;
mod sharing;
mod stream;
mod streams;
mod tails;
mod verifying;

pub use crate::fault::ShardFault;
pub use crate::merging::{MergePlan, merge_shards};
pub use crate::partition::part_notes;
pub use crate::verifying::{VerifyPlan, verify_result};
