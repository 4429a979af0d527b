//! Map and reduce tasks with their values (OSDI 2004, section 3.1). A map task maps the records of
//! a split and divides the pairs by partition. A reduce task merges a partition's pairs and writes
//! each group's text. Results depend only on the pairs, not on how they are cut into lists.
#![tactic(auto)]

mod cancellation;
mod map;
mod output;
mod reduce;
mod runs;

pub use cancellation::{Cancellation, NeverCancelled};
pub use map::{MapTask, map_task, map_task_with};
pub use mr_merge::Reduction;
pub use output::{MapOutput, Place, ReduceOutput, Stored};
pub use reduce::{TaskFault, map_values_law, pieces_law, reduce_pairs, reduce_task, worked_tasks};
