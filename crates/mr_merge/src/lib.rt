//! Merges the sorted regions of a partition into groups: each key once, with all its pairs (OSDI
//! 2004, section 4.2).
//!
//! `Reduction` takes regions as bytes, one after another. It compares each pair with the one before
//! it, and its name with the last one of the regions before. A row of pairs of one key takes one
//! look-up. At the end it sorts the distinct keys and moves each name once. Where names of regions
//! overlap or repeat, it first sorts all pairs by name, which takes a look-up more for each. Memory
//! besides the regions: 28 bytes a pair, of which 12 stay, or 48 and the keys twice where it sorts
//! by name; each distinct key; up to 264 for each name of the largest region, which is one run's
//! (`distinct.rt`).
#![tactic(auto)]

mod distinct;
mod merged;
mod reduction;

pub use merged::{MergeFault, merge, merge_law, worked_groups};
pub use mr_spill::Groups;
pub use reduction::Reduction;
