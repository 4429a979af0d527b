//! Collects the pairs that a map task emits, and cuts them by partition into sorted regions (OSDI
//! 2004, sections 3.1 and 4.2). A reduce task groups pairs of many regions by key (`Groups`).
//!
//! Pairs enter by rising name: the order of the input. A region per partition leaves, sorted by key
//! and then name, each key stored once. As bytes it has the key of each pair, and is read back so.
//! - Time: a look-up per pair, mostly one memory access and at most a few dozen; a sort of the
//!   distinct keys, n log n comparisons, mostly of two numbers; then a counting sort of the pairs.
//! - Memory: 16 bytes per waiting pair, its value unless that is `One`, and the keys, most of them
//!   once. While they are cut, 16 more bytes per pair, and the regions.
#![tactic(auto)]

mod buffer;
mod by_name;
mod cursor;
mod dir_store;
mod entries;
mod groups;
mod moving;
mod pair_columns;
mod reading;
mod regions;
mod sealed;
mod spelling;
mod store;

pub use buffer::{Buffer, PushFault, PushKeyFault};
pub use cursor::{RegionCursor, RegionPair, RegionView, open_region};
pub use dir_store::{DirStore, DiskScratch, MemoryScratch, Scratch, ScratchFault};
pub use groups::{Groups, group_pairs};
pub use pair_columns::PairColumns;
pub use reading::{RegionFault, read_region};
pub use regions::spill_law;
pub use sealed::SealedRun;
pub use spelling::{worked_regions, write_region};
pub use store::{GetFault, MemoryStore, PutFault, RegionStore};
