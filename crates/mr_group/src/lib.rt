//! Groups items by key: each distinct key is stored and sorted once, and each item is moved once.
//!
//!     keys of items    the cat the dog
//!     numbers            0   1   0   2    by first appearance    interner.rt, column.rt
//!     rows             cat dog the        by partition and key   rows.rt
//!     ranks              2   0   2   1    of the items' keys
//!     sizes              1   1   2        how many of each rank  counting.rt
//!     items a b c d    b | d | a c        by rank                scattering.rt
//!
//! A key may have two numbers (`interner.rt`), but has one rank.
//! Cost: a look-up and one move for each item, a sort of the distinct keys.
#![tactic(auto)]

mod column;
mod counting;
mod first_bytes;
mod interner;
mod nearly;
mod print;
mod rows;
mod scattering;
mod slots;
mod texts;

pub use column::KeyColumn;
pub use counting::{sizes_of, starts_of};
pub use first_bytes::{front_law, front_of};
pub use rows::{RankedPairs, Row, ranked};
pub use scattering::{Items, scatter};
pub use texts::Texts;
