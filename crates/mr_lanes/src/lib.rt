//! Kernels over bytes: line ends, words, blanks, folding, caseless search, comparison and hashes.
//!
//! They read blocks of 64 bytes. A word of 64 bits describes a block, bit i for byte i (`planes`),
//! and loops visit only set bits, the lowest first. The bytes after the last whole block are
//! copied, padded with zeros, and read as a block too: no class contains 0. Comparing, folding and
//! hashing finish one byte at a time. `next_word`, which serves short records, reads 16 bytes. No
//! kernel reads outside of its arguments. Each returns what its plain definition says.
#![tactic(auto)]

mod blanks;
mod blocks;
mod classes;
mod difference;
mod folding;
mod hashes;
mod lines;
mod search;
mod words;

pub use blanks::leading_blanks;
pub use blocks::planes;
pub use classes::Planes;
pub use difference::{difference_law, first_difference};
pub use folding::fold_into;
pub use hashes::{fnv, hash8};
pub use lines::{line_end_law, line_ends, line_ends_between};
pub use search::find_folded;
pub use words::{next_word, word_spans};
