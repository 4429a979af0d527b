//! All pairs that a job emits over an input, looked up by name.
#![tactic(auto)]

mod index;
mod pairs;
mod part;
mod piece;
mod tables;
mod window;

pub use index::{EmissionIndex, Meter};
pub use part::Part;
pub use piece::Piece;
pub use window::{Window, windows};
