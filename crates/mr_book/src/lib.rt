//! The master's book: the master, its whole history and the outputs that it accepted.
//!
//!     workers, each with a seat  ->  Book [ EventLog: master, history | OutputStore x 2 ]
//!     a done book                ->  assemble, assemble_bytes  ->  files, certificate
//!     a book and all its seats   ->  close                     ->  History
//!
//! Workers in many threads share one book under a lock. Which outputs make the result follows from
//! the master's state alone. Laws state what that result is worth where workers did their tasks.
//! Source: OSDI 2004, sections 3.2 and 3.3.
#![tactic(auto)]

mod assembling;
mod book;
mod event_log;
mod output_store;
mod spelling;

pub use book::{
    Book, History, attempts_law, done_law, values_law, what_is_complete_is_stored, worked_law,
};
pub use event_log::{HistoryEntry, Seat};
pub use output_store::Kept;
