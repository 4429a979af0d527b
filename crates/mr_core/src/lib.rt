//! The master of a job, as a pure machine: events in, replies out. No thread, clock or file.
//!
//!     event     Ask | Fetch MapDone MapFailed ReduceDone Damaged | Lose
//!     reply     Map Reduce Wait Stop | Region Gone | Accepted Ignored
//!
//! State, event and reply decide the next state, so a run is the replay of its history. Each row of
//! the master's table is in `tables/asks.rt` or `tables/reports.rt`.
//! Source: OSDI 2004, sections 3.2 (the master's data), 3.3 (faults), 3.6 (backup tasks), 4.6
//! (skipping bad records).
#![tactic(auto)]

mod attempts;
mod entries;
mod event;
mod master;
mod splits;
mod tables;

pub use event::{End, Event, JobFault, Limits, Reply, Shape, Task};
pub use master::{
    Core, accepted_outputs, every_run, fetched, goes_on, left_out_sets, runs, worked_runs,
};
pub use splits::Skips;
