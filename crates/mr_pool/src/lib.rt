//! Runs a job: workers in threads of their own, then the judge. A script orders what goes wrong.
//!
//!     worker 0 \                     map:     records of a split  ->  regions  ->  region store
//!     worker 1  >  Book, one lock    reduce:  region store  ->  output of a partition  ->  Book
//!     worker 2 /
//!     a done Book  ->  files, certificate  ->  judge  ->  yes: Certified
//!
//! The lock is held for one call of the book and nothing else: no task is done and no region is
//! read under it. What a run does between two calls is in no clause, since none speaks of time,
//! threads or refused memory. Nothing is assumed of workers, or of what the region store returns:
//! only a judge's yes is `Certified`.
//! Source: OSDI 2004, sections 3.1, 3.3 and 3.6.
#![tactic(auto)]

mod book_calls;
mod fault_plan;
mod run_spec;
mod running;
mod worker;
mod workers;

pub use run_spec::{RunSpec, shape_of};
pub use running::{Certified, Environment, RunFault, run, run_watched};
