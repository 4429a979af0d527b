//! The five jobs: what each emits for a record, and a request to run one.
#![tactic(auto)]

mod emissions;
mod emitter;
mod field;
mod job;
mod literal;
mod literal_search;
mod mapper;
mod pairs;
mod piece;
mod request;
mod url;

pub use emissions::{Emissions, RecordStart, emission_law, map};
pub use emitter::Emitter;
pub use field::field_law;
pub use job::{GroupText, Job, JobFault, JobRow, MAX_FIELD, MAX_LITERAL, job_law};
pub use literal::literal_law;
pub use mapper::Mapper;
pub use pairs::LinePairs;
pub use request::{MAX_PARTS, MAX_SKIPS, Request, RequestFault};
pub use url::url_law;
