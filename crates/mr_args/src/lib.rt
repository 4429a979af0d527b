//! Each command's options, the request that they make, skip lists, and why a command fails.
#![tactic(auto)]

mod fault;
mod request;

pub use crate::fault::Fault;
pub use crate::request::{
    CheckOptions, ExplainOptions, JobKind, MergeOptions, Options, PictureOptions, RunOptions,
    SeqOptions, Subcommand, request_of, skip_list_law, skips_of,
};
