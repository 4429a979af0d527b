//! Scripts: what goes wrong in a run, one directive per line.
#![tactic(auto)]

mod line;
mod script;

pub use crate::line::number_of;
pub use crate::script::{Directive, Script, ScriptFault, line_law, script_law};
