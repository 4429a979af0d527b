//! The sequential execution of a job. It stores no names while it reads, but one count for each
//! record, and so gives each name a number (`mr_certform::RecordNames`). Keys get numbers as they
//! come; they are sorted once, and a counting sort puts the names in order of their keys.
#![tactic(auto)]

ghost use Rattle.mr_sequential.specs.Laws.{KeysAreUnique, KeysRise, NamesRise};
ghost use Rattle.mr_sequential.specs.Laws.{OutputsAreInKeyOrder};
ghost use Rattle.mr_sequential.specs.Skips.{GoodSkips};

mod groups;
mod names;
mod outputs;
mod sequence;
mod source;
mod texts;

pub use sequence::{
    Executed, RunFault, certified_law, entries_law, good_law, header_of, lengths_of, run,
    run_watched, unique_law,
};

/// A partition's keys are the one list that rises strictly and has exactly the keys that belong to
/// it. The outputs of the sequential execution are the texts of these keys, in this order.
pub fn keys_law()
    ensures rising { KeysRise }
    ensures unique { KeysAreUnique }
    ensures outputs { OutputsAreInKeyOrder }
{}

/// The names of all emitted pairs rise strictly, whichever records are left out.
pub fn names_law()
    ensures { NamesRise }
{}

/// A list of left-out records has no fault exactly where it is within the limit, rises strictly,
/// and names records that exist.
pub fn skips_law()
    ensures { GoodSkips }
{}
