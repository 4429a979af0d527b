//! What is asked of an input, and what is answered beside the text.
ghost use Rattle.std.specs.Prelude.{◌≡◌};

use mr_bytes::RecordName;
use mr_jobs::Job;
use mr_splits::Plan;
use mr_store::Device;
use std::alloc::AllocError;
use thiserror::Error;

/// Which records are looked for.
#[derive(Clone, Copy)]
pub enum Wanted<'a> {
    /// Those that give the key, which is as an output writes it.
    Key(&'a [u8]),
    /// Those that give nothing.
    Nothing,
}

/// How a file is printed: its name, and how many lines and bytes of it come before what is read.
#[derive(Clone, Copy)]
pub struct SourceFile<'a> {
    pub name: &'a [u8],
    pub lines_before: u64,
    pub bytes_before: u64,
}

/// A job over the records of a plan without those of `skips`, and what is looked for.
#[derive(Clone, Copy)]
pub struct Query<'a> {
    pub job: &'a Job,
    pub plan: &'a Plan<'a>,
    pub skips: &'a [RecordName],
    /// The plan's files, in their order.
    pub sources: &'a [SourceFile<'a>],
    pub wanted: Wanted<'a>,
    /// How many kept records are printed at most, and how many left-out ones.
    pub limit: u64,
}

/// How many records are of those that are looked for, and how many pairs with the key they give.
#[derive(Clone, Copy, PartialEq, Eq, Debug)]
pub struct Totals {
    pub pairs: u64,
    pub records: u64,
}

/// The totals of the kept records, and of those that are left out.
#[derive(Clone, Copy, PartialEq, Eq, Debug)]
pub struct Explained {
    pub kept: Totals,
    pub left_out: Totals,
}

/// Why there is no answer.
#[derive(Clone, Copy, Debug, PartialEq, Eq, Drop, Error)]
pub enum ExplainFault {
    /// A call of the writer failed.
    #[error("Device")]
    Device,
    /// The machine refused memory.
    #[error("OutOfMemory")]
    OutOfMemory,
}

impl From<Device> for ExplainFault {
    ghost use Rattle.mr_explain.specs.declared.query.ExplainFault.TheVariants.{Device as told_device};

    ghost from_gives = { λ _ f. f ≡ told_device };

    fn from(_fault: Device) -> ExplainFault {
        ExplainFault::Device
    }
}

impl From<AllocError> for ExplainFault {
    ghost use Rattle.mr_explain.specs.declared.query.ExplainFault.TheVariants.{OutOfMemory as told_memory};

    ghost from_gives = { λ _ f. f ≡ told_memory };

    fn from(_fault: AllocError) -> ExplainFault {
        ExplainFault::OutOfMemory
    }
}
