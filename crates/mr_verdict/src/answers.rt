//! What a judge answers: yes, with what a good result holds, or why it is not good. Laws of the
//! verdict and worked verdicts are only proofs, and cost nothing at run time.
ghost use Rattle.std.specs.Prelude.{◌≡◌, ◌↔◌, IsTrue};
ghost use Rattle.mr_verdict.specs.FaultLaws.{EndedIsSpelled, FaultsAreTrue, ReadIsSpelled};
ghost use Rattle.mr_verdict.specs.FaultLaws.{IsAboutBytes};
ghost use Rattle.mr_verdict.specs.VerdictLaws.{YesIsGood, GoodIsYes, FaultByPlace};
ghost use Rattle.mr_verdict.specs.VerdictLaws.{LaterItemsDontMatter, LaterOutputsDontMatter};
ghost use Rattle.mr_verdict.specs.VerdictLaws.{OnlyComparedMatters, OtherOutputsDontMatter};
ghost use Rattle.mr_verdict.specs.VerdictLaws.{BytesBehindDontMatter};
ghost use Rattle.mr_verdict.specs.VerdictRows.{WorkedPlaces, WorkedVerdicts};

use mr_bytes::RecordName;
use mr_certform::Malformed;
use std::alloc::AllocError;
use thiserror::Error;

/// The left-out records, rising, and the number of emitted pairs.
#[derive(Debug, PartialEq, Eq, Drop)]
pub struct Yes {
    pub skips: Vec<RecordName>,
    pub pairs: u64,
}

/// What a failed read was reading.
#[derive(Clone, Copy, Debug, PartialEq, Eq, Drop)]
pub enum Source {
    Certificate,
    /// The output of this partition, numbered from 0.
    Output(u64),
}

/// The first of the judge's tests that fails. Numbers count from 0, places are in bytes.
#[derive(Clone, Copy, Debug, PartialEq, Eq, Drop, Error)]
pub enum No {
    /// The number of outputs differs from the number of partitions in the request.
    #[error("OutputCount")]
    OutputCount,
    /// The certificate has no valid item at this place of its bytes.
    #[error("Malformed at {at}")]
    Malformed {
        at: u64,
    },
    /// The certificate is for another job, or for other partitions or splits.
    #[error("OtherJob")]
    OtherJob,
    /// The certificate is for another input.
    #[error("OtherInput")]
    OtherInput,
    /// A left-out record is not past the one before it.
    #[error("SkipOrder skip {skip}")]
    SkipOrder {
        skip: u64,
    },
    /// A left-out record does not exist.
    #[error("NoSuchRecord skip {skip}")]
    NoSuchRecord {
        skip: u64,
    },
    /// More records are left out than the request allows.
    #[error("TooManySkips listed {listed}")]
    TooManySkips {
        listed: u64,
    },
    /// No emitted pair has the entry's name.
    #[error("NoSuchPair partition {partition} group {group} entry {entry}")]
    NoSuchPair {
        partition: u64,
        group: u64,
        entry: u64,
    },
    /// The entry's name is not past the one before it.
    #[error("EntryOrder partition {partition} group {group} entry {entry}")]
    EntryOrder {
        partition: u64,
        group: u64,
        entry: u64,
    },
    /// The entry's key is not that of its group.
    #[error("KeyDiffers partition {partition} group {group} entry {entry}")]
    KeyDiffers {
        partition: u64,
        group: u64,
        entry: u64,
    },
    /// The group's key belongs to another partition.
    #[error("WrongPartition partition {partition} group {group} entry {entry}")]
    WrongPartition {
        partition: u64,
        group: u64,
        entry: u64,
    },
    /// The group's key is not past that of the group before it.
    #[error("KeyOrder partition {partition} group {group} entry {entry}")]
    KeyOrder {
        partition: u64,
        group: u64,
        entry: u64,
    },
    /// At this place the output has another byte than its groups' texts, or ends, or goes on.
    #[error("OutputDiffers partition {partition} at {at}")]
    OutputDiffers {
        partition: u64,
        at: u64,
    },
    /// The entries name fewer pairs than are emitted.
    #[error("Unnamed emitted {emitted} named {named}")]
    Unnamed {
        emitted: u64,
        named: u64,
    },
    /// The machine refused memory. This says nothing of the result.
    #[error("OutOfMemory")]
    OutOfMemory,
    /// A read failed. This says nothing of the result. Only judging over readers reports it.
    #[error("Device")]
    Device(Source),
}

impl From<Malformed> for No {
    ghost use Rattle.mr_verdict.specs.declared.answers.No.TheVariants.{Malformed as no_item};

    ghost from_gives = { λ m f. f ≡ no_item m.at };

    fn from(fault: Malformed) -> No {
        No::Malformed { at: fault.at }
    }
}

impl From<AllocError> for No {
    ghost use Rattle.mr_verdict.specs.declared.answers.No.TheVariants.{OutOfMemory as no_memory};

    ghost from_gives = { λ _ f. f ≡ no_memory };

    fn from(_fault: AllocError) -> No {
        No::OutOfMemory
    }
}

pub fn is_same_fault(a: No, b: No) -> bool
    ensures { IsTrue result ↔ (a ≡ b) }
{
    a == b
}

/// Yes exactly where the result is good, with the left-out records and the number of pairs.
pub fn yes_law()
    ensures good { YesIsGood }
    ensures yes { GoodIsYes }
{}

/// The verdict is the fault before the partitions, else that of the least partition that has one,
/// else that after them. A partition's fault follows only from its own items.
pub fn place_law()
    ensures { FaultByPlace }
{}

/// Later items and later bytes of outputs don't change a fault: only compared bytes matter.
pub fn locality_law()
    ensures items { LaterItemsDontMatter }
    ensures outputs { LaterOutputsDontMatter }
    ensures compared { OnlyComparedMatters }
{}

/// A partition's fault depends only on its own output, and there only on compared bytes.
pub fn partition_law()
    ensures own { OtherOutputsDontMatter }
    ensures compared { BytesBehindDontMatter }
{}

/// A fault is true of the certificate that was read, as far as its items are valid, at the
/// partition, group and entry that it names. Bytes that spell a certificate are read as that
/// certificate. Want of memory and failed reads are never the verdict over bytes.
pub fn fault_law()
    ensures faults { FaultsAreTrue }
    ensures bytes { IsAboutBytes }
    ensures read { ReadIsSpelled }
    ensures ended { EndedIsSpelled }
{}

pub fn worked_rows()
    ensures { WorkedVerdicts }
{}

/// Worked verdicts of the second partition, in its third group, at its second entry.
pub fn worked_places()
    ensures { WorkedPlaces }
{}
