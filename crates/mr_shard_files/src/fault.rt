//! Why shards are not merged.
ghost use Rattle.std.specs.Prelude.{◌≡◌};
ghost use Rattle.mr_shard_files.specs.Told.{told_of_merge, told_of_range};

use mr_files::{FileFault, RangeFault};
use mr_shards::{JoinFault, MergeFault};
use std::alloc::AllocError;
use thiserror::Error;

/// Shards, their partitions, lines and inputs are numbered from 0.
#[derive(Debug, Drop, Error)]
pub enum ShardFault {
    /// There is no verdict.
    #[error("NoShards")]
    NoShards,
    /// The text is no verdict's: this is the first line unlike the verdict that its lines give.
    #[error("BadVerdict shard {shard} line {line}")]
    BadVerdict {
        shard: usize,
        line: u64,
    },
    /// The text is longer than 1 GiB.
    #[error("LongVerdict shard {shard}")]
    LongVerdict {
        shard: usize,
    },
    /// The text is a verdict of version 1 that names left-out records by their splits.
    #[error("OldVerdict shard {shard}")]
    OldVerdict {
        shard: usize,
    },
    /// The first verdict is about no request.
    #[error("NoRequest")]
    NoRequest,
    /// The verdict is about another request than the first.
    #[error("OtherRequest shard {shard}")]
    OtherRequest {
        shard: usize,
    },
    /// The sum of the pairs doesn't fit in 64 bits.
    #[error("TooManyPairs")]
    TooManyPairs,
    /// A range of the verdict ends past 2^64. Or the place of a left-out record, moved, doesn't
    /// fit: its file's number in 32 bits, its offset in 64.
    #[error("PlaceTooFar shard {shard}")]
    FarPlace {
        shard: usize,
    },
    /// The input begins inside its file, and doesn't go on with the one before. Inputs are numbered
    /// through all shards.
    #[error("NoBeginning input {input}")]
    NoBeginning {
        input: usize,
    },
    /// The input begins another file of an earlier one's name.
    #[error("RepeatedInput input {input}")]
    RepeatedInput {
        input: usize,
    },
    /// The input ends before its file does, and the next one doesn't go on with it.
    #[error("NoEnd input {input}")]
    NoEnd {
        input: usize,
    },
    /// The list of inputs is longer than 1 GiB.
    #[error("LongList")]
    LongList,
    /// The list is not that of the verdicts' inputs; this is the first line that differs.
    #[error("OtherInputs line {line}")]
    OtherInputs {
        line: u64,
    },
    /// The part's length or digest is not that in the verdict.
    #[error("OtherPart shard {shard} partition {partition}")]
    OtherPart {
        shard: usize,
        partition: usize,
    },
    /// The line isn't of the job's form, or its key is out of order.
    #[error("BadLine shard {shard} partition {partition} line {line}")]
    BadLine {
        shard: usize,
        partition: usize,
        line: u64,
    },
    /// The total of a key doesn't fit in 64 bits.
    #[error("TotalTooLarge partition {partition}")]
    TotalTooLarge {
        partition: usize,
    },
    /// There are 2^32 inputs or more.
    #[error("TooManyFiles")]
    TooManyFiles,
    /// The result's folder is this shard's: the merge would overwrite parts while it reads them.
    #[error("SameFolder shard {shard}")]
    SameFolder {
        shard: usize,
    },
    /// The merge would write this file, and also reads it or writes it before.
    #[error("SameFile {0}")]
    SameFile(String),
    /// The verdict doesn't list one output for each partition.
    #[error("OtherOutputs shard {shard}")]
    OtherOutputs {
        shard: usize,
    },
    /// A line of the part tells a file that the shard doesn't have.
    #[error("NoSuchFile shard {shard} partition {partition}")]
    NoSuchFile {
        shard: usize,
        partition: usize,
    },
    /// A moved offset in the partition doesn't fit in 64 bits.
    #[error("PlaceTooFar partition {partition}")]
    PlaceTooFar {
        partition: usize,
    },
    /// The pairs that the lines of the shard's parts state are not those in its verdict.
    #[error("OtherTotal shard {shard}")]
    OtherTotal {
        shard: usize,
    },
    /// The range of the input is not the one in the verdict.
    #[error("OtherInput input {input}")]
    OtherInput {
        input: usize,
    },
    #[error("cannot read {0}")]
    CannotRead(String),
    #[error("cannot write {0}")]
    CannotWrite(String),
    #[error("OutOfMemory")]
    OutOfMemory,
}

impl From<AllocError> for ShardFault {
    ghost use Rattle.mr_shard_files.specs.declared.fault.ShardFault.TheVariants.{OutOfMemory as told_memory};

    ghost from_gives = { λ _ f. f ≡ told_memory };

    fn from(_fault: AllocError) -> ShardFault {
        ShardFault::OutOfMemory
    }
}

impl From<FileFault> for ShardFault {
    ghost use Rattle.mr_shard_files.specs.Told.{told_of_file};

    ghost from_gives = { λ e f. f ≡ told_of_file e };

    fn from(fault: FileFault) -> ShardFault {
        match fault {
            FileFault::CannotRead(name) => ShardFault::CannotRead(name),
            FileFault::CannotWrite(name) => ShardFault::CannotWrite(name),
            FileFault::OutOfMemory => ShardFault::OutOfMemory,
        }
    }
}

impl From<JoinFault> for ShardFault {
    ghost use Rattle.mr_shard_files.specs.Told.{told_of_join};

    ghost from_gives = { λ e f. f ≡ told_of_join e };

    fn from(fault: JoinFault) -> ShardFault {
        match fault {
            JoinFault::OtherRequest { shard } => ShardFault::OtherRequest { shard },
            JoinFault::TooManyPairs => ShardFault::TooManyPairs,
            JoinFault::PlaceTooFar { shard } => ShardFault::FarPlace { shard },
            JoinFault::OutOfMemory => ShardFault::OutOfMemory,
        }
    }
}

pub(crate) fn of_range(input: usize, fault: RangeFault) -> ShardFault
    ensures { result ≡ told_of_range input fault }
{
    match fault {
        RangeFault::File(fault) => ShardFault::from(fault),
        _ => ShardFault::OtherInput { input },
    }
}

pub(crate) fn of_merge(partition: usize, fault: MergeFault) -> ShardFault
    ensures { result ≡ told_of_merge partition fault }
{
    match fault {
        MergeFault::BadLine { shard, line } => ShardFault::BadLine {
            shard,
            partition,
            line,
        },
        MergeFault::TotalTooLarge => ShardFault::TotalTooLarge { partition },
        MergeFault::TooManyFiles => ShardFault::TooManyFiles,
        MergeFault::NoSuchFile { shard } => ShardFault::NoSuchFile { shard, partition },
        MergeFault::PlaceTooFar => ShardFault::PlaceTooFar { partition },
        MergeFault::OutOfMemory => ShardFault::OutOfMemory,
    }
}
