//! Why a command fails: its fault, exit status and message.
ghost use Rattle.std.specs.Prelude.{◌≡◌};
ghost use Rattle.mr_args.specs.Statuses.{ReportsVerify, status_of, status_of_shards};

use mr_files::FileFault;
use mr_input::InputFault;
use mr_jobs::{JobFault, RequestFault};
use mr_script::ScriptFault;
use mr_sequential::RunFault;
use mr_shard_files::ShardFault;
use std::alloc::AllocError;
use std::fmt;

/// Why a command fails.
#[derive(Drop)]
pub enum Fault {
    OtherJobsOption,
    Job(JobFault),
    Request(RequestFault),
    /// A byte to begin or to end at that isn't 0, and no file.
    NoFileForRange,
    /// One file, taken up to before a byte that lies before the one from which on it is taken.
    BadRange,
    /// This input file, numbered from 0, ends before the byte at which it is to begin or to end.
    PastEnd { file: usize },
    /// No line of this input file begins at this byte.
    InsideALine { file: usize, byte: u64 },
    BadSkipList,
    Input(InputFault),
    TooManySplits,
    Run(RunFault),
    /// No record gives a pair, and pairs are needed.
    NoPairs,
    /// No worker, or more than 64.
    BadWorkers,
    /// No attempt for a task, or more than 16.
    BadAttempts,
    /// No thread, or more than 64.
    BadThreads,
    /// The name of this input file, numbered from 0, contains a line feed, so no verdict can list
    /// it.
    LineEndInName { file: usize },
    Script(ScriptFault),
    /// Another run keeps its regions in the directory.
    ScratchInUse,
    /// Why shards are not merged. Faults of files and want of memory have their own variants.
    Shards(ShardFault),
    /// Why a result isn't the one in its verdict. Faults of files and want of memory likewise.
    Verified(ShardFault),
    /// This line, counted from 1, is the first that no history of a run has there.
    BadHistory { line: u64 },
    /// The command would write this file, and also reads it or writes it under another name before.
    SameFile(String),
    CannotRead(String),
    CannotWrite(String),
    /// Standard output takes no more.
    CannotPrint,
    OutOfMemory,
}

impl From<AllocError> for Fault {
    ghost use Rattle.mr_args.specs.declared.fault.Fault.TheVariants.{OutOfMemory as told_memory};

    ghost from_gives = { λ _ f. f ≡ told_memory };

    fn from(_error: AllocError) -> Fault {
        Fault::OutOfMemory
    }
}

impl From<JobFault> for Fault {
    ghost use Rattle.mr_args.specs.Statuses.{ReportsJob};

    ghost from_gives = { λ e f. ReportsJob e f };

    fn from(fault: JobFault) -> Fault {
        match fault {
            JobFault::OutOfMemory => Fault::OutOfMemory,
            other => Fault::Job(other),
        }
    }
}

impl From<RunFault> for Fault {
    ghost use Rattle.mr_args.specs.Statuses.{ReportsRun};

    ghost from_gives = { λ e f. ReportsRun e f };

    fn from(fault: RunFault) -> Fault {
        match fault {
            RunFault::OutOfMemory => Fault::OutOfMemory,
            other => Fault::Run(other),
        }
    }
}

impl From<ScriptFault> for Fault {
    ghost use Rattle.mr_args.specs.Statuses.{ReportsScript};

    ghost from_gives = { λ e f. ReportsScript e f };

    fn from(fault: ScriptFault) -> Fault {
        match fault {
            ScriptFault::OutOfMemory => Fault::OutOfMemory,
            other => Fault::Script(other),
        }
    }
}

impl From<FileFault> for Fault {
    ghost use Rattle.mr_args.specs.Statuses.{ReportsFile};

    ghost from_gives = { λ e f. ReportsFile e f };

    fn from(fault: FileFault) -> Fault {
        match fault {
            FileFault::CannotRead(name) => Fault::CannotRead(name),
            FileFault::CannotWrite(name) => Fault::CannotWrite(name),
            FileFault::OutOfMemory => Fault::OutOfMemory,
        }
    }
}

impl From<ShardFault> for Fault {
    ghost use Rattle.mr_args.specs.Statuses.{ReportsShards};

    ghost from_gives = { λ e f. ReportsShards e f };

    fn from(fault: ShardFault) -> Fault {
        match fault {
            ShardFault::CannotRead(name) => Fault::CannotRead(name),
            ShardFault::CannotWrite(name) => Fault::CannotWrite(name),
            ShardFault::SameFile(name) => Fault::SameFile(name),
            ShardFault::OutOfMemory => Fault::OutOfMemory,
            other => Fault::Shards(other),
        }
    }
}

/// 1 where shards differ from their verdicts or don't make up the whole that is meant, else 2.
fn shards_status(fault: &ShardFault) -> u8
    ensures { result ≡ status_of_shards fault.now }
{
    match fault {
        ShardFault::BadVerdict { .. }
        | ShardFault::OldVerdict { .. }
        | ShardFault::NoRequest
        | ShardFault::OtherRequest { .. }
        | ShardFault::NoBeginning { .. }
        | ShardFault::RepeatedInput { .. }
        | ShardFault::NoEnd { .. }
        | ShardFault::OtherInputs { .. }
        | ShardFault::OtherPart { .. }
        | ShardFault::BadLine { .. }
        | ShardFault::NoSuchFile { .. }
        | ShardFault::OtherTotal { .. }
        | ShardFault::OtherInput { .. }
        | ShardFault::OtherOutputs { .. } => 1,
        _ => 2,
    }
}

impl Fault {
    /// Why `verify` fails.
    pub fn of_verify(fault: ShardFault) -> Fault
        ensures { ReportsVerify fault result }
    {
        match fault {
            ShardFault::CannotRead(name) => Fault::CannotRead(name),
            ShardFault::OutOfMemory => Fault::OutOfMemory,
            other => Fault::Verified(other),
        }
    }

    /// The exit status: 1 for unfit shards, a lack of pairs and a bad history, 2 for usage or a
    /// limit, 3 for a file, 4 for want of memory.
    pub fn status(&self) -> u8
        ensures { result ≡ status_of self.now }
    {
        match self {
            Fault::CannotRead(_) | Fault::CannotWrite(_) | Fault::CannotPrint => 3,
            Fault::OutOfMemory => 4,
            Fault::Shards(fault) | Fault::Verified(fault) => shards_status(fault),
            Fault::NoPairs | Fault::BadHistory { .. } => 1,
            _ => 2,
        }
    }
}

fn write_told<D: fmt::Display, W: fmt::Write>(f: &mut fmt::Formatter<W>, told: &D) -> fmt::Result {
    write!(f, "mapred: {told}\n")
}

/// The fault without its shard's number: `verify` has one verdict.
fn write_verified<W: fmt::Write>(f: &mut fmt::Formatter<W>, fault: &ShardFault) -> fmt::Result {
    match fault {
        ShardFault::BadVerdict { line, .. } => write!(f, "mapred: BadVerdict line {line}\n"),
        ShardFault::LongVerdict { .. } => write_told(f, &"LongVerdict"),
        ShardFault::OldVerdict { .. } => write_told(f, &"OldVerdict"),
        ShardFault::OtherOutputs { .. } => write_told(f, &"OtherOutputs"),
        ShardFault::OtherPart { partition, .. } => {
            write!(f, "mapred: OtherPart partition {partition}\n")
        }
        ShardFault::OtherTotal { .. } => write_told(f, &"OtherTotal"),
        other => write_told(f, other),
    }
}

impl fmt::Display for Fault {
    fn fmt<W: fmt::Write>(&self, f: &mut fmt::Formatter<W>) -> fmt::Result {
        match self {
            Fault::OtherJobsOption => write_told(f, &"option does not belong to this job"),
            Fault::Job(fault) => write_told(f, fault),
            Fault::Request(fault) => write_told(f, fault),
            Fault::NoFileForRange => write_told(f, &"NoFileForRange"),
            Fault::BadRange => write_told(f, &"BadRange"),
            Fault::PastEnd { file } => write!(f, "mapred: PastEnd file {file}\n"),
            Fault::InsideALine { file, byte } => {
                write!(f, "mapred: InsideALine file {file} byte {byte}\n")
            }
            Fault::BadSkipList => write_told(f, &"bad skip list"),
            Fault::Input(fault) => write_told(f, fault),
            Fault::TooManySplits => write_told(f, &"TooManySplits"),
            Fault::Run(fault) => write_told(f, fault),
            Fault::NoPairs => write_told(f, &"NoPairs"),
            Fault::BadWorkers => write_told(f, &"BadWorkers"),
            Fault::BadAttempts => write_told(f, &"BadAttempts"),
            Fault::BadThreads => write_told(f, &"BadThreads"),
            Fault::LineEndInName { file } => write!(f, "mapred: LineEndInName file {file}\n"),
            Fault::Script(fault) => write_told(f, fault),
            Fault::ScratchInUse => write_told(f, &"ScratchInUse"),
            Fault::Shards(fault) => write_told(f, fault),
            Fault::Verified(fault) => write_verified(f, fault),
            Fault::BadHistory { line } => write!(f, "mapred: BadHistory line {line}\n"),
            Fault::SameFile(name) => write!(f, "mapred: SameFile {name}\n"),
            Fault::CannotRead(name) => write!(f, "mapred: cannot read {name}\n"),
            Fault::CannotWrite(name) => write!(f, "mapred: cannot write {name}\n"),
            Fault::CannotPrint => write_told(f, &"cannot write standard output"),
            Fault::OutOfMemory => write_told(f, &"out of memory"),
        }
    }
}
