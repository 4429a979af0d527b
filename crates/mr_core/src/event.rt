//! The events of a master and its replies.
use crate::splits::Skips;
use thiserror::Error;

/// A job's limits: attempts of a task (1 to 16), and left-out records in all (at most 1,000).
#[derive(Clone, Copy, Debug, PartialEq, Eq)]
pub struct Limits {
    pub attempts: u32,
    pub skips: u32,
}

/// A job's sizes: `maps` (splits) and `parts` (partitions) count its tasks.
#[derive(Clone, Copy, Debug, PartialEq, Eq)]
pub struct Shape {
    pub maps: u32,
    pub parts: u32,
    pub workers: u32,
    pub limits: Limits,
}

/// A task: the map task of a split, or the reduce task of a partition.
#[derive(Clone, Copy, Debug, PartialEq, Eq)]
pub enum Task {
    Map(u32),
    Reduce(u32),
}

/// Why a job failed.
#[derive(Clone, Copy, Debug, PartialEq, Eq, Error)]
pub enum JobFault {
    /// A task has used all its attempts, and none of them completed it.
    #[error("TooManyAttempts")]
    TooManyAttempts,
    /// More records would have to be left out than the limit allows.
    #[error("TooManySkips")]
    TooManySkips,
    /// Every worker is lost.
    #[error("NoWorkers")]
    NoWorkers,
}

/// Why a worker has nothing more to do.
#[derive(Clone, Copy, Debug, PartialEq, Eq)]
pub enum End {
    /// Every partition is committed.
    Done,
    /// The worker is lost, or there is no worker of this number.
    Dismissed,
    Failed(JobFault),
}

/// What happens to a master. Workers, attempts, splits and records are numbered from 0.
#[derive(Clone, Copy, Debug, PartialEq, Eq)]
pub enum Event {
    /// This worker asks for a task.
    Ask(u32),
    /// This reduce attempt wants the output of this split's map task.
    Fetch(u32, u32),
    /// This map attempt is done. Its output has this number, which the caller chooses.
    MapDone(u32, u64),
    /// This map attempt failed on this record of its split.
    MapFailed(u32, u32),
    /// This reduce attempt is done. Its output has this number, which the caller chooses.
    ReduceDone(u32, u64),
    /// This worker is lost.
    Lose(u32),
    /// This reduce attempt can't read what it fetched from this split.
    Damaged(u32, u32),
}

/// What a master replies.
#[derive(Debug, Drop)]
pub enum Reply {
    /// Execute the map task of the split without the records in `skips`, which rise.
    Map {
        attempt: u32,
        split: u32,
        skips: Skips,
    },
    /// Execute the reduce task of the partition.
    Reduce {
        attempt: u32,
        partition: u32,
    },
    /// No task is ready for the worker.
    Wait,
    /// There is nothing more to do.
    Stop(End),
    /// The number of the split's output.
    Region {
        output: u64,
    },
    /// The split has lost its output, and the attempt has ended.
    Gone,
    Accepted,
    Ignored,
}
