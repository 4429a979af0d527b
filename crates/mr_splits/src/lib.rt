//! The splits of an input and their records (OSDI 2004, section 3.1).
#![tactic(auto)]

mod kept_records;
mod plan;
mod split_table;

ghost use Rattle.mr_splits.specs.Belongs.{RecordsAreByFile, RecordsBelong};
ghost use Rattle.mr_splits.specs.Laws.{NamedAreRecords, NamesOfRecordsRise, NumbersCount};
ghost use Rattle.mr_splits.specs.Laws.{SplitsJoin};

pub use kept_records::{KeptPlan, KeptRecords, LeftOutSet, SkipFault};
pub use plan::{Plan, PlanFault, RecordAt, SplitPlace};

/// The records of the splits, joined, are those of the files, each with its file and in the split
/// that contains its start. They are numbered from 0 in each split, and their names rise.
pub fn splits_law()
    ensures joined { SplitsJoin }
    ensures records { NamedAreRecords }
    ensures belong { RecordsBelong }
    ensures files { RecordsAreByFile }
    ensures numbers { NumbersCount }
    ensures rise { NamesOfRecordsRise }
{}
