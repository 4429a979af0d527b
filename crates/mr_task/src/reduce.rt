//! Reduce tasks and their faults, and laws of the values of both kinds of task.
ghost use Rattle.std.specs.Prelude.{◌≡◌, ◌↔◌, ◌≤◌, ◌<◌, List, IfErr, IfOk, false, [], ◌∷◌};
ghost use Rattle.mr_merge.specs.Merged.{AreSound};
ghost use Rattle.mr_merge.specs.Reduction.{IsOfRegions};
ghost use Rattle.mr_reduce.specs.Text.{text_of};
ghost use Rattle.mr_spill.specs.Lent.{RegionText};
ghost use Rattle.mr_task.specs.Values.{CanMerge, IsReduced, IsCutOf, map_value, reduce_value};
ghost use Rattle.mr_task.specs.declared.reduce.TaskFault.TheVariants.{RegionDamaged};
ghost use Rattle.mr_jobs.specs.JobSpec.{WordCount};
ghost use Rattle.mr_task.specs.Laws.{MapValuesHave, MapValuesRise, PiecesAreAll, PiecesJoin};
ghost use Rattle.mr_task.specs.Worked.{emitted_letters, first_run, letters, letters_reduced};
ghost use Rattle.mr_task.specs.Worked.{only_partition, second_run};

use crate::output::ReduceOutput;
use mr_jobs::Job;
use mr_merge::{MergeFault, Reduction};
use mr_spill::RegionView;
use std::alloc::{AllocError, Global};
use thiserror::Error;

/// The most pairs that a reduce task takes: an input within its limits emits no more.
const MAX_PAIRS: usize = 1_073_741_824;

// The number in the definition.
const _: () = prove!(MAX_PAIRS == 1073741824);

/// The fewest bytes that a region spends on a pair.
const PAIR_BYTES: usize = 17;

/// The most pairs that the bytes of these regions can hold.
fn room_for(regions: &[RegionView<'_>]) -> usize {
    let mut bytes = 0usize;
    for region in regions {
        bytes = bytes.saturating_add(region.bytes().len());
    }
    bytes / PAIR_BYTES
}

/// Refuses more pairs than `MAX_PAIRS`. So a u32 counts those of each group, and the groups.
fn limit(pairs: usize) -> Result<(), TaskFault>
    ensures few { IfOk result (λ _. pairs ≤ 1073741824) }
    ensures many { IfErr result (λ e. (e ≡ RegionDamaged) × (1073741824 < pairs)) }
{
    if pairs > MAX_PAIRS {
        return Err(TaskFault::RegionDamaged);
    }
    Ok(())
}

/// What a job makes of a partition's pairs, however they are cut into regions: for each key, in
/// order, the text of all its values and the names of its pairs. `RegionDamaged`: bytes are no
/// region of this partition and split, a name occurs twice, or there are over 1,073,741,824 pairs.
pub fn reduce_task(
    alloc: Global,
    job: &Job,
    partition: u32,
    regions: &[RegionView<'_>],
) -> Result<ReduceOutput, TaskFault>
    ensures reduced { IfOk result (IsReduced (text_of job.now) partition regions.now) }
    ensures damaged { IfErr result (λ e. e ≡ RegionDamaged → CanMerge partition regions.now → ⊥) }
{
    let mut all = Reduction::new(alloc, partition);
    all.reserve(room_for(regions))?;
    for region in regions {
        if !all.take(region)? {
            return Err(TaskFault::RegionDamaged);
        }
    }
    reduce_pairs(alloc, job, all)
}

/// What `reduce_task` returns for the regions that were taken, and no others.
pub fn reduce_pairs(alloc: Global, job: &Job, pairs: Reduction) -> Result<ReduceOutput, TaskFault>
    ensures reduced { (regions : List RegionText) → IsOfRegions regions pairs
        → IfOk result (IsReduced (text_of job.now) pairs.partition regions) }
    ensures damaged { (regions : List RegionText) → IsOfRegions regions pairs
        → IfErr result (λ e. e ≡ RegionDamaged → CanMerge pairs.partition regions → ⊥) }
{
    limit(pairs.len())?;
    let groups = pairs.groups(alloc)?;
    Ok(ReduceOutput::of(alloc, job, groups)?)
}

/// Why there is no reduce output.
#[derive(Clone, Copy, Debug, PartialEq, Eq, Drop, Error)]
pub enum TaskFault {
    /// The machine refused memory.
    #[error("OutOfMemory")]
    OutOfMemory,
    /// A region is damaged, a name occurs twice, or there are more than 1,073,741,824 pairs.
    #[error("RegionDamaged")]
    RegionDamaged,
}

impl From<AllocError> for TaskFault {
    ghost use Rattle.mr_task.specs.declared.reduce.TaskFault.TheVariants.{OutOfMemory as told_memory};

    ghost from_gives = { λ _ f. f ≡ told_memory };

    fn from(_error: AllocError) -> TaskFault {
        TaskFault::OutOfMemory
    }
}

impl From<MergeFault> for TaskFault {
    ghost use Rattle.std.specs.Prelude.{◌≡◌, ◌↔◌};
    ghost use Rattle.mr_merge.specs.declared.merged.MergeFault.TheVariants.{RegionDamaged as found_damage};
    ghost use Rattle.mr_task.specs.declared.reduce.TaskFault.TheVariants.{RegionDamaged as told_damage};

    ghost from_gives = { λ e f. (f ≡ told_damage) ↔ (e ≡ found_damage) };

    fn from(fault: MergeFault) -> TaskFault {
        match fault {
            MergeFault::OutOfMemory => TaskFault::OutOfMemory,
            MergeFault::RegionDamaged => TaskFault::RegionDamaged,
        }
    }
}

/// A map task's pairs of a partition rise strictly by key and name. They are exactly those that its
/// split emits there, without those of the left-out records.
pub fn map_values_law()
    ensures rise { MapValuesRise }
    ensures have { MapValuesHave }
{}

/// Pieces of a split, joined from its first record to its last, are what the split emits.
pub fn pieces_law()
    ensures join { PiecesJoin }
    ensures all { PiecesAreAll }
{}

pub fn worked_tasks()
    ensures mapped { map_value only_partition emitted_letters 0 [] 0 ≡ letters }
    ensures left_out { map_value only_partition emitted_letters 0 (0 ∷ []) 0 ≡ [] }
    ensures other_left_out { map_value only_partition emitted_letters 0 (1 ∷ []) 0 ≡ letters }
    ensures other_split { map_value only_partition emitted_letters 1 [] 0 ≡ [] }
    ensures one_run { IsCutOf only_partition 1 emitted_letters ((letters ∷ []) ∷ []) }
    ensures two_runs { IsCutOf only_partition 1 emitted_letters
        ((first_run ∷ second_run ∷ []) ∷ []) }
    ensures not_cut { IsCutOf only_partition 1 emitted_letters ((first_run ∷ []) ∷ []) → ⊥ }
    ensures reduced { reduce_value (text_of (WordCount false)) (letters ∷ []) ≡ letters_reduced }
    ensures reduced_runs { reduce_value (text_of (WordCount false)) (first_run ∷ second_run ∷ [])
        ≡ letters_reduced }
    ensures nothing { reduce_value (text_of (WordCount false)) []
        ≡ record { output = []; groups = [] } }
    ensures twice { AreSound (letters ∷ letters ∷ []) → ⊥ }
{}
