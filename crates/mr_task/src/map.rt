//! Map tasks: a split's records in, sorted regions out, at once or piece by piece.
ghost use Rattle.std.specs.Prelude.{◌≡◌, ◌↔◌, ◌+◌, ◌≤◌, ◌<◌, [], IfOk, IsTrue, OnOk};
ghost use Rattle.std.specs.List.Sorted.{IsNonDecreasing};
ghost use Rattle.mr_input.specs.Files.{split_total};
ghost use Rattle.mr_partition.specs.Hosts.{partition_by};
ghost use Rattle.mr_sequential.specs.Emitted.{emitted};
ghost use Rattle.mr_task.specs.Mapped.{IsMapped};
ghost use Rattle.mr_task.specs.Runs.{AreAlike, AreOf, HasTaken};
ghost use Rattle.mr_task.specs.Tasks.{IsMapTask, IsPieceOf, between, record_count, records_in};
ghost use Rattle.mr_task.specs.Values.{emitted_in};

use crate::cancellation::{Cancellation, NeverCancelled};
use crate::output::MapOutput;
use crate::runs::{Runs, has, in_order};
use mr_bytes::{By, RecordName};
use mr_jobs::{Job, Request};
use mr_splits::Plan;
use std::alloc::{AllocError, Global};
use std::marker::Model;

/// Few enough pairs that their keys stay in caches; so many that a key occurs in few runs.
const RUN_PAIRS: usize = 65_536;

/// For many partitions: each run has a region, and possibly a file, for each of them.
const MANY_PAIRS: usize = 1_048_576;

/// The most pairs in a run: 1,024 a region where keys are spread evenly, within these limits.
fn run_pairs(parts: u32) -> usize
    ensures { 1 ≤ result }
{
    (parts as usize * 1_024).clamp(RUN_PAIRS, MANY_PAIRS)
}

/// A split's pairs without those of the records in `skips`, as sorted regions spelled as bytes: one
/// for each run and partition. A run has at most 65,536 pairs, or 1,024 a partition where that is
/// more, up to 1,048,576. `skips` may be in any order, and have repeated or unknown numbers.
pub fn map_task(
    alloc: Global,
    plan: &Plan<'_>,
    job: &Job,
    parts: u32,
    split: u32,
    skips: &[u32],
    by: By,
) -> Result<MapOutput, AllocError>
    requires parts { 1 ≤ parts }
    requires split { split < split_total plan.now.size plan.now.files }
    ensures { IfOk result (IsMapped (λ k. partition_by by k parts) parts
        (emitted_in (emitted job.now plan.now.size plan.now.files []) split skips.now)) }
{
    map_task_with(alloc, plan, job, parts, split, skips, run_pairs(parts), by)
}

/// What `map_task` returns, where a run ends as soon as it has `limit` pairs.
pub fn map_task_with(
    alloc: Global,
    plan: &Plan<'_>,
    job: &Job,
    parts: u32,
    split: u32,
    skips: &[u32],
    limit: usize,
    by: By,
) -> Result<MapOutput, AllocError>
    requires parts { 1 ≤ parts }
    requires split { split < split_total plan.now.size plan.now.files }
    requires limit { 1 ≤ limit }
    ensures { IfOk result (IsMapped (λ k. partition_by by k parts) parts
        (emitted_in (emitted job.now plan.now.size plan.now.files []) split skips.now)) }
{
    let mut runs = Runs::new(alloc, split, by, parts, limit);
    let left_out = in_order(alloc, skips)?;
    let records = SplitRecords {
        plan,
        job,
        left_out,
    };
    let count = plan.records_in(split);
    take_records(&records, 0, count, &NeverCancelled, &mut runs)?;
    let output = runs.finish()?;
    Ok(output)
}

/// A map task that works piece by piece: a piece is what `map_task` returns, for some of the
/// records. All pieces share one buffer of pairs.
#[derive(Drop)]
pub struct MapTask<'a> {
    records: SplitRecords<'a>,
    next: u32,
    runs: Runs,
}

/// A plan's records and the job for them. `left_out` rises.
#[derive(Drop)]
struct SplitRecords<'a> {
    plan: &'a Plan<'a>,
    job: &'a Job,
    left_out: Vec<u32>,
}

impl<'a> Model for MapTask<'a> {
    ghost use Rattle.std.specs.Prelude.{◌≡◌, ◌<◌, ◌≤◌, [], length};
    ghost use Rattle.std.specs.List.Sorted.{IsNonDecreasing};
    ghost use Rattle.mr_input.specs.Files.{split_total};
    ghost use Rattle.mr_splits.specs.Cut.{records_of};
    ghost use Rattle.mr_splits.specs.Named.{of_split};
    ghost use Rattle.mr_task.specs.Runs.{HasTaken};
    ghost use Rattle.mr_task.specs.Tasks.{MapState};

    ghost Value = { MapState };

    ghost view = { λ t. record {
      plan = t.records.plan.now;
      job = t.records.job.now;
      by = t.runs.by;
      parts = t.runs.sealed.parts;
      split = t.runs.split;
      skips = t.records.left_out.items;
      next = t.next;
    } };

    ghost invariant = { λ t. record {
      split : t.runs.split < split_total t.records.plan.now.size t.records.plan.now.files;
      rise : IsNonDecreasing t.records.left_out.items;
      some : 1 ≤ t.runs.sealed.parts;
      within : t.next ≤ length (of_split t.runs.split (records_of t.records.plan.now));
      none : HasTaken [] t.runs;
      waiting : t.runs.buffer.pairs ≡ [];
    } };
}

impl<'a> MapTask<'a> {
    /// The task of a split without the records in `skips`, in any order. No record is mapped yet.
    pub fn new(
        alloc: Global,
        plan: &'a Plan<'a>,
        request: &'a Request,
        split: u32,
        skips: &[u32],
    ) -> Result<MapTask<'a>, AllocError>
        requires split { split < split_total plan.now.size plan.now.files }
        ensures { IfOk result (IsMapTask plan.entry.now request.entry.now split skips.now) }
    {
        let parts = request.parts();
        let left_out = in_order(alloc, skips)?;
        let job = request.job();
        Ok(MapTask {
            records: SplitRecords {
                plan,
                job,
                left_out,
            },
            next: 0,
            runs: Runs::new(alloc, split, request.by(), parts, run_pairs(parts)),
        })
    }

    /// Whether all records are mapped.
    pub fn is_done(&self) -> bool
        ensures { IsTrue result ↔ records_in self.now ≤ self.now.next }
    {
        self.next >= self.records.plan.records_in(self.runs.split)
    }

    /// The next piece, and the task after it. A piece ends with the split, where a run is nearly
    /// full, or where no more is wanted, but has a record where one is left. It mostly has one run,
    /// and more where a record emits more than fits.
    pub fn next_piece<D: Cancellation>(
        self,
        demand: &D,
    ) -> Result<(MapOutput, MapTask<'a>), AllocError>
        ensures piece { IfOk result (λ r. IsPieceOf self.entry r.1.next r.0) }
        ensures same { IfOk result (λ r. r.1 ≡ record self.entry { next = r.1.next }) }
        ensures more { IfOk result (λ r. self.entry.next < records_in self.entry
            → self.entry.next < r.1.next) }
        ensures within { IfOk result (λ r. r.1.next ≤ records_in self.entry) }
    {
        let MapTask {
            records,
            next,
            mut runs,
        } = self;
        let next = take_records(&records, next, 1, demand, &mut runs)?;
        let piece = runs.finish()?;
        let rest = MapTask {
            records,
            next,
            runs,
        };
        Ok((piece, rest))
    }
}

/// Maps the records from number `from` on: `least` of them, where there are so many, and more until
/// a run is nearly full or no more is wanted. Returns the number of the next record.
fn take_records<D: Cancellation>(
    records: &SplitRecords<'_>,
    from: u32,
    least: u32,
    demand: &D,
    runs: &mut Runs,
) -> Result<u32, AllocError>
    requires split { runs.old.split
        < split_total records.now.plan.now.size records.now.plan.now.files }
    requires from { from ≤ record_count records.now.plan.now runs.old.split }
    requires rise { IsNonDecreasing records.now.left_out.items }
    requires some { 0 < runs.old.sealed.parts }
    requires none { HasTaken [] runs.old }
    requires empty { runs.old.buffer.pairs ≡ [] }
    ensures alike { OnOk result (AreAlike runs.old runs.new) }
    ensures own { OnOk result (AreOf runs.new.split runs.new.buffer.pairs) }
    ensures taken { IfOk result (λ next. HasTaken
        (between records.now.plan.now records.now.job.now runs.old.split
        records.now.left_out.items from next) runs.new) }
    ensures least { IfOk result
        (λ next. from + least ≤ record_count records.now.plan.now runs.old.split
        → from + least ≤ next) }
    ensures within { IfOk result (λ next. next ≤ record_count records.now.plan.now runs.old.split) }
{
    let plan = records.plan;
    let left_out = records.left_out.as_slice();
    let split = runs.split;
    // This shows the plan's size to be at least 1, by which names rise.
    let _size = plan.size();
    let mut mapper = records.job.mapper(runs.alloc, plan.input());
    let count = plan.records_in(split);
    let mut next = from;
    while next < count && (next - from < least || !runs.has_run() && demand.is_wanted()) {
        let line = plan.locate(split, next);
        if !has(left_out, next) {
            let name = RecordName { split, rec: next };
            runs.take_record(&mut mapper, name, line)?;
        }
        next += 1;
    }
    Ok(next)
}
