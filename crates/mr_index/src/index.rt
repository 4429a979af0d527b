//! The index of all emitted pairs.
ghost use Rattle.std.specs.Prelude.{◌≡◌, ◌+◌, ◌≤◌, ◌<◌, ◌^◌, IfOk, OnOk, OnErr, MatchOption, None};
ghost use Rattle.std.specs.Prelude.{Some, List, length};
ghost use Rattle.mr_bytes.specs.declared.RecordName.{RecordName as NameOfRecord};
ghost use Rattle.mr_input.specs.Files.{split_total};
ghost use Rattle.mr_jobs.specs.JobSpec.{JobSpec};
ghost use Rattle.mr_splits.specs.Cut.{Cut, records_of};
ghost use Rattle.mr_sequential.specs.Good.{named};
ghost use Rattle.mr_index.specs.Index.{triples_of, triples_in, mapped_among, AreParts, AreAllParts};

use crate::part::{Part, map_split};
use crate::tables::Mapping;
use mr_bytes::{Name, Progress, RecordName, Unwatched, Value};
use mr_jobs::Job;
use mr_splits::{KeptPlan, Plan};
use std::alloc::{AllocError, Global};
use std::marker::Model;

/// Counts work: names looked up, and records mapped.
#[derive(Clone, Copy, PartialEq, Eq, Debug)]
pub struct Meter {
    pub lookups: u64,
    pub mapped: u64,
}

/// All that a job emits over a plan without its left-out records, by name: a part for each split.
#[derive(Drop)]
pub struct EmissionIndex {
    parts: Vec<Part>,
    total: u64,
}

impl Model for EmissionIndex {
    ghost use Rattle.std.specs.Prelude.{◌≡◌, List, length};
    ghost use Rattle.mr_bytes.specs.Pairs.{Triple};
    ghost use Rattle.mr_index.specs.Building.{joined, AreApart};

    ghost Value = { List Triple };

    ghost view = { λ i. joined i.parts.items };

    ghost invariant = { λ i. record {
      apart : AreApart 0 i.parts.items;
      count : i.total ≡ length (joined i.parts.items);
    } };
}

/// The parts of all splits.
fn map_splits(
    alloc: Global,
    kept: &KeptPlan<'_>,
    mapping: &mut Mapping<'_>,
    watch: &dyn Progress,
) -> Result<Vec<Part>, AllocError>
    requires files { mapping.old.mapper.files ≡ kept.now.cut.files }
    requires room { mapping.old.mapped
        + mapped_among kept.now.skips (records_of kept.now.cut) < 2 ^ 64 }
    ensures parts { IfOk result (λ r.
        AreParts mapping.old.mapper.job kept.now.cut kept.now.skips r.items) }
    ensures counted { OnOk result (mapping.new.mapped ≡ mapping.old.mapped
        + mapped_among kept.now.skips (records_of kept.now.cut)) }
    ensures err { OnErr result ((mapping.old.mapped ≤ mapping.new.mapped)
        × (mapping.new.mapped ≤ mapping.old.mapped
        + mapped_among kept.now.skips (records_of kept.now.cut))) }
{
    let plan = kept.plan();
    // This shows the plan's size to be at least 1, so that its splits have all records.
    let _size = plan.size();
    let splits = plan.splits();
    let mut parts = Vec::with_capacity(alloc, splits as usize)?;
    for split in 0..splits {
        let part = map_split(alloc, kept, split, mapping, watch)?;
        parts.push(part)?;
    }
    Ok(parts)
}

impl EmissionIndex {
    /// Maps the plan's records without those in `skips`. Its names may be in any order, and
    /// repeated or unknown. Fails only for want of memory; the meter then keeps what was counted.
    pub fn of(
        alloc: Global,
        plan: &Plan<'_>,
        job: &Job,
        skips: &[RecordName],
        meter: &mut Meter,
    ) -> Result<EmissionIndex, AllocError>
        requires { meter.old.mapped + mapped_among skips.now (records_of plan.now) < 2 ^ 64 }
        ensures ok { IfOk result (λ i. i ≡ triples_of job.now plan.entry.now skips.now) }
        ensures counted { OnOk result (meter.new.mapped
            ≡ meter.old.mapped + mapped_among skips.now (records_of plan.entry.now)) }
        ensures err { OnErr result ((meter.old.mapped ≤ meter.new.mapped)
            × (meter.new.mapped
            ≤ meter.old.mapped + mapped_among skips.now (records_of plan.entry.now))) }
        ensures lookups { meter.new.lookups ≡ meter.old.lookups }
    {
        let kept = plan.without(alloc, skips)?;
        EmissionIndex::of_watched(alloc, &kept, job, meter, &Unwatched)
    }

    /// The same for a plan whose left-out records are known. It reports to `watch` now and then how
    /// many of the plan's records are done.
    pub fn of_watched(
        alloc: Global,
        kept: &KeptPlan<'_>,
        job: &Job,
        meter: &mut Meter,
        watch: &dyn Progress,
    ) -> Result<EmissionIndex, AllocError>
        requires { meter.old.mapped
            + mapped_among kept.now.skips (records_of kept.now.cut) < 2 ^ 64 }
        ensures ok { IfOk result (λ i. i ≡ triples_of job.now kept.now.cut kept.now.skips) }
        ensures counted { OnOk result (meter.new.mapped
            ≡ meter.old.mapped + mapped_among kept.now.skips (records_of kept.now.cut)) }
        ensures err { OnErr result ((meter.old.mapped ≤ meter.new.mapped) × (meter.new.mapped
            ≤ meter.old.mapped + mapped_among kept.now.skips (records_of kept.now.cut))) }
        ensures lookups { meter.new.lookups ≡ meter.old.lookups }
    {
        let mut mapping = Mapping::new(alloc, kept.plan(), job);
        let parts = map_splits(alloc, kept, &mut mapping, watch);
        meter.mapped += mapping.mapped;
        Ok(EmissionIndex::join(parts?))
    }

    /// What the job emits over one split of the plan, without the records in `skips`.
    pub fn part(
        alloc: Global,
        plan: &Plan<'_>,
        job: &Job,
        skips: &[RecordName],
        split: u32,
    ) -> Result<Part, AllocError>
        requires { split < split_total plan.now.size plan.now.files }
        ensures { IfOk result (λ r. r ≡ triples_in split (triples_of job.now plan.now skips.now)) }
    {
        let kept = plan.without(alloc, skips)?;
        EmissionIndex::part_of(alloc, &kept, job, split)
    }

    /// The same for a plan whose left-out records are known. Several threads may share the plan.
    pub fn part_of(
        alloc: Global,
        kept: &KeptPlan<'_>,
        job: &Job,
        split: u32,
    ) -> Result<Part, AllocError>
        requires { split < split_total kept.now.cut.size kept.now.cut.files }
        ensures { IfOk result (λ r.
            r ≡ triples_in split (triples_of job.now kept.now.cut kept.now.skips)) }
    {
        let plan = kept.plan();
        // A split has far fewer records than a u64 counts.
        let _few = plan.records_in(split);
        let mut mapping = Mapping::new(alloc, plan, job);
        map_split(alloc, kept, split, &mut mapping, &Unwatched)
    }

    /// Joins the parts of all splits of a plan, in order. It allocates nothing and copies nothing.
    pub fn join(parts: Vec<Part>) -> EmissionIndex
        requires { AreAllParts parts.items }
        ensures { (job : JobSpec) (cut : Cut) (skips : List NameOfRecord)
            → AreParts job cut skips parts.items → result ≡ triples_of job cut skips }
    {
        let mut total = 0u64;
        for part in parts.as_slice() {
            total += part.len() as u64;
        }
        EmissionIndex { parts, total }
    }

    /// The number of pairs.
    pub fn total(&self) -> u64
        ensures { result ≡ length self.now }
    {
        self.total
    }

    /// The key and the value of the pair of this name, if there is one. It allocates nothing.
    pub fn pair(&self, name: Name, meter: &mut Meter) -> Option<(&[u8], Value)>
        requires { meter.old.lookups + 1 < 2 ^ 64 }
        ensures found { MatchOption result (named self.now name ≡ None)
            (λ p. named self.now name ≡ Some (record { key = p.0.now; value = p.1; name = name })) }
        ensures lookups { meter.new.lookups ≡ meter.old.lookups + 1 }
        ensures mapped { meter.new.mapped ≡ meter.old.mapped }
    {
        meter.lookups += 1;
        match self.parts.get(name.split as usize) {
            None => None,
            Some(part) => part.pair(name),
        }
    }
}
