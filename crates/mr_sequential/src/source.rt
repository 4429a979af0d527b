//! Collects the keys that a job emits for the records that are kept, and the names of these pairs.
ghost use Rattle.std.specs.Prelude.{◌≡◌, ◌+◌, ◌≤◌, ◌<◌, ◌^◌, ◌++◌, ◌∷◌, [], IfOk, OnOk, length};
ghost use Rattle.std.specs.Prelude.{map};
ghost use Rattle.mr_jobs.specs.Emissions.{emissions};
ghost use Rattle.mr_jobs.specs.Hits.{IsLine};
ghost use Rattle.mr_certform.specs.Packed.{names_from, names_of};
ghost use Rattle.mr_sequential.specs.Names.{AreEmitted, silent_of, triples_of};

use mr_bytes::{Phase, Progress, RecordName, Throttle};
use mr_certform::RecordNames;
use mr_group::KeyColumn;
use mr_jobs::{Emitter, Job, Mapper};
use mr_splits::{KeptPlan, RecordAt};
use std::alloc::{AllocError, Global};

/// The keys of pairs, and their names, which give the values.
#[derive(Drop)]
pub(crate) struct Emitted {
    pub keys: KeyColumn,
    pub names: RecordNames,
}

/// Appends the keys of these pairs. A call, so that the loop keeps its values in registers.
#[inline(never)]
fn push_keys(alloc: Global, pairs: Emitter<'_>, keys: &mut KeyColumn) -> Result<(), AllocError>
    requires { length keys.old + length pairs < 2 ^ 32 }
    ensures { OnOk result (keys.new ≡ keys.old ++ map (λ e. e.0) pairs.entry) }
{
    let mut left = pairs;
    while let Some((key, _)) = left.next() {
        keys.push(alloc, key)?;
    }
    Ok(())
}

/// Appends what a record gives, and returns how many pairs that is.
fn gather_record(
    alloc: Global,
    mapper: &mut Mapper<'_, '_>,
    name: RecordName,
    line: RecordAt<'_>,
    emitted: &mut Emitted,
) -> Result<u32, AllocError>
    requires small { length line.bytes.now ≤ 2 ^ 30 }
    requires line { IsLine mapper.old.files line.file line.start line.bytes.now }
    requires few { length emitted.old.keys
        + length (emissions mapper.old.job line.file line.start line.bytes.now) < 2 ^ 32 }
    ensures same { mapper.new ≡ mapper.old }
    ensures count { IfOk result (λ n. n
        ≡ length (emissions mapper.old.job line.entry.file line.entry.start line.entry.bytes.now)) }
    ensures keys { OnOk result (emitted.new.keys ≡ emitted.old.keys ++ map (λ e. e.0)
        (emissions mapper.old.job line.entry.file line.entry.start line.entry.bytes.now)) }
    ensures names { OnOk result (names_of emitted.new.names ≡ names_of emitted.old.names
        ++ names_from name 0 (length (emissions mapper.old.job line.entry.file line.entry.start
        line.entry.bytes.now))) }
{
    let before = emitted.keys.len();
    let pairs = mapper.emit(line.file, line.start, line.bytes)?;
    push_keys(alloc, pairs.emitter(), &mut emitted.keys)?;
    let count = (emitted.keys.len() - before) as u32;
    emitted.names.push_record(name, count)?;
    Ok(count)
}

/// Appends what the kept records give, and returns how many of them give nothing.
fn gather_all(
    alloc: Global,
    job: &Job,
    kept: &KeptPlan<'_>,
    watch: &dyn Progress,
    emitted: &mut Emitted,
) -> Result<u64, AllocError>
    requires few { length (triples_of job.now kept.now) < 2 ^ 32 }
    requires no_keys { emitted.old.keys ≡ [] }
    requires no_names { names_of emitted.old.names ≡ [] }
    ensures emitted { OnOk result (AreEmitted job.now kept.now emitted.new.keys emitted.new.names) }
    ensures silent { IfOk result (λ n. n ≡ silent_of job.now kept.now) }
{
    let plan = kept.plan();
    let mut left = kept.records();
    let mut pace = Throttle::new(Phase::Mapping, plan.count() as u64);
    let mut done = 0u64;
    let mut silent = 0u64;
    let mut mapper = job.mapper(alloc, plan.input());
    while let Some((name, line)) = left.next() {
        pace.reach(done, watch);
        done = done.saturating_add(1);
        let count = gather_record(alloc, &mut mapper, name, line, emitted)?;
        let quiet = u64::from(count == 0);
        silent += quiet;
    }
    Ok(silent)
}

/// The keys and names of the pairs that a job emits for a plan's kept records, and how many of these
/// give nothing. It reports to `watch` how many of the plan's records are done.
pub(crate) fn gather(
    alloc: Global,
    job: &Job,
    kept: &KeptPlan<'_>,
    watch: &dyn Progress,
) -> Result<(Emitted, u64), AllocError>
    requires { length (triples_of job.now kept.now) < 2 ^ 32 }
    ensures emitted { IfOk result (λ r. AreEmitted job.now kept.now r.0.keys r.0.names) }
    ensures silent { IfOk result (λ r. r.1 ≡ silent_of job.now kept.now) }
{
    let mut emitted = Emitted {
        keys: KeyColumn::new(alloc),
        names: RecordNames::new(alloc, kept.plan().count() as u32),
    };
    let silent = gather_all(alloc, job, kept, watch, &mut emitted)?;
    Ok((emitted, silent))
}
