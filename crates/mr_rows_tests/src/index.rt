//! The index of what a job emits, mapped all at once, while somebody looks on, or split by split. The words behind the
//! first are which of these three (0 to 2), the job, the size of a split, and the names of left-out records, as
//! SPLIT:RECORD. Standard input is the files, each ended by a byte 0.
ghost use Rattle.std.specs.Prelude.{◌≡◌, ◌<◌, ◌≤◌, ◌^◌, IfOk};
ghost use Rattle.mr_input.specs.Files.{split_total};
ghost use Rattle.mr_index.specs.Index.{AreParts, triples_in, triples_of};

use crate::inputs::{numbers_of, skips_of};
use crate::runs::asked;
use crate::telling::Teller;
use mr_bytes::{Name, Phase, Progress, RecordName};
use mr_index::{EmissionIndex, Meter, Part};
use mr_input::Input;
use mr_jobs::Job;
use mr_splits::{KeptPlan, Plan};
use std::alloc::{AllocError, Global};
use std::io;
use std::sync::atomic::{AtomicU64, Ordering};

const UNUSED: Meter = Meter {
    lookups: 0,
    mapped: 0,
};

/// The index over a plan, counted by a meter that has room for a whole input.
fn index_of(
    alloc: Global,
    plan: &Plan<'_>,
    job: &Job,
    skips: &[RecordName],
    meter: &mut Meter,
) -> Result<EmissionIndex, AllocError>
    requires { meter.old.mapped ≤ 2 ^ 63 }
{
    // A plan has far fewer records than a u64 counts.
    let _few = plan.count();
    EmissionIndex::of(alloc, plan, job, skips, meter)
}

/// Counts what it is told, and how often more was done than there is in all.
#[derive(Drop)]
struct Counting {
    told: AtomicU64,
    past: AtomicU64,
}

impl Progress for Counting {
    fn report(&self, _phase: Phase, done: u64, all: u64) {
        self.told.fetch_add(1, Ordering::SeqCst);
        if all < done {
            self.past.fetch_add(1, Ordering::SeqCst);
        }
    }

    fn worker_lost(&self) {}
}

/// The index over a plan, built while somebody looks on.
fn watched_index(
    alloc: Global,
    kept: &KeptPlan<'_>,
    job: &Job,
    meter: &mut Meter,
    watch: &Counting,
) -> Result<EmissionIndex, AllocError>
    requires { meter.old.mapped ≤ 2 ^ 63 }
{
    // A plan has far fewer records than a u64 counts.
    let _few = kept.plan().count();
    EmissionIndex::of_watched(alloc, kept, job, meter, watch)
}

/// The part of a split: from the list of left-out records where its number is even, and else from the plan without them.
fn part_of(
    alloc: Global,
    kept: &KeptPlan<'_>,
    job: &Job,
    skips: &[RecordName],
    split: u32,
) -> Result<Part, AllocError>
    requires split { split < split_total kept.now.cut.size kept.now.cut.files }
    requires kept { kept.now.skips ≡ skips.now }
    ensures { IfOk result (λ r. r ≡ triples_in split (triples_of job.now kept.now.cut skips.now)) }
{
    if split % 2 == 0 {
        EmissionIndex::part(alloc, kept.plan(), job, skips, split)
    } else {
        EmissionIndex::part_of(alloc, kept, job, split)
    }
}

/// The parts of a plan's splits, each mapped apart.
fn parts_of(
    alloc: Global,
    kept: &KeptPlan<'_>,
    job: &Job,
    skips: &[RecordName],
) -> Result<Vec<Part>, AllocError>
    requires kept { kept.now.skips ≡ skips.now }
    ensures { IfOk result (λ r. AreParts job.now kept.now.cut skips.now r.items) }
{
    let plan = kept.plan();
    // A plan's size is at least 1.
    let _size = plan.size();
    let splits = plan.splits();
    let mut parts = Vec::new(alloc);
    for split in 0..splits {
        parts.push(part_of(alloc, kept, job, skips, split)?)?;
    }
    Ok(parts)
}

/// The index of those parts.
fn joined(
    alloc: Global,
    plan: &Plan<'_>,
    job: &Job,
    skips: &[RecordName],
) -> Result<EmissionIndex, AllocError> {
    let kept = plan.without(alloc, skips)?;
    let parts = parts_of(alloc, &kept, job, skips)?;
    Ok(EmissionIndex::join(parts))
}

/// The pair of that name, as it is found and as it is told, where there is one.
fn show_pair(teller: &Teller, index: &EmissionIndex, name: Name) {
    let mut meter = UNUSED;
    let found = index.pair(name, &mut meter);
    let pair = index.pair(name, &mut meter);
    if found.is_none() && pair.is_none() {
        return;
    }
    teller.before(&name, " ");
    teller.before(&found, " ");
    teller.two(&pair, &meter.lookups);
}

/// The pairs of the first four splits, of four records there, and of four places in each.
fn show_index(teller: &Teller, index: &EmissionIndex) {
    for number in 0..64u32 {
        let name = Name {
            split: number / 16,
            rec: number / 4 % 4,
            place: number % 4,
        };
        show_pair(teller, index, name);
    }
}

/// How many pairs there are, what it took to find them, and what was told meanwhile.
fn show_work(teller: &Teller, index: &EmissionIndex, meter: Meter, watch: &Counting) {
    teller.before(&index.total(), " ");
    teller.part(&meter);
    teller.behind(" told ", &watch.told.load(Ordering::SeqCst));
    teller.named(" past ", &watch.past.load(Ordering::SeqCst));
}

/// Shows the index, made in that way: all at once, while somebody looks on, or split by split.
fn work(
    teller: &Teller,
    plan: &Plan<'_>,
    job: &Job,
    skips: &[RecordName],
    way: u32,
) -> Result<(), AllocError> {
    let alloc = teller.alloc();
    let mut meter = UNUSED;
    let watch = Counting {
        told: AtomicU64::new(0),
        past: AtomicU64::new(0),
    };
    let index = match way {
        0 => index_of(alloc, plan, job, skips, &mut meter)?,
        1 => {
            let kept = plan.without(alloc, skips)?;
            watched_index(alloc, &kept, job, &mut meter, &watch)?
        }
        _ => joined(alloc, plan, job, skips)?,
    };
    show_work(teller, &index, meter, &watch);
    show_index(teller, &index);
    Ok(())
}

/// Answers an input and a job, where these records are left out.
fn answer_asked(
    teller: &Teller,
    input: &Input,
    job: &Job,
    numbers: [u32; 4],
    skips: &[RecordName],
) -> Result<(), AllocError> {
    let [way, _, size, _] = numbers;
    match Plan::of(teller.alloc(), input, size) {
        Ok(plan) => work(teller, &plan, job, skips, way),
        Err(_) => Ok(()),
    }
}

/// Answers standard input, where these records are left out.
fn answer_skips(teller: &Teller, numbers: [u32; 4], skips: &[RecordName]) -> io::Result<()> {
    match asked(teller, numbers[1])? {
        Some((input, job)) => Ok(answer_asked(teller, &input, &job, numbers, skips)?),
        None => Ok(()),
    }
}

/// Answers standard input, by these words.
pub fn answer(teller: &Teller, words: &[String]) -> io::Result<()> {
    let skips = skips_of(teller.alloc(), words)?;
    answer_skips(teller, numbers_of(words), &skips)
}
