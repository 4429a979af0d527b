//! Tests a result against its verdict: reads its parts again, and if asked the ranges of its input.
//!
//!     part   [ counted, passed | whole lines, counted next | waits for its line end | not read ]
//!
//! A part is read in windows. Their whole lines are counted and pass; the digest has all of it.
//! Cost: linear; memory for a window of 256 KiB, for a line that is longer, and for one range of
//! the input.
ghost use Rattle.std.specs.Prelude.{◌≡◌, ◌⊎◌, ℕ, ◌++◌, [], ◌∷◌, IfErr, IfOk, List, OnOk, Some};
ghost use Rattle.std.specs.Prelude.{length, option_map, string_bytes, true};
ghost use Rattle.std.specs.List.{AllByRecursion};
ghost use Rattle.mr_shards.specs.Truth.{Asks};
ghost use Rattle.mr_shard_files.specs.declared.fault.ShardFault.TheVariants.{OutOfMemory as no_memory};
ghost use Rattle.mr_shard_files.specs.Faults.{IsPartFault};
ghost use Rattle.mr_shard_files.specs.Streams.{Moves, ReportsUnread, is_done as no_more};
ghost use Rattle.mr_shard_files.specs.Verified.{AreNoted, IsAboutNone, IsFirstOther, IsFirstRange};
ghost use Rattle.mr_shard_files.specs.Pairs.{IsTotalOf};
ghost use Rattle.mr_shard_files.specs.Verified.{IsNotedPart, IsRangeFault, IsTrueBeside};
ghost use Rattle.mr_shard_files.specs.Verified.{IsUntrue, IsUnverified, IsVerified, StandsInFile};
ghost use Rattle.mr_shard_files.specs.Verified.{beside_name};

use crate::fault::{ShardFault, of_range};
use crate::listing::{MAX_BYTES, verdict_under};
use crate::merging::open_part;
use crate::pairs::{pairs_in, sum_of, test_total, whole_lines};
use crate::rounds::WINDOW;
use crate::stream::Part;
use crate::streams::settle;
use mr_files::{Store, read_range_within, verdict_name};
use mr_jobs::Job;
use mr_shards::{FileRange, Verdict, request_of};
use mr_store::CountedRead;
use sha2::{Digest, Sha256};
use std::alloc::{AllocError, Global};
use std::str;

/// What is tested.
#[derive(Clone, Copy)]
pub struct VerifyPlan<'a> {
    /// The verdict's name.
    pub verdict: &'a str,
    /// The folder of the parts, if it isn't the verdict's.
    pub out: Option<&'a str>,
    /// Whether the ranges of the input are read too.
    pub inputs: bool,
}

/// Reads a part to its end, or past its verdict's length, and counts the pairs that its lines state;
/// none if they state no number that fits, or the last line is open.
fn count_part<R: CountedRead + Drop>(
    alloc: Global,
    job: &Job,
    part: &mut Part<R>,
) -> Result<Option<u64>, ShardFault>
    ensures ok { IfOk result (λ total. (passed : List ℕ)
        × Moves R.remaining R.can_fail passed part.old part.new
        × IsTotalOf job.now ((passed ++ part.new.held) ∷ []) total) }
    ensures done { OnOk result (no_more part.new ≡ true) }
    ensures err { IfErr result (ReportsUnread (R.can_fail part.old.reader) (string_bytes part.old.name)) }
{
    let mut total = Some(0);
    for _ in 0..u64::MAX {
        part.fill(alloc, WINDOW)?;
        let lines = whole_lines(part.bytes());
        total = sum_of(total, pairs_in(job, &part.bytes()[..lines]));
        if part.is_done() {
            if lines < part.bytes().len() {
                return Ok(None);
            }
            return Ok(total);
        }
        part.pass(lines);
    }
    // No machine has the time for what more windows than 64 bits count would hold.
    Err(ShardFault::OutOfMemory)
}

/// The pairs that a part's lines state, if it is the one in the verdict.
fn test_part<S: Store>(
    store: &S,
    alloc: Global,
    job: &Job,
    beside: &str,
    verdict: &Verdict,
    partition: usize,
) -> Result<Option<u64>, ShardFault>
    ensures ok { IfOk result
        (IsNotedPart (S.holds store.now) job.now beside.now verdict.now partition) }
    ensures err { IfErr result
        (IsPartFault (S.holds store.now) (S.unreadable store.now) partition 0 beside.now verdict.now) }
{
    let mut part = open_part(store, alloc, beside, verdict, partition)?;
    let total = count_part(alloc, job, &mut part)?;
    if settle(alloc, &mut part, verdict, partition)? {
        Ok(total)
    } else {
        let shard = 0;
        Err(ShardFault::OtherPart { shard, partition })
    }
}

/// The pairs that all parts' lines state, if they are those in the verdict.
fn test_parts<S: Store>(
    store: &S,
    alloc: Global,
    job: &Job,
    beside: &str,
    verdict: &Verdict,
) -> Result<Option<u64>, ShardFault>
    ensures ok { IfOk result (λ total. (texts : List (List ℕ))
        × (length texts ≡ length verdict.now.outputs)
        × AreNoted (S.holds store.now) beside.now verdict.now 0 texts
        × IsTotalOf job.now texts total) }
    ensures err { IfErr result
        (IsFirstOther (S.holds store.now) (S.unreadable store.now) beside.now verdict.now) }
{
    let mut total = Some(0);
    for partition in 0..verdict.outputs.len() {
        let pairs = test_part(store, alloc, job, beside, verdict, partition)?;
        total = sum_of(total, pairs);
    }
    Ok(total)
}

/// The bytes of each range are those of its note.
fn test_ranges<S: Store>(store: &S, alloc: Global, ranges: &[FileRange]) -> Result<(), ShardFault>
    ensures ok { OnOk result (AllByRecursion (StandsInFile (S.holds store.now)) ranges.now) }
    ensures err { IfErr result
        (IsFirstRange (S.holds store.now) (S.unreadable store.now) ranges.now) }
{
    for input in 0..ranges.len() {
        let range = &ranges[input];
        let Ok(name) = str::from_utf8(range.name.as_slice()) else {
            return Err(ShardFault::OtherInput { input });
        };
        let Some(end) = range.from.checked_add(range.length) else {
            return Err(ShardFault::OtherInput { input });
        };
        let bytes = match read_range_within(store, alloc, name, range.from, Some(end), MAX_BYTES) {
            Ok((bytes, _)) => bytes,
            Err(fault) => return Err(of_range(input, fault)),
        };
        if Sha256::digest(bytes.as_slice()).as_slice() != range.digest.as_slice() {
            return Err(ShardFault::OtherInput { input });
        }
    }
    Ok(())
}

/// The name beside which the parts lie.
fn name_beside(alloc: Global, plan: &VerifyPlan<'_>) -> Result<String, AllocError>
    ensures { IfOk result (λ b. string_bytes b
        ≡ beside_name plan.now.verdict.now (option_map (λ n. n.now) plan.now.out)) }
{
    match plan.out {
        Some(dir) => verdict_name(alloc, dir),
        None => String::from_str(alloc, plan.verdict),
    }
}

/// Tests a result against its verdict, which it returns. Each part has the length and the digest
/// in the verdict, and their lines state its pairs; of an index they state none. If asked, each
/// range of the input has them too. Faults name shard 0.
pub fn verify_result<S: Store>(
    store: &S,
    alloc: Global,
    plan: &VerifyPlan<'_>,
) -> Result<Verdict, ShardFault>
    ensures ok { IfOk result (IsVerified (S.holds store.now) plan.now.verdict.now
        (option_map (λ n. n.now) plan.now.out) plan.now.inputs) }
    ensures refused { IfErr result (IsUnverified (S.holds store.now) (S.unreadable store.now)
        plan.now.verdict.now (option_map (λ n. n.now) plan.now.out) plan.now.inputs) }
{
    let verdict = verdict_under(store, alloc, plan.verdict, 0)?;
    let beside = name_beside(alloc, plan)?;
    let Some(request) = request_of(alloc, &verdict)? else {
        return Err(ShardFault::NoRequest);
    };
    if verdict.outputs.len() != request.parts() as usize {
        return Err(ShardFault::OtherOutputs { shard: 0 });
    }
    let job = request.job();
    let total = test_parts(store, alloc, job, beside.as_str(), &verdict)?;
    test_total(job, 0, total, verdict.pairs)?;
    if plan.inputs {
        test_ranges(store, alloc, verdict.inputs.as_slice())?;
    }
    Ok(verdict)
}
