//! Counts the pairs that lines of outputs state, and compares them with those in verdicts.
//!
//!     words, url   key TAB count          its count
//!     grep         line TAB FILE:OFFSET   one
//!     index        word TAB FILES         none: a line names each file once
ghost use Rattle.std.specs.Prelude.{◌≡◌, ℕ, ◌<◌, ◌≤◌, ◌^◌, [], Some, MatchOption, drop, take};
ghost use Rattle.std.specs.Prelude.{IfErr, IfOk, OnOk, length, replicate};
ghost use Rattle.mr_bytes.specs.Cut.{Lacks};
ghost use Rattle.mr_shards.specs.Lines.{EndsLine, lines};
ghost use Rattle.mr_shard_files.specs.declared.fault.ShardFault.TheVariants.{OtherTotal as other_total};
ghost use Rattle.mr_shard_files.specs.Pairs.{Fits, FitsAt, FitsNot, IsAdded, IsSumOf, IsTotal};
ghost use Rattle.mr_shard_files.specs.Pairs.{IsUnfit, States};
ghost use Rattle.mr_shard_files.specs.Streams.{AllAre};

use crate::fault::ShardFault;
use memchr::memrchr;
use mr_jobs::Job;
use mr_shards::{Merger, Verdict, cut_first, cut_last, number_of};

/// The pairs that a line states; none if it isn't of the job's form.
fn pairs_in_line(job: &Job, line: &[u8]) -> Option<u64>
    ensures { MatchOption result ((n : ℕ) → n < 2 ^ 64 → States job.now line.now n → ⊥)
        (λ n. States job.now line.now n) }
{
    if job.counts() {
        let (_, digits) = cut_last(line, b'\t')?;
        number_of(digits)
    } else if job.has_lines() {
        Some(1)
    } else {
        Some(0)
    }
}

/// The sum, if both are there and it fits.
pub(crate) fn sum_of(first: Option<u64>, second: Option<u64>) -> Option<u64>
    ensures { IsSumOf first second result }
{
    first?.checked_add(second?)
}

/// The pairs that the lines state; none if one isn't of the job's form, or the sum doesn't fit.
/// Bytes behind the last line feed are no line.
pub(crate) fn pairs_in(job: &Job, text: &[u8]) -> Option<u64>
    ensures { IsTotal job.now (lines text.now) result }
{
    let mut total = Some(0);
    let mut rest = text;
    while let Some((line, behind)) = cut_first(rest, b'\n') {
        total = sum_of(total, pairs_in_line(job, line));
        rest = behind;
    }
    total
}

/// How many bytes are whole lines.
pub(crate) fn whole_lines(bytes: &[u8]) -> usize
    ensures within { result ≤ length bytes.now }
    ensures lines { EndsLine (take result bytes.now) }
    ensures rest { Lacks 10 (drop result bytes.now) }
{
    match memrchr(b'\n', bytes) {
        Some(at) => at + 1,
        None => 0,
    }
}

/// Adds the pairs that the merger counted of each shard.
pub(crate) fn add_pairs(totals: &mut [Option<u64>], merger: &Merger)
    requires { length totals.old ≡ length merger.now.held }
    ensures { AllAre IsAdded merger.now.held totals.old totals.new }
{
    for shard in 0..totals.len() {
        totals[shard] = sum_of(totals[shard], merger.pairs(shard));
    }
}

/// So many pairs are what the shard's lines state; those of an index state none.
pub(crate) fn test_total(
    job: &Job,
    shard: usize,
    total: Option<u64>,
    pairs: u64,
) -> Result<(), ShardFault>
    ensures ok { OnOk result (Fits job.now total pairs) }
    ensures err { IfErr result (λ e. (e ≡ other_total shard) × FitsNot job.now total pairs) }
{
    if (job.counts() || job.has_lines()) && total != Some(pairs) {
        return Err(ShardFault::OtherTotal { shard });
    }
    Ok(())
}

/// The pairs that each shard's lines state are those in its verdict.
pub(crate) fn test_totals(
    job: &Job,
    verdicts: &[Verdict],
    totals: &[Option<u64>],
) -> Result<(), ShardFault>
    requires { length totals.now ≡ length verdicts.now }
    ensures ok { OnOk result ((i : ℕ) → i < length verdicts.now → FitsAt job.now verdicts.now totals.now i) }
    ensures err { IfErr result (IsUnfit job.now verdicts.now totals.now) }
{
    for shard in 0..verdicts.len() {
        let verdict = &verdicts[shard];
        test_total(job, shard, totals[shard], verdict.pairs)?;
    }
    Ok(())
}
