//! A line of an output: `KEY\tTOTAL\n`, `KEY\tFILE:OFFSET\n` or, of an index, `KEY\tFILE,FILE\n`.
ghost use Rattle.std.specs.Prelude.{◌≡◌, ◌<◌, ◌≤◌, ◌+◌, ◌*◌, ◌^◌, ◌++◌, ℕ, ◌∷◌, IfErr, IfOk};
ghost use Rattle.std.specs.Prelude.{IfSome, List, MatchOption, None, Some, decimal, length, map, take};
ghost use Rattle.mr_jobs.specs.JobSpec.{JobSpec};
ghost use Rattle.mr_bytes.specs.Cut.{Lacks};
ghost use Rattle.mr_shards.specs.Lines.{groups_in};
ghost use Rattle.mr_shards.specs.Merged.{group_text};
ghost use Rattle.mr_shards.specs.declared.line.Tally.{Tally};
ghost use Rattle.mr_shards.specs.Cursors.{HasFront};
ghost use Rattle.mr_shards.specs.Refused.{AreInFiles, IsBadPlace, IsLineOf, IsUnmoved};
ghost use Rattle.mr_shards.specs.Portions.{shifted_start as moved_start};
ghost use Rattle.mr_group.specs.FirstBytes.{AreBytes, first_bytes};
ghost use Rattle.mr_shards.specs.Views.{BeginsWithLine, IsFor, IsParsed, IsUnshifted, Splits};
ghost use Rattle.mr_shards.specs.Portions.{shifted_group, shifted_value};
ghost use Rattle.mr_shards.specs.Views.{group_of, values_of};

use crate::cutting::{cut_first, cut_last};
use crate::file_numbers::last_file;
use crate::merger::MergeFault;
use crate::numbers::number_of;
use crate::shift::{Shift, shifted_file, shifted_start};
use mr_group::front_of;
use mr_jobs::Job;

/// The number of a key's values, or one of its places, or its files in an index.
#[derive(Clone, Copy)]
pub(crate) enum Tally<'a> {
    Total(u64),
    Place {
        file: u32,
        offset: u64,
    },
    /// The list, the last file that it names, and how far its files are moved.
    Files {
        list: &'a [u8],
        last: u32,
        moved: Shift,
    },
}

#[derive(Clone, Copy)]
pub(crate) struct Line<'a> {
    pub key: &'a [u8],
    /// The key's first eight bytes as a number, which decides most comparisons.
    pub front: u64,
    pub tally: Tally<'a>,
}

/// Parses `FILE:OFFSET`.
fn place_of(told: &[u8]) -> Option<(u32, u64)>
    ensures { MatchOption result
        ((file offset : ℕ) → file < 2 ^ 32 → offset < 2 ^ 64
        → told.now ≡ decimal file ++ 58 ∷ decimal offset → ⊥)
        (λ r. told.now ≡ decimal r.0 ++ 58 ∷ decimal r.1) }
{
    let (front, back) = cut_first(told, b':')?;
    let Ok(file) = u32::try_from(number_of(front)?) else {
        return None;
    };
    Some((file, number_of(back)?))
}

/// What follows the key.
#[inline(always)]
fn tally_of<'a>(job: &Job, told: &'a [u8]) -> Option<Tally<'a>>
    ensures { MatchOption result ((t : Tally) → IsParsed job.now t told.entry.now → ⊥)
        (λ t. IsParsed job.now t told.entry.now) }
{
    if job.counts() {
        Some(Tally::Total(number_of(told)?))
    } else if job.has_lines() {
        let (file, offset) = place_of(told)?;
        Some(Tally::Place { file, offset })
    } else {
        Some(Tally::Files {
            list: told,
            last: last_file(told)?,
            moved: Shift { files: 0, bytes: 0 },
        })
    }
}

/// Splits a line at its last tab.
#[cold]
fn split_at_last<'a>(job: &Job, line: &'a [u8]) -> Option<(&'a [u8], Tally<'a>)>
    ensures { Splits job.now line.entry.now result }
{
    let (key, told) = cut_last(line, b'\t')?;
    Some((key, tally_of(job, told)?))
}

/// Splits a line at the tab behind its key. That is its last one; as most keys have none, the place
/// of its first one is tried before.
#[inline(always)]
fn split_line<'a>(job: &Job, line: &'a [u8], tab: usize) -> Option<(&'a [u8], Tally<'a>)>
    ensures { Splits job.now line.entry.now result }
{
    if tab < line.len() && line[tab] == b'\t' {
        if let Some(tally) = tally_of(job, &line[tab + 1..]) {
            return Some((&line[..tab], tally));
        }
    }
    split_at_last(job, line)
}

/// The number that `front_of` gives for the first bytes of a line, so many. One read takes eight,
/// where the line has them.
#[inline(always)]
fn front_in(line: &[u8], count: usize) -> u64
    requires { count ≤ length line.now }
    ensures is { result ≡ first_bytes 8 (take count line.now) }
    ensures bytes { AreBytes (take count line.now) }
{
    if line.len() < 8 || count == 0 {
        return front_of(&line[..count]);
    }
    let eight = front_of(&line[..8]);
    if count >= 8 {
        return eight;
    }
    let behind = 64 - 8 * count as u32;
    eight >> behind << behind
}

/// Parses a line without its line feed. `tab` is where its first tab is; it is fastest if so.
#[inline(always)]
pub(crate) fn parse_line<'a>(job: &Job, line: &'a [u8], tab: usize) -> Option<Line<'a>>
    requires { Lacks 10 line.now }
    ensures read { IfSome result (λ l. (rest : List ℕ)
        → groups_in job.now (line.entry.now ++ 10 ∷ rest) ≡ group_of l ∷ groups_in job.now rest) }
    ensures kind { IfSome result (λ l. IsFor job.now l.tally) }
    ensures still { IfSome result (λ l. IsUnshifted l.tally) }
    ensures front { IfSome result (λ l. HasFront l) }
    ensures line { IfSome result (λ l. IsLineOf job.now (group_of l)) }
    ensures text { IfSome result (λ l. (rest : List ℕ)
        → line.entry.now ++ 10 ∷ rest ≡ group_text job.now (group_of l) ++ rest) }
    ensures none { (result ≡ None) → (rest : List ℕ) → BeginsWithLine job.now (line.entry.now ++ 10 ∷ rest) → ⊥ }
{
    let (key, tally) = split_line(job, line, tab)?;
    let front = front_in(line, key.len());
    Some(Line { key, front, tally })
}

/// A place in one of so many files of the shard, moved.
fn moved_place(
    shard: usize,
    count: u32,
    before: Shift,
    file: u32,
    offset: u64,
) -> Result<(u32, u64), MergeFault>
    ensures ok { IfOk result (λ p. (p.0 ≡ before.files + file) × (p.1 ≡ moved_start before file offset)) }
    ensures own { IfOk result (λ _. file < count) }
    ensures err { IfErr result (λ e. IsBadPlace shard count before e file offset) }
{
    if file >= count {
        return Err(MergeFault::NoSuchFile { shard });
    }
    let Some(offset) = shifted_start(&before, file as u64, offset) else {
        return Err(MergeFault::PlaceTooFar);
    };
    match shifted_file(&before, file as u64) {
        Some(file) => Ok((file, offset)),
        None => Err(MergeFault::TooManyFiles),
    }
}

#[inline(always)]
fn moved_tally<'a>(
    tally: Tally<'a>,
    shard: usize,
    count: u32,
    before: Shift,
) -> Result<Tally<'a>, MergeFault>
    requires { IsUnshifted tally }
    ensures values { IfOk result (λ t. values_of t ≡ map (shifted_value before) (values_of tally.entry)) }
    ensures kind { IfOk result (λ t. (job : JobSpec) → IsFor job tally.entry → IsFor job t) }
    ensures own { IfOk result (λ _. AreInFiles count (values_of tally.entry)) }
    ensures err { IfErr result (IsUnmoved shard count before tally.entry) }
{
    match tally {
        Tally::Total(total) => Ok(Tally::Total(total)),
        Tally::Place { file, offset } => {
            let (file, offset) = moved_place(shard, count, before, file, offset)?;
            Ok(Tally::Place { file, offset })
        }
        Tally::Files { list, last, .. } => {
            moved_place(shard, count, before, last, 0)?;
            let moved = before;
            Ok(Tally::Files { list, last, moved })
        }
    }
}

/// The line, moved, of a shard with so many files.
#[inline(always)]
pub(crate) fn moved<'a>(
    line: Line<'a>,
    shard: usize,
    count: u32,
    before: Shift,
) -> Result<Line<'a>, MergeFault>
    requires { IsUnshifted line.tally }
    ensures group { IfOk result (λ l. group_of l ≡ shifted_group before (group_of line.entry)) }
    ensures kind { IfOk result (λ l. (job : JobSpec) → IsFor job line.entry.tally → IsFor job l.tally) }
    ensures front { IfOk result (λ l. HasFront line.entry → HasFront l) }
    ensures own { IfOk result (λ _. AreInFiles count (values_of line.entry.tally)) }
    ensures err { IfErr result (IsUnmoved shard count before line.entry.tally) }
{
    Ok(Line {
        tally: moved_tally(line.tally, shard, count, before)?,
        ..line
    })
}
