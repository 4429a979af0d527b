//! Joins the verdicts of shards to that of the whole.
//!
//!     shard 0    a.log  0 .. 600 more                     without 0 120           10 pairs
//!     shard 1    a.log  600 .. 650 end   b.log  0 .. 40   without 0 10   1 20      4 pairs
//!     whole      all three ranges                         without 0 120  0 610  1 20    14 pairs
//!
//! The spots of left-out records move by the shift of their shard (`shift.rt`), so no file is read.
//! A shard is compared with the request, then its pairs are counted, and then its places are moved:
//! the first that fails is the fault. A file that begins twice is found by a set (`first_repeat`).
//! Cost: one pass over the verdicts; copies of their notes.
//! Source: docs/FORMATS.md, "Shards that are merged".
ghost use Rattle.std.specs.Prelude.{◌≡◌, ◌↔◌, ◌⊎◌, ℕ, ◌+◌, ◌<◌, ◌++◌, List};
ghost use Rattle.std.specs.Prelude.{true, false, IfErr, IfOk, IsTrue, MatchOption, OnOk, map};
ghost use Rattle.std.specs.List.{AllByRecursion};
ghost use Rattle.mr_bytes.specs.Lists.{Has};
ghost use Rattle.mr_shards.specs.Spots.{shifted_spot};
ghost use Rattle.mr_shards.specs.Joined.{AreOnce, IsJoinFault, IsJoined, IsNearRange, IsNearSpot};
ghost use Rattle.mr_shards.specs.Joined.{IsRepeated, JoinedIsTrue, inputs_of as all_inputs};
ghost use Rattle.mr_shards.specs.Joining.{Follows, IsShardFault};

use crate::ranges::{FileRange, goes_on_at};
use crate::shift::{Shift, Spot, behind, shift_past, shifted};
use crate::verdict::{Verdict, asks, verdict_for};
use mr_jobs::Request;
use std::alloc::{AllocError, Global};
use std::collections::BTreeSet;
use thiserror::Error;

/// Why verdicts are not joined. Verdicts are numbered from 0.
#[derive(Clone, Copy, Debug, PartialEq, Eq, Drop, Error)]
pub enum JoinFault {
    /// The verdict is about another request.
    #[error("OtherRequest shard {shard}")]
    OtherRequest { shard: usize },
    /// The sum of the pairs doesn't fit in 64 bits.
    #[error("TooManyPairs")]
    TooManyPairs,
    /// A range of the verdict ends past 2^64, or the place of a left-out record, moved, doesn't fit:
    /// its file's number in 32 bits, its offset in 64.
    #[error("PlaceTooFar shard {shard}")]
    PlaceTooFar { shard: usize },
    #[error("OutOfMemory")]
    OutOfMemory,
}

impl From<AllocError> for JoinFault {
    ghost use Rattle.mr_shards.specs.declared.joining.JoinFault.TheVariants.{OutOfMemory as told_memory};

    ghost from_gives = { λ _ f. f ≡ told_memory };

    fn from(_fault: AllocError) -> JoinFault {
        JoinFault::OutOfMemory
    }
}

/// Whether the end of each range fits in 64 bits.
fn are_near(ranges: &[FileRange]) -> bool
    ensures { IsTrue result ↔ AllByRecursion IsNearRange ranges.now }
{
    for range in ranges {
        if range.from.checked_add(range.length).is_none() {
            return false;
        }
    }
    true
}

/// Adds the spots, moved; false where one doesn't fit.
fn add_spots(spots: &mut Vec<Spot>, more: &[Spot], shift: Shift) -> Result<bool, AllocError>
    ensures ok { IfOk result (λ near. near ≡ true
        → spots.new.items ≡ spots.old.items ++ map (shifted_spot shift) more.now) }
    ensures near { IfOk result (λ near. IsTrue near
        ↔ AllByRecursion IsNearSpot (map (shifted_spot shift) more.now)) }
{
    for spot in more {
        let Some(moved) = shifted(&shift, spot) else {
            return Ok(false);
        };
        spots.push(moved)?;
    }
    Ok(true)
}

fn add_ranges(alloc: Global, all: &mut Vec<FileRange>, more: &[FileRange]) -> Result<(), AllocError>
    ensures { OnOk result (all.new.items ≡ all.old.items ++ more.now) }
{
    for range in more {
        let name = Vec::from_slice(alloc, range.name.as_slice())?;
        all.push(FileRange { name, ..*range })?;
    }
    Ok(())
}

/// The inputs of all verdicts, one behind another.
fn inputs_of(alloc: Global, verdicts: &[Verdict]) -> Result<Vec<FileRange>, AllocError>
    ensures { IfOk result (λ ns. ns.items ≡ all_inputs verdicts.now) }
{
    let mut inputs = Vec::new(alloc);
    for verdict in verdicts {
        add_ranges(alloc, &mut inputs, verdict.inputs.as_slice())?;
    }
    Ok(inputs)
}

/// The verdicts joined so far, without inputs, and how far the places of the next one move.
#[derive(Drop)]
struct Joined {
    verdict: Verdict,
    past: Shift,
}

/// Joins a shard's verdict to those before it. `rest` are the inputs of those behind it.
fn add_verdict(
    request: &Request,
    joined: &mut Joined,
    shard: usize,
    verdict: &Verdict,
    rest: &[FileRange],
) -> Result<(), JoinFault>
    ensures ok { OnOk result (Follows request.now joined.old.verdict joined.new.verdict verdict.now
        joined.old.past joined.new.past rest.now) }
    ensures err { IfErr result (IsShardFault request.now joined.old.verdict verdict.now shard
        joined.old.past rest.now) }
{
    if !asks(verdict, request) {
        return Err(JoinFault::OtherRequest { shard });
    }
    let Some(pairs) = joined.verdict.pairs.checked_add(verdict.pairs) else {
        return Err(JoinFault::TooManyPairs);
    };
    let far = JoinFault::PlaceTooFar { shard };
    let (inputs, left_out) = (verdict.inputs.as_slice(), verdict.left_out.as_slice());
    let _count = inputs.len();
    if !are_near(inputs) || !add_spots(&mut joined.verdict.left_out, left_out, joined.past)? {
        return Err(far);
    }
    let Some(past) = behind(joined.past, shift_past(inputs, rest)) else {
        return Err(far);
    };
    joined.verdict.pairs = pairs;
    joined.past = past;
    Ok(())
}

/// Joins the shards' verdicts in order: appends inputs, moves the spots of left-out records by what
/// is before, adds pairs. It leaves the outputs empty.
pub fn join_verdicts(
    alloc: Global,
    request: &Request,
    verdicts: &[Verdict],
) -> Result<Verdict, JoinFault>
    ensures ok { IfOk result (IsJoined request.now verdicts.now) }
    ensures err { IfErr result (IsJoinFault request.now verdicts.now) }
{
    let inputs = inputs_of(alloc, verdicts)?;
    let verdict = verdict_for(alloc, request, 0)?;
    let past = Shift { files: 0, bytes: 0 };
    let mut joined = Joined { verdict, past };
    let mut rest = inputs.as_slice();
    for shard in 0..verdicts.len() {
        let verdict = &verdicts[shard];
        let (_, later) = rest.split_at(verdict.inputs.as_slice().len());
        add_verdict(request, &mut joined, shard, verdict, later)?;
        rest = later;
    }
    Ok(Verdict {
        inputs,
        ..joined.verdict
    })
}

/// Adds a name to those seen; returns whether it is new.
fn see<'a>(seen: &mut BTreeSet<&'a [u8]>, name: &'a [u8]) -> Result<bool, AllocError>
    ensures fresh { IfOk result (λ added. added ≡ true → Has (map (λ k. k.now) seen.old.keys) name.entry.now → ⊥) }
    ensures again { IfOk result (λ added. added ≡ false → Has (map (λ k. k.now) seen.old.keys) name.entry.now) }
    ensures kept { OnOk result ((n : List ℕ) → Has (map (λ k. k.now) seen.new.keys) n
        ↔ (Has (map (λ k. k.now) seen.old.keys) n ⊎ (name.entry.now ≡ n))) }
{
    match seen.insert(name) {
        Ok(added) => Ok(added),
        Err(_) => Err(AllocError),
    }
}

/// The number of the first range that begins another file of an earlier one's name.
pub fn first_repeat(alloc: Global, ranges: &[FileRange]) -> Result<Option<usize>, AllocError>
    ensures { IfOk result (λ r. MatchOption r (AreOnce ranges.now) (IsRepeated ranges.now)) }
{
    let mut seen = BTreeSet::new(alloc);
    for at in 0..ranges.len() {
        let range = &ranges[at];
        if !goes_on_at(ranges, at) && !see(&mut seen, range.name.as_slice())? {
            return Ok(Some(at));
        }
    }
    Ok(None)
}

/// If each verdict is true of its ranges and parts, the joined one is true of all.
pub fn joined_law()
    ensures { JoinedIsTrue }
{}
