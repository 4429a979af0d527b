//! Merges parts while it reads them, in rounds.
//!
//! A round fills a window of each part, merges what it can of them (`mr_shards::Merger`), and passes
//! what it took. Meanwhile up to two threads write what the round before merged, and digest that and
//! what was read: SHA-256 takes as long as the merge. Cost: each byte is read, digested and merged
//! once, and written once from where it was merged; of a line longer than a window only its end is
//! looked for again.
ghost use Rattle.std.specs.Prelude.{◌≡◌, ◌⊎◌, [], ◌++◌, ℕ, List, IfErr, IfOk, OnOk, length, string_bytes};
ghost use Rattle.mr_shards.specs.Rounds.{Merges};
ghost use Rattle.mr_shard_files.specs.Streams.{AllAre, AreBlamed, AreMergedTo, AreNext, AreTaken};
ghost use Rattle.mr_shard_files.specs.Streams.{IsJoinedTo, IsNotBeside, IsNotJoined, IsRoundFault};
ghost use Rattle.mr_shard_files.specs.Streams.{IsStopped, IsStoppedAt, MergesHeld, Moves, Refuses, TakesRound};
ghost use Rattle.mr_shard_files.specs.Made.{CatchesUp, HasWritten, ReportsUnwritten};

use crate::fault::ShardFault;
use crate::partition::Made;
use crate::stream::Part;
use crate::streams::{are_done, fill_all, pass_all, share_of, windows_of};
use crate::tails::{all_taken, keep_all, middle_of, tails_of};
use mr_jobs::Job;
use mr_shards::{MergeFault, Merger, ShardFiles, Window};
use mr_store::{CountedRead, CountedWrite};
use sha2::Sha256;
use std::alloc::{AllocError, Global};
use std::thread;
use std::thread::Threads;

/// How many bytes of each part a round holds: 256 KiB.
pub(crate) const WINDOW: usize = 262_144;

#[derive(Drop)]
pub(crate) enum Stop {
    /// A part can't be read or written, or memory is lacking.
    Part(ShardFault),
    /// What was read can't be merged.
    Merge(MergeFault),
}

impl From<AllocError> for Stop {
    ghost use Rattle.mr_shard_files.specs.declared.rounds.Stop.TheVariants.{Part as told_part};
    ghost use Rattle.mr_shard_files.specs.declared.fault.ShardFault.TheVariants.{OutOfMemory as told_memory};

    ghost from_gives = { λ _ f. f ≡ told_part told_memory };

    fn from(_fault: AllocError) -> Stop {
        Stop::Part(ShardFault::OutOfMemory)
    }
}

impl From<ShardFault> for Stop {
    ghost use Rattle.mr_shard_files.specs.declared.rounds.Stop.TheVariants.{Part as told_part};

    ghost from_gives = { λ e f. f ≡ told_part e };

    fn from(fault: ShardFault) -> Stop {
        Stop::Part(fault)
    }
}

impl From<MergeFault> for Stop {
    ghost use Rattle.mr_shard_files.specs.declared.rounds.Stop.TheVariants.{Merge as told_merge};

    ghost from_gives = { λ e f. f ≡ told_merge e };

    fn from(fault: MergeFault) -> Stop {
        Stop::Merge(fault)
    }
}

/// Merges what it can of the windows in another thread, if there can be one. Meanwhile writes what
/// the round before merged, and digests that and what some of the parts hold.
fn merge_beside_one<R: CountedRead + Drop, W: CountedWrite + Drop, T: Threads>(
    rt: &T,
    alloc: Global,
    job: &Job,
    windows: &[Window<'_>],
    some: &[Part<R>],
    made: &mut Made<W>,
    merger: &mut Merger,
) -> Result<Vec<Sha256>, Stop>
    requires { length windows.now ≡ length merger.old.held }
    ensures kept { OnOk result (length merger.new.held ≡ length merger.old.held) }
    ensures ok { OnOk result (Merges job.now windows.now merger.old merger.new) }
    ensures digests { IfOk result (λ hs. AreNext some.now hs.items) }
    ensures caught { OnOk result (CatchesUp W.seen made.old made.new) }
    ensures err { IfErr result (IsNotBeside job.now windows.now merger.old
        (ReportsUnwritten (W.can_fail made.old.writer) (string_bytes made.old.name))) }
    ensures later { W.can_fail made.new.writer → W.can_fail made.old.writer }
    ensures name { made.new.name ≡ made.old.name }
{
    let tails = tails_of(alloc, some)?;
    let lacking = tails.as_slice();
    let mut merging = || -> Result<(), MergeFault>
        requires { length windows.now ≡ length merger.now.held }
        ensures kept { OnOk result (length merger.exit.now.held ≡ length merger.entry.now.held) }
        ensures ok { OnOk result (Merges job.entry.now windows.entry.now merger.entry.now merger.exit.now) }
        ensures err { IfErr result (Refuses job.entry.now windows.entry.now merger.entry.now) }
    { merger.merge_round(alloc, job, windows) };
    let mut digesting = || -> Result<Vec<Sha256>, ShardFault>
        ensures taken { IfOk result (λ hs. AreTaken lacking.entry.now hs.items) }
        ensures caught { OnOk result (CatchesUp W.seen made.entry.now made.exit.now) }
        ensures err { IfErr result (ReportsUnwritten (W.can_fail made.entry.now.writer)
            (string_bytes made.entry.now.name)) }
        ensures later { W.can_fail made.exit.now.writer → W.can_fail made.entry.now.writer }
        ensures name { made.exit.now.name ≡ made.entry.now.name }
    {
        made.catch_up(alloc)?;
        Ok(all_taken(alloc, lacking)?)
    };
    let (merged, digests) = thread::join_mut(rt, &mut merging, &mut digesting);
    let digests = digests?;
    merged?;
    Ok(digests)
}

/// Merges what it can of what the parts hold. Meanwhile up to two threads write what the round
/// before merged, and digest that and what the parts hold, about half of the bytes each: SHA-256
/// takes as long as the merge.
fn merge_beside<R: CountedRead + Drop, W: CountedWrite + Drop, T: Threads>(
    rt: &T,
    alloc: Global,
    job: &Job,
    parts: &[Part<R>],
    made: &mut Made<W>,
    merger: &mut Merger,
) -> Result<Vec<Sha256>, Stop>
    requires { length parts.now ≡ length merger.old.held }
    ensures kept { OnOk result (length merger.new.held ≡ length merger.old.held) }
    ensures ok { OnOk result (MergesHeld job.now parts.now merger.old merger.new) }
    ensures digests { IfOk result (λ hs. AreNext parts.now hs.items) }
    ensures caught { OnOk result (CatchesUp W.seen made.old made.new) }
    ensures err { IfErr result (IsStoppedAt job.now parts.now
        (ReportsUnwritten (W.can_fail made.old.writer) (string_bytes made.old.name)) merger.old) }
    ensures later { W.can_fail made.new.writer → W.can_fail made.old.writer }
    ensures name { made.new.name ≡ made.old.name }
{
    let all = windows_of(alloc, parts)?;
    let windows = all.as_slice();
    let (front, back) = parts.split_at(middle_of(parts, made.late()));
    let tails = tails_of(alloc, front)?;
    let lacking = tails.as_slice();
    let mut digesting = || -> Result<Vec<Sha256>, AllocError>
        ensures { IfOk result (λ hs. AreTaken lacking.entry.now hs.items) }
    { all_taken(alloc, lacking) };
    let mut stepping = || -> Result<Vec<Sha256>, Stop>
        requires { length windows.now ≡ length merger.now.held }
        ensures kept { OnOk result (length merger.exit.now.held ≡ length merger.entry.now.held) }
        ensures ok { OnOk result (Merges job.entry.now windows.entry.now merger.entry.now merger.exit.now) }
        ensures digests { IfOk result (λ hs. AreNext back.entry.now hs.items) }
        ensures caught { OnOk result (CatchesUp W.seen made.entry.now made.exit.now) }
        ensures err { IfErr result (IsNotBeside job.entry.now windows.entry.now merger.entry.now
            (ReportsUnwritten (W.can_fail made.entry.now.writer) (string_bytes made.entry.now.name))) }
        ensures later { W.can_fail made.exit.now.writer → W.can_fail made.entry.now.writer }
        ensures name { made.exit.now.name ≡ made.entry.now.name }
    { merge_beside_one(rt, alloc, job, windows, back, made, merger) };
    let (first, rest) = thread::join_mut(rt, &mut digesting, &mut stepping);
    let mut rest = rest?;
    let mut digests = first?;
    digests.append(&mut rest).map_err(AllocError::from)?;
    Ok(digests)
}

/// Reads some of each part, and merges what it can of what is held. Writes what the round before
/// merged, and takes over what this one did.
fn merge_round<R: CountedRead + Drop, W: CountedWrite + Drop, T: Threads>(
    rt: &T,
    alloc: Global,
    job: &Job,
    parts: &mut [Part<R>],
    made: &mut Made<W>,
    merger: &mut Merger,
) -> Result<(), Stop>
    requires { length parts.old ≡ length merger.old.held }
    ensures kept { OnOk result (length merger.new.held ≡ length merger.old.held) }
    ensures read { OnOk result (AllAre (λ _ o n. Moves R.remaining R.can_fail [] o n) parts.old parts.old parts.new) }
    ensures ok { OnOk result (TakesRound W.seen job.now parts.new merger.old merger.new made.old made.new) }
    ensures err { IfErr result (IsRoundFault R.remaining R.can_fail
        (ReportsUnwritten (W.can_fail made.old.writer) (string_bytes made.old.name))
        job.now parts.old parts.new merger.old) }
    ensures later { W.can_fail made.new.writer → W.can_fail made.old.writer }
    ensures name { made.new.name ≡ made.old.name }
{
    fill_all(alloc, parts, WINDOW.max(share_of(parts)))?;
    let digests = merge_beside(rt, alloc, job, parts, made, merger)?;
    keep_all(parts, digests.as_slice())?;
    made.take_text(merger);
    Ok(())
}

/// Merges the parts in rounds, and returns the merger behind the last one.
pub(crate) fn merge_rounds<R: CountedRead + Drop, W: CountedWrite + Drop, T: Threads>(
    rt: &T,
    alloc: Global,
    job: &Job,
    files: &[ShardFiles],
    parts: &mut [Part<R>],
    made: &mut Made<W>,
) -> Result<Merger, Stop>
    requires count { length files.now ≡ length parts.old }
    requires fresh { HasWritten W.seen [] made.old }
    ensures ok { IfOk result (λ m. (text : List ℕ)
        × AreMergedTo R.remaining R.can_fail job.now files.now parts.old parts.new text m.held
        × HasWritten W.seen text made.new) }
    ensures err { IfErr result (λ e. IsStopped R.remaining R.can_fail
        (ReportsUnwritten (W.can_fail made.old.writer) (string_bytes made.old.name))
        job.now files.now parts.old parts.new e) }
    ensures later { W.can_fail made.new.writer → W.can_fail made.old.writer }
    ensures name { made.new.name ≡ made.old.name }
{
    let mut merger = Merger::new(alloc, files)?;
    for _ in 0..u64::MAX {
        merge_round(rt, alloc, job, parts, made, &mut merger)?;
        if are_done(parts) {
            return Ok(merger);
        }
        pass_all(parts, merger.cuts());
    }
    // No machine has the memory for what more rounds than 64 bits count would merge.
    Err(Stop::Part(ShardFault::OutOfMemory))
}
