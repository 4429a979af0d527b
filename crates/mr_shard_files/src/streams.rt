//! The shards' parts of one partition, read in pieces.
ghost use Rattle.std.specs.Prelude.{◌≡◌, ◌↔◌, ℕ, [], ◌∷◌, ◌++◌, List, IfErr, IfOk, IsTrue, OnOk};
ghost use Rattle.std.specs.Prelude.{length, string_bytes, take};
ghost use Rattle.mr_shard_files.specs.Streams.{AllAre, AreHeld, AreUnsettled, AreWindowsOf, Ends};
ghost use Rattle.mr_shard_files.specs.Streams.{HasRead, IsSettled, Moves, OneIs, ReportsUnread};
ghost use Rattle.mr_shard_files.specs.Streams.{all_done, length_told};
ghost use Rattle.mr_shard_files.specs.Beside.{ReportsCause};

use crate::fault::ShardFault;
use crate::stream::Part;
use mr_shards::{Verdict, Window};
use mr_store::CountedRead;
use std::alloc::{AllocError, Global};

pub(crate) fn fill_all<R: CountedRead + Drop>(
    alloc: Global,
    parts: &mut [Part<R>],
    size: usize,
) -> Result<(), ShardFault>
    ensures ok { OnOk result (AllAre (λ _ o n. Moves R.remaining R.can_fail [] o n) parts.old parts.old parts.new) }
    ensures err { IfErr result
        (λ e. OneIs (λ _ q. ReportsUnread (R.can_fail q.reader) (string_bytes q.name) e) parts.old) }
{
    for shard in 0..parts.len() {
        let part = &mut parts[shard];
        part.fill(alloc, size)?;
    }
    Ok(())
}

/// A round reads at least this share of the longest window. A long line is scanned in each round
/// that it waits, so its rounds must be few; all shares together are no longer than that window.
pub(crate) fn share_of<R: CountedRead + Drop>(parts: &[Part<R>]) -> usize {
    let mut longest = 0;
    for part in parts {
        longest = part.bytes().len().max(longest);
    }
    longest / parts.len().max(1)
}

pub(crate) fn are_done<R: CountedRead + Drop>(parts: &[Part<R>]) -> bool
    ensures { result ≡ all_done parts.now }
{
    for part in parts {
        if !part.is_done() {
            return false;
        }
    }
    true
}

pub(crate) fn windows_of<'a, R: CountedRead + Drop>(
    alloc: Global,
    parts: &'a [Part<R>],
) -> Result<Vec<Window<'a>>, AllocError>
    ensures { IfOk result (λ ws. AreWindowsOf parts.entry.now ws.items) }
{
    let mut windows = Vec::new(alloc);
    for shard in 0..parts.len() {
        let part = &parts[shard];
        let window = Window {
            bytes: part.bytes(),
            is_last: part.is_done(),
        };
        windows.push(window).map_err(AllocError::from)?;
    }
    Ok(windows)
}

pub(crate) fn pass_all<R: CountedRead + Drop>(parts: &mut [Part<R>], cuts: &[usize])
    requires { AreHeld cuts.now parts.old }
    ensures { AllAre (λ c o n. Moves R.remaining R.can_fail (take c o.held) o n) cuts.now parts.old parts.new }
{
    for shard in 0..parts.len() {
        let part = &mut parts[shard];
        part.pass(cuts[shard]);
    }
}

/// Reads the part to its end, and returns whether it is the one in the verdict.
pub(crate) fn settle<R: CountedRead + Drop>(
    alloc: Global,
    part: &mut Part<R>,
    verdict: &Verdict,
    partition: usize,
) -> Result<bool, ShardFault>
    ensures ends { IfOk result (λ b. Ends R.remaining R.can_fail partition verdict.now b part.old part.new) }
    ensures err { IfErr result (ReportsUnread (R.can_fail part.old.reader) (string_bytes part.old.name)) }
{
    part.finish(alloc)?;
    match verdict.outputs.get(partition) {
        Some(note) => Ok(part.has_digest(&note.digest)?),
        None => Ok(false),
    }
}

/// Reads all parts to their ends, in order, and reports the first that is not its verdict's.
pub(crate) fn settle_all<R: CountedRead + Drop>(
    alloc: Global,
    parts: &mut [Part<R>],
    verdicts: &[Verdict],
    partition: usize,
) -> Result<(), ShardFault>
    requires { length parts.old ≡ length verdicts.now }
    ensures ok { OnOk result (AllAre (IsSettled R.remaining R.can_fail partition) verdicts.now parts.old parts.new) }
    ensures err { IfErr result (AreUnsettled R.remaining R.can_fail partition verdicts.now parts.old) }
{
    for shard in 0..parts.len() {
        let part = &mut parts[shard];
        if !settle(alloc, part, &verdicts[shard], partition)? {
            return Err(ShardFault::OtherPart { shard, partition });
        }
    }
    Ok(())
}
