//! Merges shards: reads and joins the verdicts, checks that their inputs tile files, checks the
//! list of inputs and the files' names, opens the parts, merges each partition, and writes the
//! verdict of the whole.
ghost use Rattle.std.specs.Prelude.{◌≡◌, ◌<◌, ◌^◌, IfErr, IfOk, OnOk, length, map, option_map};
ghost use Rattle.std.specs.List.{AllByRecursion};
ghost use Rattle.mr_jobs.specs.JobSpec.{JobFits};
ghost use Rattle.mr_shards.specs.Joined.{AreOnce, IsNearRange, IsRepeated, verdict_at, inputs_of};
ghost use Rattle.mr_shards.specs.RangeNotes.{TileFiles};
ghost use Rattle.mr_shards.specs.Truth.{Asks};
ghost use Rattle.mr_shard_files.specs.Merging.{AreCounted, AreHeard, ChangesResult, IsJoinedOnce};
ghost use Rattle.mr_shard_files.specs.Merging.{IsMerged, IsReady, with_outputs as with_notes};
ghost use Rattle.mr_shard_files.specs.Apart.{AreApart};
ghost use Rattle.mr_shard_files.specs.Beside.{files_told};
ghost use Rattle.mr_shard_files.specs.Listing.{IsListed};
ghost use Rattle.mr_shard_files.specs.Sharing.{AreUnshared};
ghost use Rattle.mr_shard_files.specs.Faults.{IsFirstFault, IsInputFault, IsInputsFault};
ghost use Rattle.mr_shard_files.specs.Faults.{IsJoinedFault};
ghost use Rattle.mr_shard_files.specs.Faults.{IsMergingFault, IsMiscounted, IsShardRefusal};
ghost use Rattle.mr_shard_files.specs.Faults.{IsUnmeant, AreUnopened, IsTextsFault, IsUnopened};
ghost use Rattle.mr_shard_files.specs.Streams.{AreOpened, AreRows, IsOpened};
ghost use Rattle.mr_shard_files.specs.Streams.{length_told as length_of};

use crate::fault::ShardFault;
use crate::listing::{expect_listed, read_verdicts};
use crate::partition::partitions_written;
use crate::sharing::{expect_apart, expect_unshared, save_verdict};
use crate::stream::Part;
use mr_files::{Store, folder_of, part_name};
use mr_jobs::Request;
use mr_shards::{
    FileRange, Gap, ShardFiles, Verdict, first_gap, first_repeat, join_verdicts, request_of,
    shard_files,
};
use mr_store::ReadFault;
use std::alloc::{AllocError, Global};
use std::thread::Threads;

/// The first verdict's request.
fn first_request(alloc: Global, verdicts: &[Verdict]) -> Result<Request, ShardFault>
    ensures ok { IfOk result (λ r. Asks (verdict_at verdicts.now 0) r) }
    ensures some { IfOk result (λ _. 0 < length verdicts.now) }
    ensures fits { IfOk result (λ r. JobFits r.job) }
    ensures split { IfOk result (λ r. 0 < r.split) }
    ensures err { IfErr result (IsFirstFault verdicts.now) }
{
    let Some(first) = verdicts.first() else {
        return Err(ShardFault::NoShards);
    };
    match request_of(alloc, first)? {
        Some(request) => {
            // The calls bring the facts that its job fits and that a split is not empty.
            let _job = request.job();
            let _size = request.split_size();
            Ok(request)
        }
        None => Err(ShardFault::NoRequest),
    }
}

/// There are fewer than 2^32 inputs. They tile files, and no file begins twice. Of one input the
/// fault of its beginning comes first, then that of its name, then that of its end.
fn expect_files(alloc: Global, inputs: &[FileRange], partial: bool) -> Result<(), ShardFault>
    ensures few { OnOk result (length inputs.now < 2 ^ 32) }
    ensures tiles { OnOk result (TileFiles partial inputs.now) }
    ensures once { OnOk result (AreOnce inputs.now) }
    ensures err { IfErr result (IsInputsFault partial inputs.now) }
{
    if u32::try_from(inputs.len()).is_err() {
        return Err(ShardFault::TooManyFiles);
    }
    let repeat = first_repeat(alloc, inputs)?;
    let once = repeat.unwrap_or(inputs.len());
    match first_gap(inputs, partial) {
        Some(Gap::NoBeginning { input }) => {
            if input <= once {
                return Err(ShardFault::NoBeginning { input });
            }
        }
        Some(Gap::NoEnd { input }) => {
            if input < once {
                return Err(ShardFault::NoEnd { input });
            }
        }
        None => {}
    }
    match repeat {
        Some(input) => Err(ShardFault::RepeatedInput { input }),
        None => Ok(()),
    }
}

fn join_once(
    alloc: Global,
    request: &Request,
    verdicts: &[Verdict],
    partial: bool,
) -> Result<Verdict, ShardFault>
    ensures ok { IfOk result (IsJoinedOnce partial request.now verdicts.now) }
    ensures err { IfErr result (IsJoinedFault partial request.now verdicts.now) }
{
    let joined = join_verdicts(alloc, request, verdicts)?;
    for (shard, verdict) in verdicts.iter().enumerate() {
        if verdict.outputs.len() != request.parts() as usize {
            return Err(ShardFault::OtherOutputs { shard });
        }
    }
    expect_files(alloc, joined.inputs.as_slice(), partial)?;
    Ok(joined)
}

/// What a merge is asked for.
#[derive(Clone, Copy)]
pub struct MergePlan<'a> {
    /// The names of the verdicts, in the order of their inputs.
    pub names: &'a [&'a str],
    /// The file that must list exactly the inputs of the verdicts, in their order.
    pub list: Option<&'a str>,
    /// The folder of the result.
    pub out: &'a str,
    /// The first input may begin inside its file, and the last one may end before its file does.
    pub partial: bool,
}

/// Joins the verdicts. Then checks the list of inputs if there is one, the folders, and the names of
/// files.
fn prepare<S: Store>(
    store: &S,
    alloc: Global,
    plan: &MergePlan<'_>,
    verdicts: &[Verdict],
) -> Result<(Request, Verdict), ShardFault>
    ensures ok { IfOk result (λ r. IsReady (S.holds store.now) (S.known_as store.now)
        (map (λ s. s.now) plan.now.names.now) (option_map (λ n. n.now) plan.now.list)
        plan.now.out.now plan.now.partial verdicts.now r.0 r.1) }
    ensures err { IfErr result (IsMergingFault (S.holds store.now) (S.unreadable store.now)
        (S.alike store.now) (S.known_as store.now) (map (λ s. s.now) plan.now.names.now)
        (option_map (λ n. n.now) plan.now.list) plan.now.out.now plan.now.partial verdicts.now) }
{
    let request = first_request(alloc, verdicts)?;
    let joined = join_once(alloc, &request, verdicts, plan.partial)?;
    expect_listed(store, alloc, plan.list, joined.inputs.as_slice())?;
    expect_apart(store, plan.names, plan.out)?;
    expect_unshared(store, alloc, plan, request.parts())?;
    Ok((request, joined))
}

/// Merges shards. Each name of the plan is that of a verdict, with the parts that it lists in the
/// same folder. The inputs of all verdicts, one behind another, tile files; none begins twice. The
/// merge writes the parts of the result to the folder, and last their verdict, which it returns.
/// Before the first part it empties the verdict there: if a part turns out not to be its verdict's,
/// the folder has no verdict. A list has a line of `sha256sum` for each whole file.
///
/// The parts of a partition are open together. Memory holds some 256 KiB of each and the text that
/// they merge to. Up to two more threads take digests meanwhile. A line without an end is kept as
/// far as its part goes, up to the verdict's length, and may end in want of memory.
pub fn merge_shards<S: Store, T: Threads>(
    rt: &T,
    store: &mut S,
    alloc: Global,
    plan: &MergePlan<'_>,
) -> Result<Verdict, ShardFault>
    ensures ok { IfOk result (IsMerged (S.holds store.old) (S.holds store.new)
        (S.known_as store.old) (map (λ s. s.now) plan.now.names.now)
        (option_map (λ n. n.now) plan.now.list) plan.now.out.now plan.now.partial) }
    ensures others { ChangesResult (S.holds store.old) (S.holds store.new) plan.now.out.now }
    ensures refused { IfErr result (IsShardRefusal (S.holds store.old) (S.holds store.new)
        (S.unreadable store.old) (S.unwritable store.old)
        (S.alike store.old) (S.known_as store.old) (map (λ s. s.now) plan.now.names.now)
        (option_map (λ n. n.now) plan.now.list) plan.now.out.now plan.now.partial) }
{
    let verdicts = read_verdicts(store, alloc, plan.names)?;
    let verdicts = verdicts.as_slice();
    let (request, joined) = prepare(store, alloc, plan, verdicts)?;
    let files = list_files(alloc, joined.inputs.as_slice(), verdicts)?;
    let files = files.as_slice();
    let outputs = partitions_written(rt, store, alloc, plan, &request, verdicts, files)?;
    let merged = Verdict { outputs, ..joined };
    save_verdict(store, alloc, plan.out, &merged)?;
    Ok(merged)
}

pub(crate) fn open_part<S: Store>(
    store: &S,
    alloc: Global,
    name: &str,
    verdict: &Verdict,
    partition: usize,
) -> Result<Part<S::Reader>, ShardFault>
    ensures ok { IfOk result
        (IsOpened (S.holds store.now)
        (S.unreadable store.now) S.Reader.remaining S.Reader.can_fail partition name.now verdict.now) }
    ensures err { IfErr result (IsUnopened (S.unreadable store.now) partition name.now) }
{
    let file = part_name(alloc, folder_of(name), partition)?;
    match store.reader(alloc, file.as_str()) {
        Ok(reader) => {
            let length = verdict.outputs.get(partition).map_or(0, |note| note.length);
            Ok(Part::new(alloc, file, reader, length))
        }
        Err(ReadFault::OutOfMemory) => Err(ShardFault::OutOfMemory),
        Err(ReadFault::Device) => Err(ShardFault::CannotRead(file)),
    }
}

/// The shards' parts for each partition. It reads none yet; the store decides which are open.
pub(crate) fn open_all<S: Store>(
    store: &S,
    alloc: Global,
    names: &[&str],
    verdicts: &[Verdict],
    count: usize,
) -> Result<Vec<Vec<Part<S::Reader>>>, ShardFault>
    requires { length names.now ≡ length verdicts.now }
    ensures count { IfOk result (λ rows. length rows.items ≡ count) }
    ensures ok { IfOk result (λ rows. AreRows (S.holds store.now)
        (S.unreadable store.now) S.Reader.remaining S.Reader.can_fail
        (map (λ s. s.now) names.now) verdicts.now 0 rows.items) }
    ensures err { IfErr result (AreUnopened (S.holds store.now) (S.unreadable store.now) count
        (map (λ s. s.now) names.now) verdicts.now) }
{
    let mut rows = Vec::new(alloc);
    for partition in 0..count {
        let mut parts = Vec::new(alloc);
        for shard in 0..names.len() {
            let part = open_part(store, alloc, names[shard], &verdicts[shard], partition)?;
            parts.push(part).map_err(AllocError::from)?;
        }
        rows.push(parts).map_err(AllocError::from)?;
    }
    Ok(rows)
}

/// The files of each shard. The inputs are those of all verdicts, one behind another.
fn list_files(
    alloc: Global,
    inputs: &[FileRange],
    verdicts: &[Verdict],
) -> Result<Vec<ShardFiles>, AllocError>
    requires all { inputs.now ≡ inputs_of verdicts.now }
    requires few { length inputs.now < 2 ^ 32 }
    ensures { IfOk result (λ fs. fs.items ≡ files_told verdicts.now) }
{
    let mut all = Vec::new(alloc);
    let mut rest = inputs;
    for shard in 0..verdicts.len() {
        let verdict = &verdicts[shard];
        let ranges = verdict.inputs.as_slice();
        let (_, behind) = rest.split_at(ranges.len());
        all.push(shard_files(ranges, behind))
            .map_err(AllocError::from)?;
        rest = behind;
    }
    Ok(all)
}
