//! Merges the shards' parts, partition by partition: writes each part of the result in pieces, and
//! makes the notes of parts.
ghost use Rattle.std.specs.Prelude.{◌≡◌, ◌<◌, ◌^◌, ◌⊎◌, ℕ, [], List, IfErr, IfOk, OnOk, length};
ghost use Rattle.std.specs.Prelude.{map, string_bytes, ◌++◌, false, ◌∷◌};
ghost use Rattle.mr_files.specs.Holding.{ChangesOnly, Agrees};
ghost use Rattle.mr_files.specs.Names.{name_of_part, part_file, part_file as file_of_part};
ghost use Rattle.mr_files.specs.Names.{part_files};
ghost use Rattle.mr_shards.specs.Joined.{inputs_of};
ghost use Rattle.mr_shards.specs.Truth.{note_for, note_for as note_telling, notes_for};
ghost use Rattle.mr_shard_files.specs.Beside.{files_told};
ghost use Rattle.mr_shard_files.specs.Faults.{IsPartsFault};
ghost use Rattle.mr_shard_files.specs.Made.{CatchesUp, Gives, HasWritten, ReportsUnwritten};
ghost use Rattle.mr_shard_files.specs.Merging.{AreAllWritten};
ghost use Rattle.mr_shard_files.specs.Streams.{IsJoinedTo, IsNotJoined};
ghost use Rattle.mr_input.specs.Files.{contents};

use crate::fault::{ShardFault, of_merge};
use crate::merging::{MergePlan, open_all};
use crate::pairs::{add_pairs, test_totals};
use crate::rounds::{Stop, merge_rounds};
use crate::sharing::put_verdict;
use crate::stream::{Part, blamed};
use crate::streams::settle_all;
use mr_files::{Store, WriteFault, part_file, part_name};
use mr_jobs::{Job, Request};
use mr_shards::{FileNote, MergeFault, Merger, ShardFiles, Verdict, note_for};
use mr_store::{CountedRead, CountedWrite, write_all};
use sha2::{Digest, Sha256};
use std::alloc::{AllocError, Global};
use std::thread::Threads;

/// What is merged to one part of the result: of each shard its files and its verdict.
#[derive(Clone, Copy)]
pub(crate) struct PartMerge<'a> {
    pub job: &'a Job,
    pub files: &'a [ShardFiles],
    pub verdicts: &'a [Verdict],
    pub partition: usize,
}

/// Merges a partition's parts while it reads them, compares each, read to its end, with its verdict,
/// and writes and flushes the text. Returns its note, and the merger, which has counted the pairs of
/// each part. If the parts can't be merged, it still reads them to their ends: it reports a wrong
/// part rather than a bad line.
fn part_filled<R: CountedRead + Drop, W: CountedWrite + Drop, T: Threads>(
    rt: &T,
    alloc: Global,
    merge: &PartMerge<'_>,
    parts: &mut [Part<R>],
    made: &mut Made<W>,
) -> Result<(FileNote, Merger), ShardFault>
    requires files { length merge.now.files.now ≡ length parts.old }
    requires count { length parts.old ≡ length merge.now.verdicts.now }
    requires fresh { HasWritten W.seen [] made.old }
    ensures ok { IfOk result (λ r. (text : List ℕ)
        × IsJoinedTo R.remaining R.can_fail merge.now parts.old text r.1.held
        × Agrees (W.seen made.new.writer).contents text × (r.0 ≡ note_for (part_file merge.now.partition) text)) }
    ensures handed { OnOk result ((W.seen made.new.writer).handed_on ≡ (W.seen made.new.writer).contents) }
    ensures err { IfErr result (λ e. IsNotJoined R.remaining R.can_fail merge.now parts.old e
        ⊎ ReportsUnwritten (W.can_fail made.old.writer) (string_bytes made.old.name) e) }
    ensures name { made.new.name ≡ made.old.name }
{
    let PartMerge {
        job,
        files,
        verdicts,
        partition,
    } = *merge;
    let merger = match merge_rounds(rt, alloc, job, files, parts, made) {
        Ok(merger) => merger,
        Err(Stop::Part(fault)) => return Err(fault),
        Err(Stop::Merge(MergeFault::OutOfMemory)) => return Err(ShardFault::OutOfMemory),
        Err(Stop::Merge(fault)) => {
            settle_all(alloc, parts, verdicts, partition)?;
            return Err(of_merge(partition, fault));
        }
    };
    settle_all(alloc, parts, verdicts, partition)?;
    made.flush(alloc)?;
    Ok((made.note(alloc, partition)?, merger))
}

/// As `part_filled`, to the part of the result, which it opens and closes.
fn part_written<S: Store, T: Threads>(
    rt: &T,
    store: &mut S,
    alloc: Global,
    merge: &PartMerge<'_>,
    parts: &mut [Part<S::Reader>],
    dir: &str,
) -> Result<(FileNote, Merger), ShardFault>
    requires files { length merge.now.files.now ≡ length parts.old }
    requires count { length parts.old ≡ length merge.now.verdicts.now }
    ensures ok { IfOk result (λ r. (text : List ℕ)
        × IsJoinedTo S.Reader.remaining S.Reader.can_fail merge.now parts.old text r.1.held
        × S.holds store.new (name_of_part dir.now merge.now.partition) text
        × (r.0 ≡ note_for (part_file merge.now.partition) text)) }
    ensures others { ChangesOnly (S.holds store.old) (S.holds store.new)
        (name_of_part dir.now merge.now.partition) }
    ensures still { (n : List ℕ) → S.unwritable store.new n → S.unwritable store.old n }
    ensures err { IfErr result
        (λ e. IsNotJoined S.Reader.remaining S.Reader.can_fail merge.now parts.old e
        ⊎ ReportsUnwritten (S.unwritable store.old (name_of_part dir.now merge.now.partition))
        (name_of_part dir.now merge.now.partition) e) }
{
    let name = part_name(alloc, dir, merge.partition)?;
    let mut made = match store.writer(alloc, name.as_str()) {
        Ok(writer) => Made::new(alloc, name, writer),
        Err(WriteFault::OutOfMemory) => return Err(ShardFault::OutOfMemory),
        Err(WriteFault::Device) => return Err(ShardFault::CannotWrite(name)),
    };
    let answer = part_filled(rt, alloc, merge, parts, &mut made);
    let Made { name, writer, .. } = made;
    store.close(name.as_str(), writer)?;
    answer
}

/// Merges the partitions in order, each to its part of the result, and returns their notes. It
/// empties the old verdict first, so none describes parts that are not its own. It reads the parts
/// of a partition to their ends, where they close, before those of the next. Last it compares the
/// pairs that each shard's parts state with those in its verdict.
pub(crate) fn partitions_written<S: Store, T: Threads>(
    rt: &T,
    store: &mut S,
    alloc: Global,
    plan: &MergePlan<'_>,
    request: &Request,
    verdicts: &[Verdict],
    files: &[ShardFiles],
) -> Result<Vec<FileNote>, ShardFault>
    requires count { length plan.now.names.now ≡ length verdicts.now }
    requires few { length (inputs_of verdicts.now) < 2 ^ 32 }
    requires files { files.now ≡ files_told verdicts.now }
    ensures ok { IfOk result (λ ns. AreAllWritten (S.holds store.old) (S.holds store.new) request.now
        (map (λ s. s.now) plan.now.names.now) verdicts.now plan.now.out.now ns.items) }
    ensures still { (n : List ℕ) → S.unwritable store.new n → S.unwritable store.old n }
    ensures err { IfErr result (IsPartsFault (S.holds store.old) (S.holds store.new)
        (S.unreadable store.old) (S.unwritable store.old)
        request.now (map (λ s. s.now) plan.now.names.now) verdicts.now plan.now.out.now) }
{
    let count = request.parts() as usize;
    let mut rows = open_all(store, alloc, plan.names, verdicts, count)?;
    let mut sums = vec![in alloc; Some(0); verdicts.len()]?;
    let totals = sums.as_mut_slice();
    put_verdict(store, alloc, plan.out, b"")?;
    let job = request.job();
    let mut notes = Vec::new(alloc);
    for partition in 0..count {
        let parts = rows[partition].as_mut_slice();
        let merge = PartMerge {
            job,
            files,
            verdicts,
            partition,
        };
        let (note, merger) = part_written(rt, store, alloc, &merge, parts, plan.out)?;
        add_pairs(totals, &merger);
        notes.push(note).map_err(AllocError::from)?;
    }
    test_totals(job, verdicts, totals)?;
    Ok(notes)
}

/// A part of the result. Its late bytes aren't written yet, so that this can go beside a merge.
#[derive(Drop)]
pub(crate) struct Made<W: CountedWrite + Drop> {
    pub name: String,
    pub writer: W,
    /// The digest and the length of what was written.
    hasher: Sha256,
    length: u64,
    late: Vec<u8>,
}

impl<W: CountedWrite + Drop> Made<W> {
    pub fn new(alloc: Global, name: String, writer: W) -> Made<W>
        ensures name { result.name ≡ name }
        ensures writer { result.writer ≡ writer }
        ensures begins { Agrees (W.seen writer).contents [] → HasWritten W.seen [] result }
    {
        Made {
            name,
            writer,
            hasher: Sha256::new(),
            length: 0,
            late: Vec::new(alloc),
        }
    }

    /// How many bytes are late.
    pub fn late(&self) -> usize
        ensures { result ≡ length self.now.late.items }
    {
        self.late.len()
    }

    /// Takes what the merger's last round merged. Before, no byte may be late.
    pub fn take_text(&mut self, merger: &mut Merger)
        requires { self.old.late.items ≡ [] }
        ensures written { (bytes : List ℕ) → HasWritten W.seen bytes self.old
            → HasWritten W.seen (bytes ++ merger.old.text) self.new }
        ensures merger { Gives merger.old merger.new }
        ensures writer { self.new.writer ≡ self.old.writer }
        ensures name { self.new.name ≡ self.old.name }
    {
        merger.swap_text(&mut self.late);
    }

    /// Writes what is late.
    pub fn catch_up(&mut self, alloc: Global) -> Result<(), ShardFault>
        ensures ok { OnOk result (CatchesUp W.seen self.old self.new) }
        ensures err { IfErr result (ReportsUnwritten (W.can_fail self.old.writer) (string_bytes self.old.name)) }
        ensures later { W.can_fail self.new.writer → W.can_fail self.old.writer }
        ensures name { self.new.name ≡ self.old.name }
    {
        let Some(length) = self.length.checked_add(self.late.len() as u64) else {
            // No machine has room for more bytes than 64 bits count.
            return Err(ShardFault::OutOfMemory);
        };
        if write_all(&mut self.writer, self.late.as_slice()).is_err() {
            let lacked = self.writer.is_out_of_memory();
            return Err(ShardFault::CannotWrite(blamed(alloc, self.name.as_str(), lacked)?));
        }
        self.hasher.update(self.late.as_slice());
        self.length = length;
        self.late.clear();
        Ok(())
    }

    /// Writes what is late, and flushes.
    pub fn flush(&mut self, alloc: Global) -> Result<(), ShardFault>
        ensures handed { OnOk result ((W.seen self.new.writer).handed_on ≡ (W.seen self.new.writer).contents) }
        ensures ok { OnOk result (CatchesUp W.seen self.old self.new) }
        ensures err { IfErr result (ReportsUnwritten (W.can_fail self.old.writer) (string_bytes self.old.name)) }
        ensures name { self.new.name ≡ self.old.name }
    {
        self.catch_up(alloc)?;
        if self.writer.flush().is_err() {
            let lacked = self.writer.is_out_of_memory();
            return Err(ShardFault::CannotWrite(blamed(alloc, self.name.as_str(), lacked)?));
        }
        Ok(())
    }

    /// The note of what was written, under the name of that partition's part.
    pub fn note(&self, alloc: Global, partition: usize) -> Result<FileNote, AllocError>
        requires { self.now.late.items ≡ [] }
        ensures { IfOk result (λ n. (bytes : List ℕ) → HasWritten W.seen bytes self.now
            → n ≡ note_for (file_of_part partition) bytes) }
    {
        let file = part_file(alloc, partition)?;
        Ok(FileNote {
            name: Vec::from_slice(alloc, file.as_bytes())?,
            length: self.length,
            digest: self.hasher.clone()?.finalize(),
        })
    }
}

/// The notes of outputs, under the names of parts.
pub fn part_notes(alloc: Global, outputs: &[Vec<u8>]) -> Result<Vec<FileNote>, AllocError>
    ensures { IfOk result (λ ns. ns.items ≡ notes_for (part_files (length outputs.now)) (contents outputs.now)) }
{
    let mut notes = Vec::new(alloc);
    for partition in 0..outputs.len() {
        let name = part_file(alloc, partition)?;
        let note = note_for(alloc, name.as_bytes(), outputs[partition].as_slice())?;
        notes.push(note).map_err(AllocError::from)?;
    }
    Ok(notes)
}
