//! Merges the outputs that shards have for one partition, in rounds, while they are read.
//!
//!     shard 0  a 2 | c 1 |
//!     shard 1  a 3 | b 1 |    ->    a 5 | b 1 | c 1 |
//!
//! A round sees a window of each output. It takes the least line of all, again and again, until a
//! shard's next line is not whole; the windows of the next round begin there. A key waits until
//! another one comes, also from round to round: totals of a key add up, and files of a key in an
//! index become one list (`waiting.rt`). Equal keys come in the order of the shards. A place moves
//! by the files of the shards before, and by their bytes of a file that goes on (`shift.rt`).
//! Invariant: what was written, with the key that waits and the merge of the lines to come, is the
//! merge of all. Cost: each line takes one look at the next line of every shard. A round takes, of
//! some window that isn't the last, all whole lines but one: two lines in each let it go on.
ghost use Rattle.std.specs.Prelude.{◌≡◌, ℕ, [], ◌⊎◌, IfErr, IfOk, OnOk, length};
ghost use Rattle.std.specs.Prelude.{map, List, Option, Some, true, false, ◌<◌};
ghost use Rattle.std.specs.Prelude.{None, IfSome};
ghost use Rattle.mr_jobs.specs.JobSpec.{JobSpec};
ghost use Rattle.mr_shards.specs.Rounds.{AreFurther, AreHeads, AreOpen, AreReadUpTo, AreWindows};
ghost use Rattle.mr_shards.specs.Rounds.{BlamesGoing, Goes, HasDry, HasDryHead, IsTooFar, Reading};
ghost use Rattle.mr_shards.specs.Rounds.{Standing, cuts_at, held_for, no_cut, outputs_of};
ghost use Rattle.mr_shards.specs.Rounds.{whole_window};
ghost use Rattle.std.specs.List.{AllByRecursion};
ghost use Rattle.mr_shards.specs.Cursors.{AreEnded, are_ended};
ghost use Rattle.mr_shards.specs.Merged.{texts};
ghost use Rattle.mr_shards.specs.Refused.{Blames, IsShardText, PassesNot};
ghost use Rattle.mr_shards.specs.Portions.{behind, merged_portions, past_shard};
ghost use Rattle.mr_shards.specs.Outputs.{IsOutputOfAll, parts_in};
ghost use Rattle.mr_shards.specs.Merged.{Group};
ghost use Rattle.mr_shards.specs.Views.{WaitsFor};

use crate::cursor::{Cursor, Held, advance, next_line, read_line};
use crate::shift::{ShardFiles, Shift, shifted_file, shifted_start};
use crate::waiting::Waiting;
use mr_jobs::Job;
use std::alloc::{AllocError, Global};
use std::marker::Model;
use std::mem;
use thiserror::Error;

/// What was read of an output and isn't merged yet. `is_last` if the output ends with it.
#[derive(Clone, Copy)]
pub struct Window<'a> {
    pub bytes: &'a [u8],
    pub is_last: bool,
}

/// The state of a merge between rounds, with what the last round did.
#[derive(Drop)]
pub struct Merger {
    held: Vec<Held>,
    waiting: Waiting,
    text: Vec<u8>,
    cuts: Vec<usize>,
}

impl Model for Merger {
    ghost Value = { Standing };

    ghost view = { λ m. record {
      held = m.held.items;
      waiting = m.waiting;
      text = m.text.items;
      cuts = m.cuts.items;
    } };
}

impl Merger {
    ghost use Rattle.mr_shards.specs.Rounds.{AreFresh, AreWindows, GoesOn, IsAfter, Merges, Reading};
    ghost use Rattle.mr_shards.specs.Rounds.{outputs_of, pairs_held};

    /// A merger of shards with these files. Nothing is taken yet.
    pub fn new(alloc: Global, files: &[ShardFiles]) -> Result<Merger, MergeFault>
        ensures shards { IfOk result (λ m. length m.held ≡ length files.now) }
        ensures fresh { IfOk result (λ m. (job : JobSpec) (rs : List Reading)
            → AreFresh files.now rs → IsAfter job rs [] m) }
        ensures err { IfErr result (λ e. (job : JobSpec) (rs : List Reading)
            → AreFresh files.now rs → Blames job (outputs_of rs) e) }
    {
        Ok(Merger {
            held: held_of(alloc, files)?,
            waiting: Waiting::new(alloc),
            text: Vec::new(alloc),
            cuts: Vec::new(alloc),
        })
    }

    /// The text that the last round merged.
    pub fn text(&self) -> &[u8]
        ensures { result.now ≡ self.now.text }
    {
        self.text.as_slice()
    }

    /// Exchanges that text for memory that the next round may use.
    pub fn swap_text(&mut self, memory: &mut Vec<u8>)
        ensures text { memory.new.items ≡ self.old.text }
        ensures held { self.new.held ≡ self.old.held }
        ensures waiting { self.new.waiting ≡ self.old.waiting }
        ensures cuts { self.new.cuts ≡ self.old.cuts }
    {
        mem::swap(&mut self.text, memory);
    }

    /// How many bytes the last round took of each window.
    pub fn cuts(&self) -> &[usize]
        ensures { result.now ≡ self.now.cuts }
    {
        self.cuts.as_slice()
    }

    /// How many pairs the lines taken of the shard state; none if 64 bits don't hold their number.
    pub fn pairs(&self, shard: usize) -> Option<u64>
        ensures { result ≡ pairs_held self.now.held shard }
    {
        if shard < self.held.len() {
            self.held[shard].pairs
        } else {
            None
        }
    }

    /// Merges what it can of the windows. Where all are last, it takes all. A window that isn't
    /// keeps at least its last whole line, as nobody knows what comes behind; where one has no whole
    /// line, nothing is taken. Lines that are not the job's or are out of order are refused, by
    /// their number in the whole output. Nothing is said of the text unless the job is that of all
    /// rounds, nor of the merger after a refusal.
    pub fn merge_round(
        &mut self,
        alloc: Global,
        job: &Job,
        windows: &[Window<'_>],
    ) -> Result<(), MergeFault>
        requires { length windows.now ≡ length self.old.held }
        ensures shards { OnOk result (length self.new.held ≡ length self.old.held) }
        ensures goes { OnOk result (GoesOn windows.now self.new.cuts) }
        ensures ok { OnOk result (Merges job.now windows.now self.old self.new) }
        ensures err { IfErr result (λ e. (rs : List Reading) (text : List ℕ) → IsAfter job.now rs text self.old
            → AreWindows rs windows.now → Blames job.now (outputs_of rs) e) }
    {
        self.text.clear();
        let Some(mut cursors) = open_all(alloc, job, self.held.as_slice(), windows)? else {
            self.cuts = no_cuts(alloc, windows)?;
            return Ok(());
        };
        merge_lines(job, &mut cursors, &mut self.waiting, &mut self.text)?;
        if are_ended(cursors.as_slice()) {
            self.waiting.put(job, &mut self.text)?;
        }
        self.held = all_held(alloc, cursors.as_slice())?;
        self.cuts = cuts_of(alloc, windows, cursors.as_slice())?;
        Ok(())
    }
}

/// What is held of shards of which nothing is taken.
fn held_of(alloc: Global, files: &[ShardFiles]) -> Result<Vec<Held>, MergeFault>
    ensures ok { IfOk result (λ hs. hs.items ≡ held_for files.now) }
    ensures err { IfErr result (λ e. (e ≡ MergeFault.OutOfMemory) ⊎ IsTooFar files.now e) }
{
    let mut all = Vec::new(alloc);
    let mut before = Shift { files: 0, bytes: 0 };
    for shard in 0..files.len() {
        let held = Held {
            before,
            count: files[shard].count,
            lines: 0,
            pairs: Some(0),
        };
        all.push(held).map_err(AllocError::from)?;
        before = go_past(before, files[shard])?;
    }
    Ok(all)
}

/// Reads the first line of each window; none if one of them isn't whole.
fn open_all<'a>(
    alloc: Global,
    job: &Job,
    held: &[Held],
    windows: &[Window<'a>],
) -> Result<Option<Vec<Cursor<'a>>>, MergeFault>
    requires { length windows.now ≡ length held.now }
    ensures some { IfOk result (λ o. IfSome o (λ cs. AreOpen job.now held.now windows.entry.now cs.items)) }
    ensures none { IfOk result (λ o. o ≡ None → HasDry windows.entry.now) }
    ensures err { IfErr result (λ e. (rs : List Reading) → AreReadUpTo job.now held.now rs
        → AreWindows rs windows.entry.now → Blames job.now (outputs_of rs) e) }
{
    let mut cursors = Vec::new(alloc);
    for shard in 0..windows.len() {
        let Window { bytes, is_last } = windows[shard];
        let held = held[shard];
        let Some((head, rest)) = read_line(job, shard, held, bytes, is_last)? else {
            return Ok(None);
        };
        let cursor = Cursor {
            head,
            text: bytes,
            rest,
            held,
            is_last,
        };
        cursors.push(cursor).map_err(AllocError::from)?;
    }
    Ok(Some(cursors))
}

/// Takes lines until a shard's next line isn't whole, or none is left.
fn merge_lines(
    job: &Job,
    cursors: &mut Vec<Cursor<'_>>,
    waiting: &mut Waiting,
    out: &mut Vec<u8>,
) -> Result<(), MergeFault>
    requires heads { AreHeads job.now cursors.old.items }
    requires empty { out.old.items ≡ [] }
    ensures goes { OnOk result ((w : Option Group) → WaitsFor job.now waiting.old w
        → (next : Option Group) × WaitsFor job.now waiting.new next
        × Goes job.now cursors.old.items cursors.new.items w next out.new.items) }
    ensures heads { OnOk result (AreHeads job.now cursors.new.items) }
    ensures further { OnOk result (AreFurther cursors.old.items cursors.new.items) }
    ensures ends { OnOk result (AreEnded cursors.new.items ⊎ HasDryHead cursors.new.items) }
    ensures err { IfErr result (λ e. (w : Option Group) → WaitsFor job.now waiting.old w
        → BlamesGoing job.now cursors.old.items w e) }
{
    let mut last = None;
    while let Some((at, line)) = next_line(cursors, last) {
        if !advance(job, at, &mut cursors[at])? {
            return Ok(());
        }
        waiting.take_line(job, line, out)?;
        last = Some((at, line));
    }
    Ok(())
}

fn are_ended(cursors: &[Cursor<'_>]) -> bool
    ensures { result ≡ are_ended cursors.now }
{
    for at in 0..cursors.len() {
        if cursors[at].head.is_some() {
            return false;
        }
    }
    true
}

/// What was taken of each shard.
fn all_held(alloc: Global, cursors: &[Cursor<'_>]) -> Result<Vec<Held>, AllocError>
    ensures { IfOk result (λ hs. hs.items ≡ map (λ c. c.held) cursors.now) }
{
    cursors.iter().map(|cursor| cursor.held).collect(alloc)
}

/// How many bytes of each window are before its cursor.
fn cuts_of(
    alloc: Global,
    windows: &[Window<'_>],
    cursors: &[Cursor<'_>],
) -> Result<Vec<usize>, AllocError>
    requires { length cursors.now ≡ length windows.now }
    ensures { IfOk result (λ cuts. cuts.items ≡ cuts_at windows.now cursors.now) }
{
    let mut cuts = Vec::new(alloc);
    for at in 0..windows.len() {
        let cut = windows[at]
            .bytes
            .len()
            .saturating_sub(cursors[at].text.len());
        cuts.push(cut)?;
    }
    Ok(cuts)
}

fn no_cuts(alloc: Global, windows: &[Window<'_>]) -> Result<Vec<usize>, AllocError>
    ensures { IfOk result (λ cuts. cuts.items ≡ map no_cut windows.now) }
{
    windows.iter().map(|_| 0).collect(alloc)
}

/// Why outputs are not merged. Shards and lines are numbered from 0.
#[derive(Clone, Copy, Debug, PartialEq, Eq, Drop, Error)]
pub enum MergeFault {
    /// The line isn't of the job's form, or its key or a number of its files is out of order.
    #[error("BadLine shard {shard} line {line}")]
    BadLine { shard: usize, line: u64 },
    /// The total of a key doesn't fit in 64 bits.
    #[error("TotalTooLarge")]
    TotalTooLarge,
    /// There are 2^32 files or more.
    #[error("TooManyFiles")]
    TooManyFiles,
    /// A line tells a file that its shard doesn't have.
    #[error("NoSuchFile shard {shard}")]
    NoSuchFile { shard: usize },
    /// A moved offset doesn't fit in 64 bits.
    #[error("PlaceTooFar")]
    PlaceTooFar,
    #[error("OutOfMemory")]
    OutOfMemory,
}

impl From<AllocError> for MergeFault {
    ghost use Rattle.mr_shards.specs.declared.merger.MergeFault.TheVariants.{OutOfMemory as told_memory};

    ghost from_gives = { λ _ f. f ≡ told_memory };

    fn from(_fault: AllocError) -> MergeFault {
        MergeFault::OutOfMemory
    }
}

/// A shard's output for a partition, and the shard's files.
#[derive(Clone, Copy)]
pub struct ShardText<'a> {
    pub files: ShardFiles,
    pub text: &'a [u8],
}

/// How far places move behind a shard whose own move by `before`.
fn go_past(before: Shift, files: ShardFiles) -> Result<Shift, MergeFault>
    ensures ok { IfOk result (λ s. s ≡ behind before (past_shard files)) }
    ensures err { IfErr result (PassesNot (behind before (past_shard files))) }
{
    let shift = files.shift();
    let Some(files) = shifted_file(&before, shift.files) else {
        return Err(MergeFault::TooManyFiles);
    };
    let Some(bytes) = shifted_start(&before, shift.files, shift.bytes) else {
        return Err(MergeFault::PlaceTooFar);
    };
    Ok(Shift {
        files: files as u64,
        bytes,
    })
}

fn files_in(alloc: Global, outputs: &[ShardText<'_>]) -> Result<Vec<ShardFiles>, AllocError>
    ensures { IfOk result (λ fs. fs.items ≡ map (λ o. o.files) outputs.now) }
{
    outputs.iter().map(|output| output.files).collect(alloc)
}

/// Windows on the whole outputs.
fn whole_windows<'a>(
    alloc: Global,
    outputs: &[ShardText<'a>],
) -> Result<Vec<Window<'a>>, AllocError>
    ensures { IfOk result (λ ws. ws.items ≡ map whole_window outputs.entry.now) }
{
    let is_last = true;
    let whole = outputs.iter().map(|output| Window {
        bytes: output.text,
        is_last,
    });
    whole.collect(alloc)
}

/// Merges the outputs that shards have for one partition, in the order of the shards. It refuses
/// lines that aren't the job's or are out of order.
pub fn merge_parts(
    alloc: Global,
    job: &Job,
    outputs: &[ShardText<'_>],
) -> Result<Vec<u8>, MergeFault>
    ensures stands { IfOk result (λ _. AllByRecursion (IsShardText job.now) outputs.now) }
    ensures merged { IfOk result (λ out. out.items ≡ texts job.now (merged_portions (parts_in job.now outputs.now))) }
    ensures whole { IfOk result (λ out. IsOutputOfAll job.now outputs.now out.items) }
    ensures err { IfErr result (Blames job.now outputs.now) }
{
    let files = files_in(alloc, outputs)?;
    let windows = whole_windows(alloc, outputs)?;
    let mut merger = Merger::new(alloc, files.as_slice())?;
    merger.merge_round(alloc, job, windows.as_slice())?;
    Ok(Vec::from_slice(alloc, merger.text())?)
}
