//! Joins the lines of a key: the key waits until another one comes, and is then written.
//!
//!     cat 2      then cat 3      waits: cat 5
//!     cat 0,3    then cat 3,4    waits: cat 0,3,4
//!
//! Totals are added. The files of an index are written behind those that wait: shards come in order,
//! so they never fall, and only a file that is cut comes twice. A line of one place is never joined.
//! Invariant: `text` is the line of what waits but for its end. So far it has what `TextWriter`
//! writes for the values; that files never fall is proved of all lines at the end of the merge.
//! Cost: linear in the lines. The text is cleared for each key, and its memory is used again.
ghost use Rattle.std.specs.Prelude.{◌≡◌, ◌++◌, ◌⊎◌, [], IfErr, List, OnOk, Option, None, Some, true, false};
ghost use Rattle.mr_bytes.specs.declared.Value.{Value as Emitted};
ghost use Rattle.mr_shards.specs.Cursors.{Goes, with_waiting};
ghost use Rattle.mr_shards.specs.Lines.{joins};
ghost use Rattle.mr_shards.specs.Merged.{Group, written_texts};
ghost use Rattle.mr_shards.specs.Refused.{IsUnadded, TakesNot};
ghost use Rattle.mr_shards.specs.Views.{HoldsValues, IsFor, WaitsFor, group_of, nothing_waits};
ghost use Rattle.mr_shards.specs.Views.{values_of};

use crate::file_numbers::append_files;
use crate::line::{Line, Tally};
use crate::merger::MergeFault;
use mr_bytes::Value;
use mr_jobs::Job;
use mr_reduce::{append_total, group_text};
use std::alloc::{AllocError, Global};
use std::marker::Model;

/// The key that waits, if there is one, with its total, or with the text of its places and the last
/// file of an index.
#[derive(Drop)]
pub(crate) struct Waiting {
    some: bool,
    key: Vec<u8>,
    total: u64,
    text: Vec<u8>,
    last: Option<u32>,
}

impl Model for Waiting {
    ghost use Rattle.mr_shards.specs.Views.{Waits};

    ghost Value = { Waits };

    ghost view = { λ w. record {
      some = w.some;
      key = w.key.items;
      total = w.total;
      text = w.text.items;
      last = w.last;
    } };
}

impl Waiting {
    pub fn new(alloc: Global) -> Waiting
        ensures { result ≡ nothing_waits }
    {
        Waiting {
            some: false,
            key: Vec::new(alloc),
            total: 0,
            text: Vec::new(alloc),
            last: None,
        }
    }

    /// Whether the line is joined to what waits.
    fn takes(&self, job: &Job, line: Line<'_>) -> bool
        ensures some { result ≡ true → self.now.some ≡ true }
        ensures key { result ≡ true → self.now.key ≡ line.entry.key.now }
        ensures joined { result ≡ true → joins job.now ≡ true }
        ensures apart { result ≡ false → self.now.some ≡ true
            → (self.now.key ≡ line.entry.key.now → ⊥) ⊎ (joins job.now ≡ false) }
    {
        self.some && !job.has_lines() && self.key.as_slice() == line.key
    }

    /// Adds the values of a line.
    #[inline(always)]
    fn add(&mut self, job: &Job, line: Line<'_>) -> Result<(), MergeFault>
        requires { IsFor job.now line.tally }
        ensures holds { OnOk result ((vs : List Emitted) → HoldsValues job.now self.old vs
            → HoldsValues job.now self.new (vs ++ values_of line.entry.tally)) }
        ensures some { OnOk result (self.new.some ≡ self.old.some) }
        ensures key { OnOk result (self.new.key ≡ self.old.key) }
        ensures err { IfErr result (IsUnadded self.old.total line.entry.tally) }
    {
        match line.tally {
            Tally::Total(total) => match self.total.checked_add(total) {
                Some(total) => self.total = total,
                None => return Err(MergeFault::TotalTooLarge),
            },
            Tally::Place { file, offset } => {
                let places = [Value::At { file, offset }];
                group_text(job, self.key.as_slice(), &places, &mut self.text)?;
            }
            Tally::Files { list, last, moved } => {
                self.last = append_files(&mut self.text, self.last, list, last, moved)?;
            }
        }
        Ok(())
    }

    /// The line's key waits, without values.
    fn begin(&mut self, job: &Job, line: Line<'_>) -> Result<(), AllocError>
        ensures some { OnOk result (self.new.some ≡ true) }
        ensures key { OnOk result (self.new.key ≡ line.entry.key.now) }
        ensures total { OnOk result (self.new.total ≡ 0) }
        ensures holds { OnOk result (HoldsValues job.now self.new []) }
    {
        self.some = true;
        self.key.clear();
        self.key.extend_from_slice(line.key)?;
        self.total = 0;
        self.text.clear();
        self.last = None;
        if !job.counts() && !job.has_lines() {
            self.text.extend_from_slice(line.key)?;
            self.text.push(b'\t')?;
        }
        Ok(())
    }

    /// Joins the line to what waits, or writes that, and the line waits.
    pub fn take_line(
        &mut self,
        job: &Job,
        line: Line<'_>,
        out: &mut Vec<u8>,
    ) -> Result<(), MergeFault>
        requires { IsFor job.now line.tally }
        ensures ok { OnOk result ((w : Option Group) → WaitsFor job.now self.old w
            → (next : Group) × WaitsFor job.now self.new (Some next)
            × Goes job.now w (group_of line.entry) next out.old.items out.new.items) }
        ensures err { IfErr result (λ e. (w : Option Group) → WaitsFor job.now self.old w
            → TakesNot w (group_of line.entry) e) }
    {
        if self.takes(job, line) {
            return self.add(job, line);
        }
        self.put(job, out)?;
        self.begin(job, line)?;
        self.add(job, line)
    }

    /// Writes what waits. Nothing waits then.
    pub fn put(&mut self, job: &Job, out: &mut Vec<u8>) -> Result<(), AllocError>
        ensures written { OnOk result ((w : Option Group) → WaitsFor job.now self.old w
            → out.new.items ≡ out.old.items ++ written_texts job.now (with_waiting w [])) }
        ensures none { OnOk result (WaitsFor job.now self.new None) }
    {
        if !self.some {
            return Ok(());
        }
        self.some = false;
        if job.counts() {
            return append_total(self.key.as_slice(), self.total, out);
        }
        out.extend_from_slice(self.text.as_slice())?;
        if !job.has_lines() {
            out.push(b'\n')?;
        }
        Ok(())
    }
}
