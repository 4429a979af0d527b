//! Writes the text of one group while its values come one after another, without a list of them.
//!
//!     begin      add                   finish
//!     KEY \t     1   ,4   (4 again)    \n          an index
//!                a line for a place                lines
//!                                      KEY \t N \n a job that counts
//!
//! An index remembers only the last file, so it writes a file twice if files fall among the values.
//! Invariant: the text so far is the group's text for the values so far, except for its end. Takes
//! constant time for each value beside its text, and no memory but that of the text.
ghost use Rattle.std.specs.Prelude.{◌≡◌, ℕ, ◌+◌, ◌<◌, ◌≤◌, ◌++◌, ◌∷◌, [], IfOk, List, OnErr, OnOk};
ghost use Rattle.std.specs.Prelude.{length, take, vec_capacity, vec_len};
ghost use Rattle.mr_bytes.specs.declared.Value.{Value as Emitted};
ghost use Rattle.mr_jobs.specs.JobSpec.{JobSpec, group_text_of};
ghost use Rattle.mr_reduce.specs.Appending.{Appends};
ghost use Rattle.mr_reduce.specs.Text.{text_of};
ghost use Rattle.mr_reduce.specs.Writing.{IsWritable, Writes, closing, opening, value_text};

use crate::files::{after, put_next_file};
use crate::{put_place, put_total};
use mr_bytes::Value;
use mr_jobs::{GroupText, Job};
use std::alloc::AllocError;
use std::marker::Model;

/// Appends the text of a key to an output, value by value: what `group_text` appends for all.
#[derive(Drop)]
pub struct TextWriter<'k> {
    text: GroupText,
    key: &'k [u8],
    count: u64,
    last: Option<u32>,
}

impl<'k> Model for TextWriter<'k> {
    ghost use Rattle.mr_reduce.specs.Writing.{Writer};

    ghost Value = { Writer };

    ghost view = { λ w. record { text = w.text; key = w.key.now; count = w.count; last = w.last } };
}

impl<'k> TextWriter<'k> {
    /// Begins the text of a key, with no values yet. Fails only for want of memory.
    pub fn begin(job: &Job, key: &'k [u8], out: &mut Vec<u8>) -> Result<TextWriter<'k>, AllocError>
        ensures ok { IfOk result
            (λ w. Writes job.now key.entry.now [] out.old.items w out.new.items) }
        ensures kept { take (vec_len out.old) out.new.items ≡ out.old.items }
        ensures full { OnErr result (vec_capacity out.old
            < vec_len out.old + length (opening (group_text_of job.now) key.entry.now)) }
    {
        let text = job.row().text;
        if let GroupText::Files = text {
            out.extend_from_slice(key)?;
            out.push(b'\t')?;
        }
        Ok(TextWriter {
            text,
            key,
            count: 0,
            last: None,
        })
    }

    /// Writes what the next value adds to the text. Fails only for want of memory. Then part of it
    /// may be written, behind what was there before.
    pub fn add(&mut self, value: Value, out: &mut Vec<u8>) -> Result<(), AllocError>
        ensures ok { OnOk result
            ((job : JobSpec) (key : List ℕ) (values : List Emitted) (before : List ℕ)
            → Writes job key values before self.old out.old.items
            → Writes job key (values ++ value ∷ []) before self.new out.new.items) }
        ensures kept { take (vec_len out.old) out.new.items ≡ out.old.items }
        ensures full { OnErr result (vec_capacity out.old < vec_len out.old
            + length (value_text self.old.text self.old.key self.old.last value)) }
    {
        self.put_value(value, out)?;
        self.count = self.count.saturating_add(1);
        self.last = after(self.last, value);
        Ok(())
    }

    /// Writes the end of the text: with it the output has what `group_text` appends for the values.
    /// Fails only for want of memory. Then part of the end may be written.
    pub fn finish(self, out: &mut Vec<u8>) -> Result<(), AllocError>
        ensures ok { OnOk result
            ((job : JobSpec) (key : List ℕ) (values : List Emitted) (before : List ℕ)
            → Writes job key values before self.entry out.old.items → IsWritable job values
            → out.new.items ≡ before ++ text_of job key values) }
        ensures kept { take (vec_len out.old) out.new.items ≡ out.old.items }
        ensures full { OnErr result (vec_capacity out.old
            < vec_len out.old + length (closing self.entry.text self.entry.key self.entry.count)) }
    {
        self.put_end(out)
    }
}

impl<'k> TextWriter<'k> {
    fn put_value(&self, value: Value, out: &mut Vec<u8>) -> Result<(), AllocError>
        ensures { Appends result out.old out.new
            (value_text self.now.text self.now.key self.now.last value) }
    {
        match self.text {
            GroupText::Count => Ok(()),
            GroupText::Lines => put_place(self.key, value, out),
            GroupText::Files => put_next_file(self.last, value, out),
        }
    }

    fn put_end(&self, out: &mut Vec<u8>) -> Result<(), AllocError>
        ensures { Appends result out.old out.new
            (closing self.now.text self.now.key self.now.count) }
    {
        match self.text {
            GroupText::Count => put_total(self.key, self.count, out),
            GroupText::Lines => Ok(()),
            GroupText::Files => {
                out.push(b'\n')?;
                Ok(())
            }
        }
    }
}
