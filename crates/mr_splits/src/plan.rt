//! Cuts an input into splits. A record belongs to the split that contains its start.
//!
//!     the cat\nsa | t on\nthe m | at\n        a file in splits of 10 bytes
//!     record 0, 1 | record 0    | no record
ghost use Rattle.std.specs.Prelude.{◌≡◌, ◌↔◌, ℕ, ◌+◌, ◌^◌, ◌≤◌, ◌<◌, ◌⊎◌, length, IfOk, IsTrue};
ghost use Rattle.std.specs.Option.{option_copied, option_map};
ghost use Rattle.mr_bytes.specs.declared.RecordName.{RecordName};
ghost use Rattle.mr_input.specs.Files.{split_total};
ghost use Rattle.mr_splits.specs.Named.{of_split};
ghost use Rattle.mr_splits.specs.Laws.{joined_splits};
ghost use Rattle.mr_splits.specs.Cut.{records_of, nth_named, record_named, is_record};
ghost use Rattle.mr_splits.specs.Places.{IsSplit};

use crate::split_table::{Table, cut_files};
use mr_bytes::RecordName;
use mr_input::{Input, MAX_SPLIT_SIZE, MAX_SPLITS};
use std::alloc::{AllocError, Global};
use std::marker::Model;
use thiserror::Error;

/// Where a split lies: its file, its first place there in bytes, and the place after its last.
#[derive(Clone, Copy, PartialEq, Eq, Debug)]
pub struct SplitPlace {
    pub file: u32,
    pub start: u32,
    pub end: u32,
}

/// A record: its file's number, its start there in bytes, and its bytes without the line feed.
#[derive(Clone, Copy)]
pub struct RecordAt<'a> {
    pub file: u32,
    pub start: u32,
    pub bytes: &'a [u8],
}

/// Why an input has no plan: a split size of 0 or over 64 MiB, or over 1,048,576 splits.
#[derive(Clone, Copy, Debug, PartialEq, Eq, Drop, Error)]
pub enum PlanFault {
    #[error("BadSplitSize")]
    BadSplitSize,
    #[error("TooManySplits")]
    TooManySplits,
    #[error("OutOfMemory")]
    OutOfMemory,
}

/// An input cut into splits, each with its records.
#[derive(Drop)]
pub struct Plan<'a> {
    input: &'a Input,
    size: u32,
    table: Table,
}

impl<'a> Model for Plan<'a> {
    ghost use Rattle.std.specs.Prelude.{◌≡◌, ◌<◌, ◌≤◌, ◌^◌, length};
    ghost use Rattle.mr_input.specs.Files.{split_total};
    ghost use Rattle.mr_splits.specs.Named.{named_records};
    ghost use Rattle.mr_splits.specs.Cut.{Cut};

    ghost Value = { Cut };

    ghost use Rattle.mr_splits.specs.Table.{Stands, listed};

    ghost view = { λ p. record { size = p.size; files = p.input.now } };

    ghost invariant = { λ p. record {
      some : 0 < p.size;
      size : p.size ≤ 2 ^ 26;
      few : split_total p.size p.input.now ≤ 2 ^ 20;
      rows : length p.table.rows.items ≡ split_total p.size p.input.now;
      stands : Stands p.size p.input.now p.table.ends.items p.table.rows.items;
      all : listed p.input.now p.table.ends.items 0 p.table.rows.items ≡ named_records p.size p.input.now;
    } };
}

impl<'a> Plan<'a> {
    /// Cuts an input into splits of `size` bytes. Of two faults it reports `BadSplitSize`.
    pub fn of(alloc: Global, input: &'a Input, size: u32) -> Result<Plan<'a>, PlanFault>
        ensures ok { IfOk result (λ r. r ≡ record { size = size; files = input.entry.now }) }
        ensures bad_size { (result ≡ Err PlanFault.BadSplitSize) ↔ ((size ≡ 0) ⊎ (67108864 < size)) }
        ensures too_many { (result ≡ Err PlanFault.TooManySplits)
            ↔ ((0 < size) × (size ≤ 67108864) × (1048576 < split_total size input.entry.now)) }
    {
        if size == 0 || MAX_SPLIT_SIZE < size {
            return Err(PlanFault::BadSplitSize);
        }
        if MAX_SPLITS < input.splits(size) {
            return Err(PlanFault::TooManySplits);
        }
        match Plan::new_fitting(alloc, input, size) {
            Ok(plan) => Ok(plan),
            Err(_) => Err(PlanFault::OutOfMemory),
        }
    }

    /// Like `of`, for a size and an input that fit. Fails only for want of memory.
    pub fn new_fitting(alloc: Global, input: &'a Input, size: u32) -> Result<Plan<'a>, AllocError>
        requires size { (0 < size) × (size ≤ 2 ^ 26) }
        requires few { split_total size input.now ≤ 2 ^ 20 }
        ensures { IfOk result (λ r. r ≡ record { size = size; files = input.entry.now }) }
    {
        let table = cut_files(alloc, input, size)?;
        Ok(Plan { input, size, table })
    }

    pub fn input(&self) -> &'a Input
        ensures { result.now ≡ self.now.files }
    {
        self.input
    }

    /// The most bytes of a split.
    pub fn size(&self) -> u32
        ensures same { result ≡ self.now.size }
        ensures within { (1 ≤ result) × (result ≤ 2 ^ 26) }
    {
        self.size
    }

    pub fn splits(&self) -> u32
        ensures count { result ≡ split_total self.now.size self.now.files }
        ensures few { result ≤ 2 ^ 20 }
    {
        self.table.rows.len() as u32
    }

    /// Where split `s` lies, from 0.
    pub fn split(&self, s: u32) -> SplitPlace
        requires { s < split_total self.now.size self.now.files }
        ensures { IsSplit self.now.size self.now.files s result }
    {
        self.table.rows[s as usize].place
    }

    /// How many records split `s` has.
    pub fn records_in(&self, s: u32) -> u32
        requires { s < split_total self.now.size self.now.files }
        ensures { result ≡ length (of_split s (records_of self.now)) }
    {
        self.table.rows[s as usize].count
    }

    /// How many records the whole input has.
    pub fn count(&self) -> usize
        ensures count { result ≡ length (records_of self.now) }
        ensures few { result ≤ 2 ^ 30 }
    {
        // An input has at most 1 GiB, and each record a byte of its own.
        let _files = self.input.files();
        self.table.ends.len()
    }

    /// Record `r` of split `s`, both from 0.
    pub fn locate(&self, s: u32, r: u32) -> RecordAt<'a>
        requires split { s < split_total self.now.size self.now.files }
        requires record { r < length (of_split s (records_of self.now)) }
        ensures record { nth_named (of_split s (records_of self.now)) r
            ≡ record { name = record { split = s; rec = r }; file = result.file; start = result.start; bytes = result.bytes.now } }
        ensures named { record_named (records_of self.now) (record { split = s; rec = r })
            ≡ Some (nth_named (of_split s (records_of self.now)) r) }
        ensures file { result.file < length self.now.files }
        ensures small { length result.bytes.now ≤ 2 ^ 30 }
    {
        let row = self.table.rows[s as usize];
        let bytes = self.input.file(row.place.file as usize);
        let span = self.table.span(row, r);
        RecordAt {
            file: row.place.file,
            start: span.start,
            bytes: &bytes[span.start as usize..span.end as usize],
        }
    }

    /// How many records the splits before split `s` have.
    pub fn first_record(&self, s: u32) -> usize
        requires { s < split_total self.now.size self.now.files }
        ensures number { result ≡ length (joined_splits 0 s (records_of self.now)) }
        ensures within { result + length (of_split s (records_of self.now)) ≤ length (records_of self.now) }
    {
        self.table.rows[s as usize].first
    }

    /// The number of record `r` of split `s` among all records of the input, from 0, in order.
    pub fn record_index(&self, s: u32, r: u32) -> usize
        requires split { s < split_total self.now.size self.now.files }
        requires record { r < length (of_split s (records_of self.now)) }
        ensures number { result ≡ length (joined_splits 0 s (records_of self.now)) + r }
        ensures at { nth_named (records_of self.now) result ≡ nth_named (of_split s (records_of self.now)) r }
        ensures within { result < length (records_of self.now) }
        ensures name { (nth_named (records_of self.now) result).name ≡ record { split = s; rec = r } }
        ensures only { (i : ℕ) → i < length (records_of self.now) →
            (nth_named (records_of self.now) i).name ≡ record { split = s; rec = r } → i ≡ result }
    {
        self.table.rows[s as usize].first + r as usize
    }

    /// Whether there is a record of that name.
    pub fn has_record(&self, name: RecordName) -> bool
        ensures same { result ≡ is_record (records_of self.now) name }
        ensures split { IsTrue result → name.split < split_total self.now.size self.now.files }
        ensures place { IsTrue result ↔ (name.rec < length (of_split name.split (records_of self.now))) }
    {
        (name.split as usize) < self.table.rows.len() && name.rec < self.records_in(name.split)
    }

    /// The bytes of record `r` of split `s`, or `None` if there is no such record.
    pub fn record_of(&self, s: u32, r: u32) -> Option<&'a [u8]>
        ensures { option_copied result
            ≡ option_map (λ x. x.bytes) (record_named (records_of self.now) (record { split = s; rec = r })) }
    {
        if !self.has_record(RecordName { split: s, rec: r }) {
            return None;
        }
        Some(self.locate(s, r).bytes)
    }
}
