//! The table of an input's splits and records: four bytes a record, and a row a split. The records
//! that start in a range of a file are found 64 bytes at a time.
ghost use Rattle.std.specs.Prelude.{◌≡◌, ℕ, ◌+◌, ◌++◌, ◌^◌, ◌≤◌, ◌<◌, length, List, All, IfOk};
ghost use Rattle.std.specs.Prelude.{OnOk, take};
ghost use Rattle.mr_bytes.specs.declared.Span.{Span};
ghost use Rattle.mr_records.specs.Records.{records};
ghost use Rattle.mr_input.specs.Files.{split_count, split_total, nth_file};
ghost use Rattle.mr_splits.specs.Named.{named_from, named_records};
ghost use Rattle.mr_splits.specs.Table.{Stands, listed, nth_span, spans_of, Takes};

use crate::plan::SplitPlace;
use mr_bytes::Span;
use mr_input::Input;
use mr_lanes::line_ends_between;
use mr_records::record_end;
use std::alloc::{AllocError, Global};

/// A split: its place, its record count, where the first starts, and that one's number overall.
#[derive(Clone, Copy)]
pub(crate) struct Row {
    pub place: SplitPlace,
    pub count: u32,
    pub begin: u32,
    pub first: usize,
}

/// Where all records end, each at its line feed or its file's end, and a row per split.
#[derive(Drop)]
pub(crate) struct Table {
    pub ends: Vec<u32>,
    pub rows: Vec<Row>,
}

impl Table {
    /// The span of record `r` of a row: from `row.begin` if first, else after the end before it.
    pub(crate) fn span(&self, row: Row, r: u32) -> Span
        requires record { r < row.count }
        requires range { row.first + row.count ≤ length self.now.ends.items }
        requires small { All (λ (s : Span). s.end ≤ 2 ^ 30) (spans_of self.now.ends.items row) }
        ensures { result ≡ nth_span (spans_of self.now.ends.items row) r }
    {
        let at = row.first + r as usize;
        let end = self.ends[at];
        if r == 0 {
            return Span {
                start: row.begin,
                end,
            };
        }
        Span {
            start: self.ends[at - 1] + 1,
            end,
        }
    }
}

fn cut_file(input: &Input, i: usize, size: u32, table: &mut Table) -> Result<(), AllocError>
    requires size { (0 < size) × (size ≤ 2 ^ 26) }
    requires file { (i < length input.now) × (length input.now ≤ 1024) }
    requires rows { length table.old.rows.items ≡ split_total size (take i input.now) }
    requires stands { Stands size input.now table.old.ends.items table.old.rows.items }
    ensures rows { OnOk result (length table.new.rows.items
        ≡ split_total size (take i input.now) + split_count size (nth_file input.now i)) }
    ensures stands { OnOk result (Stands size input.now table.new.ends.items table.new.rows.items) }
    ensures all { OnOk result (listed input.now table.new.ends.items 0 table.new.rows.items
        ≡ listed input.now table.old.ends.items 0 table.old.rows.items
        ++ named_from size i (split_total size (take i input.now))
        (split_total size (take i input.now)) 0 (records (nth_file input.now i))) }
{
    let bytes = input.file(i);
    let mut start = 0;
    let mut next = 0;
    while start < bytes.len() {
        let end = bytes.len().min(start + size as usize);
        let first = table.ends.len();
        let begin = next;
        next = take_records(bytes, begin, end, &mut table.ends)?;
        table.rows.push(Row {
            place: SplitPlace {
                file: i as u32,
                start: start as u32,
                end: end as u32,
            },
            count: (table.ends.len() - first) as u32,
            begin: begin as u32,
            first,
        })?;
        start = end;
    }
    Ok(())
}

pub(crate) fn cut_files(alloc: Global, input: &Input, size: u32) -> Result<Table, AllocError>
    requires { (0 < size) × (size ≤ 2 ^ 26) }
    ensures rows { IfOk result (λ t. length t.rows.items ≡ split_total size input.now) }
    ensures stands { IfOk result (λ t. Stands size input.now t.ends.items t.rows.items) }
    ensures all { IfOk result
        (λ t. listed input.now t.ends.items 0 t.rows.items ≡ named_records size input.now) }
{
    let mut table = Table {
        ends: Vec::new(alloc),
        rows: Vec::new(alloc),
    };
    for i in 0..input.files() {
        cut_file(input, i, size, &mut table)?;
    }
    Ok(table)
}

/// Appends the ends of the records that start from `from` to before `end`; returns where the next
/// one starts. Places count from the file's front. All but the last of these records end at a line
/// feed before `end - 1`; blocks find those, as a search per record costs more if lines are short.
/// The last one's end, perhaps far after `end`, is searched from there. No byte is read twice.
pub(crate) fn take_records(
    bytes: &[u8],
    from: usize,
    end: usize,
    ends: &mut Vec<u32>,
) -> Result<usize, AllocError>
    requires small { length bytes.now ≤ 2 ^ 30 }
    requires from { from ≤ length bytes.now + 1 }
    requires end { end ≤ length bytes.now }
    ensures taken { IfOk result (λ next. (more : List ℕ)
        × (ends.new.items ≡ ends.old.items ++ more) × Takes bytes.now from end next more) }
    ensures next { IfOk result (λ next. (from ≤ next) × (end ≤ next) × (next ≤ length bytes.now + 1)) }
{
    if from >= end {
        return Ok(from);
    }
    line_ends_between(bytes, from, end - 1, ends)?;
    match record_end(bytes, end - 1) {
        Some(stop) => {
            ends.push(stop as u32)?;
            Ok(stop + 1)
        }
        // There is a byte at `end - 1`.
        None => unreachable!(),
    }
}
