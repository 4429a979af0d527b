//! The records of a file: its lines, found in one pass, with four bytes of memory a record.
#![tactic(auto)]

ghost use Rattle.std.specs.Prelude.{◌≡◌, ℕ, ◌+◌, ◌^◌, ◌≤◌, ◌<◌, ◌≢◌, length, List, IfOk};
ghost use Rattle.std.specs.Prelude.{MatchOption, slice_index};
ghost use Rattle.mr_records.specs.Records.{Record, records, nth_record, IsBehindAll, IsRecordOf};
ghost use Rattle.mr_records.specs.Ends.{ended_at, EndsRise, is_open};
ghost use Rattle.mr_records.specs.RecordLaw.{NoLineFeeds, GiveTheFileBack, StartInTurn};
ghost use Rattle.mr_records.specs.RecordLaw.{StartWhereLinesBegin, FewRecords};

use memchr::memchr;
use mr_lanes::line_ends;
use std::alloc::{AllocError, Global};
use std::marker::Model;

/// The records of a file, in order: the bytes before each line feed, and the bytes after the last
/// line feed if there are any. A carriage return stays in its record.
#[derive(Drop)]
pub struct Records<'a> {
    bytes: &'a [u8],
    // The place of each record's line feed, or the file's end.
    ends: Vec<u32>,
}

impl<'a> Model for Records<'a> {
    ghost use Rattle.std.specs.Prelude.{List, length, ◌≤◌, ◌^◌};
    ghost use Rattle.mr_records.specs.Records.{Record};
    ghost use Rattle.mr_records.specs.Ends.{ended_at, EndsRise};

    ghost Value = { List Record };

    ghost view = { λ r. ended_at r.bytes.now 0 r.ends.items };

    ghost invariant = { λ r. record {
      rise : EndsRise r.bytes.now 0 r.ends.items;
      few : length r.ends.items ≤ length r.bytes.now;
      small : length r.bytes.now ≤ 2 ^ 30;
    } };
}

impl<'a> Records<'a> {
    /// Finds the records of a file of at most 1 GiB, uncopied. Fails only for want of memory.
    pub fn of(alloc: Global, bytes: &'a [u8]) -> Result<Records<'a>, AllocError>
        requires { length bytes.now ≤ 2 ^ 30 }
        ensures { IfOk result (λ r. r ≡ records bytes.entry.now) }
    {
        let ends = record_ends(alloc, bytes)?;
        Ok(Records { bytes, ends })
    }

    /// How many records there are.
    pub fn count(&self) -> usize
        ensures number { result ≡ length self.now }
        ensures few { result ≤ 2 ^ 30 }
    {
        self.ends.len()
    }

    /// The bytes of record `i`, from 0, without its line feed.
    pub fn record(&self, i: usize) -> &'a [u8]
        requires { i < length self.now }
        ensures bytes { result.now ≡ (nth_record self.now i).bytes }
        ensures small { length result.now ≤ 2 ^ 30 }
    {
        &self.bytes[self.start(i) as usize..self.ends[i] as usize]
    }

    /// The place of the first byte of record `i`, or of its line feed if the record is empty.
    pub fn start(&self, i: usize) -> u32
        requires { i < length self.now }
        ensures place { result ≡ (nth_record self.now i).start }
        ensures small { result ≤ 2 ^ 30 }
    {
        if i == 0 { 0 } else { self.ends[i - 1] + 1 }
    }
}

/// What `records` means. No record contains a line feed. Each with its line feed, if it has one,
/// they give the file back. Each starts where a line begins and a byte is: records ≤ bytes.
pub fn record_law()
    ensures clear { NoLineFeeds }
    ensures joined { GiveTheFileBack }
    ensures turn { StartInTurn }
    ensures lines { StartWhereLinesBegin }
    ensures few { FewRecords }
{}

fn record_ends(alloc: Global, bytes: &[u8]) -> Result<Vec<u32>, AllocError>
    requires { length bytes.now ≤ 2 ^ 30 }
    ensures rise { IfOk result (λ v. EndsRise bytes.now 0 v.items) }
    ensures few { IfOk result (λ v. length v.items ≤ length bytes.now) }
    ensures all { IfOk result (λ v. ended_at bytes.now 0 v.items ≡ records bytes.now) }
{
    let mut ends = Vec::new(alloc);
    line_ends(bytes, &mut ends)?;
    if !is_open(bytes) {
        return Ok(ends);
    }
    ends.push(bytes.len() as u32)?;
    Ok(ends)
}

fn is_open(bytes: &[u8]) -> bool
    ensures { result ≡ is_open bytes.now }
{
    match bytes.last() {
        Some(b) => *b != b'\n',
        None => false,
    }
}

fn line_end(bytes: &[u8], from: usize) -> usize
    requires { from ≤ length bytes.now }
    ensures within { (from ≤ result) × (result ≤ length bytes.now) }
    ensures clear { (k : ℕ) → from ≤ k → k < result → slice_index bytes.now k ≢ 10 }
    ensures stops { result < length bytes.now → slice_index bytes.now result ≡ 10 }
{
    match memchr(b'\n', &bytes[from..]) {
        Some(skipped) => from + skipped,
        None => bytes.len(),
    }
}

/// Where the record that begins at `from` ends: at its line feed, or at the end of a file of any
/// size. The next record begins one place later. `None` past the last byte. Takes no memory.
pub fn record_end(bytes: &[u8], from: usize) -> Option<usize>
    ensures { MatchOption result (IsBehindAll bytes.now from) (λ end. IsRecordOf bytes.now from end) }
{
    if from >= bytes.len() {
        return None;
    }
    Some(line_end(bytes, from))
}
