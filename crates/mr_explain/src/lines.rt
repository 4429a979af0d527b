//! The numbers of lines, and what is printed before a record.
//!
//! Line feeds are counted from the record before, if that is earlier in the same file. So records
//! in order cost one pass over the bytes before the last of them, and any order gives the numbers.
ghost use Rattle.std.specs.Prelude.{◌≡◌, ℕ, ◌≤◌, ◌<◌, ◌==◌, List, OnErr, OnOk, count_by, decimal};
ghost use Rattle.std.specs.Prelude.{length};
ghost use Rattle.mr_store.specs.Devices.{counted, with_bytes};
ghost use Rattle.mr_input.specs.Files.{nth_file};
ghost use Rattle.mr_explain.specs.Explained.{feeds_before, head_of};
ghost use Rattle.mr_explain.specs.Walking.{IsCounted};

use crate::query::SourceFile;
use itoa::Buffer;
use mr_input::Input;
use mr_store::{CountedWrite, Device, write_all};
use std::simd::prelude::*;

/// How many line feeds a file has before a place.
#[derive(Clone, Copy)]
pub(crate) struct LineCount {
    pub file: u32,
    pub at: usize,
    pub feeds: usize,
}

fn feeds_among(lanes: u8x64) -> usize
    ensures { result ≡ count_by (λ b. b == 0x0A) lanes }
{
    lanes.simd_eq(u8x64::splat(b'\n')).to_bitmask().count_ones() as usize
}

fn feeds_one_by_one(bytes: &[u8]) -> usize
    ensures { result ≡ count_by (λ b. b == 0x0A) bytes.now }
{
    let mut feeds = 0;
    for b in bytes {
        if *b == b'\n' {
            feeds += 1;
        }
    }
    feeds
}

/// The number of line feeds, 64 bytes at a time.
pub fn line_feeds(bytes: &[u8]) -> usize
    ensures { result ≡ count_by (λ b. b == 0x0A) bytes.now }
{
    let mut feeds = 0;
    let mut at = 0;
    while bytes.len() - at >= 64 {
        feeds += feeds_among(u8x64::from_slice(&bytes[at..]));
        at += 64;
    }
    feeds + feeds_one_by_one(&bytes[at..])
}

impl LineCount {
    /// The line feeds before a place of a file.
    pub fn before(&mut self, input: &Input, file: u32, place: usize) -> usize
        requires file { file < length input.now }
        requires within { place ≤ length (nth_file input.now file) }
        requires counted { IsCounted input.now self.old }
        ensures counted { IsCounted input.now self.new }
        ensures feeds { result ≡ feeds_before (nth_file input.now file) place }
    {
        let bytes = input.file(file as usize);
        // Nothing is known of another file, or before a later place.
        if self.file != file || place < self.at {
            *self = LineCount {
                file,
                at: 0,
                feeds: 0,
            };
        }
        let feeds = self.feeds + line_feeds(&bytes[self.at..place]);
        *self = LineCount {
            file,
            at: place,
            feeds,
        };
        feeds
    }
}

/// Writes a number's decimal digits.
pub(crate) fn put_number<W: CountedWrite>(number: u128, writer: &mut W) -> Result<(), Device>
    ensures put { OnOk result (W.seen writer.new ≡ with_bytes (W.seen writer.old) (decimal number)) }
    ensures cut { OnErr result ((W.seen writer.new).failed ≡ counted (W.seen writer.old).failed) }
{
    let mut digits = Buffer::new();
    write_all(writer, digits.format(number).as_bytes())
}

/// Writes the file's name, the line's number and the record's place, each with a colon.
pub(crate) fn put_head<W: CountedWrite>(
    source: SourceFile<'_>,
    feeds: usize,
    start: u32,
    writer: &mut W,
) -> Result<(), Device>
    ensures put { OnOk result (W.seen writer.new
        ≡ with_bytes (W.seen writer.old) (head_of source.entry feeds start)) }
    ensures cut { OnErr result ((W.seen writer.new).failed ≡ counted (W.seen writer.old).failed) }
{
    write_all(writer, source.name)?;
    write_all(writer, b":")?;
    put_number(source.lines_before as u128 + feeds as u128 + 1, writer)?;
    write_all(writer, b":")?;
    put_number(source.bytes_before as u128 + start as u128, writer)?;
    write_all(writer, b":")
}
