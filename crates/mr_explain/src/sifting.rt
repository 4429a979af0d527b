//! Reads a file, and keeps only the lines among which a record that is looked for may be.
//!
//!     as read    .. ab \n abc \n .. ab \n | abc \n KEY \n .. ab \n | a
//!                a piece without the key    a piece with it          unfinished
//!     kept                                  [ an excerpt ]
//!
//! Each record that gives a key contains the key's bytes, or the front of a long key, folded where
//! the job folds words. So a piece of whole records without them is dropped; only its lines and
//! bytes are counted. An unfinished record waits for its end, and is searched with the next piece.
//! Kept pieces that follow one another are one excerpt.
//!
//! Invariant: the excerpts, the open one, and the unfinished record are what was read, without
//! pieces that were dropped.
//! Cost: one search over what is read, and a count of the line feeds of what is dropped. It holds
//! 64 KiB, the unfinished record, and what is kept, which is copied once.
ghost use Rattle.std.specs.Prelude.{◌≡◌, ◌↔◌, ◌⊎◌, ℕ, List, [], ◌∷◌, ◌++◌, ◌+◌, ◌<◌, ◌≤◌, ◌^◌, IfOk};
ghost use Rattle.std.specs.Prelude.{OnOk, drop, length, map, take, true};
ghost use Rattle.std.specs.Io.KnownBytes.{Consumes, IsAtEnd};
ghost use Rattle.mr_input.specs.Files.{contents};
ghost use Rattle.mr_store.specs.Devices.{counted};
ghost use Rattle.mr_explain.specs.Sifting.{EndsLine, IsSifting, IsSiftingOf, feeds_in};
ghost use Rattle.mr_explain.specs.Explained.{IsUnwanted};
ghost use Rattle.mr_explain.specs.Sifting.{as_file, heading_of, kept_lines};
ghost use Rattle.mr_explain.specs.Needles.{AllLack, Lacks};
ghost use Rattle.mr_explain.specs.Taking.{HasRoom, HasTaken, TookFrom, behind, closing};

use crate::lines::line_feeds;
use crate::needle::{Needle, needle_of};
use crate::query::{SourceFile, Wanted};
use memchr::{memchr, memrchr};
use mr_input::{Input, MAX_SPLIT_SIZE};
use mr_jobs::Job;
use mr_splits::Plan;
use mr_store::{CountedRead, LimitedFault, PIECE, bytes_asked, read_at_most};
use std::alloc::{AllocError, Global};
use std::mem;

/// Lines of a file, and how many of its lines and bytes come before them.
#[derive(Drop)]
pub struct Excerpt {
    pub bytes: Vec<u8>,
    pub lines_before: u64,
    pub bytes_before: u64,
}

/// What is kept of a file, and how many bytes the file has.
#[derive(Drop)]
pub struct Sifted {
    pub excerpts: Vec<Excerpt>,
    pub length: u64,
}

/// Reads a file of at most `limit` bytes to its end, and keeps at most `most` excerpts, in which
/// all its records are that may give what is wanted. Where `most` are too few it keeps more lines.
/// Returns `TooLong` exactly if the reader gave a byte past the limit, and reads none after it;
/// `Device` exactly if a read failed in this call.
pub fn sift<R: CountedRead>(
    alloc: Global,
    reader: &mut R,
    job: &Job,
    wanted: Wanted<'_>,
    limit: u64,
    most: usize,
) -> Result<Sifted, LimitedFault>
    requires { 0 < most }
    ensures sifted { IfOk result (IsSiftingOf (R.remaining reader.old) (R.remaining reader.new)
        (IsUnwanted job.now wanted.entry) limit most) }
    ensures consumes { (got : List ℕ)
        × Consumes (R.remaining reader.old) (R.remaining reader.new) got × (length got ≤ limit + 1)
        × ((result ≡ Err LimitedFault.TooLong) ↔ (limit < length got)) }
    ensures device { (result ≡ Err LimitedFault.Device)
        ↔ (R.failed reader.new ≡ counted (R.failed reader.old)) }
    ensures count { (result ≡ Err LimitedFault.Device → ⊥) → R.failed reader.new ≡ R.failed reader.old }
    ensures fails { result ≡ Err LimitedFault.Device → R.can_fail reader.old ⊎ (R.lacked reader.new ≡ true) }
{
    let mut sifter = Sifter {
        needle: needle_of(job, wanted),
        most,
        closed: Vec::new(alloc),
        current: Excerpt::behind(alloc, 0, 0),
        rest: Vec::new(alloc),
    };
    let length = take_all(alloc, reader, &mut sifter, limit)?;
    sifter.finish(alloc)?;
    Ok(Sifted {
        excerpts: sifter.closed,
        length,
    })
}

/// Adds excerpts of the file of that name, each as a file, with how it is printed.
pub fn add_excerpts<'n>(
    name: &'n [u8],
    excerpts: Vec<Excerpt>,
    sources: &mut Vec<SourceFile<'n>>,
    files: &mut Vec<Vec<u8>>,
) -> Result<(), AllocError>
    ensures sources { OnOk result (map heading_of sources.new.items ≡ map heading_of sources.old.items
        ++ map (λ f. f.0) (map (as_file name.entry.now) (map kept_lines excerpts.items))) }
    ensures files { OnOk result (contents files.new.items ≡ contents files.old.items
        ++ map (λ f. f.1) (map (as_file name.entry.now) (map kept_lines excerpts.items))) }
{
    for excerpt in excerpts {
        sources.push(SourceFile {
            name,
            lines_before: excerpt.lines_before,
            bytes_before: excerpt.bytes_before,
        })?;
        files.push(excerpt.bytes)?;
    }
    Ok(())
}

/// A plan over excerpts, in splits that are as large as can be.
pub fn plan_excerpts(alloc: Global, excerpts: &Input) -> Result<Plan<'_>, AllocError>
    ensures { IfOk result (λ plan. plan.files ≡ excerpts.entry.now) }
{
    // An input has at most 1,024 files and 1 GiB.
    let _few = excerpts.files();
    Plan::new_fitting(alloc, excerpts, MAX_SPLIT_SIZE)
}

#[derive(Drop)]
pub(crate) struct Sifter<'k> {
    needle: Needle<'k>,
    /// The most excerpts.
    most: usize,
    closed: Vec<Excerpt>,
    /// The excerpt to which lines are added.
    current: Excerpt,
    /// The unfinished record.
    rest: Vec<u8>,
}

/// Takes all that the reader gives, and returns how many bytes that was.
fn take_all<R: CountedRead>(
    alloc: Global,
    reader: &mut R,
    sifter: &mut Sifter<'_>,
    limit: u64,
) -> Result<u64, LimitedFault>
    requires none { HasTaken sifter.old [] }
    ensures needle { sifter.new.needle ≡ sifter.old.needle }
    ensures most { sifter.new.most ≡ sifter.old.most }
    ensures took { IfOk result (λ n. (lacking : ℕ) × (n + lacking ≡ limit)
        × TookFrom (R.remaining reader.old) (R.remaining reader.new) limit lacking sifter.new) }
    ensures end { OnOk result (IsAtEnd (R.remaining reader.new)) }
    ensures consumes { (got : List ℕ)
        × Consumes (R.remaining reader.old) (R.remaining reader.new) got × (length got ≤ limit + 1)
        × ((result ≡ Err LimitedFault.TooLong) ↔ (limit < length got)) }
    ensures device { (result ≡ Err LimitedFault.Device)
        ↔ (R.failed reader.new ≡ counted (R.failed reader.old)) }
    ensures count { (result ≡ Err LimitedFault.Device → ⊥) → R.failed reader.new ≡ R.failed reader.old }
    ensures fails { result ≡ Err LimitedFault.Device → R.can_fail reader.old ⊎ (R.lacked reader.new ≡ true) }
{
    let mut buffer = [0u8; PIECE];
    let mut left = limit;
    loop {
        let count = read_at_most(reader, &mut buffer, bytes_asked(left))?;
        if count == 0 {
            return Ok(limit - left);
        }
        if count as u64 > left {
            return Err(LimitedFault::TooLong);
        }
        sifter.take(alloc, &buffer[..count])?;
        left -= count as u64;
    }
}

impl<'k> Sifter<'k> {
    /// Takes what is read next.
    fn take(&mut self, alloc: Global, read: &[u8]) -> Result<(), AllocError>
        requires room { HasRoom self.old (length read.now) }
        ensures needle { self.new.needle ≡ self.old.needle }
        ensures most { self.new.most ≡ self.old.most }
        ensures taken { OnOk result ((before : List ℕ) → HasTaken self.old before
            → HasTaken self.new (before ++ read.now)) }
    {
        let Some(last) = memrchr(b'\n', read) else {
            self.rest.extend_from_slice(read)?;
            return Ok(());
        };
        let (lines, unfinished) = read.split_at(last + 1);
        self.take_lines(alloc, lines)?;
        self.rest.extend_from_slice(unfinished)?;
        Ok(())
    }

    /// Takes lines, of which the first goes on with the unfinished record.
    fn take_lines(&mut self, alloc: Global, lines: &[u8]) -> Result<(), AllocError>
        requires ends { (front : List ℕ) × (lines.now ≡ front ++ 0x0A ∷ []) }
        requires room { HasRoom self.old (length lines.now) }
        ensures needle { self.new.needle ≡ self.old.needle }
        ensures most { self.new.most ≡ self.old.most }
        ensures rest { OnOk result (self.new.rest.items ≡ []) }
        ensures taken { OnOk result ((read : List ℕ) → HasTaken self.old read
            → HasTaken self.new (read ++ lines.now)) }
    {
        let (first, others) = lines.split_at(first_end(lines));
        self.rest.extend_from_slice(first)?;
        if self.can_drop(others) {
            self.close(alloc)?;
            self.current.pass(&self.rest);
            self.current.pass(others);
            self.rest.clear();
            return Ok(());
        }
        append(&mut self.current.bytes, &mut self.rest)?;
        self.current.bytes.extend_from_slice(others)?;
        Ok(())
    }

    /// Whether the unfinished record, with its end, and the other lines can be dropped.
    fn can_drop(&self, others: &[u8]) -> bool
        ensures few { result ≡ true → length self.now.closed.items + 1 < self.now.most }
        ensures record { result ≡ true
            → AllLack self.now.needle.fold self.now.needle.literal.now self.now.rest.items }
        ensures others { result ≡ true
            → AllLack self.now.needle.fold self.now.needle.literal.now others.now }
        ensures drops { length self.now.closed.items + 1 < self.now.most
            → Lacks self.now.needle.fold self.now.needle.literal.now self.now.rest.items
            → Lacks self.now.needle.fold self.now.needle.literal.now others.now → result ≡ true }
    {
        let rest = self.rest.as_slice();
        self.closed.len() < self.most.saturating_sub(1)
            && !self.needle.is_in(rest)
            && !self.needle.is_in(others)
    }

    /// Ends the open excerpt, if it has lines.
    fn close(&mut self, alloc: Global) -> Result<(), AllocError>
        requires few { self.old.current.lines_before ≤ self.old.current.bytes_before }
        requires room { self.old.current.bytes_before + length self.old.current.bytes.items < 2 ^ 64 }
        ensures needle { self.new.needle ≡ self.old.needle }
        ensures most { self.new.most ≡ self.old.most }
        ensures rest { self.new.rest ≡ self.old.rest }
        ensures opened { OnOk result (kept_lines self.new.current ≡ behind (kept_lines self.old.current)) }
        ensures closed { OnOk result (map kept_lines self.new.closed.items
            ≡ map kept_lines self.old.closed.items ++ closing (kept_lines self.old.current)) }
    {
        if self.current.bytes.is_empty() {
            return Ok(());
        }
        let lines = self.current.lines_before + line_feeds(&self.current.bytes) as u64;
        let bytes = self.current.bytes_before + self.current.bytes.len() as u64;
        let ended = mem::replace(&mut self.current, Excerpt::behind(alloc, lines, bytes));
        self.closed.push(ended)?;
        Ok(())
    }

    /// Takes the record that no line feed ends.
    fn finish(&mut self, alloc: Global) -> Result<(), AllocError>
        requires room { HasRoom self.old 0 }
        ensures sifted { OnOk result ((file : List ℕ) → HasTaken self.old file
            → IsSifting (Lacks self.old.needle.fold self.old.needle.literal.now) file
            (map kept_lines self.new.closed.items)) }
        ensures few { OnOk result (length self.old.closed.items < self.old.most
            → length self.new.closed.items ≤ self.old.most) }
    {
        if self.can_drop(b"") {
            return self.close(alloc);
        }
        append(&mut self.current.bytes, &mut self.rest)?;
        self.close(alloc)
    }
}

/// Where the first line ends, with its line feed.
fn first_end(lines: &[u8]) -> usize
    requires { (front : List ℕ) × (lines.now ≡ front ++ 0x0A ∷ []) }
    ensures within { result ≤ length lines.now }
    ensures ends { (front : List ℕ) × (take result lines.now ≡ front ++ 0x0A ∷ []) }
    ensures others { EndsLine (drop result lines.now) }
{
    match memchr(b'\n', lines) {
        Some(at) => at + 1,
        None => lines.len(),
    }
}

/// Moves bytes behind others. It copies none if there are no others.
fn append(to: &mut Vec<u8>, from: &mut Vec<u8>) -> Result<(), AllocError>
    ensures moved { OnOk result (to.new.items ≡ to.old.items ++ from.old.items) }
    ensures none { OnOk result (from.new.items ≡ []) }
{
    if to.is_empty() {
        mem::swap(to, from);
        return Ok(());
    }
    to.extend_from_slice(from)?;
    from.clear();
    Ok(())
}

impl Excerpt {
    /// An empty one, behind so many lines and bytes.
    fn behind(alloc: Global, lines: u64, bytes: u64) -> Excerpt
        ensures { kept_lines result ≡ record { bytes = []; lines_before = lines; bytes_before = bytes } }
    {
        Excerpt {
            bytes: Vec::new(alloc),
            lines_before: lines,
            bytes_before: bytes,
        }
    }

    /// Drops bytes that come before it.
    fn pass(&mut self, bytes: &[u8])
        requires few { self.old.lines_before ≤ self.old.bytes_before }
        requires room { self.old.bytes_before + length bytes.now < 2 ^ 64 }
        ensures lines { self.new.lines_before ≡ self.old.lines_before + feeds_in bytes.now }
        ensures bytes { self.new.bytes_before ≡ self.old.bytes_before + length bytes.now }
        ensures held { self.new.bytes ≡ self.old.bytes }
    {
        self.lines_before += line_feeds(bytes) as u64;
        self.bytes_before += bytes.len() as u64;
    }
}
