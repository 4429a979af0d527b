//! A verdict: what a judge accepted, as a value and as a text for others to read.
//!
//!     verdict 2               input SHA-256 LENGTH FROM more|end|open NAME    for each range
//!     job, flags, literal     output SHA-256 LENGTH NAME                      for each part
//!     partitions, split       without FILE OFFSET                    for each left-out record
//!                             emitted PAIRS
//!
//! It names the job by number, flags and literal, as a certificate does. It tells where the records
//! begin that are left out, and not how many a request allows. A name goes to the end of its line,
//! so it has no line feed, and each verdict has one text. Old texts, of version 1, tell a file by
//! `input SHA-256 LENGTH NAME`. `request_of` makes the request.
//! Cost: linear in the text; a note reads the bytes of its file once.
//! Source: docs/FORMATS.md, "The verdict".
ghost use Rattle.std.specs.Prelude.{◌≡◌, ◌↔◌, IfOk, IsTrue, MatchOption, [], ◌∷◌, ◌++◌};
ghost use Rattle.std.specs.Prelude.{◌==◌, OnOk, codes, decimal, if◌then◌else◌, map};
ghost use Rattle.mr_bytes.specs.declared.By.{By};
ghost use Rattle.mr_jobs.specs.JobSpec.{RequestSpec, Resources, flags_of, job_flags};
ghost use Rattle.mr_shards.specs.Truth.{Asks, AsksNone, CanBeMade, by_told, IsNoteOf};
ghost use Rattle.mr_shards.specs.Truth.{note_for, range_for, ranges_for, verdict_for};
ghost use Rattle.std.specs.List.{flat_map};
ghost use Rattle.hex.specs.Hex.{encode_lower};
ghost use Rattle.mr_shards.specs.Verdict.{line_of, note_line, range_line};
ghost use Rattle.mr_shards.specs.Verdict.{request_lines, spelled, spelling, spot_line};

use crate::ranges::FileRange;
use crate::shift::Spot;
use hex::encode_to_slice;
use itoa::Buffer;
use mr_input::Input;
use mr_jobs::{Job, Request};
use sha2::{Digest, Sha256};
use std::alloc::{AllocError, Global};
use std::marker::Model;
use thiserror::Error;

/// A file as it was judged: name, length in bytes, SHA-256.
#[derive(Debug, Drop)]
pub struct FileNote {
    pub name: Vec<u8>,
    pub length: u64,
    pub digest: [u8; 32],
}

impl Model for FileNote {
    ghost use Rattle.mr_shards.specs.Verdict.{Note};

    ghost Value = { Note };

    ghost view = { λ n. record { name = n.name.items; length = n.length; digest = n.digest } };
}

/// What a judge accepted. `job` is the job's number; `flags` and `literal` are as in a certificate;
/// `split` is in bytes; `left_out` tells where the records begin that are left out, by the number of
/// the file, where one that is cut counts once; `pairs` counts the pairs of all other records.
#[derive(Debug, Drop)]
pub struct Verdict {
    pub job: u32,
    pub flags: u32,
    pub literal: Vec<u8>,
    pub parts: u32,
    pub split: u32,
    pub inputs: Vec<FileRange>,
    pub outputs: Vec<FileNote>,
    pub left_out: Vec<Spot>,
    pub pairs: u64,
}

impl Model for Verdict {
    ghost use Rattle.mr_shards.specs.Verdict.{Told};

    ghost Value = { Told };

    ghost view = { λ v. record {
      job = v.job;
      flags = v.flags;
      literal = v.literal.items;
      parts = v.parts;
      split = v.split;
      inputs = v.inputs.items;
      outputs = v.outputs.items;
      left_out = v.left_out.items;
      pairs = v.pairs;
    } };
}

#[derive(Clone, Copy, Debug, PartialEq, Eq, Drop, Error)]
pub enum VerdictFault {
    /// The text is no verdict's. It first differs in this line, numbered from 0, from the text of
    /// the verdict that its lines give.
    #[error("BadLine {line}")]
    BadLine { line: u64 },
    /// The text is of version 1, and names left-out records by their splits.
    #[error("OldVerdict")]
    OldVerdict,
    #[error("OutOfMemory")]
    OutOfMemory,
}

impl From<AllocError> for VerdictFault {
    ghost use Rattle.mr_shards.specs.declared.verdict.VerdictFault.TheVariants.{OutOfMemory as told_memory};

    ghost from_gives = { λ _ f. f ≡ told_memory };

    fn from(_fault: AllocError) -> VerdictFault {
        VerdictFault::OutOfMemory
    }
}

/// Whether a verdict is about the request.
pub fn asks(verdict: &Verdict, request: &Request) -> bool
    ensures { IsTrue result ↔ Asks verdict.now request.now }
{
    let job = request.job();
    verdict.job == job.number()
        && verdict.flags == request.flags()
        && verdict.literal.as_slice() == job.literal()
        && verdict.parts == request.parts()
        && verdict.split == request.split_size()
}

/// The flags of a request's job, by those of the request.
fn flags_of_job(flags: u32) -> u32
    ensures { (request : RequestSpec) → CanBeMade request → flags ≡ flags_of request → result ≡ job_flags request.job }
{
    if flags == 4 { 0 } else { flags }
}

/// The request, by host if the flags say so; none if its keys have no host.
fn by_named(request: Request, verdict: &Verdict) -> Option<Request>
    requires { request.by ≡ By.Key }
    ensures { MatchOption result ((verdict.now.flags ≡ 4) × (request.job ≡ Resources → ⊥))
        (λ q. q ≡ record { job = request.job; by = by_told verdict.now.flags; parts = request.parts; split = request.split; skips = request.skips }) }
{
    if verdict.flags == 4 {
        request.by_host().ok()
    } else {
        Some(request)
    }
}

/// A request that the verdict is about, with no record left out; none if there is no such request.
pub fn request_of(alloc: Global, verdict: &Verdict) -> Result<Option<Request>, AllocError>
    ensures { IfOk result (λ r. MatchOption r (AsksNone verdict.now) (λ q. Asks verdict.now q)) }
{
    let flags = flags_of_job(verdict.flags);
    let Some(job) = Job::named(alloc, verdict.job, flags, verdict.literal.as_slice())? else {
        return Ok(None);
    };
    let Ok(request) = Request::new(job, verdict.parts, verdict.split, 0) else {
        return Ok(None);
    };
    let Some(request) = by_named(request, verdict) else {
        return Ok(None);
    };
    if asks(verdict, &request) {
        Ok(Some(request))
    } else {
        Ok(None)
    }
}

pub fn note_for(alloc: Global, name: &[u8], bytes: &[u8]) -> Result<FileNote, AllocError>
    ensures { IfOk result (λ n. n ≡ note_for name.now bytes.now) }
{
    Ok(FileNote {
        name: Vec::from_slice(alloc, name)?,
        length: bytes.len() as u64,
        digest: Sha256::digest(bytes),
    })
}

/// The note of bytes that begin at `from` in the file of that name. `ends`: the file ends there.
pub fn range_for(
    alloc: Global,
    name: &[u8],
    from: u64,
    bytes: &[u8],
    ends: bool,
) -> Result<FileRange, AllocError>
    ensures { IfOk result (λ n. n ≡ range_for name.now from bytes.now ends) }
{
    Ok(FileRange {
        name: Vec::from_slice(alloc, name)?,
        from,
        length: bytes.len() as u64,
        digest: Sha256::digest(bytes),
        closed: bytes.last().map_or(true, |last| *last == b'\n'),
        ends,
    })
}

/// The notes of a stretch of files by their names: the first file begins at `from`, and `ends` says
/// whether the last one ends with the stretch.
pub fn ranges_for(
    alloc: Global,
    names: &[&str],
    from: u64,
    input: &Input,
    ends: bool,
) -> Result<Vec<FileRange>, AllocError>
    ensures { IfOk result (λ notes. notes.items
        ≡ ranges_for (map (λ s. s.now) names.now) from input.now ends) }
{
    let mut notes = Vec::new(alloc);
    for file in 0..names.len().min(input.files()) {
        let (name, bytes) = (names[file].as_bytes(), input.file(file));
        let begin = if file == 0 { from } else { 0 };
        let whole = ends || file + 1 < names.len();
        notes.push(range_for(alloc, name, begin, bytes, whole)?)?;
    }
    Ok(notes)
}

/// Whether length and digest fit the bytes, whatever the name.
pub fn is_note_of(note: &FileNote, bytes: &[u8]) -> bool
    ensures { IsTrue result ↔ IsNoteOf note.now bytes.now }
{
    note.length == bytes.len() as u64 && Sha256::digest(bytes).as_slice() == note.digest.as_slice()
}

/// The verdict for a request, without notes of files and with no record left out.
pub fn verdict_for(alloc: Global, request: &Request, pairs: u64) -> Result<Verdict, AllocError>
    ensures { IfOk result (λ v. v ≡ verdict_for request.now [] [] [] pairs) }
{
    let job = request.job();
    Ok(Verdict {
        job: job.number(),
        flags: request.flags(),
        literal: Vec::from_slice(alloc, job.literal())?,
        parts: request.parts(),
        split: request.split_size(),
        inputs: Vec::new(alloc),
        outputs: Vec::new(alloc),
        left_out: Vec::new(alloc),
        pairs,
    })
}

/// `WORD TEXT` and a line feed.
fn put_line(word: &[u8], told: &[u8], out: &mut Vec<u8>) -> Result<(), AllocError>
    ensures { OnOk result (out.new.items ≡ out.old.items ++ line_of word.now told.now) }
{
    out.extend_from_slice(word)?;
    out.push(b' ')?;
    out.extend_from_slice(told)?;
    out.push(b'\n')?;
    Ok(())
}

fn put_number(word: &[u8], number: u64, out: &mut Vec<u8>) -> Result<(), AllocError>
    ensures { OnOk result (out.new.items ≡ out.old.items ++ line_of word.now (decimal number)) }
{
    let mut digits = Buffer::new();
    put_line(word, digits.format(number).as_bytes(), out)
}

/// Appends hexadecimal digits and a space.
fn put_digest(digest: &[u8; 32], out: &mut Vec<u8>) -> Result<(), AllocError>
    ensures { OnOk result (out.new.items ≡ out.old.items ++ encode_lower digest.now ++ 32 ∷ []) }
{
    let mut text = [0u8; 64];
    let _ = encode_to_slice(digest.as_slice(), &mut text);
    out.extend_from_slice(&text)?;
    out.push(b' ')?;
    Ok(())
}

/// `output DIGEST LENGTH NAME` for each part.
fn put_notes(notes: &[FileNote], out: &mut Vec<u8>) -> Result<(), AllocError>
    ensures { OnOk result (out.new.items ≡ out.old.items
        ++ flat_map (note_line (codes "output")) notes.now) }
{
    for note in notes {
        let mut length = Buffer::new();
        out.extend_from_slice(b"output ")?;
        put_digest(&note.digest, out)?;
        put_line(
            length.format(note.length).as_bytes(),
            note.name.as_slice(),
            out,
        )?;
    }
    Ok(())
}

/// `input DIGEST LENGTH FROM ENDING NAME`, or of an old text `input DIGEST LENGTH NAME`.
fn put_range(old: bool, range: &FileRange, out: &mut Vec<u8>) -> Result<(), AllocError>
    ensures { OnOk result (out.new.items ≡ out.old.items ++ range_line old range.now) }
{
    let mut digits = Buffer::new();
    out.extend_from_slice(b"input ")?;
    put_digest(&range.digest, out)?;
    out.extend_from_slice(digits.format(range.length).as_bytes())?;
    out.push(b' ')?;
    if !old {
        out.extend_from_slice(digits.format(range.from).as_bytes())?;
        out.extend_from_slice(match (range.ends, range.closed) {
            (false, _) => b" more ",
            (true, true) => b" end ",
            (true, false) => b" open ",
        })?;
    }
    out.extend_from_slice(range.name.as_slice())?;
    out.push(b'\n')?;
    Ok(())
}

/// `without FILE OFFSET` for each left-out record.
fn put_spots(spots: &[Spot], out: &mut Vec<u8>) -> Result<(), AllocError>
    ensures { OnOk result (out.new.items ≡ out.old.items ++ flat_map spot_line spots.now) }
{
    for spot in spots {
        let mut file = Buffer::new();
        let mut start = Buffer::new();
        out.extend_from_slice(b"without ")?;
        put_line(
            file.format(spot.file).as_bytes(),
            start.format(spot.start).as_bytes(),
            out,
        )?;
    }
    Ok(())
}

fn put_request(old: bool, verdict: &Verdict, out: &mut Vec<u8>) -> Result<(), AllocError>
    ensures { OnOk result (out.new.items ≡ out.old.items ++ request_lines old verdict.now) }
{
    let version = if old { 1 } else { 2 };
    put_number(b"verdict", version, out)?;
    put_number(b"job", verdict.job as u64, out)?;
    put_number(b"flags", verdict.flags as u64, out)?;
    put_line(b"literal", verdict.literal.as_slice(), out)?;
    put_number(b"partitions", verdict.parts as u64, out)?;
    put_number(b"split", verdict.split as u64, out)?;
    Ok(())
}

pub fn write_verdict(alloc: Global, verdict: &Verdict) -> Result<Vec<u8>, AllocError>
    ensures { IfOk result (λ out. out.items ≡ spelling verdict.now) }
{
    text_of(alloc, false, verdict)
}

/// The text of a verdict, or the old one, of version 1.
pub(crate) fn text_of(alloc: Global, old: bool, verdict: &Verdict) -> Result<Vec<u8>, AllocError>
    ensures { IfOk result (λ out. out.items ≡ spelled old verdict.now) }
{
    let mut out = Vec::new(alloc);
    put_request(old, verdict, &mut out)?;
    for range in verdict.inputs.as_slice() {
        put_range(old, range, &mut out)?;
    }
    put_notes(verdict.outputs.as_slice(), &mut out)?;
    put_spots(verdict.left_out.as_slice(), &mut out)?;
    put_number(b"emitted", verdict.pairs, &mut out)?;
    Ok(out)
}
