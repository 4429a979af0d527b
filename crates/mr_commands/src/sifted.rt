//! The files of `explain`, read once: of each only the lines are held that may matter.
//!
//!     FILE ..    -> read and sifted in turn, all within 1 GiB     -> excerpts, and where they lie
//!                -> how many splits the whole files have          -> too many, or not
//!
//! What is refused is what would be refused of the whole files, in the same order.
//! Cost: one pass over the files. It holds what is kept of them, and 64 KiB.
ghost use Rattle.std.specs.Prelude.{◌≡◌, [], ◌++◌, ◌∷◌, ◌+◌, ◌-◌, ◌*◌, ◌/◌, ◌<◌, ◌≤◌, ◌^◌, IfErr, IfOk, None, OnOk, ℕ};
ghost use Rattle.std.specs.Prelude.{length, map};
ghost use Rattle.mr_input.specs.Files.{contents};
ghost use Rattle.mr_files.specs.Ranges.{IsRangeRefusal};
ghost use Rattle.mr_files.specs.Refusals.{IsFault};
ghost use Rattle.mr_explain.specs.Explained.{IsUnwanted};
ghost use Rattle.mr_explain.specs.Sifting.{as_file, heading_of, kept_lines};
ghost use Rattle.mr_commands.specs.Inputs.{IsInputRefusal, IsRunInputRefusal};
ghost use Rattle.mr_commands.specs.Sifted.{HasSifted, IsSiftedFile, IsSiftedRun};
ghost use Rattle.mr_commands.specs.Sifted.{TakesAll, whole_stretch};

use crate::input::fault_of;
use mr_args::{Fault, Options, request_of};
use mr_explain::{Sifted, SourceFile, Wanted, add_excerpts, sift};
use mr_files::{FileFault, RangeFault, Store, UnreadStretch};
use mr_input::{Input, InputFault, MAX_BYTES, MAX_FILES, MAX_SPLITS};
use mr_jobs::{Job, Request};
use mr_store::{CountedRead, LimitedFault, ReadFault};
use std::alloc::{AllocError, Global};

/// What is kept of files that were read.
#[derive(Drop)]
pub(crate) struct SiftedFiles<'n> {
    /// How each excerpt is printed.
    sources: Vec<SourceFile<'n>>,
    excerpts: Vec<Vec<u8>>,
    /// How many bytes each file has.
    lengths: Vec<u64>,
    /// How many bytes may still be read.
    left: u64,
    /// How many splits the whole files have.
    splits: u64,
}

/// What a query over excerpts runs on: the request, how each excerpt is printed, and the excerpts.
#[derive(Drop)]
pub(crate) struct SiftedRun<'n> {
    pub request: Request,
    pub sources: Vec<SourceFile<'n>>,
    pub input: Input,
    /// How many bytes each whole file has.
    pub lengths: Vec<u64>,
}

/// Sifts the file of that name. A fault names it if it can't be read.
fn sift_file<S: Store>(
    store: &S,
    alloc: Global,
    name: &str,
    job: &Job,
    wanted: Wanted<'_>,
    limit: u64,
    most: usize,
) -> Result<Sifted, RangeFault>
    requires { 0 < most }
    ensures sifted { IfOk result (IsSiftedFile (S.holds store.now) name.now
        (IsUnwanted job.now wanted.entry) limit most) }
    ensures refused { IfErr result (IsRangeRefusal (S.holds store.now)
        (S.unreadable store.now) name.now 0 None limit) }
{
    let mut reader = match store.reader(alloc, name) {
        Ok(reader) => reader,
        Err(ReadFault::Device) => return Err(RangeFault::File(cannot_read(alloc, name))),
        Err(ReadFault::OutOfMemory) => return Err(RangeFault::File(FileFault::OutOfMemory)),
    };
    match sift(alloc, &mut reader, job, wanted, limit, most) {
        Ok(sifted) => Ok(sifted),
        Err(LimitedFault::TooLong) => Err(RangeFault::TooLong),
        Err(LimitedFault::Device) if !reader.is_out_of_memory() => {
            Err(RangeFault::File(cannot_read(alloc, name)))
        }
        Err(_) => Err(RangeFault::File(FileFault::OutOfMemory)),
    }
}

fn cannot_read(alloc: Global, name: &str) -> FileFault
    ensures { IsFault name.now ReadFault.Device result }
{
    match String::from_str(alloc, name) {
        Ok(name) => FileFault::CannotRead(name),
        Err(_) => FileFault::OutOfMemory,
    }
}

/// How many splits of `size` bytes a file of so many bytes has.
fn split_count(length: u64, size: u32) -> u64
    requires some { 0 < size }
    requires small { length ≤ 2 ^ 30 }
    ensures count { result ≡ (length + size - 1) / size }
    ensures few { result ≤ length }
{
    (length + size as u64 - 1) / size as u64
}

/// How many excerpts may be kept of each of so many files, so that all are files of an input.
fn most_of_each(files: usize) -> usize
    ensures some { 0 < result }
    ensures few { files ≤ 1024 → files * result ≤ 1024 }
{
    if files == 0 || files > MAX_FILES {
        return 1;
    }
    MAX_FILES / files
}

impl<'n> SiftedFiles<'n> {
    /// Adds what is kept of the file of that name.
    fn add(&mut self, name: &'n str, sifted: Sifted, size: u32) -> Result<(), AllocError>
        requires some { 0 < size }
        requires within { sifted.length ≤ self.old.left }
        requires small { self.old.splits + self.old.left ≤ 2 ^ 30 }
        ensures sources { OnOk result (map heading_of self.new.sources.items
            ≡ map heading_of self.old.sources.items
            ++ map (λ f. f.0) (map (as_file name.entry.now) (map kept_lines sifted.excerpts.items))) }
        ensures excerpts { OnOk result (contents self.new.excerpts.items
            ≡ contents self.old.excerpts.items
            ++ map (λ f. f.1) (map (as_file name.entry.now) (map kept_lines sifted.excerpts.items))) }
        ensures lengths { OnOk result (self.new.lengths.items
            ≡ self.old.lengths.items ++ sifted.length ∷ []) }
        ensures left { OnOk result (self.new.left + sifted.length ≡ self.old.left) }
        ensures splits { OnOk result (self.new.splits
            ≡ self.old.splits + (sifted.length + size - 1) / size) }
        ensures small { OnOk result (self.new.splits + self.new.left ≤ 2 ^ 30) }
    {
        self.lengths.push(sifted.length)?;
        self.left -= sifted.length;
        self.splits += split_count(sifted.length, size);
        add_excerpts(
            name.as_bytes(),
            sifted.excerpts,
            &mut self.sources,
            &mut self.excerpts,
        )
    }
}

/// Reads each file in turn, within what those before it leave of the limit of bytes. Then it tests
/// the number of files, and that of their splits.
fn sift_files<'n, S: Store>(
    store: &S,
    alloc: Global,
    request: &Request,
    names: &[&'n str],
    wanted: Wanted<'_>,
) -> Result<SiftedFiles<'n>, Fault>
    ensures sifted { IfOk result (λ s. (most : ℕ) × (length names.now * most ≤ 1024)
        × HasSifted (S.holds store.now) (IsUnwanted request.now.job wanted.entry) request.now.split
        most (map (λ s. s.now) names.now) s) }
    ensures fits { IfOk result (λ s. s.splits ≤ 2 ^ 20) }
    ensures refused { IfErr result (IsInputRefusal (S.holds store.now) (S.unreadable store.now)
        (S.known_as store.now) (whole_stretch (map (λ s. s.now) names.now))
        (map (λ s. s.now) names.now) [] request.now.split) }
{
    let most = most_of_each(names.len());
    let mut files = SiftedFiles {
        sources: Vec::new(alloc),
        excerpts: Vec::new(alloc),
        lengths: Vec::new(alloc),
        left: MAX_BYTES as u64,
        splits: 0,
    };
    for (file, name) in names.iter().enumerate() {
        match sift_file(store, alloc, name, request.job(), wanted, files.left, most) {
            Ok(sifted) => files.add(name, sifted, request.split_size())?,
            Err(fault) => return Err(fault_of(UnreadStretch { file, fault })),
        }
    }
    if names.len() > MAX_FILES {
        return Err(Fault::Input(InputFault::TooManyFiles));
    }
    if files.splits > MAX_SPLITS as u64 {
        return Err(Fault::TooManySplits);
    }
    Ok(files)
}

/// Tests the request, and sifts its files. Refusals are those of the whole files as an input.
pub(crate) fn sift_input<'n, S: Store>(
    store: &S,
    alloc: Global,
    options: &Options<'n>,
    wanted: Wanted<'_>,
) -> Result<SiftedRun<'n>, Fault>
    requires { TakesAll options.now }
    ensures run { IfOk result (IsSiftedRun (S.holds store.now) options.now wanted.entry) }
    ensures refused { IfErr result (IsRunInputRefusal (S.holds store.now)
        (S.unreadable store.now) (S.known_as store.now) options.now [] []) }
{
    let request = request_of(alloc, options)?;
    let files = sift_files(store, alloc, &request, options.files.as_slice(), wanted)?;
    let (sources, lengths) = (files.sources, files.lengths);
    match Input::of(files.excerpts) {
        Ok(input) => Ok(SiftedRun {
            request,
            sources,
            input,
            lengths,
        }),
        // What is kept is no more than the files, which are an input.
        Err(fault) => Err(Fault::Input(fault)),
    }
}
