//! Reads whole files, also with a limit on the bytes of each.
//!
//! A limit reads one byte past itself at most, so a file without an end is refused. A result's
//! files are all tried first, so a missing one is reported before an unreadable one. A fault names
//! the first file that can't be read; want of memory is a fault of its own.
//! Cost: the bytes that are read, all held.
ghost use Rattle.std.specs.Prelude.{IfOk, IfErr, ◌≡◌, ◌≤◌, length, string_bytes};
ghost use Rattle.mr_files.specs.Names.{name_of_part, result_names, name_of_certificate, part_names};
ghost use Rattle.mr_files.specs.Refusals.{IsUnread, IsOneUnread, IsFault, IsOneUnreadWithin};
ghost use Rattle.mr_files.specs.Refusals.{IsUnreadWithin};
ghost use Rattle.std.specs.List.{AllByRecursion};
ghost use Rattle.mr_input.specs.Files.{contents};
ghost use Rattle.mr_files.specs.Holding.{Agrees, Holding};

use crate::names::{certificate_name, part_name};
use crate::store::{FileFault, Store};
use mr_store::{CountedRead, LimitedFault, ReadFault, read_all, read_limited};
use std::alloc::{AllocError, Global};

pub(crate) fn fault_of(alloc: Global, name: &str, fault: ReadFault) -> FileFault
    ensures { IsFault name.now fault result }
{
    match fault {
        ReadFault::OutOfMemory => FileFault::OutOfMemory,
        ReadFault::Device => match String::from_str(alloc, name) {
            Ok(name) => FileFault::CannotRead(name),
            Err(_) => FileFault::OutOfMemory,
        },
    }
}

/// All bytes of the file of that name.
pub fn read_file<S: Store>(store: &S, alloc: Global, name: &str) -> Result<Vec<u8>, FileFault>
    ensures bytes { IfOk result (λ v. S.holds store.now name.now v.items) }
    ensures refused { IfErr result (λ e. IsUnread (S.unreadable store.now) name.now e) }
{
    let mut reader = match store.reader(alloc, name) {
        Ok(reader) => reader,
        Err(fault) => return Err(fault_of(alloc, name, fault)),
    };
    let mut bytes = Vec::new(alloc);
    match read_all(&mut reader, &mut bytes) {
        Ok(()) => Ok(bytes),
        Err(_) if reader.is_out_of_memory() => Err(FileFault::OutOfMemory),
        Err(fault) => Err(fault_of(alloc, name, fault)),
    }
}

fn try_file<S: Store>(store: &S, alloc: Global, name: &str) -> Result<(), FileFault>
    ensures { IfErr result (λ e. IsUnread (S.unreadable store.now) name.now e) }
{
    match store.try_open(name) {
        Ok(()) => Ok(()),
        Err(fault) => Err(fault_of(alloc, name, fault)),
    }
}

/// Tries to open each file of a result, in order. Returns the certificate's name.
pub(crate) fn try_result<S: Store>(
    store: &S,
    alloc: Global,
    dir: &str,
    parts: usize,
) -> Result<String, FileFault>
    ensures last { IfOk result (λ name. string_bytes name ≡ name_of_certificate dir.now) }
    ensures refused { IfErr result
        (λ e. IsOneUnread (S.unreadable store.now) (result_names dir.now parts) e) }
{
    for part in 0..parts {
        let name = part_name(alloc, dir, part)?;
        try_file(store, alloc, name.as_str())?;
    }
    let last = certificate_name(alloc, dir)?;
    try_file(store, alloc, last.as_str())?;
    Ok(last)
}

/// Why files with a limit were not read.
#[derive(Drop)]
pub enum LimitFault {
    File(FileFault),
    /// There are more bytes than the limit.
    TooLong,
}

impl From<FileFault> for LimitFault {
    ghost use Rattle.mr_files.specs.declared.reading.LimitFault.TheVariants.{File};

    ghost from_gives = { λ e f. f ≡ File e };

    fn from(fault: FileFault) -> LimitFault {
        LimitFault::File(fault)
    }
}

impl From<AllocError> for LimitFault {
    ghost use Rattle.mr_files.specs.declared.reading.LimitFault.TheVariants.{File};
    ghost use Rattle.mr_files.specs.declared.store.FileFault.TheVariants.{OutOfMemory};

    ghost from_gives = { λ _ f. f ≡ File OutOfMemory };

    fn from(_fault: AllocError) -> LimitFault {
        LimitFault::File(FileFault::OutOfMemory)
    }
}

/// The bytes that the file's reader has left, at most `limit`. It reads at most one byte past it.
pub(crate) fn read_rest<R: CountedRead>(
    reader: &mut R,
    alloc: Global,
    name: &str,
    limit: u64,
) -> Result<Vec<u8>, LimitFault>
    ensures bytes { IfOk result (λ v. Agrees (R.remaining reader.old) v.items) }
    ensures within { IfOk result (λ v. length v.items ≤ limit) }
    ensures refused { IfErr result (λ e. IsUnreadWithin (λ _ b. Agrees (R.remaining reader.old) b)
        (λ _. R.can_fail reader.old) name.now limit e) }
{
    let mut bytes = Vec::new(alloc);
    match read_limited(reader, &mut bytes, limit) {
        Ok(()) => Ok(bytes),
        Err(LimitedFault::TooLong) => Err(LimitFault::TooLong),
        Err(LimitedFault::Device) if !reader.is_out_of_memory() => Err(LimitFault::File(fault_of(
            alloc,
            name,
            ReadFault::Device,
        ))),
        Err(_) => Err(LimitFault::File(FileFault::OutOfMemory)),
    }
}

/// The bytes of the file of that name, at most `limit`. It reads at most one byte past the limit.
#[tactic(auto, using(crate::proofs::RangeLemmas::unread_within))]
pub fn read_file_within<S: Store>(
    store: &S,
    alloc: Global,
    name: &str,
    limit: u64,
) -> Result<Vec<u8>, LimitFault>
    ensures bytes { IfOk result (λ v. S.holds store.now name.now v.items) }
    ensures within { IfOk result (λ v. length v.items ≤ limit) }
    ensures refused { IfErr result
        (λ e. IsUnreadWithin (S.holds store.now) (S.unreadable store.now) name.now limit e) }
{
    match store.reader(alloc, name) {
        Ok(mut reader) => read_rest(&mut reader, alloc, name, limit),
        Err(fault) => Err(LimitFault::File(fault_of(alloc, name, fault))),
    }
}

/// The bytes of the parts, in order, and of the certificate, each at most `limit`. It opens each
/// file before it reads any: it reports a missing file before an unreadable one. It reads at most
/// one byte past the limit of a file.
pub fn read_result_within<S: Store>(
    store: &S,
    alloc: Global,
    dir: &str,
    parts: usize,
    limit: u64,
) -> Result<(Vec<Vec<u8>>, Vec<u8>), LimitFault>
    ensures outputs { IfOk result
        (λ r. Holding (S.holds store.now) (part_names dir.now parts) (contents r.0.items)) }
    ensures certificate { IfOk result (λ r. S.holds store.now (name_of_certificate dir.now) r.1.items) }
    ensures within { IfOk result (λ r. AllByRecursion (λ b. length b ≤ limit) (contents r.0.items)
        × (length r.1.items ≤ limit)) }
    ensures refused { IfErr result (λ e. IsOneUnreadWithin (S.holds store.now)
        (S.unreadable store.now) (result_names dir.now parts) limit e) }
{
    let last = try_result(store, alloc, dir, parts)?;
    let mut outputs = Vec::new(alloc);
    for part in 0..parts {
        let name = part_name(alloc, dir, part)?;
        let bytes = read_file_within(store, alloc, name.as_str(), limit)?;
        outputs.push(bytes).map_err(AllocError::from)?;
    }
    let certificate = read_file_within(store, alloc, last.as_str(), limit)?;
    Ok((outputs, certificate))
}
