//! Readers of a result's files that keep the files' names.
//!
//!     parts         [ name, reader, failures ]  for each, in order
//!     certificate   [ name, reader, failures ]
//!
//! A judge that reads reports only that some read failed. Whoever made the readers then finds the
//! one with failures, and its name and cause (`fault`). What follows from a failed read
//! (`ReadCause`) is part of the reader's type, so no code between needs a clause about it. All
//! files are tried before any is read. A disk's reader opens at its first read and closes at its
//! end, so a judge that reads the parts in turn has one part and the certificate open.
//! Cost: a name and a count for each file; no bytes are held.
ghost use Rattle.std.specs.Prelude.{◌≡◌, ⊤, ℕ, List, string_bytes, IfOk, IfErr, map, get_or};
ghost use Rattle.mr_files.specs.Refusals.{ReportsCause, IsOneUnread, IsUnread, IsUnreadAmong};
ghost use Rattle.mr_files.specs.Holding.{Agrees, AllAgree, Holding};
ghost use Rattle.mr_files.specs.Names.{part_names, name_of_part, name_of_certificate, result_names};

use crate::names::part_name;
use crate::reading::{fault_of, try_result};
use crate::store::{FileFault, Store};
use mr_store::{CountedRead, Device, ReadFault};
use std::alloc::{AllocError, Global};
use std::marker::{Brand, Model, PhantomData};

/// What follows when a read fails for another cause than want of memory. It is part of a reader's
/// type, so code over readers can't lose it. Whoever makes the readers chooses it.
pub trait ReadCause {
    ghost cause: { List ℕ → Type 0 };
}

impl ReadCause for Brand {
    ghost cause = { λ _. ⊤ };
}

/// A reader of a named file. It counts failed reads and keeps whether one ran out of memory.
#[derive(Drop)]
pub struct NamedReader<R: CountedRead + Drop, C: ReadCause> {
    name: String,
    reader: R,
    failures: u64,
    lacked_memory: bool,
    of: PhantomData<C>,
}

impl<R: CountedRead + Drop, C: ReadCause> Model for NamedReader<R, C> {
    ghost use Rattle.std.specs.Prelude.{◌≡◌, ◌⊎◌, true, string_bytes};
    ghost use Rattle.mr_files.specs.Named.{Named};

    ghost Value = { Named R };

    ghost view = { λ n. record { name = string_bytes n.name; reader = n.reader; failed = n.failures; lacked = n.lacked_memory } };

    ghost invariant = { λ n. record {
      can_fail : R.can_fail n.reader → C.cause (string_bytes n.name);
      did_fail : (n.failures ≡ 0) ⊎ ((n.lacked_memory ≡ true) ⊎ C.cause (string_bytes n.name));
    } };
}

impl<R: CountedRead + Drop, C: ReadCause> NamedReader<R, C> {
    pub fn new(name: String, reader: R) -> NamedReader<R, C>
        requires { R.can_fail reader → C.cause (string_bytes name) }
        ensures name { result.name ≡ string_bytes name }
        ensures reader { result.reader ≡ reader }
        ensures failed { result.failed ≡ 0 }
    {
        NamedReader {
            name,
            reader,
            failures: 0,
            lacked_memory: false,
            of: PhantomData,
        }
    }

    /// Why a read failed.
    pub fn fault(&self, alloc: Global) -> FileFault
        requires { self.now.failed ≡ 0 → ⊥ }
        ensures { ReportsCause C.cause result }
    {
        if self.lacked_memory {
            return FileFault::OutOfMemory;
        }
        fault_of(alloc, self.name.as_str(), ReadFault::Device)
    }
}

impl<R: CountedRead + Drop, C: ReadCause> CountedRead for NamedReader<R, C> {
    ghost remaining = { λ n. R.remaining n.reader };

    ghost failed = { λ n. n.failed };

    ghost can_fail = { λ n. R.can_fail n.reader };

    ghost lacked = { λ n. n.lacked };

    fn read(&mut self, buffer: &mut [u8]) -> Result<usize, Device> {
        match self.reader.read(buffer) {
            Ok(count) => Ok(count),
            Err(fault) => {
                self.failures = self.failures.wrapping_add(1);
                self.lacked_memory = self.lacked_memory || self.reader.is_out_of_memory();
                Err(fault)
            }
        }
    }

    fn failures(&self) -> u64 {
        let _known = self.reader.failures();
        self.failures
    }

    fn is_out_of_memory(&self) -> bool {
        self.lacked_memory
    }
}

/// Readers of a result's files, the parts in order.
#[derive(Drop)]
pub struct ResultReaders<R: CountedRead + Drop, C: ReadCause> {
    pub parts: Vec<NamedReader<R, C>>,
    pub certificate: NamedReader<R, C>,
}

fn named_reader<S: Store, C: ReadCause>(
    store: &S,
    alloc: Global,
    name: String,
) -> Result<NamedReader<S::Reader, C>, FileFault>
    requires cause { S.unreadable store.now (string_bytes name) → C.cause (string_bytes name) }
    ensures bytes { IfOk result (λ r. (b : List ℕ) → Agrees (S.Reader.remaining r.reader) b
        → S.holds store.now (string_bytes name) b) }
    ensures failed { IfOk result (λ r. r.failed ≡ 0) }
    ensures refused { IfErr result (λ e. IsUnread (S.unreadable store.now) (string_bytes name) e) }
{
    match store.reader(alloc, name.as_str()) {
        Ok(reader) => Ok(NamedReader::new(name, reader)),
        Err(fault) => Err(fault_of(alloc, name.as_str(), fault)),
    }
}

/// Readers of the parts, in order, and of the certificate. It opens each file before any is read:
/// it reports a missing file before an unreadable one. `C.cause` may say that a file whose read
/// fails is one of the result's and can't be read.
pub fn result_readers<S: Store, C: ReadCause>(
    store: &S,
    alloc: Global,
    dir: &str,
    parts: usize,
) -> Result<ResultReaders<S::Reader, C>, FileFault>
    requires cause { (n : List ℕ)
        → IsUnreadAmong (S.unreadable store.now) (result_names dir.now parts) n → C.cause n }
    ensures outputs { IfOk result (λ r. (outs : List (List ℕ))
        → AllAgree (map (λ x. S.Reader.remaining x.reader) r.parts.items) outs
        → Holding (S.holds store.now) (part_names dir.now parts) outs) }
    ensures certificate { IfOk result (λ r. (b : List ℕ) → Agrees (S.Reader.remaining r.certificate.reader) b
        → S.holds store.now (name_of_certificate dir.now) b) }
    ensures failed { IfOk result (λ r. ((p : ℕ)
        → get_or (map (λ x. x.failed) r.parts.items) p 0 ≡ 0) × (r.certificate.failed ≡ 0)) }
    ensures refused { IfErr result
        (λ e. IsOneUnread (S.unreadable store.now) (result_names dir.now parts) e) }
{
    let last = try_result(store, alloc, dir, parts)?;
    let mut readers = Vec::new(alloc);
    for part in 0..parts {
        let name = part_name(alloc, dir, part)?;
        let reader = named_reader(store, alloc, name)?;
        readers.push(reader).map_err(AllocError::from)?;
    }
    Ok(ResultReaders {
        parts: readers,
        certificate: named_reader(store, alloc, last)?,
    })
}
