//! Regions in files, one file each, named by worker and number; and who opens such stores.
//!
//! No clause of std says what a file contains. So read this code: a region is written under the
//! name that is read later.
ghost use Rattle.std.specs.Prelude.{◌≡◌, ◌<◌, false, vec_len, IfOk};

use crate::store::{GetFault, MemoryStore, PutFault, RegionStore};
use mr_store::{Counted, CountedWrite, read_all, write_all};
use std::alloc::{AllocError, Global};
use std::fs::{File, TryLockError};
use std::io::{self, ErrorKind};
use std::rt::Files;
use std::sync::Wait;
use std::sync::atomic::{AtomicU64, Ordering};
use thiserror::Error;

/// Regions in files `region-WW-NNNNNNNN` of an existing directory. It overwrites files, and removes
/// none. It takes no lock: each worker draws its numbers from one word, so no file is shared.
#[derive(Drop)]
pub struct DirStore<'a, R: Files> {
    rt: &'a R,
    alloc: Global,
    dir: String,
    next: Vec<AtomicU64>,
    /// While this file is open, its lock keeps the directory for this store.
    lock: Option<File>,
    ghost some: { 0 < vec_len next },
}

fn zeros(alloc: Global, workers: u32) -> Result<Vec<AtomicU64>, AllocError>
    ensures { IfOk result (λ v. vec_len v ≡ workers) }
{
    let mut words = Vec::with_capacity(alloc, workers as usize)?;
    for _ in 0..workers {
        words.push(AtomicU64::new(0))?;
    }
    Ok(words)
}

/// Whether a failed call of a file was refused memory.
pub(crate) fn is_for_memory(error: &io::Error) -> bool {
    error.kind() == ErrorKind::OutOfMemory
}

impl<'a, R: Files> DirStore<'a, R> {
    /// A store for regions of `workers` workers in this directory. Opens no file.
    pub fn new(
        rt: &'a R,
        alloc: Global,
        dir: &str,
        workers: u32,
    ) -> Result<DirStore<'a, R>, AllocError>
        requires { 0 < workers }
    {
        let next = zeros(alloc, workers)?;
        let dir = String::from_str(alloc, dir)?;
        Ok(DirStore {
            rt,
            alloc,
            dir,
            next,
            lock: None,
        })
    }

    /// The word of the worker's next number; worker numbers past the count share words.
    fn word(&self, worker: u32) -> &AtomicU64 {
        let at = worker as usize % self.next.len();
        &self.next[at]
    }

    fn name(&self, worker: u32, number: u64) -> Result<String, AllocError> {
        let dir = self.dir.as_str();
        format!(in self.alloc; "{dir}/region-{worker:02}-{number:08}")
    }

    fn create(&self, name: &str) -> Result<Counted<R::File>, PutFault> {
        match File::create(self.rt, name) {
            Ok(file) => Ok(Counted::of(file)),
            Err(error) if is_for_memory(&error) => Err(PutFault::OutOfMemory),
            Err(_) => Err(PutFault::Device),
        }
    }

    fn open(&self, name: &str) -> Result<Counted<R::File>, GetFault> {
        match File::open(self.rt, name) {
            Ok(file) => Ok(Counted::of(file)),
            Err(error) if is_for_memory(&error) => Err(GetFault::OutOfMemory),
            Err(_) => Err(GetFault::Device),
        }
    }
}

impl<'a, R: Files + Sync> RegionStore for DirStore<'a, R> {
    ghost steady = { false };

    fn is_steady() -> bool {
        false
    }

    fn put(&self, worker: u32, bytes: &[u8]) -> Result<u64, PutFault> {
        let number = self.word(worker).fetch_add(1, Ordering::SeqCst);
        let name = self.name(worker, number)?;
        let mut file = self.create(name.as_str())?;
        match write_all(&mut file, bytes) {
            Ok(()) => Ok(number),
            Err(_) if CountedWrite::is_out_of_memory(&file) => Err(PutFault::OutOfMemory),
            Err(_) => Err(PutFault::Device),
        }
    }

    fn get(&self, worker: u32, number: u64, into: &mut Vec<u8>) -> Result<(), GetFault> {
        if self.word(worker).load(Ordering::SeqCst) <= number {
            return Err(GetFault::NoRegion);
        }
        let name = self.name(worker, number)?;
        let mut file = self.open(name.as_str())?;
        read_all(&mut file, into)?;
        Ok(())
    }
}

/// Why no store is opened in a directory.
#[derive(Clone, Copy, Debug, PartialEq, Eq, Drop, Error)]
pub enum ScratchFault {
    /// Another run keeps its regions there.
    #[error("ScratchInUse")]
    InUse,
    #[error("OutOfMemory")]
    OutOfMemory,
}

impl From<AllocError> for ScratchFault {
    ghost use Rattle.mr_spill.specs.declared.dir_store.ScratchFault.TheVariants.{OutOfMemory as told_memory};

    ghost from_gives = { λ _ f. f ≡ told_memory };

    fn from(_fault: AllocError) -> ScratchFault {
        ScratchFault::OutOfMemory
    }
}

/// Opens stores of regions in directories. Code that is generic over it touches no other files.
pub trait Scratch {
    type Store: RegionStore + Drop;

    /// A store in the directory, for this number of workers.
    fn open(&self, alloc: Global, dir: &str, workers: u32) -> Result<Self::Store, ScratchFault>
        requires { 0 < workers };
}

/// Opens directories of the system. A store locks the file `regions.lock` in its directory. The
/// file stays; the lock ends with the program, however that ends.
#[derive(Drop)]
pub struct DiskScratch<'a, R: Files> {
    rt: &'a R,
}

impl<'a, R: Files<File = File>> DiskScratch<'a, R> {
    pub fn new(rt: &'a R) -> DiskScratch<'a, R> {
        DiskScratch { rt }
    }

    /// The locked file of the directory. If it can't be created, each `put` fails and reports so.
    fn lock(&self, alloc: Global, dir: &str) -> Result<Option<File>, ScratchFault> {
        let name = format!(in alloc; "{dir}/regions.lock")?;
        match File::create(self.rt, name.as_str()) {
            // A system without locks goes on without one.
            Ok(file) => match file.try_lock() {
                Err(TryLockError::WouldBlock) => Err(ScratchFault::InUse),
                _ => Ok(Some(file)),
            },
            Err(error) if is_for_memory(&error) => Err(ScratchFault::OutOfMemory),
            Err(_) => Ok(None),
        }
    }
}

impl<'a, R: Files<File = File> + Sync> Scratch for DiskScratch<'a, R> {
    type Store = DirStore<'a, R>;

    fn open(
        &self,
        alloc: Global,
        dir: &str,
        workers: u32,
    ) -> Result<DirStore<'a, R>, ScratchFault> {
        let lock = self.lock(alloc, dir)?;
        let mut store = DirStore::new(self.rt, alloc, dir, workers)?;
        store.lock = lock;
        Ok(store)
    }
}

/// Opens stores in memory instead of directories.
#[derive(Drop)]
pub struct MemoryScratch<'a, R: Wait> {
    rt: &'a R,
}

impl<'a, R: Wait> MemoryScratch<'a, R> {
    pub fn new(rt: &'a R) -> MemoryScratch<'a, R> {
        MemoryScratch { rt }
    }
}

impl<'a, R: Wait + Sync> Scratch for MemoryScratch<'a, R> {
    type Store = MemoryStore<'a, R>;

    fn open(
        &self,
        alloc: Global,
        _dir: &str,
        workers: u32,
    ) -> Result<MemoryStore<'a, R>, ScratchFault> {
        Ok(MemoryStore::new(self.rt, alloc, workers)?)
    }
}
