//! Stores of regions, and the one that keeps them in memory.
ghost use Rattle.std.specs.Prelude.{◌≡◌, ◌≢◌, Bool, true, IfErr, OnErr, OnOk, ◌<◌, vec_len, IfOk};
ghost use Rattle.mr_spill.specs.Stores.{Grows};
ghost use Rattle.mr_spill.specs.declared.store.PutFault.{PutFault};
ghost use Rattle.mr_spill.specs.declared.store.GetFault.{GetFault};

use mr_store::ReadFault;
use std::alloc::{AllocError, Global};
use std::sync::{Arc, Mutex, Wait};
use thiserror::Error;

/// Why a region was not stored.
#[derive(Clone, Copy, Debug, PartialEq, Eq, Drop, Error)]
pub enum PutFault {
    #[error("Device")]
    Device,
    #[error("OutOfMemory")]
    OutOfMemory,
}

impl From<AllocError> for PutFault {
    ghost use Rattle.mr_spill.specs.declared.store.PutFault.TheVariants.{OutOfMemory as no_memory};

    ghost from_gives = { λ _ f. f ≡ no_memory };

    fn from(_fault: AllocError) -> PutFault {
        PutFault::OutOfMemory
    }
}

/// Why a region was not returned.
#[derive(Clone, Copy, Debug, PartialEq, Eq, Drop, Error)]
pub enum GetFault {
    #[error("Device")]
    Device,
    #[error("OutOfMemory")]
    OutOfMemory,
    /// The worker has stored no region of this number.
    #[error("NoRegion")]
    NoRegion,
}

impl From<AllocError> for GetFault {
    ghost use Rattle.mr_spill.specs.declared.store.GetFault.TheVariants.{OutOfMemory as no_memory};

    ghost from_gives = { λ _ f. f ≡ no_memory };

    fn from(_fault: AllocError) -> GetFault {
        GetFault::OutOfMemory
    }
}

impl From<ReadFault> for GetFault {
    fn from(fault: ReadFault) -> GetFault {
        match fault {
            ReadFault::Device => GetFault::Device,
            ReadFault::OutOfMemory => GetFault::OutOfMemory,
        }
    }
}

/// A store of regions that threads share. It numbers each worker's regions from 0, in the order of
/// `put`. Nothing is promised of the bytes that `get` appends: the reader tests them.
pub trait RegionStore: Sync {
    // No device is involved.
    ghost steady: { Bool };

    /// Whether no device is involved, so that no call returns `Device`. A function, because a
    /// clause can't read a constant of a type with parameters.
    fn is_steady() -> bool
        ensures { result ≡ steady };

    /// Stores the bytes of a region for the worker, and returns its number.
    fn put(&self, worker: u32, bytes: &[u8]) -> Result<u64, PutFault>
        ensures steady { IfErr result (λ e. steady ≡ true → e ≢ PutFault.Device) };

    /// Stores a region that it takes over, which a store in memory need not copy.
    fn put_owned(&self, worker: u32, bytes: Vec<u8>) -> Result<u64, PutFault>
        ensures steady { IfErr result (λ e. steady ≡ true → e ≢ PutFault.Device) }
    {
        self.put(worker, bytes.as_slice())
    }

    /// Appends the worker's region of this number. A failure leaves the list as it was.
    fn get(&self, worker: u32, number: u64, into: &mut Vec<u8>) -> Result<(), GetFault>
        ensures steady { IfErr result (λ e. steady ≡ true → e ≢ GetFault.Device) }
        ensures ok { OnOk result (Grows into.old.items into.new.items) }
        ensures err { OnErr result (into.new.items ≡ into.old.items) };
}

impl<S: RegionStore> RegionStore for &S {
    ghost steady = { S.steady };

    fn is_steady() -> bool {
        S::is_steady()
    }

    fn put(&self, worker: u32, bytes: &[u8]) -> Result<u64, PutFault> {
        (**self).put(worker, bytes)
    }

    fn put_owned(&self, worker: u32, bytes: Vec<u8>) -> Result<u64, PutFault> {
        (**self).put_owned(worker, bytes)
    }

    fn get(&self, worker: u32, number: u64, into: &mut Vec<u8>) -> Result<(), GetFault> {
        (**self).get(worker, number, into)
    }
}

/// A worker's regions by number, under a lock of their own.
type Shelf = Mutex<Vec<Arc<Vec<u8>>>>;

/// Regions in memory. It holds a worker's lock to look up or push, never while bytes are copied.
#[derive(Drop)]
pub struct MemoryStore<'a, R: Wait> {
    rt: &'a R,
    alloc: Global,
    shelves: Vec<Shelf>,
    ghost some: { 0 < vec_len shelves },
}

fn empty_shelves(alloc: Global, workers: u32) -> Result<Vec<Shelf>, AllocError>
    ensures { IfOk result (λ v. vec_len v ≡ workers) }
{
    let mut shelves = Vec::with_capacity(alloc, workers as usize)?;
    for _ in 0..workers {
        shelves.push(Mutex::new(Vec::new(alloc)))?;
    }
    Ok(shelves)
}

impl<'a, R: Wait> MemoryStore<'a, R> {
    /// No regions, for this number of workers.
    pub fn new(rt: &'a R, alloc: Global, workers: u32) -> Result<MemoryStore<'a, R>, AllocError>
        requires { 0 < workers }
    {
        let shelves = empty_shelves(alloc, workers)?;
        Ok(MemoryStore { rt, alloc, shelves })
    }

    /// The worker's shelf; worker numbers past the count share shelves.
    fn shelf(&self, worker: u32) -> &Shelf {
        let at = worker as usize % self.shelves.len();
        &self.shelves[at]
    }

    fn shared(&self, worker: u32, number: u64) -> Result<Option<Arc<Vec<u8>>>, AllocError> {
        let regions = self.shelf(worker).lock(self.rt);
        match regions.get(number as usize) {
            Some(region) => Ok(Some(Arc::try_clone(region)?)),
            None => Ok(None),
        }
    }
}

impl<'a, R: Wait + Sync> RegionStore for MemoryStore<'a, R> {
    ghost steady = { true };

    fn is_steady() -> bool {
        true
    }

    fn put(&self, worker: u32, bytes: &[u8]) -> Result<u64, PutFault> {
        self.put_owned(worker, Vec::from_slice(self.alloc, bytes)?)
    }

    fn put_owned(&self, worker: u32, bytes: Vec<u8>) -> Result<u64, PutFault> {
        let region = Arc::new(self.alloc, bytes).map_err(|_| PutFault::OutOfMemory)?;
        let mut regions = self.shelf(worker).lock(self.rt);
        let number = regions.len() as u64;
        regions.push(region).map_err(|_| PutFault::OutOfMemory)?;
        Ok(number)
    }

    fn get(&self, worker: u32, number: u64, into: &mut Vec<u8>) -> Result<(), GetFault> {
        let Some(region) = self.shared(worker, number)? else {
            return Err(GetFault::NoRegion);
        };
        into.extend_from_slice(region.as_slice())?;
        Ok(())
    }
}
