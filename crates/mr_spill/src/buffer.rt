//! A buffer that a map task fills with pairs and seals into regions.
ghost use Rattle.std.specs.Prelude.{◌≡◌, ◌↔◌, ◌++◌, ◌∷◌, [], ◌<◌, ◌==◌, if◌then◌else◌, IfOk, IfErr};
ghost use Rattle.std.specs.Prelude.{OnOk, OnErr, length};
ghost use Rattle.mr_bytes.specs.Lists.{Rises};
ghost use Rattle.mr_bytes.specs.Order.{name_order};
ghost use Rattle.mr_partition.specs.Hosts.{partition_by};
ghost use Rattle.mr_spill.specs.Buffer.{Buffered};
ghost use Rattle.mr_spill.specs.Column.{names_of};
ghost use Rattle.mr_spill.specs.Regions.{regions};

use crate::pair_columns::PairColumns;
use crate::regions::cut;
use mr_bytes::{By, Name, Pair, Value};
use std::alloc::{AllocError, Global};
use std::marker::Model;
use thiserror::Error;

/// Pairs by rising name, up to a limit. Each distinct key is stored once, with a look-up per pair.
#[derive(Drop)]
pub struct Buffer {
    pub(crate) pairs: PairColumns,
    pub(crate) limit: usize,
}

impl Model for Buffer {
    ghost use Rattle.std.specs.Prelude.{length, ◌≤◌};
    ghost use Rattle.mr_bytes.specs.Lists.{Rises};
    ghost use Rattle.mr_bytes.specs.Order.{name_order};
    ghost use Rattle.mr_spill.specs.Buffer.{Buffered};
    ghost use Rattle.mr_spill.specs.Column.{names_of};

    ghost Value = { Buffered };

    ghost view = { λ b. record { limit = b.limit; pairs = b.pairs } };

    ghost invariant = { λ b. record {
      rise : Rises name_order (names_of b.pairs);
      within : length b.pairs ≤ b.limit;
    } };
}

/// Why the buffer rejects a pair, which it returns.
#[derive(Debug, Error, Drop)]
pub enum PushFault {
    #[error("BufferFull")]
    BufferFull(Pair),
    #[error("OutOfMemory")]
    OutOfMemory(Pair),
}

/// Why the buffer rejects a pair given by reference to its key.
#[derive(Clone, Copy, Debug, PartialEq, Eq, Error, Drop)]
pub enum PushKeyFault {
    #[error("BufferFull")]
    BufferFull,
    #[error("OutOfMemory")]
    OutOfMemory,
}

ghost use Rattle.mr_spill.specs.declared.buffer.PushFault.{PushFault};
ghost use Rattle.mr_spill.specs.declared.buffer.PushFault.TheVariants.{BufferFull as Full};
ghost use Rattle.mr_spill.specs.declared.buffer.PushFault.TheVariants.{OutOfMemory as NoRoom};
ghost use Rattle.mr_spill.specs.declared.buffer.PushKeyFault.{PushKeyFault};
ghost use Rattle.mr_spill.specs.declared.buffer.PushKeyFault.TheVariants.{BufferFull, OutOfMemory};

impl Buffer {
    /// An empty buffer for up to `limit` pairs. Takes no memory.
    pub fn new(alloc: Global, limit: usize) -> Buffer
        ensures { result ≡ record { limit = limit; pairs = [] } }
    {
        Buffer {
            pairs: PairColumns::new(alloc),
            limit,
        }
    }

    /// How many pairs it holds.
    pub fn len(&self) -> usize
        ensures { result ≡ length self.now.pairs }
    {
        self.pairs.len()
    }

    /// Appends a pair with a copied key; its name follows all before. A failure changes nothing.
    #[inline(always)]
    pub fn push_key(&mut self, key: &[u8], value: Value, name: Name) -> Result<(), PushKeyFault>
        requires { Rises name_order (names_of self.old.pairs ++ name ∷ []) }
        ensures ok { OnOk result (self.new
            ≡ record {
              limit = self.old.limit;
              pairs = self.old.pairs
                  ++ record { key = key.now; value = value; name = name } ∷ [];
            }) }
        ensures err { OnErr result (self.new ≡ self.old) }
        ensures full { IfErr result
            (λ e. (e ≡ BufferFull) ↔ (length self.old.pairs ≡ self.old.limit)) }
        ensures room { OnOk result (length self.old.pairs < self.old.limit) }
    {
        if self.pairs.len() == self.limit {
            return Err(PushKeyFault::BufferFull);
        }
        match self.pairs.push(key, value, name) {
            Ok(()) => Ok(()),
            Err(_) => Err(PushKeyFault::OutOfMemory),
        }
    }

    /// Appends a pair; its name follows all before. A failure returns it, and changes nothing.
    pub fn push(&mut self, pair: Pair) -> Result<(), PushFault>
        requires { Rises name_order (names_of self.old.pairs ++ pair.name ∷ []) }
        ensures ok { OnOk result (self.new
            ≡ record { limit = self.old.limit; pairs = self.old.pairs ++ pair ∷ [] }) }
        ensures err { OnErr result (self.new ≡ self.old) }
        ensures back { IfErr result (λ e. e
            ≡ (if length self.old.pairs == self.old.limit then Full pair else NoRoom pair)) }
        ensures room { OnOk result (length self.old.pairs < self.old.limit) }
    {
        match self.push_key(pair.key.as_slice(), pair.value, pair.name) {
            Ok(()) => Ok(()),
            Err(PushKeyFault::BufferFull) => Err(PushFault::BufferFull(pair)),
            Err(PushKeyFault::OutOfMemory) => Err(PushFault::OutOfMemory(pair)),
        }
    }

    /// Empties the buffer into a region per partition, in order, each sorted by key and then name.
    /// Fails only for want of memory, and then leaves the buffer as it was.
    pub fn seal(
        &mut self,
        alloc: Global,
        parts: u32,
        by: By,
    ) -> Result<Vec<PairColumns>, AllocError>
        requires { 0 < parts }
        ensures ok { IfOk result
            (λ v. v.items ≡ regions (λ k. partition_by by k parts) parts self.old.pairs) }
        ensures empty { OnOk result (self.new ≡ record { limit = self.old.limit; pairs = [] }) }
        ensures err { OnErr result (self.new ≡ self.old) }
    {
        let regions = cut(alloc, &self.pairs, by, parts)?;
        self.pairs.clear();
        Ok(regions)
    }
}
