//! Pairs with their names, in columns.
//!
//!     keys     the cat the         each distinct key once, a few perhaps more often (`KeyColumn`)
//!     values   names               one each per pair; the `One` in front are only counted
ghost use Rattle.std.specs.Prelude.{◌≡◌, ◌-◌, ◌<◌, ◌++◌, ◌∷◌, [], IsTrue, OnOk};
ghost use Rattle.std.specs.Prelude.{OnErr, length};
ghost use Rattle.mr_spill.specs.Column.{nth_pair};
ghost use Rattle.mr_spill.specs.Cursor.{EndsWithKey, lent_pair};

use crate::cursor::RegionPair;
use crate::entries::Entries;
use mr_bytes::{Name, Value};
use mr_group::KeyColumn;
use std::alloc::{AllocError, Global};
use std::marker::Model;

/// Pairs with their names, in order. Over 4 Gi pairs fail as want of memory, and so do 4 GiB of
/// distinct keys.
#[derive(Drop)]
pub struct PairColumns {
    alloc: Global,
    pub(crate) keys: KeyColumn,
    pub(crate) entries: Entries,
}

impl Model for PairColumns {
    ghost use Rattle.std.specs.Prelude.{◌≡◌, ◌<◌, ◌^◌, List, length};
    ghost use Rattle.mr_bytes.specs.Pairs.{Triple};
    ghost use Rattle.mr_spill.specs.Entries.{beside};

    ghost Value = { List Triple };

    ghost view = { λ n. beside n.keys n.entries };

    ghost invariant = { λ n. record {
      same : length n.entries ≡ length n.keys;
      few : length n.keys < 2 ^ 32;
    } };
}

impl PairColumns {
    /// No pairs. Takes no memory.
    pub fn new(alloc: Global) -> PairColumns
        ensures { result ≡ [] }
    {
        PairColumns {
            alloc,
            keys: KeyColumn::new(alloc),
            entries: Entries::new(alloc),
        }
    }

    /// Makes room for `more` pairs. The pairs stay the same, even on failure.
    pub fn reserve(&mut self, more: usize) -> Result<(), AllocError>
        ensures { self.new ≡ self.old }
    {
        self.keys.reserve(more)?;
        self.entries.reserve(more)
    }

    pub fn len(&self) -> usize
        ensures { result ≡ length self.now }
    {
        self.keys.len()
    }

    /// The key of pair `i`, from 0.
    pub fn key(&self, i: usize) -> &[u8]
        requires { i < length self.now }
        ensures { result.now ≡ (nth_pair self.now i).key }
    {
        self.keys.get(i)
    }

    /// The value of pair `i`, from 0.
    pub fn value(&self, i: usize) -> Value
        requires { i < length self.now }
        ensures { result ≡ (nth_pair self.now i).value }
    {
        self.entries.value(i)
    }

    /// The name of pair `i`, from 0.
    pub fn name(&self, i: usize) -> Name
        requires { i < length self.now }
        ensures { result ≡ (nth_pair self.now i).name }
    {
        self.entries.name(i)
    }

    /// Appends a pair. Fails only for want of memory, and then the pairs stay the same. Inlined:
    /// callers have the name in registers, and a call would pass it over the stack in pieces.
    #[inline(always)]
    pub fn push(&mut self, key: &[u8], value: Value, name: Name) -> Result<(), AllocError>
        ensures ok { OnOk result (self.new
            ≡ self.old ++ record { key = key.now; value = value; name = name } ∷ []) }
        ensures err { OnErr result (self.new ≡ self.old) }
    {
        let count = self.keys.len();
        if count + 1 > u32::MAX as usize {
            return Err(AllocError);
        }
        self.entries.push(value, name)?;
        match self.keys.push(self.alloc, key) {
            Ok(()) => Ok(()),
            Err(error) => {
                self.entries.truncate(count);
                Err(error)
            }
        }
    }

    /// Appends a pair with the last pair's key, without a look-up. A failure changes nothing.
    #[inline(always)]
    pub(crate) fn push_again(&mut self, value: Value, name: Name) -> Result<(), AllocError>
        requires { 0 < length self.old }
        ensures ok { OnOk result (self.new ≡ self.old ++ record {
          key = (nth_pair self.old (length self.old - 1)).key;
          value = value;
          name = name;
        } ∷ []) }
        ensures err { OnErr result (self.new ≡ self.old) }
    {
        let count = self.keys.len();
        if count + 1 > u32::MAX as usize {
            return Err(AllocError);
        }
        self.entries.push(value, name)?;
        match self.keys.push_again() {
            Ok(()) => Ok(()),
            Err(error) => {
                self.entries.truncate(count);
                Err(error)
            }
        }
    }

    /// Removes all pairs, and keeps their memory.
    pub fn clear(&mut self)
        ensures { self.new ≡ [] }
    {
        self.keys.clear();
        self.entries.clear();
    }

    /// Appends a pair of a region; a repeated key needs no look-up. Fails only for want of memory.
    #[inline(always)]
    pub fn take(&mut self, pair: RegionPair<'_>) -> Result<(), AllocError>
        requires { IsTrue pair.again → EndsWithKey self.old pair.key.now }
        ensures pair { OnOk result (self.new ≡ self.old ++ lent_pair pair.entry ∷ []) }
        ensures last { OnOk result (EndsWithKey self.new pair.entry.key.now) }
    {
        if pair.again {
            return self.push_again(pair.value, pair.name);
        }
        self.push(pair.key, pair.value, pair.name)
    }
}
