//! Values with their names: what pairs have beside their keys.
ghost use Rattle.std.specs.Prelude.{◌≡◌, ◌++◌, ◌∷◌, [], ◌<◌, OnOk, OnErr, length, take};
ghost use Rattle.mr_spill.specs.Entries.{nth_entry};

use mr_bytes::{Name, Value, ValueColumn};
use std::alloc::{AllocError, Global};
use std::marker::Model;

#[derive(Drop)]
pub(crate) struct Entries {
    pub(crate) values: ValueColumn,
    pub(crate) names: Vec<Name>,
}

impl Model for Entries {
    ghost use Rattle.std.specs.Prelude.{◌≡◌, List, length};
    ghost use Rattle.std.specs.List.{zip};
    ghost use Rattle.mr_spill.specs.Entries.{Entry};

    ghost Value = { List Entry };

    ghost view = { λ e. zip e.values e.names.items };

    ghost invariant = { λ e. length e.values ≡ length e.names.items };
}

impl Entries {
    pub fn new(alloc: Global) -> Entries
        ensures { result ≡ [] }
    {
        Entries {
            values: ValueColumn::new(alloc),
            names: Vec::new(alloc),
        }
    }

    /// Makes room for `more` names.
    pub fn reserve(&mut self, more: usize) -> Result<(), AllocError>
        ensures { self.new ≡ self.old }
    {
        self.names.reserve(more)
    }

    pub fn len(&self) -> usize
        ensures { result ≡ length self.now }
    {
        self.names.len()
    }

    /// Value `i`, from 0, and its name.
    pub fn get(&self, i: usize) -> (Value, Name)
        requires { i < length self.now }
        ensures { result ≡ nth_entry self.now i }
    {
        (self.value(i), self.name(i))
    }

    pub fn value(&self, i: usize) -> Value
        requires { i < length self.now }
        ensures { result ≡ (nth_entry self.now i).0 }
    {
        self.values.get(i)
    }

    /// The name of value `i`, from 0.
    pub fn name(&self, i: usize) -> Name
        requires { i < length self.now }
        ensures { result ≡ (nth_entry self.now i).1 }
    {
        self.names[i]
    }

    /// Appends a value. Fails only for want of memory, and then nothing has changed.
    #[inline(always)]
    pub fn push(&mut self, value: Value, name: Name) -> Result<(), AllocError>
        ensures ok { OnOk result (self.new ≡ self.old ++ (value, name) ∷ []) }
        ensures err { OnErr result (self.new ≡ self.old) }
    {
        self.names.reserve(1)?;
        self.values.push(value)?;
        self.names.push_reserved(name);
        Ok(())
    }

    /// Keeps only the first `count` entries.
    pub fn truncate(&mut self, count: usize)
        ensures { self.new ≡ take count self.old }
    {
        self.values.truncate(count);
        self.names.truncate(count);
    }

    /// Empties the lists, and keeps their memory.
    pub fn clear(&mut self)
        ensures { self.new ≡ [] }
    {
        self.values.clear();
        self.names.clear();
    }
}
