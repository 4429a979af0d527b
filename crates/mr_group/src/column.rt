//! The keys of pairs in their order, each key stored once: four bytes a pair.
ghost use Rattle.std.specs.Prelude.{◌≡◌, ◌<◌, ◌-◌, ◌^◌, [], ◌∷◌, ◌++◌, OnOk, OnErr, length};
ghost use Rattle.mr_group.specs.Column.{AreNumbers, keyed};
ghost use Rattle.mr_group.specs.Interner.{key_at};

use crate::interner::Interner;
use crate::texts::Texts;
use std::alloc::{AllocError, Global};
use std::marker::Model;

/// The number of each pair's key. Some keys may have more than one number. In contracts: the list
/// of the pairs' keys.
#[derive(Drop)]
pub struct KeyColumn {
    keys: Interner,
    numbers: Vec<u32>,
}

impl Model for KeyColumn {
    ghost use Rattle.std.specs.Prelude.{ℕ, List};
    ghost use Rattle.mr_group.specs.Column.{AreNumbers, keyed};

    ghost Value = { List (List ℕ) };

    ghost view = { λ c. keyed c.keys c.numbers.items };

    ghost invariant = { λ c. AreNumbers c.keys c.numbers.items };
}

impl KeyColumn {
    /// No pairs. Takes no memory.
    pub fn new(alloc: Global) -> KeyColumn
        ensures { result ≡ [] }
    {
        KeyColumn {
            keys: Interner::new(alloc),
            numbers: Vec::new(alloc),
        }
    }

    /// How many pairs there are.
    pub fn len(&self) -> usize
        ensures { result ≡ length self.now }
    {
        self.numbers.len()
    }

    /// The key of pair `i`, from 0.
    pub fn get(&self, i: usize) -> &[u8]
        requires { i < length self.now }
        ensures { result.now ≡ key_at self.now i }
    {
        self.keys.get(self.numbers[i] as usize)
    }

    /// Makes room for `more` pairs, but not for their keys. The pairs stay, even on failure.
    pub fn reserve(&mut self, more: usize) -> Result<(), AllocError>
        ensures { self.new ≡ self.old }
    {
        self.numbers.reserve(more)
    }

    /// Appends the key of a pair. Fails only for want of memory, and then changes nothing.
    #[inline(always)]
    pub fn push(&mut self, alloc: Global, key: &[u8]) -> Result<(), AllocError>
        requires { length self.old < 2 ^ 32 }
        ensures ok { OnOk result (self.new ≡ self.old ++ key.now ∷ []) }
        ensures err { OnErr result (self.new ≡ self.old) }
    {
        self.numbers.reserve(1)?;
        let number = self.keys.number_of(alloc, key)?;
        self.numbers.push_reserved(number);
        Ok(())
    }

    /// Appends the last pair's key once more, without a look-up. A failure changes nothing.
    #[inline(always)]
    pub fn push_again(&mut self) -> Result<(), AllocError>
        requires { 0 < length self.old }
        ensures ok { OnOk result
            (self.new ≡ self.old ++ key_at self.old (length self.old - 1) ∷ []) }
        ensures err { OnErr result (self.new ≡ self.old) }
    {
        let last = self.numbers[self.numbers.len() - 1];
        self.numbers.reserve(1)?;
        self.numbers.push_reserved(last);
        Ok(())
    }

    /// Removes all pairs, and keeps their memory.
    pub fn clear(&mut self)
        ensures { self.new ≡ [] }
    {
        self.keys.clear();
        self.numbers.clear();
    }

    /// The distinct keys, and the number of each pair's key.
    pub fn parts(&self) -> (&Texts, &[u32])
        ensures keyed { keyed result.0.now result.1.now ≡ self.now }
        ensures numbers { AreNumbers result.0.now result.1.now }
    {
        (self.keys.texts(), &self.numbers)
    }

    /// The distinct keys, and the number of each pair's key; the table is freed.
    pub fn into_parts(self) -> (Texts, Vec<u32>)
        ensures keyed { keyed result.0 result.1.items ≡ self }
        ensures numbers { AreNumbers result.0 result.1.items }
    {
        let KeyColumn { keys, numbers } = self;
        (keys.into_texts(), numbers)
    }
}
