//! Numbers keys: each new key gets the next number, and a repeated key mostly its old one.
//!
//!     slots   [ -  (print, 2)  -  (print, 0)  (print, 1) ]    where a key may have been seen
//!     texts   [ the cat sat ]                                 the keys by number
//!
//! A key that the table doesn't find gets a new number, even if it has one: keys are sorted later,
//! and that unites them (`rows.rt`). So keys made to collide cost a bounded number of looks each,
//! and no proof depends on where a key stands in the table.
ghost use Rattle.std.specs.Prelude.{◌≡◌, ◌<◌, ◌^◌, ◌++◌, ◌∷◌, ◌⊎◌, [], All, IfOk};
ghost use Rattle.std.specs.Prelude.{OnOk, OnErr, length};
ghost use Rattle.mr_group.specs.Print.{IsPrint};
ghost use Rattle.mr_group.specs.Interner.{IsKeyAt, IsSlotOf, key_at};

use crate::print::{Print, placed, print_of};
use crate::slots::{Slot, empty_all, length_of, look, put, refilled};
use crate::texts::Texts;
use std::alloc::{AllocError, Global};
use std::marker::Model;

/// Numbered keys, less than 4 GiB of them. In contracts: the list of the keys, each at its number.
#[derive(Drop)]
pub struct Interner {
    texts: Texts,
    slots: Vec<Slot>,
}

impl Model for Interner {
    ghost use Rattle.std.specs.Prelude.{ℕ, List, All};
    ghost use Rattle.mr_group.specs.Interner.{IsSlotOf};

    ghost Value = { List (List ℕ) };

    ghost view = { λ k. k.texts };

    ghost invariant = { λ k. All (IsSlotOf k.texts) k.slots.items };
}

/// The least number of slots.
const LEAST_SLOTS: usize = 128;

impl Interner {
    /// No keys. Takes no memory.
    pub fn new(alloc: Global) -> Interner
        ensures { result ≡ [] }
    {
        Interner {
            texts: Texts::new(alloc),
            slots: Vec::new(alloc),
        }
    }

    /// How many numbers were given.
    pub fn len(&self) -> usize
        ensures { result ≡ length self.now }
    {
        self.texts.len()
    }

    /// The key of a number.
    pub fn get(&self, number: usize) -> &[u8]
        requires { number < length self.now }
        ensures { result.now ≡ key_at self.now number }
    {
        self.texts.get(number)
    }

    /// The key's number if the table finds it, else the next one. A failure, for want of memory,
    /// adds no key.
    #[inline(always)]
    pub fn number_of(&mut self, alloc: Global, key: &[u8]) -> Result<u32, AllocError>
        requires few { length self.old < 2 ^ 32 }
        ensures is { IfOk result (λ n. IsKeyAt self.new n key.now) }
        ensures grows { OnOk result
            ((self.new ≡ self.old) ⊎ (self.new ≡ self.old ++ key.now ∷ [])) }
        ensures next { IfOk result (λ n. (self.new ≡ self.old) ⊎ (n ≡ length self.old)) }
        ensures err { OnErr result (self.new ≡ self.old) }
    {
        let print = print_of(key);
        match look(self.slots.as_slice(), &self.texts, print, key) {
            Some(number) => Ok(number),
            None => self.add(alloc, print, key),
        }
    }

    /// The keys by number.
    pub fn texts(&self) -> &Texts
        ensures { result.now ≡ self.now }
    {
        &self.texts
    }

    /// The keys by number; the table is freed.
    pub fn into_texts(self) -> Texts
        ensures { result ≡ self }
    {
        let Interner { texts, .. } = self;
        texts
    }

    /// Removes all keys, and keeps their memory.
    pub fn clear(&mut self)
        ensures { self.new ≡ [] }
    {
        self.texts.clear();
        empty_all(&mut self.slots);
    }

    /// Doubles the table if more keys would fill it past three quarters.
    fn make_room(&mut self, alloc: Global) -> Result<(), AllocError>
        ensures { self.new ≡ self.old }
    {
        let count = self.slots.len();
        if count / 4 * 3 <= self.texts.len() {
            let more = count.saturating_mul(2).max(LEAST_SLOTS);
            self.slots = refilled(alloc, self.slots.as_slice(), more)?;
        }
        Ok(())
    }

    /// Adds a key as the next number, and enters it in the table.
    #[inline(never)]
    fn add(&mut self, alloc: Global, print: Print, key: &[u8]) -> Result<u32, AllocError>
        requires few { length self.old < 2 ^ 32 }
        requires print { IsPrint print key.now }
        ensures number { IfOk result (λ n. n ≡ length self.old) }
        ensures ok { OnOk result (self.new ≡ self.old ++ key.now ∷ []) }
        ensures err { OnErr result (self.new ≡ self.old) }
    {
        self.make_room(alloc)?;
        let number = self.texts.len() as u32;
        let start = self.texts.byte_count();
        self.texts.push(key)?;
        let slot = Slot {
            print: placed(print, key, start),
            length: length_of(key),
            number,
        };
        put(&mut self.slots, slot);
        Ok(number)
    }
}
