//! A table of where a key may have been seen: prints with the numbers of their keys.
//!
//!     slots   [ -  (print, 2)  -  (print, 0)  (print, 1) ]   24 bytes each, a power of two of them
//!
//! A look begins at the slot that a hash of the print names, and goes on from slot to slot until it
//! finds the key, or an empty slot, or has looked at 256. So a key of at most 16 bytes is told by
//! its slot alone, keys made to collide cost 256 looks each at most, and a key past them may get a
//! second number. The slot of a longer key tells where its bytes begin, so that a look waits for
//! them and for the place of its number at once.
//! Invariant: a slot that tells a short key has the print and the length of the key of its number.
//! Cost: about two looks a key; a slot is filled anew from its print, without a look at its key.
ghost use Rattle.std.specs.Prelude.{◌≡◌, ℕ, ◌<◌, List, All, IfOk, IfSome, IsTrue, length};
ghost use Rattle.mr_group.specs.Interner.{IsKeyAt, IsSlotOf, key_at};
ghost use Rattle.mr_group.specs.Print.{IsPrint};

use crate::print::{MOST_TOLD, Print, hash_of};
use crate::texts::Texts;
use std::alloc::{AllocError, Global};

/// How many slots are looked at for a key. At most three quarters are taken, so more are hardly
/// ever needed.
const MOST_LOOKS: usize = 256;

/// The length that stands in an empty slot.
const NO_LENGTH: u32 = u32::MAX;

/// A key's print, length and number.
#[derive(Clone, Copy)]
pub(crate) struct Slot {
    pub print: Print,
    pub length: u32,
    pub number: u32,
}

const EMPTY: Slot = Slot {
    print: Print { first: 0, last: 0 },
    length: NO_LENGTH,
    number: 0,
};

#[inline(always)]
fn first_slot(hash: u64, slots: usize) -> usize {
    hash as usize & slots.wrapping_sub(1)
}

#[inline(always)]
fn next_slot(at: usize, slots: usize) -> usize {
    at.wrapping_add(1) & slots.wrapping_sub(1)
}

/// A length as slots have it.
#[inline(always)]
pub(crate) fn length_of(key: &[u8]) -> u32
    ensures { result < 17 → result ≡ length key.now }
{
    key.len().min(NO_LENGTH as usize) as u32
}

/// Whether this is the slot of the key. Of a short key it compares all of a print without a branch.
#[inline(always)]
fn is_slot_of(slot: Slot, texts: &Texts, print: Print, key: &[u8]) -> bool
    requires slot { IsSlotOf texts.now slot }
    requires print { IsPrint print key.now }
    ensures { IsTrue result → IsKeyAt texts.now slot.number key.now }
{
    let is_long = MOST_TOLD < key.len();
    let is_told = (slot.print.first == print.first)
        & (is_long | (slot.print.last == print.last))
        & (slot.length as usize == key.len());
    is_told && (!is_long || texts.is_at(slot.number as usize, slot.print.last as usize, key))
}

/// The key's number, if the table finds it.
#[inline(always)]
pub(crate) fn look(slots: &[Slot], texts: &Texts, print: Print, key: &[u8]) -> Option<u32>
    requires slots { All (IsSlotOf texts.now) slots.now }
    requires print { IsPrint print key.now }
    ensures { IfSome result (λ n. IsKeyAt texts.now n key.now) }
{
    let mut at = first_slot(hash_of(print, length_of(key)), slots.len());
    for _ in 0..MOST_LOOKS {
        if slots.len() <= at {
            return None;
        }
        let slot = slots[at];
        if is_slot_of(slot, texts, print, key) {
            return Some(slot.number);
        }
        if slot.length == NO_LENGTH {
            return None;
        }
        at = next_slot(at, slots.len());
    }
    None
}

/// Puts a slot at the first empty place from its own on, if a look would find it there.
pub(crate) fn put(slots: &mut Vec<Slot>, slot: Slot)
    ensures { (keys : List (List ℕ)) → IsSlotOf keys slot → All (IsSlotOf keys) slots.old.items
        → All (IsSlotOf keys) slots.new.items }
{
    let mut at = first_slot(hash_of(slot.print, slot.length), slots.len());
    for _ in 0..MOST_LOOKS {
        if slots.len() <= at {
            return;
        }
        if slots[at].length == NO_LENGTH {
            slots[at] = slot;
            return;
        }
        at = next_slot(at, slots.len());
    }
}

pub(crate) fn empty_all(slots: &mut Vec<Slot>)
    ensures { (keys : List (List ℕ)) → All (IsSlotOf keys) slots.new.items }
{
    slots.fill(EMPTY);
}

/// The same keys in a table of `count` slots.
pub(crate) fn refilled(alloc: Global, slots: &[Slot], count: usize) -> Result<Vec<Slot>, AllocError>
    ensures { IfOk result (λ v. (keys : List (List ℕ)) → All (IsSlotOf keys) slots.now
        → All (IsSlotOf keys) v.items) }
{
    let mut more = vec![in alloc; EMPTY; count]?;
    for slot in slots {
        if slot.length != NO_LENGTH {
            put(&mut more, *slot);
        }
    }
    Ok(more)
}
