//! Tests whether the names of a region differ. A name is one number here: its record in the upper
//! half, its place in the lower. Each place of each record, from the first record to the last, has
//! a bit:
//!
//!     record     3         4         5
//!     place      0 1 2 3   0 1 2 3   0 1 2 3
//!     bits       1 1 0 0   1 1 1 1   1 0 0 0     for 3:0 3:1 4:0 4:1 4:2 4:3 5:0
//!
//! Names differ where each finds its bit unset. From 2,048 bits a name on, or without memory for
//! them, it sorts the names instead. Cost: two reads a name, and one of its bit; 8 bytes a name,
//! and at most 256 for bits.
ghost use Rattle.std.specs.Prelude.{◌≡◌, ℕ, ◌++◌, ◌∷◌, [], IsTrue, OnOk};
ghost use Rattle.std.specs.Ordering.{nat_cmp};
ghost use Rattle.mr_bytes.specs.Lists.{Distinct, Rises};
ghost use Rattle.mr_merge.specs.Distinct.{IsSet, bit_of, packed};

use mr_bytes::Name;
use std::alloc::{AllocError, Global};

const BITS: u64 = 2_048;

/// The names of a region, each as one number, and room for their bits.
#[derive(Drop)]
pub(crate) struct RegionNames {
    numbers: Vec<u64>,
    words: Vec<u64>,
}

/// Numbers the bits: `places` for each record from `first` on.
#[derive(Clone, Copy)]
struct Grid {
    first: u64,
    places: u64,
}

impl RegionNames {
    pub fn new(alloc: Global) -> RegionNames {
        RegionNames {
            numbers: Vec::new(alloc),
            words: Vec::new(alloc),
        }
    }

    pub fn clear(&mut self)
        ensures { self.new.numbers.items ≡ [] }
    {
        self.numbers.clear();
    }

    #[inline(always)]
    pub fn push(&mut self, name: Name) -> Result<(), AllocError>
        ensures { OnOk result
            (self.new.numbers.items ≡ self.old.numbers.items ++ packed name ∷ []) }
    {
        let number = u64::from(name.rec) * 4_294_967_296 + u64::from(name.place);
        self.numbers.push(number).map_err(AllocError::from)
    }

    /// Whether the names differ. It may sort them: where bits are too many, or have no memory.
    pub fn differ(&mut self) -> bool
        ensures { IsTrue result → Distinct self.old.numbers.items }
    {
        let (grid, bits) = grid_of(self.numbers.as_slice());
        if self.make_room(bits) {
            return set_all(self.numbers.as_slice(), grid, self.words.as_mut_slice());
        }
        self.numbers.sort_unstable();
        numbers_rise(self.numbers.as_slice())
    }

    /// Takes unset bits, unless they are too many or there is no memory for them.
    fn make_room(&mut self, bits: u64) -> bool
        ensures { self.new.numbers.items ≡ self.old.numbers.items }
    {
        self.words.clear();
        bits / BITS < self.numbers.len() as u64
            && self.words.resize((bits / 64) as usize + 1, 0).is_ok()
    }
}

impl Grid {
    #[inline(always)]
    fn bit_of(&self, name: u64) -> u64
        ensures { result ≡ bit_of self.now name }
    {
        let record = (name >> 32).saturating_sub(self.first);
        record
            .wrapping_mul(self.places)
            .wrapping_add(name & 0xFFFF_FFFF)
    }
}

fn grid_of(names: &[u64]) -> (Grid, u64) {
    let mut first = u64::MAX;
    let mut last = 0;
    let mut place = 0;
    for name in names {
        first = first.min(*name >> 32);
        last = last.max(*name >> 32);
        place = place.max(*name & 0xFFFF_FFFF);
    }
    let places = place.saturating_add(1);
    let records = last.saturating_sub(first).saturating_add(1);
    (Grid { first, places }, records.saturating_mul(places))
}

/// Sets a bit: false where it is set already, or past the end.
#[inline(always)]
fn set_bit(words: &mut [u64], bit: u64) -> bool
    ensures set { IsTrue result → IsSet words.new bit }
    ensures fresh { IsTrue result → IsSet words.old bit → ⊥ }
    ensures keeps { (b : ℕ) → IsSet words.old b → IsSet words.new b }
{
    let at = (bit / 64) as usize;
    if at >= words.len() {
        return false;
    }
    let mask = 1u64 << (bit % 64);
    if words[at] & mask != 0 {
        return false;
    }
    words[at] = words[at] | mask;
    true
}

fn set_all(names: &[u64], grid: Grid, words: &mut [u64]) -> bool
    ensures { IsTrue result → Distinct names.now }
{
    for i in 0..names.len() {
        if !set_bit(words, grid.bit_of(names[i])) {
            return false;
        }
    }
    true
}

fn numbers_rise(numbers: &[u64]) -> bool
    ensures { IsTrue result → Rises nat_cmp numbers.now }
{
    for i in 1..numbers.len() {
        if numbers[i - 1] >= numbers[i] {
            return false;
        }
    }
    true
}
