//! Walks a region pair by pair over its bytes, checking what it reads. Copies nothing.
ghost use Rattle.std.specs.Prelude.{◌≡◌, ◌↔◌, ◌<◌, [], List, Some, IsTrue, MatchOption};
ghost use Rattle.mr_bytes.specs.Pairs.{Triple};
ghost use Rattle.mr_spill.specs.Cursor.{AreAhead, IsBehind, IsKeyOf, IsNextOf, IsOpened, lent_pair};
ghost use Rattle.mr_spill.specs.Spelling.{SpellsRegion};

use crate::reading::{take_header, take_pair};
use mr_bytes::{Name, Value, compare_keys, compare_names};
use std::cmp::Ordering;
use std::marker::Model;

/// Any bytes, as the region of this split.
#[derive(Drop)]
pub struct RegionView<'a> {
    split: u32,
    bytes: &'a [u8],
}

impl<'a> Model for RegionView<'a> {
    ghost use Rattle.mr_spill.specs.Lent.{RegionText};

    ghost Value = { RegionText };

    ghost view = { λ r. record { split = r.split; bytes = r.bytes.now } };
}

impl<'a> RegionView<'a> {
    pub fn of(bytes: &'a [u8], split: u32) -> RegionView<'a>
        ensures { result ≡ record { split = split; bytes = bytes.entry.now } }
    {
        RegionView { split, bytes }
    }

    /// The split that the region claims to be of.
    pub fn split(&self) -> u32
        ensures { result ≡ self.now.split }
    {
        self.split
    }

    pub fn bytes(&self) -> &'a [u8]
        ensures { result.now ≡ self.now.bytes }
    {
        self.bytes
    }
}

/// A pair of a region; its key is a part of the region's bytes.
#[derive(Clone, Copy, Drop)]
pub struct RegionPair<'a> {
    pub key: &'a [u8],
    pub value: Value,
    pub name: Name,
    /// It has the key of the pair before it, so it needs no look-up.
    pub again: bool,
}

/// The pairs of a region that are still to come.
#[derive(Drop)]
pub struct RegionCursor<'a> {
    rest: &'a [u8],
    split: u32,
    left: u32,
    last: Option<RegionPair<'a>>,
}

/// Whether a pair has the key of the last one; `None` if it may not follow it.
fn turn_of(last: Option<RegionPair<'_>>, key: &[u8], name: Name) -> Option<bool>
    ensures { MatchOption result (IsBehind last.entry key.now name → ⊥)
        (λ again. IsBehind last.entry key.now name × (IsTrue again → IsKeyOf last.entry key.now)) }
{
    let Some(last) = last else {
        return Some(false);
    };
    match compare_keys(last.key, key) {
        Ordering::Less => Some(false),
        Ordering::Equal => match compare_names(last.name, name) {
            Ordering::Less => Some(true),
            _ => None,
        },
        Ordering::Greater => None,
    }
}

/// Opens a region of this split and partition; `None` if the bytes don't begin with its header.
pub fn open_region<'a>(bytes: &'a [u8], split: u32, partition: u32) -> Option<RegionCursor<'a>>
    ensures { MatchOption result
        ((ts : List Triple) → SpellsRegion bytes.entry.now split partition ts → ⊥)
        (IsOpened bytes.entry.now split partition) }
{
    let (count, rest) = take_header(bytes, split, partition)?;
    Some(RegionCursor {
        rest,
        split,
        left: count,
        last: None,
    })
}

impl<'a> RegionCursor<'a> {
    /// Whether no pair and no byte is left. If not, and no next pair comes, the region is damaged.
    pub fn is_at_end(&self) -> bool
        ensures { IsTrue result ↔ AreAhead self.now [] }
    {
        self.left == 0 && self.rest.is_empty()
    }

    /// The next pair; `None` if the bytes hold none that may come next, and then the cursor stays.
    pub fn next(&mut self) -> Option<RegionPair<'a>>
        ensures none { MatchOption result ((self.new ≡ self.old)
            × ((ts : List Triple) → AreAhead self.old ts → ts ≡ []))
            (λ p. IsNextOf (lent_pair p) self.old self.new) }
        ensures last { MatchOption result Unit (λ p. self.new.last ≡ Some p) }
        ensures again { MatchOption result Unit
            (λ p. IsTrue p.again → IsKeyOf self.old.last p.key.now) }
    {
        if self.left == 0 {
            return None;
        }
        let (pair, rest) = take_pair(self.rest)?;
        if pair.name.split != self.split {
            return None;
        }
        let again = turn_of(self.last, pair.key, pair.name)?;
        let pair = RegionPair { again, ..pair };
        self.rest = rest;
        self.left -= 1;
        self.last = Some(pair);
        Some(pair)
    }
}
