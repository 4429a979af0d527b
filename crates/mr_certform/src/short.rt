//! A name in 3 to 15 bytes (version 2): its difference from the name before it in its group.
//!
//!     split    less  before.split
//!     rec      less  before.rec,   if the split is the same
//!     place    less  before.place, if split and record are the same
//!
//! Pairs of one key are mostly near each other, so most of the numbers take one byte. Each number
//! is in base 128 (LEB128), its lowest digit first, with 128 added to every byte but the last. Its
//! last byte is 0 only if it is the only one, so each number has one encoding. A sum past 32 bits
//! is no name. The first name of a group follows the name 0, 0, 0.
//! Source: docs/FORMATS.md, "The certificate".
ghost use Rattle.std.specs.Prelude.{◌≡◌, ◌↔◌, ◌<◌, ◌≤◌, ◌+◌, ◌++◌, ◌∷◌, [], Some, None, IsTrue};
ghost use Rattle.std.specs.Prelude.{MatchOption, IfSome, length};
ghost use Rattle.mr_certform.specs.Short.{added, short, short_at, place_base, record_base};
ghost use Rattle.mr_certform.specs.Short.{short_from, short_name_at, short_name_bytes, with_lowest};
ghost use Rattle.mr_certform.specs.Short.{IsAtLeast};
ghost use Rattle.mr_certform.specs.Value.{NameFits};

use mr_bytes::Name;
use std::marker::Model;

/// The number whose lowest digit is `first`, not its last, and the bytes after it.
fn behind_first(first: u8, bytes: &[u8]) -> Option<(u64, &[u8])>
    requires { 128 ≤ first }
    ensures read { MatchOption result (with_lowest first (short_from 4 bytes.now) ≡ None)
        (λ r. with_lowest first (short_from 4 bytes.now) ≡ Some (record { number = r.0; rest = r.1.now })) }
    ensures shorter { IfSome result (λ r. length r.1.now ≤ length bytes.now) }
    ensures bound { IfSome result (λ r. r.0 < 8796093022208) }
{
    let mut low = u64::from(first - 128);
    let mut scale = 128u64;
    let mut rest = bytes;
    for i in 0..4u32 {
        let (byte, behind) = rest.split_first()?;
        if *byte == 0 {
            return None;
        }
        if *byte < 128 {
            return Some((low + scale * u64::from(*byte), behind));
        }
        low += scale * u64::from(*byte - 128);
        scale *= 128;
        rest = behind;
    }
    None
}

fn long_of(base: u32, first: u8, bytes: &[u8]) -> Option<(u32, &[u8])>
    requires { 128 ≤ first }
    ensures read { MatchOption result (added base (with_lowest first (short_from 4 bytes.now)) ≡ None)
        (λ r. added base (with_lowest first (short_from 4 bytes.now))
        ≡ Some (record { number = r.0; rest = r.1.now })) }
    ensures shorter { IfSome result (λ r. length r.1.now ≤ length bytes.now) }
{
    let (more, rest) = behind_first(first, bytes)?;
    let number = u64::from(base) + more;
    if number < 4_294_967_296 {
        Some((number as u32, rest))
    } else {
        None
    }
}

/// `base` plus the number at the front, and the bytes after it. Nearly all have one byte.
#[inline]
fn short_of(base: u32, bytes: &[u8]) -> Option<(u32, &[u8])>
    ensures read { MatchOption result (short_at base bytes.now ≡ None)
        (λ r. short_at base bytes.now ≡ Some (record { number = r.0; rest = r.1.now })) }
    ensures shorter { IfSome result (λ r. length r.1.now ≤ length bytes.now) }
{
    let (first, rest) = bytes.split_first()?;
    if *first >= 128 {
        return long_of(base, *first, rest);
    }
    let number = base.checked_add(u32::from(*first))?;
    Some((number, rest))
}

#[inline]
fn base_of_record(before: Name, split: u32) -> u32
    ensures { result ≡ record_base before split }
{
    if split == before.split { before.rec } else { 0 }
}

#[inline]
fn base_of_place(before: Name, split: u32, rec: u32) -> u32
    ensures { result ≡ place_base before split rec }
{
    if split == before.split && rec == before.rec {
        before.place
    } else {
        0
    }
}

/// The name at the front of the bytes, after the name `before`, and the bytes after it.
#[inline]
pub(crate) fn short_name_of(before: Name, bytes: &[u8]) -> Option<(Name, &[u8])>
    ensures read { MatchOption result (short_name_at before bytes.now ≡ None)
        (λ r. short_name_at before bytes.now ≡ Some (record { name = r.0; rest = r.1.now })) }
    ensures shorter { IfSome result (λ r. length r.1.now ≤ length bytes.now) }
{
    let (split, next) = short_of(before.split, bytes)?;
    let (rec, last) = short_of(base_of_record(before, split), next)?;
    let (place, rest) = short_of(base_of_place(before, split, rec), last)?;
    Some((Name { split, rec, place }, rest))
}

/// Whether the name is not less than the one before, in the order of the input.
pub(crate) fn is_at_least(before: Name, name: Name) -> bool
    ensures { IsTrue result ↔ IsAtLeast before name }
{
    if name.split != before.split {
        return before.split < name.split;
    }
    if name.rec != before.rec {
        return before.rec < name.rec;
    }
    before.place <= name.place
}

const SIZE: usize = 15;

/// The bytes of a name, at most fifteen.
#[derive(Drop)]
pub(crate) struct ShortName {
    bytes: [u8; SIZE],
    filled: usize,
}

impl Model for ShortName {
    ghost use Rattle.std.specs.Prelude.{ℕ, List, ◌≤◌, take};

    ghost Value = { List ℕ };

    ghost view = { λ p. take p.filled p.bytes };

    ghost invariant = { λ p. p.filled ≤ 15 };
}

impl ShortName {
    fn new() -> ShortName
        ensures { result ≡ [] }
    {
        ShortName {
            bytes: [0u8; SIZE],
            filled: 0,
        }
    }

    pub fn bytes(&self) -> &[u8]
        ensures { result.now ≡ self.now }
    {
        &self.bytes[..self.filled]
    }

    fn push(&mut self, byte: u8)
        requires { length self.old < 15 }
        ensures { self.new ≡ self.old ++ byte ∷ [] }
    {
        self.bytes[self.filled] = byte;
        self.filled += 1;
    }

    fn push_number(&mut self, n: u32)
        requires { length self.old ≤ 10 }
        ensures { self.new ≡ self.old ++ short n }
    {
        let mut left = n;
        while left >= 128 {
            self.push(128 + (left % 128) as u8);
            left /= 128;
        }
        self.push(left as u8);
    }
}

pub(crate) fn short_name(before: Name, name: Name) -> ShortName
    requires { IsAtLeast before name }
    ensures bytes { result ≡ short_name_bytes before name }
    ensures fits { NameFits name }
{
    let mut out = ShortName::new();
    out.push_number(name.split - before.split);
    out.push_number(name.rec - base_of_record(before, name.split));
    out.push_number(name.place - base_of_place(before, name.split, name.rec));
    out
}
