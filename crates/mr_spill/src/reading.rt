//! Decodes a region. Each `take_` function returns what it decodes, and the bytes after it.
ghost use Rattle.std.specs.Prelude.{◌≡◌, ℕ, ◌<◌, ◌^◌, ◌++◌, List, IfErr, IfOk, MatchOption, length};
ghost use Rattle.mr_bytes.specs.declared.Value.{Value as Carried};
ghost use Rattle.mr_bytes.specs.Pairs.{Triple};
ghost use Rattle.mr_spill.specs.Cursor.{lent_pair};
ghost use Rattle.mr_spill.specs.Spelling.{PairFits, SpellsRegion, header, name_bytes};
ghost use Rattle.mr_spill.specs.Spelling.{pair_bytes, u32 as four, u64 as eight, value_bytes};

use crate::cursor::{RegionPair, open_region};
use crate::pair_columns::PairColumns;
use byteorder::{BigEndian, ByteOrder};
use mr_bytes::{Name, Value};
use std::alloc::{AllocError, Global};
use thiserror::Error;

/// Why a region was not read.
#[derive(Clone, Copy, Debug, PartialEq, Eq, Drop, Error)]
pub enum RegionFault {
    #[error("OutOfMemory")]
    OutOfMemory,
    /// The bytes are not a region of this split and partition.
    #[error("RegionDamaged")]
    RegionDamaged,
}

ghost use Rattle.mr_spill.specs.declared.reading.RegionFault.TheVariants.{RegionDamaged};

impl From<AllocError> for RegionFault {
    ghost use Rattle.mr_spill.specs.declared.reading.RegionFault.TheVariants.{OutOfMemory as told_memory};

    ghost from_gives = { λ _ f. f ≡ told_memory };

    fn from(_error: AllocError) -> RegionFault {
        RegionFault::OutOfMemory
    }
}

fn take_number<'a>(bytes: &'a [u8]) -> Option<(u32, &'a [u8])>
    ensures { MatchOption result (length bytes.entry.now < 4)
        (λ r. (bytes.entry.now ≡ four (r.0) ++ r.1.now) × (r.0 < 2 ^ 32)) }
{
    if bytes.len() < 4 {
        return None;
    }
    let (front, rest) = bytes.split_at(4);
    Some((BigEndian::read_u32(front), rest))
}

fn take_long<'a>(bytes: &'a [u8]) -> Option<(u64, &'a [u8])>
    ensures { MatchOption result (length bytes.entry.now < 8)
        (λ r. bytes.entry.now ≡ eight (r.0) ++ r.1.now) }
{
    if bytes.len() < 8 {
        return None;
    }
    let (front, rest) = bytes.split_at(8);
    Some((BigEndian::read_u64(front), rest))
}

fn take_key<'a>(bytes: &'a [u8], count: u32) -> Option<(&'a [u8], &'a [u8])>
    ensures { MatchOption result (length bytes.entry.now < count)
        (λ r. (bytes.entry.now ≡ r.0.now ++ r.1.now) × (length (r.0.now) ≡ count)) }
{
    let count = count as usize;
    if bytes.len() < count {
        return None;
    }
    Some(bytes.split_at(count))
}

fn take_name<'a>(bytes: &'a [u8]) -> Option<(Name, &'a [u8])>
    ensures { MatchOption result (length bytes.entry.now < 12)
        (λ r. bytes.entry.now ≡ name_bytes (r.0) ++ r.1.now) }
{
    let (split, behind_split) = take_number(bytes)?;
    let (rec, behind_rec) = take_number(behind_split)?;
    let (place, rest) = take_number(behind_rec)?;
    Some((Name { split, rec, place }, rest))
}

fn take_value<'a>(bytes: &'a [u8]) -> Option<(Value, &'a [u8])>
    ensures { MatchOption result
        ((v : Carried) (rest : List ℕ) → bytes.entry.now ≡ value_bytes v ++ rest → ⊥)
        (λ r. bytes.entry.now ≡ value_bytes (r.0) ++ r.1.now) }
{
    let (kind, rest) = bytes.split_first()?;
    if *kind == 0 {
        return Some((Value::One, rest));
    }
    if *kind != 1 {
        return None;
    }
    let (file, behind_file) = take_number(rest)?;
    let (offset, rest) = take_long(behind_file)?;
    Some((Value::At { file, offset }, rest))
}

pub(crate) fn take_pair<'a>(bytes: &'a [u8]) -> Option<(RegionPair<'a>, &'a [u8])>
    ensures { MatchOption result ((t : Triple) (rest : List ℕ) → PairFits t
        → bytes.entry.now ≡ pair_bytes t ++ rest → ⊥)
        (λ r. (bytes.entry.now ≡ pair_bytes (lent_pair (r.0)) ++ r.1.now)
        × PairFits (lent_pair (r.0))) }
{
    let (count, behind_count) = take_number(bytes)?;
    let (key, behind_key) = take_key(behind_count, count)?;
    let (name, behind_name) = take_name(behind_key)?;
    let (value, rest) = take_value(behind_name)?;
    let pair = RegionPair {
        key,
        value,
        name,
        again: false,
    };
    Some((pair, rest))
}

fn take_these<'a>(bytes: &'a [u8], these: &[u8]) -> Option<&'a [u8]>
    ensures { MatchOption result ((rest : List ℕ) → bytes.entry.now ≡ these.now ++ rest → ⊥)
        (λ r. bytes.entry.now ≡ these.now ++ r.now) }
{
    bytes.strip_prefix(these)
}

/// The pair count in a header of this split and partition, and the bytes after it.
pub(crate) fn take_header<'a>(
    bytes: &'a [u8],
    split: u32,
    partition: u32,
) -> Option<(u32, &'a [u8])>
    ensures { MatchOption result ((n : ℕ) (rest : List ℕ)
        → bytes.entry.now ≡ header split partition n ++ rest → ⊥)
        (λ r. (bytes.entry.now ≡ header split partition (r.0) ++ r.1.now) × (r.0 < 2 ^ 32)) }
{
    let behind_magic = take_these(bytes, b"MRREGN1\n")?;
    let behind_split = take_these(behind_magic, &split.to_be_bytes())?;
    let behind_partition = take_these(behind_split, &partition.to_be_bytes())?;
    take_number(behind_partition)
}

/// The pairs of a region of this split and partition. Any bytes but those that `write_region` gives
/// for them are `RegionDamaged`. It makes no room for pairs before it has read their bytes.
pub fn read_region(
    alloc: Global,
    bytes: &[u8],
    split: u32,
    partition: u32,
) -> Result<PairColumns, RegionFault>
    ensures spelled { IfOk result (SpellsRegion bytes.now split partition) }
    ensures damaged { IfErr result (λ e. e ≡ RegionDamaged → (ts : List Triple)
        → SpellsRegion bytes.now split partition ts → ⊥) }
{
    let Some(mut cursor) = open_region(bytes, split, partition) else {
        return Err(RegionFault::RegionDamaged);
    };
    let mut pairs = PairColumns::new(alloc);
    while let Some(pair) = cursor.next() {
        pairs.take(pair)?;
    }
    if !cursor.is_at_end() {
        return Err(RegionFault::RegionDamaged);
    }
    Ok(pairs)
}
