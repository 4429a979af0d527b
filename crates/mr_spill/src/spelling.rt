//! Encodes a region as bytes. Numbers have four bytes, offsets eight, the highest byte first.
//!
//!     MRREGN1\n  split  partition  count,  and then for each pair
//!     key length  key  split  record  place  and its value: 0, or 1 file offset
ghost use Rattle.std.specs.Prelude.{◌≡◌, ℕ, ◌<◌, ◌^◌, ◌++◌, List, IfOk, OnOk, length};
ghost use Rattle.std.specs.List.{AllByRecursion};
ghost use Rattle.mr_bytes.specs.Lists.{Rises};
ghost use Rattle.mr_bytes.specs.Pairs.{Triple, pair_order};
ghost use Rattle.mr_spill.specs.Column.{nth_pair};
ghost use Rattle.mr_spill.specs.Spelling.{PairFits, SpellsRegion, ValueFits, header, name_bytes};
ghost use Rattle.mr_spill.specs.Spelling.{pair_bytes, u32 as four, u64 as eight, value_bytes};
ghost use Rattle.mr_spill.specs.WorkedBytes.{WorkedFalling, WorkedOther, WorkedRegion, WorkedSizes};

use crate::pair_columns::PairColumns;
use mr_bytes::{Name, Value};
use std::alloc::{AllocError, Global};

fn put_number(out: &mut Vec<u8>, n: u32) -> Result<(), AllocError>
    ensures { OnOk result (out.new.items ≡ out.old.items ++ four n) }
{
    out.extend_from_slice(&n.to_be_bytes())
}

fn put_long(out: &mut Vec<u8>, n: u64) -> Result<(), AllocError>
    ensures { OnOk result (out.new.items ≡ out.old.items ++ eight n) }
{
    out.extend_from_slice(&n.to_be_bytes())
}

fn put_value(out: &mut Vec<u8>, value: Value) -> Result<(), AllocError>
    ensures text { OnOk result (out.new.items ≡ out.old.items ++ value_bytes value) }
    ensures fits { ValueFits value }
{
    match value {
        Value::One => out.push(0)?,
        Value::At { file, offset } => {
            out.push(1)?;
            put_number(out, file)?;
            put_long(out, offset)?;
        }
    }
    Ok(())
}

pub(crate) fn put_header(
    out: &mut Vec<u8>,
    split: u32,
    partition: u32,
    count: u32,
) -> Result<(), AllocError>
    ensures { OnOk result (out.new.items ≡ out.old.items ++ header split partition count) }
{
    out.extend_from_slice(b"MRREGN1\n")?;
    put_number(out, split)?;
    put_number(out, partition)?;
    put_number(out, count)?;
    Ok(())
}

fn put_name(out: &mut Vec<u8>, name: Name) -> Result<(), AllocError>
    ensures { OnOk result (out.new.items ≡ out.old.items ++ name_bytes name) }
{
    out.extend_from_slice(&spelled_record(name))?;
    put_number(out, name.place)?;
    Ok(())
}

/// The split and the record of a name, as one number: two writes read back as one would stall.
fn spelled_record(name: Name) -> [u8; 8]
    ensures { result ≡ four name.split ++ four name.rec }
{
    (u64::from(name.split) * 4_294_967_296 + u64::from(name.rec)).to_be_bytes()
}

/// A pair. A key of 4 GiB fails as want of memory.
pub(crate) fn put_pair(
    out: &mut Vec<u8>,
    key: &[u8],
    value: Value,
    name: Name,
) -> Result<(), AllocError>
    ensures text { OnOk result (out.new.items
        ≡ out.old.items ++ pair_bytes (record { key = key.now; value = value; name = name })) }
    ensures fits { OnOk result (PairFits (record { key = key.now; value = value; name = name })) }
{
    let count = key.len();
    if count > u32::MAX as usize {
        return Err(AllocError);
    }
    put_number(out, count as u32)?;
    out.extend_from_slice(key)?;
    put_name(out, name)?;
    put_value(out, value)?;
    Ok(())
}

fn put_nth(out: &mut Vec<u8>, pairs: &PairColumns, i: usize) -> Result<(), AllocError>
    requires { i < length pairs.now }
    ensures text { OnOk result
        (out.new.items ≡ out.old.items ++ pair_bytes (nth_pair pairs.now i)) }
    ensures fits { OnOk result (PairFits (nth_pair pairs.now i)) }
{
    put_pair(out, pairs.key(i), pairs.value(i), pairs.name(i))
}

/// The bytes of a region of a run of the split (docs/FORMATS.md). Fails only for want of memory.
pub fn write_region(
    alloc: Global,
    pairs: &PairColumns,
    split: u32,
    partition: u32,
) -> Result<Vec<u8>, AllocError>
    requires rise { Rises pair_order pairs.now }
    requires own { AllByRecursion (λ t. t.name.split ≡ split) pairs.now }
    requires few { length pairs.now < 2 ^ 32 }
    ensures spelled { IfOk result (λ v. SpellsRegion v.items split partition pairs.now) }
    ensures nothing_else { IfOk result (λ v. (other : ℕ) (ts : List Triple)
        → SpellsRegion v.items split other ts → ts ≡ pairs.now) }
{
    let mut out = Vec::new(alloc);
    let count = pairs.len();
    put_header(&mut out, split, partition, count as u32)?;
    for i in 0..count {
        put_nth(&mut out, pairs, i)?;
    }
    Ok(out)
}

/// Regions encoded by hand, and pairs that have no encoding.
pub fn worked_regions()
    ensures region { WorkedRegion }
    ensures sizes { WorkedSizes }
    ensures falling { WorkedFalling }
    ensures other { WorkedOther }
{}
