//! Classifies 64 bytes at once, one bit per byte, and lists the places of set bits.
ghost use Rattle.std.specs.Prelude.{◌≡◌, ℕ, ◌+◌, ◌<◌, ◌≤◌, ◌==◌, length, get_or, slice_index, ◌^◌};
ghost use Rattle.std.specs.Prelude.{◌++◌, OnOk, OnErr};
ghost use Rattle.mr_bytes.specs.Bytes.{is_upper, is_word_byte};
ghost use Rattle.mr_lanes.specs.Bits.{is_set, set_bits, Extends};

use crate::Planes;
use std::alloc::AllocError;
use std::simd::prelude::*;

/// The classes of 64 bytes. Takes no memory.
pub fn planes(block: &[u8; 64]) -> Planes
    ensures lf { (i : ℕ) → i < 64 → is_set result.lf i ≡ (slice_index block.now i == 0x0A) }
    ensures word { (i : ℕ) → i < 64 → is_set result.word i ≡ is_word_byte (slice_index block.now i) }
    ensures upper { (i : ℕ) → i < 64 → is_set result.upper i ≡ is_upper (slice_index block.now i) }
{
    let lanes = u8x64::from_array(*block);
    Planes {
        lf: line_feeds(lanes),
        word: word_bytes(lanes),
        upper: upper_letters(lanes),
    }
}

#[inline(always)]
pub(crate) fn line_feeds(lanes: u8x64) -> u64
    ensures { (i : ℕ) → i < 64 → is_set result i ≡ (get_or lanes i 0 == 0x0A) }
{
    lanes.simd_eq(u8x64::splat(b'\n')).to_bitmask()
}

#[inline(always)]
pub(crate) fn word_bytes(lanes: u8x64) -> u64
    ensures { (i : ℕ) → i < 64 → is_set result i ≡ is_word_byte (get_or lanes i 0) }
{
    // An ASCII letter's two cases differ in this bit alone.
    let small = lanes | u8x64::splat(0x20);
    ((small - u8x64::splat(b'a')).simd_lt(u8x64::splat(26))
        | (lanes - u8x64::splat(b'0')).simd_lt(u8x64::splat(10))
        | lanes.simd_ge(u8x64::splat(0x80))).to_bitmask()
}

#[inline(always)]
pub(crate) fn few_word_bytes(lanes: u8x16) -> u64
    ensures { (i : ℕ) → i < 16 → is_set result i ≡ is_word_byte (get_or lanes i 0) }
{
    let small = lanes | u8x16::splat(0x20);
    ((small - u8x16::splat(b'a')).simd_lt(u8x16::splat(26))
        | (lanes - u8x16::splat(b'0')).simd_lt(u8x16::splat(10))
        | lanes.simd_ge(u8x16::splat(0x80))).to_bitmask()
}

#[inline(always)]
pub(crate) fn upper_letters(lanes: u8x64) -> u64
    ensures { (i : ℕ) → i < 64 → is_set result i ≡ is_upper (get_or lanes i 0) }
{
    (lanes - u8x64::splat(b'A'))
        .simd_lt(u8x64::splat(26))
        .to_bitmask()
}

/// The bytes from `at` on, fewer than 64, padded with zeros, which no class contains.
pub(crate) fn last_block(bytes: &[u8], at: usize) -> u8x64
    requires { (at ≤ length bytes.now) × (length bytes.now < at + 64) }
    ensures { (i : ℕ) → i < 64 → get_or result i 0 ≡ get_or bytes.now (at + i) 0 }
{
    let mut last = [0; 64];
    let mut i = 0;
    while i < bytes.len() - at {
        last[i] = bytes[at + i];
        i += 1;
    }
    u8x64::from_array(last)
}

/// Appends `base + i` for each set bit i, rising. If memory fails, some may already be appended.
#[inline(always)]
pub(crate) fn push_places(places: &mut Vec<u32>, base: u32, bits: u64) -> Result<(), AllocError>
    requires { base + 64 < 2 ^ 32 }
    ensures all { OnOk result (places.new.items ≡ places.old.items ++ set_bits 64 base bits) }
    ensures kept { Extends places.old.items places.new.items }
{
    let mut rest = bits;
    while rest != 0 {
        places.push(base + rest.trailing_zeros())?;
        rest &= rest - 1;
    }
    Ok(())
}
