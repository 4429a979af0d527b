//! How many spaces and tabs a text begins with.
//!
//!     bytes    _ _ \t _ G E T ...      one bit a byte, the lowest first
//!     others   0 0 0  0 1 1 1          the byte is neither a space nor a tab
//!
//! Invariant: all bytes before the place are spaces and tabs. Most gaps are short: the first four
//! bytes are looked at one by one. Then the lowest set bit of the first block that has one is the
//! result's place in the block. What is behind the last block goes byte by byte again.
//! Cost: linear in the result; no memory.
ghost use Rattle.std.specs.Prelude.{◌≡◌, ℕ, ◌<◌, ◌≤◌, not, get_or, length};
ghost use Rattle.std.specs.List.{prefix_len};
ghost use Rattle.mr_lanes.specs.Bits.{is_set};
ghost use Rattle.mr_lanes.specs.Blanks.{is_blank};

use std::simd::prelude::*;

/// How many bytes are looked at before blocks are.
const NEAR: usize = 4;

/// How many bytes come before the first one that is neither a space nor a tab, or all. Takes no
/// memory.
#[inline]
pub fn leading_blanks(bytes: &[u8]) -> usize
    ensures within { result ≤ length bytes.now }
    ensures count { result ≡ prefix_len is_blank bytes.now }
{
    let mut near = 0;
    while near < NEAR && near < bytes.len() {
        if !is_blank(bytes[near]) {
            return near;
        }
        near += 1;
    }
    let mut at = near;
    while bytes.len() - at >= 64 {
        let others = no_blanks(u8x64::from_slice(&bytes[at..]));
        if others != 0 {
            return at + others.trailing_zeros() as usize;
        }
        at += 64;
    }
    let mut place = at;
    while place < bytes.len() && is_blank(bytes[place]) {
        place += 1;
    }
    place
}

#[inline(always)]
fn is_blank(byte: u8) -> bool
    ensures { result ≡ is_blank byte }
{
    byte == b' ' || byte == b'\t'
}

#[inline(always)]
fn no_blanks(lanes: u8x64) -> u64
    ensures { (i : ℕ) → i < 64 → is_set result i ≡ not (is_blank (get_or lanes i 0)) }
{
    (lanes.simd_ne(u8x64::splat(b' ')) & lanes.simd_ne(u8x64::splat(b'\t'))).to_bitmask()
}
