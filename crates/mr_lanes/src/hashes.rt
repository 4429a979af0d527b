//! The FNV-1a hash of 64 bits: for one key, or for eight at once, a lane each.
ghost use Rattle.std.specs.Prelude.{◌≡◌, ℕ, ◌+◌, ◌<◌, ◌≤◌, length, slice_index, drop};
ghost use Rattle.mr_lanes.specs.Hashes.{fnv, fnv_from, key_at, stir};

use std::simd::prelude::*;

/// The hash of no bytes.
const OFFSET: u64 = 0xcbf29ce484222325;
/// The factor per byte.
const PRIME: u64 = 0x100000001b3;

/// The FNV-1a hash of 64 bits. Takes no memory.
pub fn fnv(key: &[u8]) -> u64
    ensures { result ≡ fnv key.now }
{
    fnv_on(OFFSET, key)
}

/// The hashes of eight keys: in lanes as far as all reach, then one by one. Takes no memory.
pub fn hash8(keys: &[&[u8]; 8]) -> [u64; 8]
    ensures { (i : ℕ) → i < 8 → slice_index result i ≡ fnv (key_at keys.now i) }
{
    let shared = shortest(keys);
    let mut lanes = u64x8::splat(OFFSET);
    let mut at = 0;
    while at < shared {
        lanes = stirred(lanes, bytes_at(keys, at));
        at += 1;
    }
    let mut hashes = lanes.to_array();
    for i in 0..8 {
        hashes[i] = fnv_on(hashes[i], &keys[i][shared..]);
    }
    hashes
}

#[inline(always)]
fn stirred(lanes: u64x8, bytes: u64x8) -> u64x8
    ensures { (i : ℕ) → i < 8 → slice_index result i ≡ stir (slice_index lanes i) (slice_index bytes i) }
{
    (lanes ^ bytes) * u64x8::splat(PRIME)
}

fn shortest(keys: &[&[u8]; 8]) -> usize
    ensures { (i : ℕ) → i < 8 → result ≤ length (key_at keys.now i) }
{
    let mut least = keys[0].len();
    for key in keys {
        least = least.min(key.len());
    }
    least
}

#[inline(always)]
fn bytes_at(keys: &[&[u8]; 8], at: usize) -> u64x8
    requires { (i : ℕ) → i < 8 → at < length (key_at keys.now i) }
    ensures { (i : ℕ) → i < 8 → slice_index result i ≡ slice_index (key_at keys.now i) at }
{
    u64x8::from_array([
        keys[0][at] as u64,
        keys[1][at] as u64,
        keys[2][at] as u64,
        keys[3][at] as u64,
        keys[4][at] as u64,
        keys[5][at] as u64,
        keys[6][at] as u64,
        keys[7][at] as u64,
    ])
}

fn fnv_on(hash: u64, bytes: &[u8]) -> u64
    ensures { result ≡ fnv_from hash bytes.now }
{
    let mut sum = hash;
    for byte in bytes {
        sum = (sum ^ u64::from(*byte)).wrapping_mul(PRIME);
    }
    sum
}
