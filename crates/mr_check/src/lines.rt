//! Lines that tell keys.
//!
//! A line of an output is a key, a TAB, and more without a TAB, up to a line feed:
//!
//!     t h e _ c a t \t 1 2 \n        the key is what stands before the line's last TAB
//!
//! Most lines end within 32 bytes. There one look by lanes finds the line's end and its TABs, and
//! compares it with the key. Others are read by `memchr`. Takes no memory.
ghost use Rattle.std.specs.Prelude.{◌≡◌, ℕ, ◌<◌, ◌≤◌, ◌+◌, ◌==◌, None, Some, get_or, length};
ghost use Rattle.std.specs.Prelude.{slice_range, IsTrue, MatchOption};
ghost use Rattle.mr_lanes.specs.Bits.{is_set};
ghost use Rattle.mr_check.specs.Lines.{TellsNear, told_key};

use memchr::{memchr, memchr2, memrchr};
use std::simd::prelude::*;

/// How many bytes of a line one look takes in.
pub(crate) const NEAR: usize = 32;

/// The key that the line in front tells: what stands before its last TAB. That of a short line costs
/// one look.
#[inline]
pub(crate) fn told_key(rest: &[u8]) -> Option<&[u8]>
    ensures { MatchOption result (told_key rest.now ≡ None)
        (λ key. told_key rest.now ≡ Some key.now) }
{
    if has_lanes(rest, 0) {
        let line = u8x32::from_slice(rest);
        let tab = tabs(line).trailing_zeros() as usize;
        if tab < 32 && tells_near(line, line, tab) {
            return Some(&rest[..tab]);
        }
    }
    find_key(rest)
}

/// The same as `told_key`, of any line.
#[inline(never)]
fn find_key(rest: &[u8]) -> Option<&[u8]>
    ensures { MatchOption result (told_key rest.now ≡ None)
        (λ key. told_key rest.now ≡ Some key.now) }
{
    let line = &rest[..memchr(b'\n', rest)?];
    let tab = memrchr(b'\t', line)?;
    Some(&line[..tab])
}

/// Whether the line in front tells a key, the bytes `start..end` of `keys`. Where 32 bytes stand
/// from both places on, a key of a short line costs one look.
#[inline]
pub(crate) fn tells(rest: &[u8], keys: &[u8], start: usize, end: usize) -> bool
    ensures { IsTrue result → told_key rest.now ≡ Some (slice_range keys.now start end) }
{
    if start <= end && has_lanes(rest, 0) && has_lanes(keys, start) {
        let line = u8x32::from_slice(rest);
        let key = u8x32::from_slice(&keys[start..]);
        if tells_near(line, key, end - start) {
            return true;
        }
    }
    tells_far(rest, keys, start, end)
}

/// Whether 32 bytes stand from a place on.
#[inline(always)]
fn has_lanes(bytes: &[u8], at: usize) -> bool
    ensures { IsTrue result → at + 32 ≤ length bytes.now }
{
    bytes.len() >= 32 && at <= bytes.len() - 32
}

/// Whether the line ends among its first 32 bytes, and its last TAB is its first one and stands
/// where the key ends.
#[inline(always)]
fn tells_near(line: u8x32, key: u8x32, count: usize) -> bool
    ensures { IsTrue result → TellsNear line key count }
{
    let tabs = tabs(line);
    let tab = tabs.trailing_zeros();
    let next = (tabs & tabs.wrapping_sub(1)).trailing_zeros();
    let end = line_feeds(line).trailing_zeros();
    let same = line.simd_ne(key).to_bitmask().trailing_zeros();
    if tab as usize != count || tab >= end || end >= 32 || end >= next || tab > same {
        return false;
    }
    true
}

#[inline(always)]
fn tabs(lanes: u8x32) -> u64
    ensures { (i : ℕ) → i < 32 → is_set result i ≡ (get_or lanes i 0 == 9) }
{
    lanes.simd_eq(u8x32::splat(b'\t')).to_bitmask()
}

#[inline(always)]
fn line_feeds(lanes: u8x32) -> u64
    ensures { (i : ℕ) → i < 32 → is_set result i ≡ (get_or lanes i 0 == 10) }
{
    lanes.simd_eq(u8x32::splat(b'\n')).to_bitmask()
}

/// The same as `tells`, wherever both stand: whether the line in front is the key, a TAB, and more
/// without one.
#[inline(never)]
fn tells_far(rest: &[u8], keys: &[u8], start: usize, end: usize) -> bool
    ensures { IsTrue result → told_key rest.now ≡ Some (slice_range keys.now start end) }
{
    let Some(key) = keys.get(start..end) else {
        return false;
    };
    if rest.len() <= key.len() || rest[key.len()] != b'\t' || !rest.starts_with(key) {
        return false;
    }
    let more = &rest[key.len() + 1..];
    match memchr2(b'\t', b'\n', more) {
        Some(at) if more[at] == b'\n' => memchr(b'\n', key).is_none(),
        _ => false,
    }
}
