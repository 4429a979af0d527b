//! Cuts texts at a mark. Most marks are near: a text's first 32 bytes are looked at at once, before
//! `memchr` goes on.
ghost use Rattle.std.specs.Prelude.{◌≡◌, ◌==◌, ◌<◌, ◌++◌, ◌∷◌, ℕ, MatchOption, false, get_or, length, map};
ghost use Rattle.std.specs.Prelude.{take};
ghost use Rattle.mr_bytes.specs.Cut.{Lacks};
ghost use Rattle.mr_lanes.specs.Bits.{is_set};

use memchr::{memchr, memrchr};
use std::simd::prelude::*;

/// How many bytes are looked at at once.
const WIDTH: usize = 32;

/// The lanes that hold `mark`, a bit each.
#[inline(always)]
fn marked_lanes(lanes: u8x32, mark: u8) -> u64
    ensures { (i : ℕ) → i < 64 → is_set result i ≡ get_or (map (λ b. b == mark) lanes) i false }
{
    lanes.simd_eq(u8x32::splat(mark)).to_bitmask()
}

/// The place of the first `mark`. Most are near.
#[inline(always)]
pub(crate) fn find_first(mark: u8, text: &[u8]) -> Option<usize>
    ensures { MatchOption result (Lacks mark text.now) (λ at. (at < length text.now)
        × (get_or text.now at 0 ≡ mark) × Lacks mark (take at text.now)) }
{
    if text.len() >= WIDTH {
        let marked = marked_lanes(u8x32::from_slice(text), mark);
        if marked != 0 {
            return Some(marked.trailing_zeros() as usize);
        }
    }
    memchr(mark, text)
}

/// Splits the text at the first `mark`.
#[inline(always)]
pub fn cut_first(text: &[u8], mark: u8) -> Option<(&[u8], &[u8])>
    ensures { MatchOption result (Lacks mark text.now)
        (λ r. (text.now ≡ r.0.now ++ mark ∷ r.1.now) × Lacks mark r.0.now) }
{
    let at = find_first(mark, text)?;
    Some((&text[..at], &text[at + 1..]))
}

/// Splits the text at the last `mark`.
pub fn cut_last(text: &[u8], mark: u8) -> Option<(&[u8], &[u8])>
    ensures { MatchOption result (Lacks mark text.now)
        (λ r. (text.now ≡ r.0.now ++ mark ∷ r.1.now) × Lacks mark r.1.now) }
{
    let at = memrchr(mark, text)?;
    Some((&text[..at], &text[at + 1..]))
}
