//! Where two texts differ first.
//!
//! Compares 64 bytes at once: the lowest set bit of the first block that differs is the place. The
//! rest goes byte by byte. Cost: linear in the shorter text, up to the place; no memory.
ghost use Rattle.std.specs.Prelude.{◌≡◌, ℕ, ◌<◌, ◌==◌, not, get_or};
ghost use Rattle.mr_lanes.specs.Bits.{is_set};
ghost use Rattle.mr_lanes.specs.Difference.{first_difference};
ghost use Rattle.mr_lanes.specs.Laws.{NoDifferenceWhereEqual, AgreeUpToTheDifference};

use std::simd::prelude::*;

/// The first place where the texts differ or just one has ended, or `None`. Takes no memory.
pub fn first_difference(a: &[u8], b: &[u8]) -> Option<usize>
    ensures { result ≡ first_difference a.now b.now }
{
    let shared = a.len().min(b.len());
    let mut at = 0;
    while shared - at >= 64 {
        let differ = apart(u8x64::from_slice(&a[at..]), u8x64::from_slice(&b[at..]));
        if differ != 0 {
            return Some(at + differ.trailing_zeros() as usize);
        }
        at += 64;
    }
    let mut place = at;
    while place < shared {
        if a[place] != b[place] {
            return Some(place);
        }
        place += 1;
    }
    if a.len() == b.len() {
        None
    } else {
        Some(shared)
    }
}

#[inline(always)]
fn apart(a: u8x64, b: u8x64) -> u64
    ensures { (i : ℕ) → i < 64 → is_set result i ≡ not (get_or a i 0 == get_or b i 0) }
{
    a.simd_ne(b).to_bitmask()
}

/// `None` exactly for equal texts; otherwise they agree before the place and differ there.
pub fn difference_law()
    ensures equal { NoDifferenceWhereEqual }
    ensures parts { AgreeUpToTheDifference }
{}
