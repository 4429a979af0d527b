//! Folds bytes: makes the upper-case letters of ASCII lower case.
ghost use Rattle.std.specs.Prelude.{◌≡◌, ◌++◌, ◌+◌, ◌<◌, map, OnOk, OnErr, length, vec_capacity};
ghost use Rattle.std.specs.Prelude.{vec_len};
ghost use Rattle.mr_bytes.specs.Bytes.{fold_byte, folded};

use mr_bytes::fold_byte;
use std::alloc::AllocError;
use std::simd::prelude::*;

/// Appends the folded bytes. Fails only for want of memory, if the list has no room for them, and
/// then leaves the list as it was.
pub fn fold_into(bytes: &[u8], text: &mut Vec<u8>) -> Result<(), AllocError>
    ensures all { OnOk result (text.new.items ≡ text.old.items ++ folded bytes.now) }
    ensures kept { OnErr result (text.new.items ≡ text.old.items) }
    ensures full { OnErr result (vec_capacity text.old < vec_len text.old + length bytes.now) }
{
    let before = text.len();
    text.extend_from_slice(bytes)?;
    fold_lanes(&mut text.as_mut_slice()[before..]);
    Ok(())
}

pub(crate) fn fold_lanes(bytes: &mut [u8])
    ensures { bytes.new ≡ folded bytes.old }
{
    let mut at = 0;
    while bytes.len() - at >= 64 {
        let block = fold_block(u8x64::from_slice(&bytes[at..]));
        block.copy_to_slice(&mut bytes[at..]);
        at += 64;
    }
    let mut place = at;
    while place < bytes.len() {
        bytes[place] = fold_byte(bytes[place]);
        place += 1;
    }
}

#[inline(always)]
fn fold_block(lanes: u8x64) -> u8x64
    ensures { result ≡ map fold_byte lanes }
{
    let upper = (lanes - u8x64::splat(b'A')).simd_lt(u8x64::splat(26));
    upper.select(lanes | u8x64::splat(0x20), lanes)
}
