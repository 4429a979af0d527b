//! Where lines end.
ghost use Rattle.std.specs.Prelude.{◌≡◌, ℕ, ◌+◌, ◌^◌, ◌<◌, ◌≤◌, ◌++◌, length, drop, slice_range};
ghost use Rattle.std.specs.Prelude.{OnOk, OnErr};
ghost use Rattle.mr_lanes.specs.Bits.{Extends};
ghost use Rattle.mr_lanes.specs.Lines.{line_ends, line_ends_from};
ghost use Rattle.mr_lanes.specs.Laws.{LineEndsAreLineFeeds, LineEndsRise};

use crate::blocks::{last_block, line_feeds, push_places};
use std::alloc::AllocError;
use std::simd::prelude::*;

/// Appends the places of the line feeds, rising, of a text of at most 1 GiB. Fails only for want of
/// memory, and then leaves the list as it was.
pub fn line_ends(bytes: &[u8], ends: &mut Vec<u32>) -> Result<(), AllocError>
    requires { length bytes.now ≤ 2 ^ 30 }
    ensures all { OnOk result (ends.new.items ≡ ends.old.items ++ line_ends bytes.now) }
    ensures kept { OnErr result (ends.new.items ≡ ends.old.items) }
{
    line_ends_between(bytes, 0, bytes.len(), ends)
}

/// Appends the places in `bytes`, rising, of the line feeds from `from` to before `to`, so a text
/// in parts is read once. Fails only for want of memory, and then leaves the list as it was.
pub fn line_ends_between(
    bytes: &[u8],
    from: usize,
    to: usize,
    ends: &mut Vec<u32>,
) -> Result<(), AllocError>
    requires range { (from ≤ to) × (to ≤ length bytes.now) }
    requires small { length bytes.now ≤ 2 ^ 30 }
    ensures all { OnOk result (ends.new.items
        ≡ ends.old.items ++ line_ends_from from (slice_range bytes.now from to)) }
    ensures kept { OnErr result (ends.new.items ≡ ends.old.items) }
{
    let before = ends.len();
    let done = push_line_ends(&bytes[..to], from, ends);
    if done.is_err() {
        ends.truncate(before);
    }
    done
}

fn push_line_ends(bytes: &[u8], from: usize, ends: &mut Vec<u32>) -> Result<(), AllocError>
    requires from { from ≤ length bytes.now }
    requires small { length bytes.now ≤ 2 ^ 30 }
    ensures all { OnOk result (ends.new.items ≡ ends.old.items ++ line_ends_from from (drop from bytes.now)) }
    ensures kept { Extends ends.old.items ends.new.items }
{
    let mut at = from;
    while bytes.len() - at >= 64 {
        let block = u8x64::from_slice(&bytes[at..]);
        push_places(ends, at as u32, line_feeds(block))?;
        at += 64;
    }
    push_places(ends, at as u32, line_feeds(last_block(bytes, at)))?;
    Ok(())
}

/// What `line_ends` means: the place of each line feed and no other, in rising order.
pub fn line_end_law()
    ensures places { LineEndsAreLineFeeds }
    ensures rise { LineEndsRise }
{}
