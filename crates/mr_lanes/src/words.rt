//! Where words are: all words of a text, or the next one.
//!
//!     bytes    i t _ i s _ _ o|k ...       one bit a byte, the lowest first
//!     word     1 1 0 1 1 0 0 1             the byte is a word byte
//!     starts   1 0 0 1 0 0 0 1             it is one, and the byte before is not
//!     ends     0 0 1 0 0 1 0 0             it is none, and the byte before is one
//!
//! One number goes from block to block: where the word begins that is open at the block's end, or
//! that end if none is open. The zeros behind the text close the last word.
//! Cost: a step per word and per block. `next_word` takes no memory and suits short records.
ghost use Rattle.std.specs.Prelude.{◌≡◌, ℕ, ◌+◌, ◌^◌, ◌<◌, ◌≤◌, ◌++◌, ◌∷◌, [], drop, get_or};
ghost use Rattle.std.specs.Prelude.{length, IfOk, OnOk, OnErr, MatchOption};
ghost use Rattle.mr_bytes.specs.Bytes.{is_word_byte};
ghost use Rattle.mr_bytes.specs.Words.{word_spans, word_spans_from};
ghost use Rattle.mr_lanes.specs.Bits.{is_set, Extends};
ghost use Rattle.mr_lanes.specs.Words.{OpenAt};

use crate::blocks::{few_word_bytes, last_block, word_bytes};
use mr_bytes::Span;
use std::alloc::AllocError;
use std::simd::prelude::*;

/// Appends the words of a text of at most 1 GiB, in rising order. Fails only for want of memory,
/// and then leaves the list as it was.
pub fn word_spans(bytes: &[u8], spans: &mut Vec<Span>) -> Result<(), AllocError>
    requires { length bytes.now ≤ 2 ^ 30 }
    ensures all { OnOk result (spans.new.items ≡ spans.old.items ++ word_spans bytes.now) }
    ensures kept { OnErr result (spans.new.items ≡ spans.old.items) }
{
    let before = spans.len();
    let done = push_word_spans(bytes, spans);
    if done.is_err() {
        spans.truncate(before);
    }
    done
}

fn push_word_spans(bytes: &[u8], spans: &mut Vec<Span>) -> Result<(), AllocError>
    requires { length bytes.now ≤ 2 ^ 30 }
    ensures all { OnOk result (spans.new.items ≡ spans.old.items ++ word_spans bytes.now) }
    ensures kept { Extends spans.old.items spans.new.items }
{
    let mut at = 0;
    let mut from = 0;
    while bytes.len() - at >= 64 {
        let block = u8x64::from_slice(&bytes[at..]);
        from = push_words(bytes, spans, at as u32, from, word_bytes(block))?;
        at += 64;
    }
    push_words(
        bytes,
        spans,
        at as u32,
        from,
        word_bytes(last_block(bytes, at)),
    )?;
    Ok(())
}

/// Appends the words that end in the block at `base`. Returns where the word begins that is still
/// open at the block's end, or that end; `from` is the same for the block before. The set bits of
/// `word` are the word bytes. `bytes` is only for the contract.
#[inline(always)]
fn push_words(
    bytes: &[u8],
    spans: &mut Vec<Span>,
    base: u32,
    from: u32,
    word: u64,
) -> Result<u32, AllocError>
    requires fits { base + 64 < 2 ^ 32 }
    requires bits { (i : ℕ) → i < 64 → is_set word i ≡ is_word_byte (get_or bytes.now (base + i) 0) }
    requires state { OpenAt bytes.now base from }
    ensures state { IfOk result (λ next. OpenAt bytes.now (base + 64) next) }
    ensures all { IfOk result (λ next. spans.new.items ++ word_spans_from next (drop next bytes.now)
        ≡ spans.old.items ++ word_spans_from from (drop from bytes.now)) }
    ensures kept { Extends spans.old.items spans.new.items }
{
    let follows = (word << 1) | (from < base) as u64;
    let mut starts = word & !follows;
    let mut ends = follows & !word;
    let mut start = from;
    if start == base {
        start = base + starts.trailing_zeros();
        starts &= starts.wrapping_sub(1);
    }
    while ends != 0 {
        spans.push(Span {
            start,
            end: base + ends.trailing_zeros(),
        })?;
        ends &= ends.wrapping_sub(1);
        // If no more word begins here, this is the next block's place.
        start = base + starts.trailing_zeros();
        starts &= starts.wrapping_sub(1);
    }
    Ok(start)
}

/// The first word from `from` on, or `None` if no word byte is left, as of `mr_bytes::next_word`.
/// Takes no memory. One look finds a word that ends within 16 bytes, as most do.
#[inline]
pub fn next_word(bytes: &[u8], from: usize) -> Option<Span>
    requires start { from ≤ length bytes.now }
    requires fits { length bytes.now < 2 ^ 32 }
    ensures { MatchOption result (word_spans_from from (drop from bytes.now) ≡ [])
        (λ w. (from ≤ w.start) × (w.start < w.end) × (w.end ≤ length bytes.now)
        × (word_spans_from from (drop from bytes.now) ≡ w ∷ word_spans_from w.end (drop w.end bytes.now))) }
{
    if bytes.len() - from < 16 {
        return mr_bytes::next_word(bytes, from);
    }
    let word = few_word_bytes(u8x16::from_slice(&bytes[from..]));
    let end = ((word << 1) & !word).trailing_zeros();
    if end >= 16 {
        return mr_bytes::next_word(bytes, from);
    }
    Some(Span {
        start: from as u32 + word.trailing_zeros(),
        end: from as u32 + end,
    })
}
