//! Words, found one after another, and bytes cut in two at a mark.
ghost use Rattle.std.specs.Prelude.{◌≡◌, ℕ, ◌+◌, ◌^◌, ◌≤◌, ◌<◌, length, drop, take, List, [], ◌∷◌};
ghost use Rattle.std.specs.Prelude.{◌++◌, MatchOption, IfSome, slice_index, IsTrue, false, None};
ghost use Rattle.std.specs.Prelude.{Some};
ghost use Rattle.mr_bytes.specs.Bytes.{is_word_byte};
ghost use Rattle.mr_bytes.specs.Words.{word_spans_from};
ghost use Rattle.mr_bytes.specs.WordLaw.{WordsAreRuns, WordsRise};
ghost use Rattle.mr_bytes.specs.Cut.{Lacks, cut};

use crate::{Span, is_word_byte};
use memchr::memchr;

fn skip_to_word(bytes: &[u8], from: usize) -> usize
    requires { from ≤ length bytes.now }
    ensures within { (from ≤ result) × (result ≤ length bytes.now) }
    ensures same { word_spans_from from (drop from bytes.now)
        ≡ word_spans_from result (drop result bytes.now) }
    ensures stops { result < length bytes.now → IsTrue (is_word_byte (slice_index bytes.now result)) }
{
    let mut at = from;
    while at < bytes.len() && !is_word_byte(bytes[at]) {
        at += 1;
    }
    at
}

fn skip_word(bytes: &[u8], from: usize) -> usize
    requires { from ≤ length bytes.now }
    ensures within { (from ≤ result) × (result ≤ length bytes.now) }
    ensures all { (k : ℕ) → from ≤ k → k < result → IsTrue (is_word_byte (slice_index bytes.now k)) }
    ensures stops { result < length bytes.now → is_word_byte (slice_index bytes.now result) ≡ false }
{
    let mut at = from;
    while at < bytes.len() && is_word_byte(bytes[at]) {
        at += 1;
    }
    at
}

/// The first word from `from` on, or `None` if no word byte is left. Takes no memory.
pub fn next_word(bytes: &[u8], from: usize) -> Option<Span>
    requires start { from ≤ length bytes.now }
    requires fits { length bytes.now < 2 ^ 32 }
    ensures { MatchOption result (word_spans_from from (drop from bytes.now) ≡ [])
        (λ w. (from ≤ w.start) × (w.start < w.end) × (w.end ≤ length bytes.now)
        × (word_spans_from from (drop from bytes.now) ≡ w ∷ word_spans_from w.end (drop w.end bytes.now))) }
{
    let start = skip_to_word(bytes, from);
    if start == bytes.len() {
        return None;
    }
    let end = skip_word(bytes, start + 1);
    Some(Span {
        start: start as u32,
        end: end as u32,
    })
}

/// What `word_spans` means: the maximal runs of word bytes, in rising order.
pub fn word_law()
    ensures runs { WordsAreRuns }
    ensures rise { WordsRise }
{}

/// The bytes before the first `mark`, and those after it; `None` without one. Takes no memory.
pub fn cut(bytes: &[u8], mark: u8) -> Option<(&[u8], &[u8])>
    ensures parts { MatchOption result (Lacks mark bytes.now)
        (λ r. (bytes.now ≡ r.0.now ++ mark ∷ r.1.now) × Lacks mark r.0.now) }
    ensures value { MatchOption result (cut mark bytes.now ≡ None)
        (λ r. cut mark bytes.now ≡ Some (r.0.now, r.1.now)) }
{
    match memchr(mark, bytes) {
        Some(at) => Some((&bytes[..at], &bytes[at + 1..])),
        None => None,
    }
}
