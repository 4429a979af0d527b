//! All pairs of a line, before the first is taken.
//!
//!     words    the words of a text that were found before, first
//!     from     then those of the text from this place on; or, if `whole`, the text itself
//!
//! All pairs have the same value.
ghost use Rattle.mr_jobs.specs.Pieces.{FitsText};

use mr_bytes::{Span, Value};

/// The pairs of a line. They borrow what they are read from, and `emitter` tells one after another.
#[derive(Drop)]
pub struct LinePairs<'a> {
    pub(crate) text: &'a [u8],
    pub(crate) words: &'a [Span],
    pub(crate) from: usize,
    pub(crate) value: Value,
    pub(crate) whole: bool,
    ghost fits: { FitsText text.now words.now from },
}

impl<'a> LinePairs<'a> {
    ghost use Rattle.std.specs.Prelude.{◌≡◌, ◌≤◌, ◌^◌, ◌∷◌, [], All, length};
    ghost use Rattle.mr_jobs.specs.Emissions.{words_at, words_from};
    ghost use Rattle.mr_jobs.specs.Pairs.{pairs_of};
    ghost use Rattle.mr_jobs.specs.Pieces.{IsOf};

    /// The words of the text, each with the value.
    pub(crate) fn all_words(text: &'a [u8], value: Value) -> LinePairs<'a>
        requires { length text.now ≤ 2 ^ 30 }
        ensures { pairs_of result ≡ words_from value text.entry.now 0 }
    {
        LinePairs {
            text,
            words: &[],
            from: 0,
            value,
            whole: false,
        }
    }

    /// These words of the text, each with the value.
    #[inline(always)]
    pub(crate) fn some_words(text: &'a [u8], words: &'a [Span], value: Value) -> LinePairs<'a>
        requires small { length text.now ≤ 2 ^ 30 }
        requires words { All (IsOf text.now) words.now }
        ensures { pairs_of result ≡ words_at value text.entry.now words.entry.now }
    {
        LinePairs {
            text,
            words,
            from: text.len(),
            value,
            whole: false,
        }
    }

    pub(crate) fn nothing(text: &'a [u8]) -> LinePairs<'a>
        requires { length text.now ≤ 2 ^ 30 }
        ensures { pairs_of result ≡ [] }
    {
        LinePairs::some_words(text, &[], Value::One)
    }

    pub(crate) fn one_pair(key: &'a [u8], value: Value) -> LinePairs<'a>
        requires { length key.now ≤ 2 ^ 30 }
        ensures { pairs_of result ≡ (key.entry.now, value) ∷ [] }
    {
        LinePairs {
            text: key,
            words: &[],
            from: 0,
            value,
            whole: true,
        }
    }
}
