//! The pairs of a record, one after another.
//!
//!     job            keys are parts of                pairs
//!     words, index   the line, or its folded copy     one for each word
//!     grep           the line                         one if it contains the literal, or none
//!     url            the line                         one if it requests a resource, or none
//!     field          the line                         one if it has so many fields, or none
//!
//! All pairs of a record have the same value, so an `Emitter` holds a text, a place and a value; and
//! words of the text that were found before, which come first.
//! Invariant: the pairs to come are those words, and then those of the text from the place on.
//! Cost: linear in the line. No memory but the caller's buffer for a folded line.
//! Source: docs/FORMATS.md, "Jobs"; OSDI 2004, sections 2.1 and 2.3.
ghost use Rattle.std.specs.Prelude.{◌≡◌, ℕ, ◌≤◌, ◌<◌, ◌^◌, ◌⊎◌, [], ◌∷◌, false, if◌then◌else◌};
ghost use Rattle.std.specs.Prelude.{IsTrue, OnOk, OnErr, MatchOption, IfSome, IfNone, length};
ghost use Rattle.std.specs.Prelude.{vec_capacity, All};
ghost use Rattle.mr_jobs.specs.Emissions.{emissions, IsReady, still_emitted};
ghost use Rattle.mr_jobs.specs.Pairs.{pairs_of};
ghost use Rattle.mr_jobs.specs.JobSpec.{folds_words};
ghost use Rattle.mr_jobs.specs.Pieces.{IsOf};
ghost use Rattle.mr_bytes.specs.Words.{span_bytes};
ghost use Rattle.mr_bytes.specs.declared.Value.{Value};

use crate::job::{Job, Kind};
use crate::literal::holds;
use crate::pairs::LinePairs;
use crate::url::url;
use mr_bytes::{Span, Value};
use mr_lanes::{fold_into, next_word};
use std::alloc::AllocError;
use std::marker::Model;

/// What a record has yet to emit: its text as one key, or the words of its text from a place on.
#[derive(Drop)]
pub struct Emitter<'a> {
    text: &'a [u8],
    words: &'a [Span],
    from: usize,
    value: Value,
    whole: bool,
}

impl<'a> Model for Emitter<'a> {
    ghost use Rattle.std.specs.Prelude.{List, All, length, ◌≤◌, ◌<◌, ◌^◌, ◌++◌};
    ghost use Rattle.mr_jobs.specs.Emissions.{Emission, still_emitted, words_at};
    ghost use Rattle.mr_jobs.specs.Pieces.{IsOf};

    ghost Value = { List Emission };

    ghost view = { λ e. words_at e.value e.text.now e.words.now
        ++ still_emitted e.text.now e.from e.value e.whole };

    ghost invariant = { λ e. record {
      words : All (IsOf e.text.now) e.words.now;
      within : e.from ≤ length e.text.now;
      small : length e.text.now ≤ 2 ^ 30;
    } };
}

impl<'a> LinePairs<'a> {
    /// These pairs, one after another.
    #[inline(always)]
    pub fn emitter(self) -> Emitter<'a>
        ensures { result ≡ pairs_of self.entry }
    {
        Emitter {
            text: self.text,
            words: self.words,
            from: self.from,
            value: self.value,
            whole: self.whole,
        }
    }
}

impl<'a> Emitter<'a> {
    /// The next key with its value, or `None` once nothing is left.
    #[inline(always)]
    pub fn next(&mut self) -> Option<(&'a [u8], Value)>
        ensures next { MatchOption result (self.old ≡ []) (λ e. self.old ≡ (e.0.now, e.1) ∷ self.new) }
        ensures ended { IfNone result (self.new ≡ []) }
        ensures short { IfSome result (λ e. length e.0.now ≤ 2 ^ 30) }
    {
        if let Some((word, rest)) = self.words.split_first() {
            self.words = rest;
            return Some((
                &self.text[word.start as usize..word.end as usize],
                self.value,
            ));
        }
        let key = next_of_text(self.text, self.from, self.whole)?;
        self.from = key.end as usize;
        self.whole = false;
        Some((&self.text[key.start as usize..key.end as usize], self.value))
    }
}

/// Where the next key is once no word is left that was found before: the whole text, or its next
/// word from a place on.
#[inline(always)]
fn next_of_text(text: &[u8], from: usize, whole: bool) -> Option<Span>
    requires within { from ≤ length text.now }
    requires small { length text.now ≤ 2 ^ 30 }
    ensures next { (value : Value) → MatchOption result (still_emitted text.now from value whole ≡ [])
        (λ w. still_emitted text.now from value whole
        ≡ (span_bytes text.now w, value) ∷ still_emitted text.now w.end value false) }
    ensures of { IfSome result (IsOf text.now) }
{
    if whole {
        return Some(Span {
            start: 0,
            end: text.len() as u32,
        });
    }
    if from == text.len() {
        return None;
    }
    word_from(text, from)
}

/// What `next_word` finds. A call, so that the loop over words that were found before stays small.
#[inline(never)]
fn word_from(text: &[u8], from: usize) -> Option<Span>
    requires within { from ≤ length text.now }
    requires small { length text.now ≤ 2 ^ 30 }
    ensures next { (value : Value) → MatchOption result (words_from value text.now from ≡ [])
        (λ w. words_from value text.now from
        ≡ (span_bytes text.now w, value) ∷ words_from value text.now w.end) }
    ensures of { IfSome result (IsOf text.now) }
{
    next_word(text, from)
}

ghost use Rattle.mr_jobs.specs.Emissions.{words_from};

impl Job {
    /// Fills the buffer for `emit` of `line`: with the folded line if the job folds words. Fails
    /// only for want of memory, if the buffer has less room than the line has bytes, and then
    /// leaves its bytes as they were. One buffer serves any number of lines.
    #[inline]
    pub fn fold_line(&self, line: &[u8], buffer: &mut Vec<u8>) -> Result<(), AllocError>
        ensures ready { OnOk result (IsReady self.now line.now buffer.new.items) }
        ensures same { IsTrue (folds_words self.now) ⊎ (buffer.new ≡ buffer.old) }
        ensures only { OnErr result (IsTrue (folds_words self.now)) }
        ensures full { OnErr result (vec_capacity buffer.old < length line.now) }
        ensures err { OnErr result (buffer.new.items ≡ buffer.old.items) }
    {
        if self.folds_words() {
            fill_folded(line, buffer)
        } else {
            Ok(())
        }
    }

    /// What the record `line` emits, which has at most 1 GiB and begins at place `start` of file
    /// `file`. Copies nothing and takes no memory: a key is a part of the line or of the buffer.
    pub fn emit<'a>(&self, file: u32, start: u32, line: &'a [u8], buffer: &'a [u8]) -> Emitter<'a>
        requires small { length line.now ≤ 2 ^ 30 }
        requires ready { IsReady self.now line.now buffer.now }
        ensures { result ≡ emissions self.now file start line.entry.now }
    {
        self.pairs(file, start, line, buffer).emitter()
    }

    pub(crate) fn pairs<'a>(
        &self,
        file: u32,
        start: u32,
        line: &'a [u8],
        buffer: &'a [u8],
    ) -> LinePairs<'a>
        requires small { length line.now ≤ 2 ^ 30 }
        requires ready { IsReady self.now line.now buffer.now }
        ensures { pairs_of result ≡ emissions self.now file start line.entry.now }
    {
        let value = self.value_at(file, start);
        match &self.kind {
            Kind::Words { .. } | Kind::Index { .. } => {
                if self.folds_words() {
                    LinePairs::all_words(buffer, value)
                } else {
                    LinePairs::all_words(line, value)
                }
            }
            Kind::Grep { literal, fold } => {
                if holds(line, literal.as_slice(), *fold) {
                    LinePairs::one_pair(line, value)
                } else {
                    LinePairs::nothing(line)
                }
            }
            Kind::Url => match url(line) {
                Some(key) => LinePairs::one_pair(key, value),
                None => LinePairs::nothing(line),
            },
            Kind::Field(field) => match field.find(line) {
                Some(key) => LinePairs::one_pair(key, value),
                None => LinePairs::nothing(line),
            },
        }
    }
}

ghost use Rattle.mr_bytes.specs.Bytes.{folded};

fn fill_folded(line: &[u8], buffer: &mut Vec<u8>) -> Result<(), AllocError>
    ensures ok { OnOk result (buffer.new.items ≡ folded line.now) }
    ensures full { OnErr result (vec_capacity buffer.old < length line.now) }
    ensures err { OnErr result (buffer.new.items ≡ buffer.old.items) }
{
    make_room(buffer, line.len())?;
    // With that room, nothing below fails.
    buffer.clear();
    fold_into(line, buffer)?;
    Ok(())
}

fn make_room(buffer: &mut Vec<u8>, bytes: usize) -> Result<(), AllocError>
    ensures ok { OnOk result (bytes ≤ vec_capacity buffer.new) }
    ensures full { OnErr result (vec_capacity buffer.old < bytes) }
    ensures same { buffer.new.items ≡ buffer.old.items }
{
    if bytes <= buffer.capacity() {
        return Ok(());
    }
    buffer.reserve(bytes - buffer.len())
}
