//! Finds the words of many lines at once: those of a piece of a file.
//!
//!     file     ... | it is on two | ...        a piece, which may begin and end within a line
//!     words        it is on two                all words of the piece, by their places in it
//!     line            |is on|                  those that begin within the line are its words
//!
//! That holds where no word runs over an end of the line, as where lines end at line feeds. A line
//! that is not in the piece starts a new one there. A piece that goes on where the last one ended
//! has 16 KiB; any other has 1 KiB, or the line's bytes, since its lines may come in no order. A
//! line that is longer, or cut within a word, is a piece by itself. The words of a longer one are
//! not listed, so that a line takes no more memory than its bytes.
//! A line's words begin where those of the last line ended, or else a binary search finds them.
//! Cost: for all lines in order linear in the file; memory for one piece, which each refill uses.
ghost use Rattle.std.specs.Prelude.{◌≡◌, ℕ, ◌+◌, ◌-◌, ◌≤◌, ◌<◌, ◌^◌, true, false, IsTrue, OnOk, OnErr, is_ok};
ghost use Rattle.std.specs.Prelude.{if◌then◌else◌, [], length, slice_range};
ghost use Rattle.mr_bytes.specs.Words.{word_spans, word_spans_from};
ghost use Rattle.mr_jobs.specs.Emissions.{words_at};
ghost use Rattle.mr_jobs.specs.Pairs.{pairs_of};
ghost use Rattle.mr_jobs.specs.Pieces.{HasLine, IsCut, IsLineOf, IsPart, IsSeam, read_as, start_at};

use crate::pairs::LinePairs;
use mr_bytes::{Span, Value, is_word_byte};
use mr_lanes::{fold_into, word_spans};
use std::alloc::{AllocError, Global};
use std::marker::Model;

/// The bytes of a piece that goes on where the last one ended, and the most whose words are listed.
const PIECE_BYTES: usize = 16_384;

/// The bytes of any other piece.
const FIRST_BYTES: usize = 1024;

/// The bytes of a file from a place on with their words, and which of them are those of a line.
#[derive(Drop)]
pub(crate) struct WordPiece {
    folds: bool,
    file: u32,
    from: usize,
    /// The bytes, folded if `folds`.
    text: Vec<u8>,
    /// All words of the text; none if they are not listed.
    words: Vec<Span>,
    listed: bool,
    /// The numbers of the line's first word, and of the first one behind the line.
    first: usize,
    last: usize,
}

impl Model for WordPiece {
    ghost use Rattle.std.specs.Prelude.{◌≡◌, ◌≤◌, ◌^◌, length, true};
    ghost use Rattle.mr_bytes.specs.Words.{word_spans};
    ghost use Rattle.mr_jobs.specs.Pieces.{PieceSpec, words_in};

    ghost Value = { PieceSpec };

    ghost view = { λ p. record {
      folds = p.folds;
      file = p.file;
      from = p.from;
      text = p.text.items;
      listed = p.listed;
      line = words_in p.listed p.text.items p.first p.last;
    } };

    ghost invariant = { λ p. record {
      words : p.listed ≡ true → p.words.items ≡ word_spans p.text.items;
      small : length p.text.items ≤ 2 ^ 30;
      order : p.first ≤ p.last;
      within : p.listed ≡ true → p.last ≤ length p.words.items;
    } };
}

/// Whether no word runs over the place. Nearly all lines begin behind a line feed and end before one.
#[inline(always)]
fn is_seam(text: &[u8], at: usize) -> bool
    requires { at ≤ length text.now }
    ensures { IsTrue result → IsSeam text.now at }
{
    at == 0
        || at == text.len()
        || text[at - 1] == b'\n'
        || text[at] == b'\n'
        || !is_word_byte(text[at])
        || !is_word_byte(text[at - 1])
}

#[inline(always)]
fn start_of(words: &[Span], i: usize) -> usize
    requires { i < length words.now }
    ensures { result ≡ start_at words.now i }
{
    words[i].start as usize
}

#[inline(always)]
fn is_cut(words: &[Span], at: usize, k: usize) -> bool
    requires { k ≤ length words.now }
    ensures { IsTrue result → IsCut words.now at k }
{
    (k == 0 || start_of(words, k - 1) < at) && (k == words.len() || at <= start_of(words, k))
}

/// The number of a word that begins at the place or later, while the one before begins before it.
#[inline(never)]
fn search(words: &[Span], at: usize) -> usize
    ensures { IsCut words.now at result }
{
    let mut low = 0;
    let mut high = words.len();
    while low < high {
        let middle = low + (high - low) / 2;
        if start_of(words, middle) < at {
            low = middle + 1;
        } else {
            high = middle;
        }
    }
    low
}

/// The same, by a look at each word from number `from` on.
#[inline(always)]
fn go_on(words: &[Span], at: usize, from: usize) -> usize
    requires within { from ≤ length words.now }
    requires before { 0 < from → start_at words.now (from - 1) < at }
    ensures cut { IsCut words.now at result }
    ensures order { from ≤ result }
{
    let mut k = from;
    while k < words.len() && start_of(words, k) < at {
        k += 1;
    }
    k
}

/// Fills the text with the bytes as a job reads them, or with nothing.
fn read(folds: bool, bytes: &[u8], text: &mut Vec<u8>) -> Result<(), AllocError>
    ensures ok { OnOk result (text.new.items ≡ read_as folds bytes.now) }
    ensures err { OnErr result (text.new.items ≡ []) }
{
    text.clear();
    if folds {
        fold_into(bytes, text)
    } else {
        text.extend_from_slice(bytes)
    }
}

/// Fills the list with the words of the text, or with nothing.
fn list(text: &[u8], words: &mut Vec<Span>) -> Result<(), AllocError>
    requires { length text.now ≤ 2 ^ 30 }
    ensures { OnOk result (words.new.items ≡ word_spans text.now) }
{
    words.clear();
    word_spans(text, words)
}

impl WordPiece {
    /// A piece without bytes. Takes no memory.
    pub(crate) fn new(alloc: Global, folds: bool) -> WordPiece
        ensures { result ≡ record { folds = folds; file = 0; from = 0; text = []; listed = false; line = [] } }
    {
        WordPiece {
            folds,
            file: 0,
            from: 0,
            text: Vec::new(alloc),
            words: Vec::new(alloc),
            listed: false,
            first: 0,
            last: 0,
        }
    }

    /// Makes the piece the bytes `text` of the file from the place on. The line is all of it.
    fn fill(&mut self, file: u32, from: usize, text: &[u8]) -> Result<(), AllocError>
        requires small { length text.now ≤ 2 ^ 30 }
        ensures same { (self.new.folds ≡ self.old.folds) × (self.new.file ≡ file) × (self.new.from ≡ from) }
        ensures text { self.new.text ≡ (if is_ok result then read_as self.old.folds text.now else []) }
        ensures listed { OnOk result (length text.now ≤ 16384 → self.new.listed ≡ true) }
        ensures line { self.new.line ≡ word_spans self.new.text }
    {
        self.file = file;
        self.from = from;
        self.first = 0;
        self.last = 0;
        self.listed = false;
        read(self.folds, text, &mut self.text)?;
        if text.len() <= PIECE_BYTES {
            if list(self.text.as_slice(), &mut self.words).is_err() {
                self.text.clear();
                return Err(AllocError);
            }
            self.listed = true;
            self.last = self.words.len();
        }
        Ok(())
    }

    /// How many bytes a new piece has at most whose first line has so many.
    fn reach(&self, file: u32, start: usize, bytes: usize) -> usize
        requires { bytes ≤ 16384 }
        ensures { (bytes ≤ result) × (result ≤ 16384) }
    {
        let goes_on = file == self.file && self.from <= start;
        if goes_on && start - self.from <= self.text.len() + 1 {
            PIECE_BYTES
        } else {
            bytes.max(FIRST_BYTES)
        }
    }

    /// Makes the line the one from `start` to before `end` in the piece.
    #[inline(always)]
    fn find(&mut self, start: usize, end: usize)
        requires order { start ≤ end }
        requires within { end ≤ length self.old.text }
        requires first { IsSeam self.old.text start }
        requires last { IsSeam self.old.text end }
        requires listed { self.old.listed ≡ true }
        ensures { self.new ≡ record self.old { line = word_spans_from start (slice_range self.old.text start end) } }
    {
        let words = self.words.as_slice();
        let first = if is_cut(words, start, self.last) {
            self.last
        } else {
            search(words, start)
        };
        let last = go_on(words, end, first);
        self.first = first;
        self.last = last;
    }

    /// Whether the piece has the line, and no word runs over an end of it.
    #[inline(always)]
    fn has(&self, file: u32, start: usize, end: usize) -> bool
        requires { start ≤ end }
        ensures { IsTrue result → HasLine self.now file start end }
    {
        self.listed
            && file == self.file
            && self.from <= start
            && end - self.from <= self.text.len()
            && is_seam(self.text.as_slice(), start - self.from)
            && is_seam(self.text.as_slice(), end - self.from)
    }

    /// Makes the line the one from `start` to before `end` of the file, whose bytes are `text`.
    /// Fails only for want of memory.
    #[inline(always)]
    pub(crate) fn ready(
        &mut self,
        file: u32,
        text: &[u8],
        start: usize,
        end: usize,
    ) -> Result<(), AllocError>
        requires order { start ≤ end }
        requires within { end ≤ length text.now }
        requires small { length text.now ≤ 2 ^ 30 }
        requires part { self.old.file ≡ file → IsPart text.now self.old }
        ensures same { (self.new.folds ≡ self.old.folds) × (self.new.file ≡ file) }
        ensures part { IsPart text.now self.new }
        ensures line { OnOk result (IsLineOf (read_as self.old.folds (slice_range text.now start end)) self.new) }
    {
        if self.has(file, start, end) {
            self.find(start - self.from, end - self.from);
            return Ok(());
        }
        self.refill(file, text, start, end)
    }

    /// The same by a new piece that begins with the line.
    #[inline(never)]
    fn refill(&mut self, file: u32, text: &[u8], start: usize, end: usize) -> Result<(), AllocError>
        requires order { start ≤ end }
        requires within { end ≤ length text.now }
        requires small { length text.now ≤ 2 ^ 30 }
        ensures same { (self.new.folds ≡ self.old.folds) × (self.new.file ≡ file) }
        ensures part { IsPart text.now self.new }
        ensures line { OnOk result (IsLineOf (read_as self.old.folds (slice_range text.now start end)) self.new) }
    {
        let bytes = end - start;
        if PIECE_BYTES < bytes || !is_seam(text, end) {
            return self.fill(file, start, &text[start..end]);
        }
        let reach = self.reach(file, start, bytes).min(text.len() - start);
        self.fill(file, start, &text[start..start + reach])?;
        self.find(0, bytes);
        Ok(())
    }

    /// The words of the line, each with the value.
    #[inline(always)]
    pub(crate) fn emit(&self, value: Value) -> LinePairs<'_>
        ensures { pairs_of result ≡ words_at value self.now.text self.now.line }
    {
        if self.listed {
            LinePairs::some_words(
                self.text.as_slice(),
                &self.words[self.first..self.last],
                value,
            )
        } else {
            LinePairs::all_words(self.text.as_slice(), value)
        }
    }
}
