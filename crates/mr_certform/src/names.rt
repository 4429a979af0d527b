//! The names of a certificate: packed in four bytes each, or as they are, in twelve.
//!
//!     spans    [ 0: 0/0 by 4    8: 0/2    17: 1/0 by 4 ]     what numbers mean (`record_names.rt`)
//!     packed   [ 9 2 17 .. ]                                 a number stands for a name
//!     plain    [ n n n .. ]                                  the names after those, as they are
//!
//! The sequential execution packs its names; names that were read or sent are plain. A number is of
//! the last span that begins at or before it. `Names` keeps the span of the last name: it has the
//! numbers from its first to before `end`, and none of them is searched for.
//! Cost: a step for a name of the same span as the one before, else a binary search of the spans.
ghost use Rattle.std.specs.Prelude.{◌≡◌, ◌<◌, ◌≤◌, ◌++◌, ◌∷◌, [], OnOk};
ghost use Rattle.std.specs.Prelude.{MatchOption, length, map, take, drop, slice_index_or};
ghost use Rattle.mr_certform.specs.Packed.{AreSpans, Covers, name_under, no_span};
ghost use Rattle.mr_certform.specs.Packed.{span_under};
ghost use Rattle.mr_certform.specs.Places.{first_name};

use crate::record_names::{NameSpan, RecordNames};
use mr_bytes::Name;
use std::alloc::{AllocError, Global};
use std::marker::Model;

/// Names, in order: packed ones, then plain ones.
#[derive(Drop)]
pub struct NameColumn {
    spans: Vec<NameSpan>,
    packed: Vec<u32>,
    plain: Vec<Name>,
}

impl Model for NameColumn {
    ghost use Rattle.std.specs.Prelude.{List};
    ghost use Rattle.mr_bytes.specs.declared.Name.{Name};
    ghost use Rattle.mr_certform.specs.Packed.{AreSpans, names_held};

    ghost Value = { List Name };

    ghost view = { λ n. names_held n.spans.items n.packed.items n.plain.items };

    ghost invariant = { λ n. AreSpans n.spans.items };
}

impl NameColumn {
    /// These names, as they are.
    pub fn plain(alloc: Global, names: Vec<Name>) -> NameColumn
        ensures { result ≡ names.items }
    {
        NameColumn {
            spans: Vec::new(alloc),
            packed: Vec::new(alloc),
            plain: names,
        }
    }

    /// The names that these numbers stand for.
    pub fn packed(alloc: Global, packed: Vec<u32>, names: RecordNames) -> NameColumn
        ensures { result ≡ map (name_under names.spans) packed.items }
    {
        NameColumn {
            spans: names.into_spans(),
            packed,
            plain: Vec::new(alloc),
        }
    }

    /// Appends a name.
    pub fn push(&mut self, name: Name) -> Result<(), AllocError>
        ensures { OnOk result (self.new ≡ self.old ++ name ∷ []) }
    {
        self.plain.push(name)?;
        Ok(())
    }

    /// Appends names.
    pub fn append(&mut self, names: &[Name]) -> Result<(), AllocError>
        ensures { OnOk result (self.new ≡ self.old ++ names.now) }
    {
        self.plain.extend_from_slice(names)
    }

    /// How many names there are.
    pub fn len(&self) -> usize
        ensures { result ≡ length self.now }
    {
        self.names().len()
    }

    /// The names, to be read.
    pub fn names(&self) -> Names<'_>
        ensures { result ≡ self.now }
    {
        Names {
            spans: &self.spans,
            span: NameSpan::none(),
            end: 0,
            packed: &self.packed,
            plain: &self.plain,
        }
    }
}

/// The names that are still unread, in order.
#[derive(Drop)]
pub struct Names<'a> {
    spans: &'a [NameSpan],
    span: NameSpan,
    end: u32,
    packed: &'a [u32],
    plain: &'a [Name],
}

impl<'a> Model for Names<'a> {
    ghost use Rattle.std.specs.Prelude.{List};
    ghost use Rattle.mr_bytes.specs.declared.Name.{Name};
    ghost use Rattle.mr_certform.specs.Packed.{AreSpans, Covers, names_held};

    ghost Value = { List Name };

    ghost view = { λ n. names_held n.spans.now n.packed.now n.plain.now };

    ghost invariant = { λ n. record {
      follow : AreSpans n.spans.now;
      covers : Covers n.spans.now n.span n.end;
    } };
}

impl<'a> Names<'a> {
    /// These names.
    pub fn plain(names: &'a [Name]) -> Names<'a>
        ensures { result ≡ names.entry.now }
    {
        Names {
            spans: &[],
            span: NameSpan::none(),
            end: 0,
            packed: &[],
            plain: names,
        }
    }

    /// How many names there are.
    pub fn len(&self) -> usize
        ensures { result ≡ length self.now }
    {
        self.packed.len() + self.plain.len()
    }

    /// Name `i`, from 0.
    pub fn get(&self, i: usize) -> Name
        requires { i < length self.now }
        ensures { result ≡ slice_index_or self.now i first_name }
    {
        if i < self.packed.len() {
            let number = self.packed[i];
            return span_with(self.spans, self.span, self.end, number)
                .0
                .name(number);
        }
        self.plain[i - self.packed.len()]
    }

    /// The first `count` names, and those after them.
    pub fn split_at(&self, count: usize) -> (Names<'a>, Names<'a>)
        requires { count ≤ length self.now }
        ensures front { result.0 ≡ take count self.now }
        ensures back { result.1 ≡ drop count self.now }
    {
        let (packed, more_packed) = self.packed.split_at(count.min(self.packed.len()));
        let (plain, more_plain) = self.plain.split_at(count - packed.len());
        let front = Names {
            spans: self.spans,
            span: self.span,
            end: self.end,
            packed,
            plain,
        };
        let back = Names {
            spans: self.spans,
            span: self.span,
            end: self.end,
            packed: more_packed,
            plain: more_plain,
        };
        (front, back)
    }

    /// The next name.
    #[inline]
    pub fn next(&mut self) -> Option<Name>
        ensures { MatchOption result ((self.old ≡ []) × (self.new ≡ [])) (λ n. self.old ≡ n ∷ self.new) }
    {
        if let Some((number, rest)) = self.packed.split_first() {
            let (span, end) = span_with(self.spans, self.span, self.end, *number);
            self.packed = rest;
            self.span = span;
            self.end = end;
            return Some(span.name(*number));
        }
        let (name, rest) = self.plain.split_first()?;
        self.plain = rest;
        Some(*name)
    }
}

/// The span of the number, and the end of its numbers: this one if it has it, else the one found.
#[inline]
fn span_with(spans: &[NameSpan], span: NameSpan, end: u32, number: u32) -> (NameSpan, u32)
    requires spans { AreSpans spans.now }
    requires covers { Covers spans.now span end }
    ensures span { result.0 ≡ span_under spans.now number }
    ensures covers { Covers spans.now result.0 result.1 }
{
    if span.first <= number && number < end {
        (span, end)
    } else {
        span_of(spans, number)
    }
}

/// The last span that begins at or before the number, or none, and where the next one begins.
#[inline(never)]
fn span_of(spans: &[NameSpan], number: u32) -> (NameSpan, u32)
    requires { AreSpans spans.now }
    ensures span { result.0 ≡ span_under spans.now number }
    ensures covers { Covers spans.now result.0 result.1 }
{
    let begun = spans.partition_point(|span| span.first <= number);
    (span_before(spans, begun), first_of(spans, begun))
}

fn span_before(spans: &[NameSpan], i: usize) -> NameSpan
    requires { i ≤ length spans.now }
    ensures { result ≡ slice_index_or (no_span ∷ spans.now) i no_span }
{
    match i.checked_sub(1) {
        Some(before) => spans[before],
        None => NameSpan::none(),
    }
}

/// Where span `i` begins, if there is one.
fn first_of(spans: &[NameSpan], i: usize) -> u32
    ensures { i < length spans.now → result ≡ (slice_index_or spans.now i no_span).first }
{
    match spans.get(i) {
        Some(span) => span.first,
        None => u32::MAX,
    }
}
