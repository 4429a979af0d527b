//! The names of pairs in four bytes each: a number stands for a name.
//!
//!     records   0/0   0/1   0/2   1/0        split / record
//!     counts    3     0     9     1          how many pairs each has
//!     numbers   0..   4..   8..   17         4 for each record, more for one of more pairs
//!     spans     [ 0: 0/0 by 4    8: 0/2    17: 1/0 by 4 ]
//!
//! A span begins at a number, and says which record that is. Each record of a usual span has as
//! many numbers, a power of two: so a number's record and place are a quotient and a remainder. A
//! record with more pairs has a span of its own. A record begins a span wherever the last one would
//! give its first pair another name.
//! The power is chosen so that the records take less than half of all numbers of four bytes. Pairs
//! of an input are fewer than the other half: so all numbers fit, however pairs are spread.
//! Cost: four bytes a record and sixteen a span.
ghost use Rattle.std.specs.Prelude.{◌≡◌, ℕ, ◌≤◌, ◌<◌, ◌++◌, ◌∷◌, [], MatchOption, OnOk};
ghost use Rattle.mr_certform.specs.Packed.{AreOpen, AreSpans, name_in, names_from, names_of};
ghost use Rattle.mr_certform.specs.Packed.{span_under, unit_of};

use mr_bytes::{Name, RecordName};
use std::alloc::{AllocError, Global};
use std::marker::Model;

/// Numbers from `first` on: of the records from `rec` on of a split, each with 2^bits numbers.
#[derive(Clone, Copy, Drop)]
pub(crate) struct NameSpan {
    pub first: u32,
    pub split: u32,
    pub rec: u32,
    pub bits: u32,
}

impl NameSpan {
    pub(crate) fn none() -> NameSpan
        ensures { result ≡ record { first = 0; split = 0; rec = 0; bits = 0 } }
    {
        NameSpan::of(0, 0, 0, 0)
    }

    pub(crate) fn of(first: u32, split: u32, rec: u32, bits: u32) -> NameSpan
        ensures is { result ≡ record { first = first; split = split; rec = rec; bits = bits } }
        ensures named { name_in result first ≡ record { split = split; rec = rec; place = 0 } }
    {
        NameSpan {
            first,
            split,
            rec,
            bits,
        }
    }

    /// The name that a number of this span means.
    #[inline(always)]
    pub(crate) fn name(&self, number: u32) -> Name
        ensures { result ≡ name_in self.now number }
    {
        let behind = u64::from(number.saturating_sub(self.first));
        let unit = unit_of(self.bits);
        Name {
            split: self.split,
            rec: self.rec.saturating_add((behind / unit) as u32),
            place: (behind % unit) as u32,
        }
    }
}

#[inline(always)]
fn unit_of(bits: u32) -> u64
    ensures { result ≡ unit_of bits }
{
    1u64 << bits.min(32)
}

/// So many bits if as many pairs have room then, else 32.
fn bits_for(bits: u32, count: u32) -> u32
    ensures { count ≤ unit_of result }
{
    if u64::from(count) <= unit_of(bits) {
        bits
    } else {
        32
    }
}

/// Spans, and the one that has all numbers from some base on.
#[derive(Drop)]
struct OpenSpans {
    spans: Vec<NameSpan>,
    last: NameSpan,
}

impl OpenSpans {
    /// Adds this span, unless the last one gives its first number the same name, and has room for
    /// as many pairs of that record.
    #[inline(always)]
    fn reach(&mut self, span: NameSpan, count: u64) -> Result<(), AllocError>
        requires valid { AreOpen self.old.spans.items self.old.last span.first }
        requires room { count ≤ unit_of span.bits }
        ensures valid { AreOpen self.new.spans.items self.new.last span.first }
        ensures before { (n : ℕ) → n < span.first
            → span_under self.new.spans.items n ≡ span_under self.old.spans.items n }
        ensures named { OnOk result (name_in self.new.last span.first ≡ name_in span span.first) }
        ensures room { OnOk result (count ≤ unit_of self.new.last.bits) }
    {
        let named = self.last.name(span.first) == span.name(span.first);
        if !named || unit_of(self.last.bits) < count {
            self.spans.push(span)?;
            self.last = span;
        }
        Ok(())
    }
}

/// The names of records' pairs so far, in order.
#[derive(Drop)]
pub struct RecordNames {
    counts: Vec<u32>,
    reached: OpenSpans,
    base: u32,
    bits: u32,
}

impl Model for RecordNames {
    ghost use Rattle.std.specs.Prelude.{◌≡◌, ◌<◌, ◌^◌};
    ghost use Rattle.mr_certform.specs.Packed.{AreOpen, Numbered, base_behind, numbers_from};
    ghost use Rattle.mr_certform.specs.Packed.{unit_of};

    ghost Value = { Numbered };

    ghost view = { λ r. record {
      spans = r.reached.spans.items;
      numbers = numbers_from (unit_of r.bits) 0 r.counts.items;
    } };

    ghost invariant = { λ r. record {
      few : r.base < 2 ^ 32;
      reached : AreOpen r.reached.spans.items r.reached.last r.base;
      base_is : r.base ≡ base_behind (unit_of r.bits) 0 r.counts.items;
    } };
}

impl RecordNames {
    /// No names yet, of so many records at most. More may be pushed: numbers run out the earlier.
    pub fn new(alloc: Global, records: u32) -> RecordNames
        ensures { names_of result ≡ [] }
    {
        RecordNames {
            counts: Vec::new(alloc),
            reached: OpenSpans {
                spans: Vec::new(alloc),
                last: NameSpan::none(),
            },
            base: 0,
            bits: records.leading_zeros().saturating_sub(1),
        }
    }

    /// Appends the names of a record's pairs. Fails for want of memory or numbers.
    #[inline]
    pub fn push_record(&mut self, name: RecordName, count: u32) -> Result<(), AllocError>
        ensures { OnOk result (names_of self.new ≡ names_of self.old ++ names_from name 0 count) }
    {
        let wide = u64::from(count);
        let unit = unit_of(self.bits);
        let end = u64::from(self.base) + unit.max(wide);
        if 4_294_967_295 < end {
            return Err(AllocError);
        }
        let bits = bits_for(self.bits, count);
        let span = NameSpan::of(self.base, name.split, name.rec, bits);
        self.reached.reach(span, wide)?;
        self.counts.push(count)?;
        self.base = end as u32;
        Ok(())
    }

    /// The numbers that stand for the names, in order.
    pub fn numbers(&self) -> NameNumbers<'_>
        ensures { result ≡ self.entry.now.numbers }
    {
        NameNumbers {
            counts: &self.counts,
            unit: unit_of(self.bits),
            base: 0,
            next: 0,
            end: 0,
        }
    }

    /// What the numbers mean.
    pub(crate) fn into_spans(self) -> Vec<NameSpan>
        ensures spans { result.items ≡ self.spans }
        ensures follow { AreSpans result.items }
    {
        self.reached.spans
    }
}

/// The numbers that are still unread: from `next` up to before `end`, then those of the records
/// with these counts, from `base` on.
#[derive(Drop)]
pub struct NameNumbers<'a> {
    counts: &'a [u32],
    unit: u64,
    base: u64,
    next: u64,
    end: u64,
}

impl<'a> Model for NameNumbers<'a> {
    ghost use Rattle.std.specs.Prelude.{◌-◌, ◌++◌, ◌≤◌, ◌<◌, ◌^◌, ℕ, List};
    ghost use Rattle.std.specs.List.{range_with_len};
    ghost use Rattle.mr_certform.specs.Packed.{base_behind, numbers_from};

    ghost Value = { List ℕ };

    ghost view = { λ n. range_with_len n.next (n.end - n.next) ++ numbers_from n.unit n.base n.counts.now };

    ghost invariant = { λ n. record {
      few : base_behind n.unit n.base n.counts.now < 2 ^ 32;
      low : n.end ≤ n.base;
    } };
}

impl<'a> NameNumbers<'a> {
    /// The next number.
    #[inline(always)]
    pub fn next(&mut self) -> Option<u32>
        ensures { MatchOption result (self.old ≡ []) (λ n. self.old ≡ n ∷ self.new) }
    {
        while self.next >= self.end {
            let (count, rest) = self.counts.split_first()?;
            self.counts = rest;
            self.next = self.base;
            self.end = self.base + u64::from(*count);
            self.base += self.unit.max(u64::from(*count));
        }
        let number = self.next;
        self.next += 1;
        Some(number as u32)
    }
}
