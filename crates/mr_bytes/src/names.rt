//! Names of records and of pairs, and their orders. `==` of the plain types is equality of values;
//! `clone` never fails, and returns the same value.
ghost use Rattle.std.specs.Prelude.{◌≡◌, ◌↔◌, IsTrue, Ok};
ghost use Rattle.std.specs.Cmp.{IsTotalOrder};
ghost use Rattle.mr_bytes.specs.Order.{key_order, name_order, record_order};
ghost use Rattle.mr_bytes.specs.Lists.{RisingIsOne, SortedHas, SortedRises};
ghost use Rattle.mr_bytes.specs.Pairs.{Triple, pair_order};

use crate::{Name, RecordName, Span, Value};
use std::alloc::AllocError;
use std::cmp::Ordering;
use std::marker::Model;

/// Compares keys as lists of unsigned bytes; a proper prefix is less.
pub fn compare_keys(a: &[u8], b: &[u8]) -> Ordering
    ensures { result ≡ key_order a.now b.now }
{
    a.cmp(b)
}

/// Compares records by split, then by number.
pub fn compare_records(a: RecordName, b: RecordName) -> Ordering
    ensures { result ≡ record_order a b }
{
    a.cmp(&b)
}

/// Compares names by split, then record, then place: the order of the input.
pub fn compare_names(x: Name, y: Name) -> Ordering
    ensures { result ≡ name_order x y }
{
    x.cmp(&y)
}

/// Each of the three orders is total.
pub fn order_law()
    ensures keys { IsTotalOrder key_order }
    ensures records { IsTotalOrder record_order }
    ensures names { IsTotalOrder name_order }
{}

/// A pair that a job emits, with its name.
#[derive(Debug, Drop)]
pub struct Pair {
    pub key: Vec<u8>,
    pub value: Value,
    pub name: Name,
}

impl Model for Pair {
    ghost use Rattle.mr_bytes.specs.Pairs.{Triple};

    ghost Value = { Triple };

    ghost view = { λ p. record { key = p.key.items; value = p.value; name = p.name } };
}

/// Compares pairs by key, then by name.
pub fn compare_pairs(a: &Pair, b: &Pair) -> Ordering
    ensures { result ≡ pair_order a.now b.now }
{
    compare_keys(a.key.as_slice(), b.key.as_slice()).then(compare_names(a.name, b.name))
}

/// A sorted list rises and has exactly the list's elements, which determine a rising list.
pub fn sorted_law()
    ensures one { RisingIsOne Triple }
    ensures rises { SortedRises Triple }
    ensures elements { SortedHas Triple }
{}

/// Whether the names are equal.
pub fn is_same_name(a: Name, b: Name) -> bool
    ensures { IsTrue result ↔ (a ≡ b) }
{
    a == b
}

/// Whether the names of records are equal.
pub fn is_same_record(a: RecordName, b: RecordName) -> bool
    ensures { IsTrue result ↔ (a ≡ b) }
{
    a == b
}

/// Whether the values are equal.
pub fn is_same_value(a: Value, b: Value) -> bool
    ensures { IsTrue result ↔ (a ≡ b) }
{
    a == b
}

/// Whether the spans are equal.
pub fn is_same_span(a: Span, b: Span) -> bool
    ensures { IsTrue result ↔ (a ≡ b) }
{
    a == b
}

pub fn clone_of_name(name: &Name) -> Result<Name, AllocError>
    ensures { result ≡ Ok name.now }
{
    name.clone()
}

pub fn clone_of_record(name: &RecordName) -> Result<RecordName, AllocError>
    ensures { result ≡ Ok name.now }
{
    name.clone()
}

pub fn clone_of_value(value: &Value) -> Result<Value, AllocError>
    ensures { result ≡ Ok value.now }
{
    value.clone()
}

pub fn clone_of_span(span: &Span) -> Result<Span, AllocError>
    ensures { result ≡ Ok span.now }
{
    span.clone()
}
