//! The field of a record that has a given number, from 1.
//!
//!     separator    fields                                       of `a:b:`, with `:`
//!     one byte     the stretches between separators             `a`, `b` and the empty one
//!     none         the maximal stretches without spaces or tabs `a:b:`
//!
//! With a separator an empty record has one empty field. Without one, spaces and tabs at either end
//! count for nothing, and no field is empty. Any other byte is a part of its field, a carriage
//! return too. A certificate names the field by the separator and the number in decimal. A
//! separator is no digit, so no two fields have the same name.
//! Invariant: the field is the one of the rest that has as many fields before it as are left.
//! Cost: a search for each field up to the last one looked for, so linear in the record; no memory
//! but the name. It ends where the record does, however great the number is.
//! Source: docs/FORMATS.md, "Jobs".
ghost use Rattle.std.specs.Prelude.{◌≡◌, ℕ, ◌≤◌, ◌↔◌, ◌++◌, ◌-◌, None, Some, IfOk, IfSome, MatchOption};
ghost use Rattle.std.specs.Prelude.{IsTrue, Option, decimal, length, true, false};
ghost use Rattle.std.specs.List.{prefix_len};
ghost use Rattle.mr_jobs.specs.Fields.{CannotSeparate, FieldFits, NumberFits, behind_blanks, field_behind};
ghost use Rattle.mr_jobs.specs.Fields.{field_literal, field_of, is_no_blank, separator_bytes};
ghost use Rattle.mr_jobs.specs.Fields.{stretch_behind};
ghost use Rattle.mr_jobs.specs.Laws.{FieldsAreBetween, FieldsAreStretches};

use crate::url::{after_byte, before_byte};
use itoa::Buffer;
use memchr::memchr2;
use mr_lanes::leading_blanks;
use std::alloc::{AllocError, Global};

/// Which field of a record, and the bytes by which a certificate names it.
#[derive(Drop)]
pub(crate) struct Field {
    separator: Option<u8>,
    number: u32,
    literal: Vec<u8>,
    ghost named: { literal.items ≡ field_literal separator number },
    ghost short: { length literal.items ≤ 4096 },
}

/// Whether the byte is a line feed or a digit, which separates no fields.
pub(crate) fn cannot_separate(separator: u8) -> bool
    ensures { IsTrue result ↔ CannotSeparate separator }
{
    separator == b'\n' || (b'0' <= separator && separator <= b'9')
}

/// The separator as bytes, if there is one.
fn separator_bytes(alloc: Global, separator: Option<u8>) -> Result<Vec<u8>, AllocError>
    ensures bytes { IfOk result (λ v. v.items ≡ separator_bytes separator) }
    ensures short { IfOk result (λ v. length v.items ≤ 1) }
{
    match separator {
        Some(separator) => Vec::from_slice(alloc, &[separator]),
        None => Ok(Vec::new(alloc)),
    }
}

impl Field {
    pub(crate) fn new(
        alloc: Global,
        separator: Option<u8>,
        number: u32,
    ) -> Result<Field, AllocError>
        ensures { IfOk result (λ f. (f.separator ≡ separator) × (f.number ≡ number)) }
    {
        let mut literal = separator_bytes(alloc, separator)?;
        let mut digits = Buffer::new();
        literal.extend_from_slice(digits.format(number).as_bytes())?;
        Ok(Field {
            separator,
            number,
            literal,
        })
    }

    /// The name: the separator, if there is one, and the number in decimal.
    pub(crate) fn literal(&self) -> &[u8]
        ensures name { result.now ≡ field_literal self.now.separator self.now.number }
        ensures short { length result.now ≤ 4096 }
    {
        self.literal.as_slice()
    }

    /// The field of the line, if the line has so many.
    pub(crate) fn find<'a>(&self, line: &'a [u8]) -> Option<&'a [u8]>
        ensures short { IfSome result (λ r. length r.now ≤ length line.now) }
        ensures value { MatchOption result (field_of self.now.separator self.now.number line.now ≡ None)
            (λ r. field_of self.now.separator self.now.number line.now ≡ Some r.now) }
    {
        let before = self.number.saturating_sub(1);
        match self.separator {
            Some(separator) => field_behind(line, separator, before),
            None => stretch_behind(line, before),
        }
    }
}

/// The field behind so many separators.
fn field_behind(line: &[u8], separator: u8, before: u32) -> Option<&[u8]>
    ensures short { IfSome result (λ r. length r.now ≤ length line.now) }
    ensures value { MatchOption result (field_behind separator before line.now ≡ None)
        (λ r. field_behind separator before line.now ≡ Some r.now) }
{
    let mut rest = line;
    let mut left = before;
    while left > 0 {
        let Some(behind) = after_byte(rest, separator) else {
            return None;
        };
        rest = behind;
        left -= 1;
    }
    Some(before_byte(rest, separator))
}

/// The bytes from the first one on that is neither a space nor a tab.
#[inline(always)]
fn behind_blanks(bytes: &[u8]) -> &[u8]
    ensures short { length result.now ≤ length bytes.now }
    ensures value { result.now ≡ behind_blanks bytes.now }
{
    &bytes[leading_blanks(bytes)..]
}

/// How many bytes come before the first space or tab, or all.
#[inline(always)]
fn stretch_end(bytes: &[u8]) -> usize
    ensures short { result ≤ length bytes.now }
    ensures value { result ≡ prefix_len is_no_blank bytes.now }
{
    match memchr2(b' ', b'\t', bytes) {
        Some(at) => at,
        None => bytes.len(),
    }
}

/// The field behind so many others, by gaps.
fn stretch_behind(line: &[u8], before: u32) -> Option<&[u8]>
    ensures short { IfSome result (λ r. length r.now ≤ length line.now) }
    ensures value { MatchOption result (stretch_behind before (behind_blanks line.now) ≡ None)
        (λ r. stretch_behind before (behind_blanks line.now) ≡ Some r.now) }
{
    let mut rest = behind_blanks(line);
    let mut left = before;
    while left > 0 {
        if rest.is_empty() {
            return None;
        }
        rest = behind_blanks(&rest[stretch_end(rest)..]);
        left -= 1;
    }
    let field = &rest[..stretch_end(rest)];
    if field.is_empty() { None } else { Some(field) }
}

/// The parts of a name: the byte in front, unless it is a digit, and the digits.
pub(crate) fn name_parts(name: &[u8]) -> (Option<u8>, &[u8])
    ensures { (separator : Option ℕ) (number : ℕ) → FieldFits separator number
        → name.now ≡ field_literal separator number → (result.0 ≡ separator) × (result.1.now ≡ decimal number) }
{
    match name.split_first() {
        Some((first, digits)) if !first.is_ascii_digit() => (Some(*first), digits),
        _ => (None, name),
    }
}

/// The number that digits write, or 0 for any other bytes.
pub(crate) fn number_of(digits: &[u8]) -> u32
    ensures { (number : ℕ) → NumberFits number → digits.now ≡ decimal number → result ≡ number }
{
    let Ok(text) = str::from_utf8(digits) else {
        return 0;
    };
    match text.parse::<u32>() {
        Ok(number) => number,
        Err(_) => 0,
    }
}

/// What `field_of` means: the stretch of that number between separators, or the maximal stretch of
/// that number without spaces and tabs.
pub fn field_law()
    ensures between { FieldsAreBetween }
    ensures stretches { FieldsAreStretches }
{}
