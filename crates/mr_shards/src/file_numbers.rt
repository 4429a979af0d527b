//! The files that a line of an index names, as rising numbers: `KEY\t0,3,4\n`.
//!
//! A line is read twice: once to test it and for its last file, where it comes, and once where the
//! lines of its key are joined (`waiting.rt`): there its files are moved as the places of the shard
//! move, and written. Invariant: the numbers rise. Cost: one pass over the text each.
ghost use Rattle.std.specs.Prelude.{◌≡◌, ◌+◌, ◌<◌, ◌≤◌, ◌^◌, ◌∷◌, ◌++◌, [], ℕ, IfOk, IfSome, None};
ghost use Rattle.std.specs.Prelude.{List, OnOk, MatchOption, decimal, length, map};
ghost use Rattle.mr_jobs.specs.declared.job.GroupText.TheVariants.{Files};
ghost use Rattle.mr_reduce.specs.Writing.{last_file as last_among, values_text};
ghost use Rattle.mr_shards.specs.Lines.{fields, numbers_in, places_in};
ghost use Rattle.mr_shards.specs.Index.{NumbersMove, NumbersRead};
ghost use Rattle.mr_shards.specs.Index.{BeginsList, fields_left, number_past, size_left};
ghost use Rattle.mr_shards.specs.Numbers.{IsCutBehind};
ghost use Rattle.mr_shards.specs.Portions.{shifted_value};
ghost use Rattle.mr_shards.specs.Views.{IsListTo};

use crate::numbers::{cut_number, with_digit};
use crate::shift::Shift;
use mr_reduce::append_file;
use std::alloc::AllocError;

/// Moved files are moved numbers, and a list of numbers is read back from its text.
pub fn index_law()
    ensures moved { NumbersMove }
    ensures read { NumbersRead }
{}

/// The last number of a list. It takes rising numbers that fit in 32 bits, and no other text.
pub(crate) fn last_file(list: &[u8]) -> Option<u32>
    ensures { MatchOption result ((n : ℕ) → IsListTo n list.now → ⊥) (λ n. IsListTo n list.now) }
{
    let mut left = Some(list);
    let mut last = None;
    while let Some(text) = left {
        let (number, rest) = next_number(text, last)?;
        last = Some(number);
        left = rest;
    }
    last
}

/// Appends the files of the list, moved, to a text that ends with the file `before`, and returns the
/// last one.
pub(crate) fn append_files(
    text: &mut Vec<u8>,
    before: Option<u32>,
    list: &[u8],
    last: u32,
    moved: Shift,
) -> Result<Option<u32>, AllocError>
    requires list { IsListTo last list.now }
    requires fits { moved.files + last < 2 ^ 32 }
    ensures text { OnOk result (text.new.items ≡ text.old.items
        ++ values_text Files [] before (map (shifted_value moved) (places_in (numbers_in list.now)))) }
    ensures last { IfOk result (λ r. r
        ≡ last_among before (map (shifted_value moved) (places_in (numbers_in list.now)))) }
{
    let mut end = before;
    let mut left = Some(list);
    while let Some(rest) = left {
        let (number, more) = first_number(rest);
        let file = (moved.files + u64::from(number)) as u32;
        append_file(end, file, text)?;
        end = Some(file);
        left = more;
    }
    Ok(end)
}

/// The first number of a list that was tested, and the list behind its comma if there is one. Most
/// have one or two digits.
#[inline(always)]
fn first_number(list: &[u8]) -> (u32, Option<&[u8]>)
    requires { BeginsList list.now }
    ensures number { fields list.entry.now ≡ decimal result.0 ∷ fields_left result.1 }
    ensures fits { result.0 < 2 ^ 32 }
    ensures shorter { size_left result.1 ≤ length list.entry.now }
{
    let first = u32::from(list[0] - b'0');
    if list.len() < 2 {
        return (first, None);
    }
    if list[1] == b',' {
        return (first, Some(&list[2..]));
    }
    let both = first * 10 + u32::from(list[1] - b'0');
    if list.len() < 3 {
        return (both, None);
    }
    if list[2] == b',' {
        return (both, Some(&list[3..]));
    }
    long_number(list)
}

/// Like `first_number`, digit by digit.
fn long_number(list: &[u8]) -> (u32, Option<&[u8]>)
    requires { BeginsList list.now }
    ensures number { fields list.entry.now ≡ decimal result.0 ∷ fields_left result.1 }
    ensures fits { result.0 < 2 ^ 32 }
    ensures shorter { size_left result.1 ≤ length list.entry.now }
{
    let mut number = 0;
    let mut at = 0;
    while at < list.len() {
        if list[at] == b',' {
            return (number, Some(&list[at + 1..]));
        }
        number = number * 10 + u32::from(list[at] - b'0');
        at += 1;
    }
    (number, None)
}

/// Cuts off a number of two digits with a comma behind it, as most are.
#[inline(always)]
fn cut_two_digits(list: &[u8]) -> Option<(u32, &[u8])>
    ensures { IfSome result (λ r. IsCutBehind list.entry.now r.0 (44 ∷ r.1.now) × (r.0 < 100)) }
{
    if list.len() < 3 || list[0] == b'0' || list[2] != b',' {
        return None;
    }
    let tens = with_digit(0, list, 0)?;
    let number = with_digit(tens, list, 1)?;
    Some((number as u32, &list[3..]))
}

/// The first number of a list, if it is greater than the last one and fits in 32 bits, and the list
/// behind its comma if there is one.
#[inline(always)]
fn next_number(list: &[u8], last: Option<u32>) -> Option<(u32, Option<&[u8]>)>
    ensures number { IfSome result (λ r. fields list.entry.now ≡ decimal r.0 ∷ fields_left r.1) }
    ensures past { IfSome result (λ r. (number_past last ≤ r.0) × (r.0 < 2 ^ 32)) }
    ensures shorter { IfSome result (λ r. size_left r.1 ≤ length list.entry.now) }
    ensures none { result ≡ None → (n : ℕ) (more : List (List ℕ)) → fields list.entry.now ≡ decimal n ∷ more
        → number_past last ≤ n → n < 2 ^ 32 → ⊥ }
{
    let least = match last {
        Some(number) => number as u64 + 1,
        None => 0,
    };
    if let Some((file, rest)) = cut_two_digits(list) {
        if u64::from(file) < least {
            return None;
        }
        return Some((file, Some(rest)));
    }
    let (number, rest) = cut_number(list)?;
    if number < least {
        return None;
    }
    if number >= 1 << 32 {
        return None;
    }
    let file = number as u32;
    if rest.is_empty() {
        return Some((file, None));
    }
    if rest[0] != b',' {
        return None;
    }
    Some((file, Some(&rest[1..])))
}
