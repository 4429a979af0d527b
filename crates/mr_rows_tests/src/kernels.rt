//! The kernels. A case on standard input is the number of a kernel in one byte,
//! and two texts, each behind its length in four bytes, the highest first. A line tells what the kernel answers.
use crate::telling::Teller;
use crate::{jobs, plain};
use mr_bytes::{Span, cut};
use mr_lanes::{
    find_folded, first_difference, fold_into, hash8, line_ends, line_ends_between, next_word,
    planes, word_spans,
};
use mr_partition::{partition, partition8};
use std::alloc::AllocError;
use std::io;

/// The longest text in which lines and words are looked for.
const LONGEST: usize = 1 << 30;

/// So many bytes, and those behind them.
fn piece(bytes: &[u8], len: usize) -> Option<(&[u8], &[u8])> {
    if bytes.len() < len {
        return None;
    }
    Some((&bytes[..len], &bytes[len..]))
}

/// The text behind its length, and the bytes behind it.
fn text(bytes: &[u8]) -> Option<(&[u8], &[u8])> {
    let (front, behind) = piece(bytes, 4)?;
    let mut len = 0;
    for byte in front {
        len = (len << 8) | usize::from(*byte);
    }
    piece(behind, len)
}

/// A case.
struct Case<'a> {
    kernel: u8,
    a: &'a [u8],
    b: &'a [u8],
}

/// The case in front, and the bytes behind it.
fn next_case(bytes: &[u8]) -> Option<(Case<'_>, &[u8])> {
    let (kernel, behind) = bytes.split_first()?;
    let (a, behind) = text(behind)?;
    let (b, behind) = text(behind)?;
    let kernel = *kernel;
    Some((Case { kernel, a, b }, behind))
}

/// The first 64 bytes, and spaces where there are fewer.
fn show_planes(teller: &Teller, bytes: &[u8]) {
    let mut block = [0x20; 64];
    let count = bytes.len().min(64);
    block[..count].copy_from_slice(&bytes[..count]);
    teller.one(&planes(&block));
}

/// The lists aren't empty before, since the kernels append. Behind the ends of all lines stand those again that lie as far
/// from both ends of the text as the second text is long, or as far as there are bytes.
fn show_lines(teller: &Teller, bytes: &[u8], apart: usize) -> Result<(), AllocError> {
    if LONGEST < bytes.len() {
        return Ok(());
    }
    let mut ends = Vec::new(teller.alloc());
    ends.push(7)?;
    line_ends(bytes, &mut ends)?;
    let from = apart.min(bytes.len() / 2);
    line_ends_between(bytes, from, bytes.len() - from, &mut ends)?;
    teller.one(&ends);
    Ok(())
}

fn show_words(teller: &Teller, bytes: &[u8]) -> Result<(), AllocError> {
    if LONGEST < bytes.len() {
        return Ok(());
    }
    let mut spans = Vec::new(teller.alloc());
    spans.push(Span { start: 7, end: 8 })?;
    word_spans(bytes, &mut spans)?;
    teller.one(&spans);
    Ok(())
}

/// The words one after another.
fn show_each_word(teller: &Teller, bytes: &[u8]) -> Result<(), AllocError> {
    if LONGEST < bytes.len() {
        return Ok(());
    }
    let mut spans = Vec::new(teller.alloc());
    let mut from = 0;
    while let Some(word) = next_word(bytes, from) {
        spans.push(word)?;
        from = word.end as usize;
    }
    teller.one(&spans);
    Ok(())
}

fn show_folded(teller: &Teller, bytes: &[u8]) -> Result<(), AllocError> {
    let mut folded = Vec::new(teller.alloc());
    folded.push(b'X')?;
    fold_into(bytes, &mut folded)?;
    teller.one(&folded);
    Ok(())
}

/// The keys are the parts of the text between the slashes.
fn show_hashes(teller: &Teller, bytes: &[u8], parts: usize) {
    let mut keys: [&[u8]; 8] = [b""; 8];
    let mut rest = bytes;
    for i in 0..8 {
        let (front, behind) = cut(rest, b'/').unwrap_or((rest, b""));
        keys[i] = front;
        rest = behind;
    }
    let parts = 1.max(parts.min(1024)) as u32;
    teller.before(&hash8(&keys), " ");
    teller.two(&partition8(&keys, parts), &partition(keys[0], parts));
}

/// Answers a case of a kernel that takes no memory.
fn answer_plain(teller: &Teller, kernel: u8, a: &[u8], b: &[u8]) {
    match kernel {
        0 => show_planes(teller, a),
        4 => teller.one(&find_folded(a, b)),
        5 => teller.one(&first_difference(a, b)),
        _ => show_hashes(teller, a, b.len()),
    }
}

fn answer_case(teller: &Teller, case: Case<'_>) -> Result<(), AllocError> {
    let Case { kernel, a, b } = case;
    match kernel {
        0 | 4..=6 => {
            answer_plain(teller, kernel, a, b);
            Ok(())
        }
        1 => show_lines(teller, a, b.len()),
        2 => show_words(teller, a),
        3 => show_folded(teller, a),
        7 => show_each_word(teller, a),
        8..=29 => plain::answer(teller, kernel, a, b),
        _ => jobs::answer(teller, kernel, a, b),
    }
}

/// Answers the cases in these bytes.
fn answer_cases(teller: &Teller, bytes: &[u8]) -> Result<(), AllocError> {
    let mut rest = bytes;
    for _ in 0..bytes.len() {
        let Some((case, behind)) = next_case(rest) else {
            break;
        };
        answer_case(teller, case)?;
        rest = behind;
    }
    Ok(())
}

/// Answers standard input.
pub fn answer(teller: &Teller) -> io::Result<()> {
    let bytes = teller.all_bytes()?;
    answer_cases(teller, &bytes)?;
    Ok(())
}
