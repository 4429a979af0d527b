//! Regions as bytes. Each line of standard input has a split, a partition, and
//! bytes, all as decimal numbers. A line answers it: the fault, or whether the pairs that were read are spelled so again
//! and a walk over the bytes gives the same ones, and their keys, values and names.
ghost use Rattle.std.specs.Prelude.{◌<◌, length};
ghost use Rattle.mr_spill.specs.Spelling.{SpellsRegion};

use crate::telling::Teller;
use mr_spill::{PairColumns, RegionFault, RegionPair, open_region, read_region, write_region};
use std::alloc::{AllocError, Global};
use std::io;

/// The numbers of a line; what is no number is 0.
pub fn numbers_of(alloc: Global, line: &str) -> Result<Vec<u32>, AllocError> {
    let mut numbers = Vec::new(alloc);
    for word in line.split(' ') {
        numbers.push(word.parse().unwrap_or(0))?;
    }
    Ok(numbers)
}

/// The numbers as bytes, those past 255 as 255.
pub fn bytes_of(alloc: Global, numbers: &[u32]) -> Result<Vec<u8>, AllocError> {
    let mut bytes = Vec::new(alloc);
    for number in numbers {
        bytes.push(u8::try_from(*number).unwrap_or(255))?;
    }
    Ok(bytes)
}

/// Tells the pairs.
pub fn show_pairs(teller: &Teller, pairs: &PairColumns) {
    for i in 0..pairs.len() {
        teller.three_behind_bar(&pairs.key(i), &pairs.value(i), &pairs.name(i));
    }
    teller.end_line();
}

/// Whether a pair of a walk is pair `i`.
fn is_same(pair: &RegionPair<'_>, pairs: &PairColumns, i: usize) -> bool
    requires { i < length pairs.now }
{
    pair.key == pairs.key(i) && pair.value == pairs.value(i) && pair.name == pairs.name(i)
}

/// Whether a walk over the bytes gives these pairs, and then is at its end.
fn walks_as(bytes: &[u8], split: u32, partition: u32, pairs: &PairColumns) -> bool {
    let Some(mut walk) = open_region(bytes, split, partition) else {
        return false;
    };
    for i in 0..pairs.len() {
        let Some(pair) = walk.next() else {
            return false;
        };
        if !is_same(&pair, pairs, i) {
            return false;
        }
    }
    walk.is_at_end()
}

/// Whether a walk over the bytes comes to its end.
fn walks_on(bytes: &[u8], split: u32, partition: u32) -> bool {
    let Some(mut walk) = open_region(bytes, split, partition) else {
        return false;
    };
    for _ in 0..bytes.len() {
        if walk.next().is_none() {
            break;
        }
    }
    walk.is_at_end()
}

/// Tells the fault of bytes that spell no region, and where a walk over them tells something else.
fn show_fault(teller: &Teller, bytes: &[u8], split: u32, partition: u32, fault: RegionFault) {
    if walks_on(bytes, split, partition) {
        teller.line(&"walked to its end");
    } else {
        teller.one(&fault);
    }
}

/// Tells the pairs that the bytes spell, and where they are spelled or walked over otherwise.
fn show_read(
    teller: &Teller,
    bytes: &[u8],
    split: u32,
    partition: u32,
    pairs: &PairColumns,
) -> Result<(), AllocError>
    requires read { SpellsRegion bytes.now split partition pairs.now }
{
    let again = write_region(teller.alloc(), pairs, split, partition)?;
    let same = walks_as(bytes, split, partition, pairs);
    teller.part(&(same && again.as_slice() == bytes));
    show_pairs(teller, pairs);
    Ok(())
}

/// Tells what the bytes spell.
fn show(teller: &Teller, bytes: &[u8], split: u32, partition: u32) -> Result<(), AllocError> {
    match read_region(teller.alloc(), bytes, split, partition) {
        Ok(pairs) => show_read(teller, bytes, split, partition, &pairs),
        Err(fault) => {
            show_fault(teller, bytes, split, partition, fault);
            Ok(())
        }
    }
}

fn answer_line(teller: &Teller, line: &str) -> Result<(), AllocError> {
    let numbers = numbers_of(teller.alloc(), line)?;
    match numbers.as_slice() {
        [split, partition, rest @ ..] => {
            let bytes = bytes_of(teller.alloc(), rest)?;
            show(teller, bytes.as_slice(), *split, *partition)
        }
        _ => {
            teller.line(&"no numbers");
            Ok(())
        }
    }
}

/// Answers standard input.
pub fn answer(teller: &Teller) -> io::Result<()> {
    for line in teller.lines() {
        answer_line(teller, line?.as_str())?;
    }
    Ok(())
}
