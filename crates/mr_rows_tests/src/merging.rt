//! Regions merged. Each line of standard input is one, five numbers for each of its pairs: the byte of its key, its split
//! and place, and the file and offset that its value tells. A line tells the groups, and all names, or the fault. Or each
//! line is a split, and the bytes of a region of partition 0, as numbers.
use crate::regions::{bytes_of, numbers_of};
use crate::telling::Teller;
use mr_bytes::{Name, Value};
use mr_merge::{Groups, MergeFault, Reduction, merge};
use mr_spill::{PairColumns, RegionView};
use std::alloc::{AllocError, Global};
use std::io;

/// A place in a file, and none in file 0.
fn value(file: u32, offset: u32) -> Value {
    match file {
        0 => Value::One,
        _ => Value::At {
            file,
            offset: u64::from(offset),
        },
    }
}

/// Pushes the pairs that the numbers tell.
fn push_pairs(numbers: &[u32], pairs: &mut PairColumns) -> Result<(), AllocError> {
    for pair in numbers.chunks(5) {
        if let [key, split, place, file, offset] = pair {
            let name = Name {
                split: *split,
                rec: 0,
                place: *place,
            };
            let key = [u8::try_from(*key).unwrap_or(0)];
            pairs.push(&key, value(*file, *offset), name)?;
        }
    }
    Ok(())
}

/// The region of a line.
fn region(alloc: Global, line: &str) -> Result<PairColumns, AllocError> {
    let numbers = numbers_of(alloc, line)?;
    let mut pairs = PairColumns::new(alloc);
    push_pairs(&numbers, &mut pairs)?;
    Ok(pairs)
}

/// Adds the region of each line.
fn add_regions(teller: &Teller, regions: &mut Vec<PairColumns>) -> io::Result<()> {
    for line in teller.lines() {
        regions.push(region(teller.alloc(), line?.as_str())?)?;
    }
    Ok(())
}

/// The regions, lent.
fn lent(alloc: Global, regions: &[PairColumns]) -> Result<Vec<&PairColumns>, AllocError> {
    let mut lent = Vec::new(alloc);
    for region in regions {
        lent.push(region)?;
    }
    Ok(lent)
}

fn show_group(teller: &Teller, groups: &Groups, g: usize) {
    if groups.len() <= g {
        return;
    }
    teller.before(&groups.key(g), " ");
    teller.part(&groups.count(g));
    for i in 0..groups.count(g) {
        teller.behind(" ", &groups.value(g, i));
    }
    teller.text("|");
}

fn show_each_group(teller: &Teller, groups: &Groups) {
    teller.before(&groups.len(), " ");
    for g in 0..groups.len() {
        show_group(teller, groups, g);
    }
}

fn show_groups(teller: &Teller, groups: Groups) {
    show_each_group(teller, &groups);
    teller.one(&groups.into_names());
}

fn show_merged(teller: &Teller, merged: Result<Groups, MergeFault>) {
    match merged {
        Ok(groups) => show_groups(teller, groups),
        Err(fault) => teller.fault(&fault),
    }
}

fn show(teller: &Teller, regions: &[PairColumns]) -> Result<(), AllocError> {
    let lent = lent(teller.alloc(), regions)?;
    show_merged(teller, merge(teller.alloc(), &lent));
    Ok(())
}

/// Answers standard input.
pub fn answer(teller: &Teller) -> io::Result<()> {
    let mut regions = Vec::new(teller.alloc());
    add_regions(teller, &mut regions)?;
    show(teller, &regions)?;
    Ok(())
}

/// A split, and the bytes of a region.
#[derive(Drop)]
struct Spelled {
    split: u32,
    bytes: Vec<u8>,
}

/// What a line spells: a split, and bytes.
fn spelled_by(alloc: Global, line: &str) -> Result<Spelled, AllocError> {
    let numbers = numbers_of(alloc, line)?;
    match numbers.as_slice() {
        [split, rest @ ..] => Ok(Spelled {
            split: *split,
            bytes: bytes_of(alloc, rest)?,
        }),
        [] => Ok(Spelled {
            split: 0,
            bytes: Vec::new(alloc),
        }),
    }
}

/// Adds what each line spells.
fn add_spelled(teller: &Teller, all: &mut Vec<Spelled>) -> io::Result<()> {
    for line in teller.lines() {
        all.push(spelled_by(teller.alloc(), line?.as_str())?)?;
    }
    Ok(())
}

/// The regions, lent as bytes.
fn regions_of(alloc: Global, all: &[Spelled]) -> Result<Vec<RegionView<'_>>, AllocError> {
    let mut regions = Vec::new(alloc);
    for one in all {
        regions.push(RegionView::of(one.bytes.as_slice(), one.split))?;
    }
    Ok(regions)
}

/// The groups of regions that are taken one by one.
fn reduced(alloc: Global, regions: &[RegionView<'_>]) -> Result<Groups, MergeFault> {
    let mut reduction = Reduction::new(alloc, 0);
    for region in regions {
        if !reduction.take(region)? {
            return Err(MergeFault::RegionDamaged);
        }
    }
    reduction.groups(alloc)
}

fn show_bytes(teller: &Teller, all: &[Spelled]) -> Result<(), AllocError> {
    let regions = regions_of(teller.alloc(), all)?;
    show_merged(teller, reduced(teller.alloc(), regions.as_slice()));
    Ok(())
}

/// Answers standard input, where each line is a region's bytes.
pub fn answer_bytes(teller: &Teller) -> io::Result<()> {
    let mut all = Vec::new(teller.alloc());
    add_spelled(teller, &mut all)?;
    show_bytes(teller, all.as_slice())?;
    Ok(())
}
