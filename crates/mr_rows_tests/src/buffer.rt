//! Pairs pushed into a buffer, sealed into regions, and refused.
ghost use Rattle.std.specs.Prelude.{◌≡◌, ◌≤◌, [], IfOk, length};

use crate::regions::show_pairs;
use crate::telling::Teller;
use mr_bytes::{By, Name, Pair, Value};
use mr_spill::{Buffer, PairColumns, PushFault, PushKeyFault, SealedRun};
use std::alloc::{AllocError, Global};

fn name(place: u32) -> Name
    ensures { result ≡ record { split = 0; rec = 0; place = place } }
{
    Name {
        split: 0,
        rec: 0,
        place,
    }
}

/// Pushes a pair of each key.
fn fill(buffer: &mut Buffer, keys: [&[u8]; 3]) -> Result<(), PushKeyFault>
    requires { buffer.old.pairs ≡ [] }
{
    buffer.push_key(keys[0], Value::One, name(0))?;
    buffer.push_key(keys[1], Value::One, name(1))?;
    buffer.push_key(keys[2], Value::One, name(2))
}

fn show_regions(teller: &Teller, regions: &[PairColumns]) {
    for region in regions {
        show_pairs(teller, region);
    }
}

/// The regions for so many partitions of what it holds.
fn seal(teller: &Teller, buffer: &mut Buffer, parts: u32, by: By) -> Result<(), AllocError> {
    let regions = buffer.seal(teller.alloc(), parts.max(1), by)?;
    show_regions(teller, &regions);
    Ok(())
}

/// Its regions, how many pairs it holds behind them, and the regions of those.
fn show_sealed(teller: &Teller, buffer: &mut Buffer, parts: u32, by: By) -> Result<(), AllocError> {
    seal(teller, buffer, parts, by)?;
    teller.line(&buffer.len());
    seal(teller, buffer, parts, by)
}

/// A run, and how many pairs the buffer holds behind it.
fn show_run_of(teller: &Teller, run: &SealedRun, parts: u32, left: usize)
    requires { parts ≤ length run.now.regions }
{
    teller.two(&run.parts(), &left);
    for p in 0..parts {
        teller.line(&run.region(p).bytes().len());
    }
}

/// A run of one pair.
fn show_run(teller: &Teller) -> Result<(), AllocError> {
    let mut buffer = Buffer::new(teller.alloc(), 1);
    if buffer.push_key(b"a", Value::One, name(0)).is_err() {
        return Ok(());
    }
    let run = buffer.seal_run(teller.alloc(), 0, 1, By::Key)?;
    show_run_of(teller, &run, 1, buffer.len());
    Ok(())
}

fn pair(alloc: Global, key: &[u8], value: Value, name: Name) -> Result<Pair, AllocError>
    ensures { IfOk result (λ p. p.name ≡ name) }
{
    Ok(Pair {
        key: Vec::from_slice(alloc, key)?,
        value,
        name,
    })
}

/// What a buffer of one pair answers to a second one.
fn second(buffer: &mut Buffer, first: Pair, second: Pair) -> Option<PushFault>
    requires empty { buffer.old.pairs ≡ [] }
    requires names { (first.name ≡ record { split = 0; rec = 0; place = 4 }) × (second.name ≡ record { split = 0; rec = 0; place = 5 }) }
{
    match buffer.push(first) {
        Ok(()) => buffer.push(second).err(),
        Err(_) => None,
    }
}

/// What is refused.
fn refused(alloc: Global) -> Result<Option<PushFault>, AllocError> {
    let place = Value::At { file: 1, offset: 7 };
    let early = pair(alloc, b"z", place, name(4))?;
    let late = pair(alloc, b"y", Value::One, name(5))?;
    let mut buffer = Buffer::new(alloc, 1);
    Ok(second(&mut buffer, early, late))
}

/// What is refused, how it is told, and how want of memory is.
fn show_refused(teller: &Teller) -> Result<(), AllocError> {
    if let Some(fault) = refused(teller.alloc())? {
        teller.fault(&fault);
    }
    let last = pair(teller.alloc(), b"a", Value::One, name(0))?;
    teller.line(&PushFault::OutOfMemory(last));
    Ok(())
}

/// A buffer of so many pairs, filled with those of the keys.
fn show_filled(
    teller: &Teller,
    limit: usize,
    keys: [&[u8]; 3],
    parts: u32,
    by: By,
) -> Result<(), AllocError> {
    let mut buffer = Buffer::new(teller.alloc(), limit);
    match fill(&mut buffer, keys) {
        Ok(()) => show_sealed(teller, &mut buffer, parts, by),
        Err(fault) => {
            teller.fault(&fault);
            Ok(())
        }
    }
}

/// Tells the regions of `b a b` for one partition and for two, and where only two pairs may be; those of resources for two
/// partitions by host; a run; and a pair that is handed back.
pub fn answer(teller: &Teller) -> Result<(), AllocError> {
    let letters: [&[u8]; 3] = [b"b", b"a", b"b"];
    let resources: [&[u8]; 3] = [b"http://a/x", b"/z", b"http://A/y"];
    show_filled(teller, 3, letters, 1, By::Key)?;
    show_filled(teller, 3, letters, 2, By::Key)?;
    show_filled(teller, 2, letters, 1, By::Key)?;
    show_filled(teller, 3, resources, 2, By::Host)?;
    show_run(teller)?;
    show_refused(teller)
}
