//! More kernels, of a case's two texts: words one by one, bytes, orders, hashes, records and columns, of the crates at the
//! ground.
use crate::telling::Teller;
use mr_bytes::{
    By, Name, Pair, RecordName, Value, ValueColumn, compare_keys, compare_names, compare_pairs,
    compare_records, cut, fold_in_place, folded, is_word_byte, next_word,
};
use mr_partition::{fnv, partition, partition_by};
use mr_records::Records;
use std::alloc::{AllocError, Global};

/// The longest text that is cut into words or records.
const LONGEST: usize = 1 << 30;

/// The first word from `from` on, or from the end where that is past it.
fn show_next_word(teller: &Teller, bytes: &[u8], from: usize) {
    if LONGEST < bytes.len() {
        return;
    }
    teller.one(&next_word(bytes, from.min(bytes.len())));
}

/// Whether each byte stands in words.
fn show_classes(teller: &Teller, bytes: &[u8]) {
    for byte in bytes {
        teller.before(&is_word_byte(*byte), " ");
    }
    teller.end_line();
}

/// The bytes folded, as a copy and where they stand.
fn show_folded(teller: &Teller, bytes: &[u8]) -> Result<(), AllocError> {
    let copy = folded(teller.alloc(), bytes)?;
    let mut here = Vec::from_slice(teller.alloc(), bytes)?;
    fold_in_place(&mut here);
    teller.two(&copy, &here);
    Ok(())
}

/// How many records there are, and each by its start and its bytes.
fn show_each_record(teller: &Teller, records: &Records<'_>) {
    teller.part(&records.count());
    for i in 0..records.count() {
        teller.two_behind_bar(&records.start(i), &records.record(i));
    }
    teller.end_line();
}

/// The records of a file.
fn show_records(teller: &Teller, file: &[u8]) -> Result<(), AllocError> {
    if LONGEST < file.len() {
        return Ok(());
    }
    let records = Records::of(teller.alloc(), file)?;
    show_each_record(teller, &records);
    Ok(())
}

/// The name that three bytes tell.
fn name_of(bytes: &[u8]) -> Name {
    let [split, rec, place] = match bytes {
        [split, rec, place, ..] => [*split, *rec, *place],
        _ => [0; 3],
    };
    Name {
        split: u32::from(split),
        rec: u32::from(rec),
        place: u32::from(place),
    }
}

fn record(name: Name) -> RecordName {
    RecordName {
        split: name.split,
        rec: name.rec,
    }
}

/// The value that the three numbers of a name tell: the first says whether there is a place.
fn value(name: Name) -> Value {
    match name.split {
        0 => Value::One,
        _ => Value::At {
            file: name.rec,
            offset: u64::from(name.place),
        },
    }
}

/// How two records compare and two names, whether those are one, and whether two values are one; three bytes tell a name,
/// its record and a value.
fn show_orders(teller: &Teller, a: &[u8], b: &[u8]) {
    let (first, second) = (name_of(a), name_of(b));
    teller.before(&compare_records(record(first), record(second)), " ");
    teller.before(&compare_names(first, second), " ");
    teller.two(&(first == second), &(value(first) == value(second)));
}

/// The pair of a key, its place the last byte.
fn pair(alloc: Global, bytes: &[u8]) -> Result<Pair, AllocError> {
    let (place, key) = bytes.split_last().unwrap_or((&0, b""));
    Ok(Pair {
        key: Vec::from_slice(alloc, key)?,
        value: Value::One,
        name: name_of(&[0, 0, *place]),
    })
}

fn show_pairs(teller: &Teller, a: &[u8], b: &[u8]) -> Result<(), AllocError> {
    let first = pair(teller.alloc(), a)?;
    let second = pair(teller.alloc(), b)?;
    teller.two(&compare_pairs(&first, &second), &first);
    Ok(())
}

/// A column of values with and without a place, some in another file or past its first 4 GiB.
fn column(alloc: Global) -> Result<ValueColumn, AllocError> {
    let mut column = ValueColumn::new(alloc);
    let at = |file, offset| Value::At { file, offset };
    for value in [
        Value::One,
        Value::One,
        at(1, 7),
        at(2, 7),
        at(1, 1 << 32),
        Value::One,
    ] {
        if column.len() < 6 {
            column.push(value)?;
        }
    }
    Ok(column)
}

fn show_column(teller: &Teller, column: &ValueColumn) {
    for i in 0..column.len() {
        teller.before(&column.get(i), "|");
    }
    teller.line(&column.len());
}

/// The column's first values, so many.
fn show_beginning(teller: &Teller, count: usize) -> Result<(), AllocError> {
    let mut column = column(teller.alloc())?;
    column.truncate(count);
    show_column(teller, &column);
    Ok(())
}

/// The hash of a key, and its partition of so many.
fn show_hash(teller: &Teller, key: &[u8], parts: usize) {
    let parts = parts.clamp(1, 1024) as u32;
    teller.two(&fnv(key), &partition(key, parts));
}

/// The partition of a key among so many, by all of it and by its host.
fn show_partitions(teller: &Teller, key: &[u8], parts: usize) {
    let parts = parts.clamp(1, 1024) as u32;
    let by_host = partition_by(By::Host, key, parts);
    teller.two(&partition_by(By::Key, key, parts), &by_host);
}

/// Answers a case of a kernel that takes no memory.
fn answer_plain(teller: &Teller, kernel: u8, a: &[u8], b: &[u8]) {
    match kernel {
        8 => show_next_word(teller, a, b.len()),
        9 => show_classes(teller, a),
        11 => teller.one(&cut(a, b':')),
        12 => teller.one(&compare_keys(a, b)),
        13 => show_hash(teller, a, b.len()),
        18 => show_partitions(teller, a, b.len()),
        _ => show_orders(teller, a, b),
    }
}

/// Answers a case of one of these kernels.
pub fn answer(teller: &Teller, kernel: u8, a: &[u8], b: &[u8]) -> Result<(), AllocError> {
    match kernel {
        8 | 9 | 11..=13 | 15 | 18 => {
            answer_plain(teller, kernel, a, b);
            Ok(())
        }
        10 => show_folded(teller, a),
        14 => show_records(teller, a),
        16 => show_pairs(teller, a, b),
        _ => show_beginning(teller, b.len()),
    }
}
