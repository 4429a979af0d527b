//! More kernels, of a case's two texts: jobs, what `map` adds, texts of groups, and numbers of keys.
use crate::telling::Teller;
use mr_bytes::{Value, ValueColumn};
use mr_group::{KeyColumn, Texts};
use mr_jobs::{Emissions, Job, RecordStart, map};
use mr_reduce::{append_text, append_total, group_text};
use std::alloc::{AllocError, Global};

const AT: RecordStart = RecordStart { file: 1, start: 4 };

/// The longest line that is mapped.
const LONGEST: usize = 1 << 30;

/// As many keys as are numbered.
const MANY: usize = 1000;

/// Whether the job counts, and whether its texts have a line for each value.
fn show_job(teller: &Teller, job: &Job) {
    teller.before(&job.counts(), " ");
    teller.before(&job.has_lines(), " ");
}

/// What each job is, or why there is none of lines with this literal.
fn show_jobs(teller: &Teller, literal: &[u8], fold: bool) {
    match Job::grep(teller.alloc(), literal, fold) {
        Ok(lines) => {
            show_job(teller, &Job::words(true));
            show_job(teller, &Job::url());
            show_job(teller, &Job::index(true));
            teller.two(&lines.counts(), &lines.has_lines());
        }
        Err(fault) => teller.line(&fault),
    }
}

/// Adds the words of `a`, those of `b` with their place, and the line `b`, which has itself.
fn emit(alloc: Global, a: &[u8], b: &[u8], out: &mut Emissions) -> Result<(), AllocError> {
    if LONGEST < a.len() || LONGEST < b.len() {
        return Ok(());
    }
    map(alloc, &Job::words(true), AT, a, out)?;
    map(alloc, &Job::index(false), AT, b, out)?;
    match Job::grep(alloc, b, false) {
        Ok(lines) => map(alloc, &lines, AT, b, out),
        Err(_) => Ok(()),
    }
}

fn show_each(teller: &Teller, out: &Emissions) {
    teller.behind(" ", &out.is_empty());
    teller.behind(" ", &out.len());
    for i in 0..out.len() {
        teller.behind("|", &out.get(i));
    }
}

/// What is there before anything is emitted, then, when all is cleared, and behind two more times.
fn show_emitted(
    teller: &Teller,
    a: &[u8],
    b: &[u8],
    out: &mut Emissions,
) -> Result<(), AllocError> {
    show_each(teller, out);
    emit(teller.alloc(), a, b, out)?;
    show_each(teller, out);
    out.clear();
    show_each(teller, out);
    emit(teller.alloc(), a, b, out)?;
    emit(teller.alloc(), a, b, out)?;
    show_each(teller, out);
    teller.end_line();
    Ok(())
}

fn show_emissions(teller: &Teller, a: &[u8], b: &[u8]) -> Result<(), AllocError> {
    let mut out = Emissions::new(teller.alloc());
    show_emitted(teller, a, b, &mut out)
}

/// Texts of jobs that count, one behind another.
fn totals(alloc: Global, key: &[u8]) -> Result<Vec<u8>, AllocError> {
    let mut out = Vec::new(alloc);
    group_text(&Job::words(false), key, &[Value::One, Value::One], &mut out)?;
    group_text(&Job::url(), key, &[Value::One], &mut out)?;
    append_total(key, 2, &mut out)?;
    append_total(key, u64::MAX, &mut out)?;
    Ok(out)
}

/// The places of two lines: the first of the first file, and one past 4 GiB of the thirteenth.
fn two_places(alloc: Global) -> Result<ValueColumn, AllocError> {
    let mut column = ValueColumn::new(alloc);
    column.push(Value::At { file: 0, offset: 0 })?;
    column.push(Value::At {
        file: 12,
        offset: 1 << 32,
    })?;
    Ok(column)
}

/// The text of the places of a column, and of a value without a place, which has none.
fn places(
    alloc: Global,
    lines: &Job,
    key: &[u8],
    column: &ValueColumn,
) -> Result<Vec<u8>, AllocError> {
    let mut out = Vec::new(alloc);
    group_text(lines, key, &[Value::One], &mut out)?;
    append_text(lines, key, column, &mut out)?;
    Ok(out)
}

/// The lines of an index: of no value, of a value without a place, of files in no order, and of a column.
fn files(alloc: Global, key: &[u8], column: &ValueColumn) -> Result<Vec<u8>, AllocError> {
    let index = Job::index(false);
    let of = |file: u32| Value::At { file, offset: 0 };
    let mut out = Vec::new(alloc);
    group_text(&index, key, &[], &mut out)?;
    group_text(&index, key, &[Value::One], &mut out)?;
    group_text(
        &index,
        key,
        &[of(3), of(10), Value::One, of(3), of(2), of(10)],
        &mut out,
    )?;
    append_text(&index, key, column, &mut out)?;
    Ok(out)
}

/// The text of two places, of lines and of an index.
fn show_places(teller: &Teller, lines: &Job, key: &[u8]) -> Result<(), AllocError> {
    let column = two_places(teller.alloc())?;
    teller.before(&places(teller.alloc(), lines, key, &column)?, " ");
    teller.one(&files(teller.alloc(), key, &column)?);
    Ok(())
}

fn show_texts(teller: &Teller, key: &[u8]) -> Result<(), AllocError> {
    teller.before(&totals(teller.alloc(), key)?, " ");
    match Job::grep(teller.alloc(), b"b", false) {
        Ok(lines) => show_places(teller, &lines, key),
        Err(fault) => {
            teller.line(&fault);
            Ok(())
        }
    }
}

/// Adds a key, while there are few.
fn add_key(alloc: Global, key: &[u8], keys: &mut KeyColumn) -> Result<(), AllocError> {
    if keys.len() < MANY {
        keys.push(alloc, key)?;
    }
    Ok(())
}

/// Keys of two bytes, of which the second is told.
fn keys_of(alloc: Global, bytes: &[u8]) -> Result<KeyColumn, AllocError> {
    let mut keys = KeyColumn::new(alloc);
    for byte in bytes {
        add_key(alloc, &[b'k', *byte], &mut keys)?;
    }
    Ok(keys)
}

/// The key of each number.
fn show_each_key(teller: &Teller, keys: &Texts) {
    for number in 0..keys.len() {
        teller.behind("|", &keys.get(number));
    }
    teller.end_line();
}

/// Numbers the keys, and tells what comes of it; how many are left behind `clear`.
fn show_keys(teller: &Teller, bytes: &[u8]) -> Result<(), AllocError> {
    let (keys, numbers) = keys_of(teller.alloc(), bytes)?.into_parts();
    teller.before(&numbers, " ");
    let mut again = keys_of(teller.alloc(), bytes)?;
    again.clear();
    teller.part(&again.len());
    show_each_key(teller, &keys);
    Ok(())
}

/// Answers a case of one of these kernels.
pub fn answer(teller: &Teller, kernel: u8, a: &[u8], b: &[u8]) -> Result<(), AllocError> {
    match kernel {
        30 => {
            show_jobs(teller, a, !b.is_empty());
            Ok(())
        }
        31 => show_emissions(teller, a, b),
        32 => show_texts(teller, a),
        _ => show_keys(teller, a),
    }
}
