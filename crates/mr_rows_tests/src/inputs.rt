//! Requests, inputs and plans. The words behind the first are how many partitions there are, the size of a split, how many
//! records may be left out, and the names of those that are, as SPLIT:RECORD. Standard input is the files, each ended by a
//! byte 0.
use crate::telling::Teller;
use mr_bytes::{RecordName, cut};
use mr_input::Input;
use mr_jobs::{Job, Request};
use mr_splits::{KeptPlan, Plan, splits_law};
use std::alloc::{AllocError, Global};
use std::io;

/// As many files, splits, records of a split and bytes of a file as are told one by one.
const FEW: u32 = 8;

/// The numbers that the program is given; what is missing or is no number is 0.
pub fn numbers_of(words: &[String]) -> [u32; 4] {
    let mut numbers = [0; 4];
    for i in 0..4 {
        if let Some(word) = words.get(i) {
            numbers[i] = word.as_str().parse().unwrap_or(0);
        }
    }
    numbers
}

fn record_of(word: &str) -> Option<RecordName> {
    let (split, rec) = word.split_once(':')?;
    Some(RecordName {
        split: split.parse().ok()?,
        rec: rec.parse().ok()?,
    })
}

/// The names of records that the words tell.
pub fn skips_of(alloc: Global, words: &[String]) -> Result<Vec<RecordName>, AllocError> {
    let mut skips = Vec::new(alloc);
    for word in words {
        if let Some(name) = record_of(word.as_str()) {
            skips.push(name)?;
        }
    }
    Ok(skips)
}

fn files_of(alloc: Global, bytes: &[u8]) -> Result<Vec<Vec<u8>>, AllocError> {
    let mut files = Vec::new(alloc);
    let mut rest = bytes;
    for _ in 0..bytes.len() {
        let Some((file, behind)) = cut(rest, 0) else {
            break;
        };
        files.push(Vec::from_slice(alloc, file)?)?;
        rest = behind;
    }
    Ok(files)
}

/// The files of standard input.
fn files(teller: &Teller) -> io::Result<Vec<Vec<u8>>> {
    let bytes = teller.all_bytes()?;
    Ok(files_of(teller.alloc(), &bytes)?)
}

/// The input of standard input, where it is one.
pub fn input(teller: &Teller) -> io::Result<Option<Input>> {
    Ok(Input::of(files(teller)?).ok())
}

/// How many files there are, and how each of the first ones begins.
fn show_input(teller: &Teller, input: &Input) {
    teller.part(&input.files());
    for i in 0..input.files().min(FEW as usize) {
        let file = input.file(i);
        let front = &file[..file.len().min(FEW as usize)];
        teller.two_behind_bar(&input.len(i), &front);
    }
    teller.end_line();
}

/// What a request asks for, and whether it fits the input.
fn show_asked(teller: &Teller, input: &Input, request: &Request) {
    teller.part(&request.job().counts());
    teller.four(
        &request.parts(),
        &request.split_size(),
        &request.max_skips(),
        &request.fits(input),
    );
}

fn show_request(teller: &Teller, input: &Input, numbers: [u32; 4]) {
    let [parts, size, most, _] = numbers;
    match Request::new(Job::words(false), parts, size, most) {
        Ok(request) => show_asked(teller, input, &request),
        Err(fault) => teller.line(&fault),
    }
}

/// A record, by its bytes, and where it stands.
fn show_record(teller: &Teller, plan: &Plan<'_>, split: u32, rec: u32) {
    teller.part(&plan.record_of(split, rec));
    if !plan.has_record(RecordName { split, rec }) {
        teller.end_line();
        return;
    }
    let line = plan.locate(split, rec);
    let number = plan.record_index(split, rec);
    teller.four(&line.file, &line.start, &line.bytes, &number);
}

/// A split, where there is one, its first records, and what is told of one that isn't there.
fn show_split(teller: &Teller, plan: &Plan<'_>, split: u32) {
    let mut records = 0;
    if split < plan.splits() {
        records = plan.records_in(split).min(FEW);
        teller.two(&plan.split(split), &records);
    }
    for rec in 0..=records {
        show_record(teller, plan, split, rec);
    }
}

/// Whether the list leaves out each of the first records.
fn show_left_out(teller: &Teller, plan: &Plan<'_>, skips: &[RecordName]) -> Result<(), AllocError> {
    let left_out = plan.left_out(teller.alloc(), skips)?;
    for number in 0..plan.count().min(FEW as usize) {
        teller.before(&left_out.has(number), " ");
    }
    teller.end_line();
    Ok(())
}

/// The first records that are kept.
fn show_kept(teller: &Teller, kept: &KeptPlan<'_>) {
    let mut all = kept.records();
    for _ in 0..FEW {
        match all.next() {
            Some((name, line)) => {
                teller.before(&name, " ");
                teller.before(&line.bytes, "|");
            }
            None => break,
        }
    }
    teller.end_line();
}

/// What is told of the list, and the first records that it leaves out, and leaves.
fn show_list(
    teller: &Teller,
    plan: &Plan<'_>,
    most: u32,
    skips: &[RecordName],
) -> Result<(), AllocError> {
    teller.one(&plan.list_fault(most, skips));
    show_left_out(teller, plan, skips)?;
    let kept = plan.without(teller.alloc(), skips)?;
    show_kept(teller, &kept);
    Ok(())
}

/// The first splits, and one behind them.
fn show_splits(teller: &Teller, plan: &Plan<'_>) {
    teller.before(&plan.splits(), " ");
    teller.two(&plan.size(), &plan.count());
    for split in 0..=plan.splits().min(FEW) {
        show_split(teller, plan, split);
    }
}

fn show_plan(
    teller: &Teller,
    plan: &Plan<'_>,
    most: u32,
    skips: &[RecordName],
) -> Result<(), AllocError> {
    show_splits(teller, plan);
    show_list(teller, plan, most, skips)
}

fn show(
    teller: &Teller,
    input: &Input,
    numbers: [u32; 4],
    skips: &[RecordName],
) -> Result<(), AllocError> {
    show_input(teller, input);
    show_request(teller, input, numbers);
    let [_, size, most, _] = numbers;
    match Plan::of(teller.alloc(), input, size) {
        Ok(plan) => show_plan(teller, &plan, most, skips),
        Err(fault) => {
            teller.line(&fault);
            Ok(())
        }
    }
}

/// Answers standard input, where these records are left out.
fn answer_skips(teller: &Teller, numbers: [u32; 4], skips: &[RecordName]) -> io::Result<()> {
    match Input::of(files(teller)?) {
        Ok(input) => Ok(show(teller, &input, numbers, skips)?),
        Err(fault) => {
            teller.line(&fault);
            Ok(())
        }
    }
}

/// Answers standard input, by these words.
pub fn answer(teller: &Teller, words: &[String]) -> io::Result<()> {
    splits_law();
    let skips = skips_of(teller.alloc(), words)?;
    answer_skips(teller, numbers_of(words), &skips)
}
