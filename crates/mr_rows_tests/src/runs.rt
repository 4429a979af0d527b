//! Tasks whose runs end at a limit. The words behind the first are the job (0 for words, 1 for lines with `b`, 2 for the
//! resources of a log, 3 for these by host), how many partitions there are, the size of a split, and how many pairs a run has at most,
//! 0 for as many as there are where nobody says; behind them may be a list of the records that each split leaves out.
//! Standard input is the files, each ended by a byte 0. For each split a line tells the bytes of its regions,
//! those of all partitions run by run; and for each partition a line its text, how many names each group has, and all
//! names. Where nobody says how many pairs a run has, what comes of a region twice and of one without its first byte is
//! told too.

use crate::inputs::{input, numbers_of};
use crate::regions::numbers_of as numbers_in;
use crate::telling::Teller;
use mr_bytes::By;
use mr_input::Input;
use mr_jobs::Job;
use mr_spill::RegionView;
use mr_splits::Plan;
use mr_task::{MapOutput, ReduceOutput, map_task, map_task_with, reduce_task};
use std::alloc::{AllocError, Global};
use std::io;

/// The numbers of the fifth word, where there is one.
fn skips_of(alloc: Global, words: &[String]) -> Result<Vec<u32>, AllocError> {
    match words.get(4) {
        Some(list) => numbers_in(alloc, list.as_str()),
        None => Ok(Vec::new(alloc)),
    }
}

pub fn job_of(alloc: Global, number: u32) -> Option<Job> {
    match number {
        0 => Some(Job::words(false)),
        1 => Job::grep(alloc, b"b", false).ok(),
        _ => Some(Job::url()),
    }
}

/// What chooses the partition of a key under the job of that number.
fn by_of(number: u32) -> By {
    if number == 3 { By::Host } else { By::Key }
}

/// What the map task of each split gives, by its own limit where there is no other.
fn map_splits(
    alloc: Global,
    plan: &Plan<'_>,
    job: &Job,
    numbers: [u32; 4],
    skips: &[u32],
) -> Result<Vec<MapOutput>, AllocError> {
    let [number, parts, _, limit] = numbers;
    let mut outputs = Vec::new(alloc);
    if parts < 1 {
        return Ok(outputs);
    }
    let by = by_of(number);
    for split in 0..plan.splits() {
        let output = if limit < 1 {
            map_task(alloc, plan, job, parts, split, skips, by)?
        } else {
            map_task_with(alloc, plan, job, parts, split, skips, limit as usize, by)?
        };
        outputs.push(output)?;
    }
    Ok(outputs)
}

/// The regions of a partition, those of one split behind those of another.
fn regions_of(
    alloc: Global,
    outputs: &[MapOutput],
    partition: u32,
) -> Result<Vec<RegionView<'_>>, AllocError> {
    let mut regions = Vec::new(alloc);
    for output in outputs {
        if partition < output.parts() {
            for run in 0..output.runs() {
                regions.push(output.region(partition, run))?;
            }
        }
    }
    Ok(regions)
}

/// Tells the bytes of the regions, run by run.
fn show_regions(teller: &Teller, output: &MapOutput) {
    for run in 0..output.runs() {
        for partition in 0..output.parts() {
            teller.before(&output.region(partition, run).bytes(), ";");
        }
    }
    teller.end_line();
}

/// Tells the text, how many names each group has, and all names.
fn show_output(teller: &Teller, reduced: &ReduceOutput) {
    let (counts, names) = reduced.flat_groups();
    teller.before(&reduced.text(), "|");
    teller.before(&counts, "|");
    teller.one(&names);
}

fn show_fault(teller: &Teller, job: &Job, regions: &[RegionView<'_>]) {
    match reduce_task(teller.alloc(), job, 0, regions) {
        Ok(_) => teller.line(&"no fault"),
        Err(fault) => teller.fault(&fault),
    }
}

/// Tells what the reduce task answers to a region twice, and to one without its first byte.
fn show_damaged(teller: &Teller, job: &Job, output: &MapOutput) {
    if output.parts() < 1 || output.runs() < 1 {
        return;
    }
    let twice = [output.region(0, 0), output.region(0, 0)];
    show_fault(teller, job, &twice);
    let bytes = output.region(0, 0).bytes();
    show_fault(
        teller,
        job,
        &[RegionView::of(bytes.get(1..).unwrap_or(&[]), 0)],
    );
}

/// Tells what the reduce task of a partition gives.
fn show_reduced(
    teller: &Teller,
    job: &Job,
    outputs: &[MapOutput],
    partition: u32,
) -> Result<(), AllocError> {
    let regions = regions_of(teller.alloc(), outputs, partition)?;
    match reduce_task(teller.alloc(), job, partition, regions.as_slice()) {
        Ok(reduced) => show_output(teller, &reduced),
        Err(fault) => teller.one(&fault),
    }
    Ok(())
}

/// Tells what the map tasks gave, and what comes of it.
fn show_tasks(
    teller: &Teller,
    job: &Job,
    numbers: [u32; 4],
    outputs: &[MapOutput],
) -> Result<(), AllocError> {
    let [_, parts, _, limit] = numbers;
    for output in outputs {
        show_regions(teller, output);
        if limit < 1 {
            show_damaged(teller, job, output);
        }
    }
    for partition in 0..parts {
        show_reduced(teller, job, outputs, partition)?;
    }
    Ok(())
}

fn work(
    teller: &Teller,
    plan: &Plan<'_>,
    job: &Job,
    numbers: [u32; 4],
    skips: &[u32],
) -> Result<(), AllocError> {
    let outputs = map_splits(teller.alloc(), plan, job, numbers, skips)?;
    show_tasks(teller, job, numbers, &outputs)
}

/// The input of standard input, and the job of that number, where there are these.
pub fn asked(teller: &Teller, number: u32) -> io::Result<Option<(Input, Job)>> {
    let Some(input) = input(teller)? else {
        return Ok(None);
    };
    match job_of(teller.alloc(), number) {
        Some(job) => Ok(Some((input, job))),
        None => Ok(None),
    }
}

/// Answers an input and a job, where these records are left out.
fn answer_asked(
    teller: &Teller,
    input: &Input,
    job: &Job,
    numbers: [u32; 4],
    skips: &[u32],
) -> Result<(), AllocError> {
    let [_, _, size, _] = numbers;
    match Plan::of(teller.alloc(), input, size) {
        Ok(plan) => work(teller, &plan, job, numbers, skips),
        Err(_) => Ok(()),
    }
}

/// Answers standard input, where these records are left out.
fn answer_skips(teller: &Teller, numbers: [u32; 4], skips: &[u32]) -> io::Result<()> {
    match asked(teller, numbers[0])? {
        Some((input, job)) => Ok(answer_asked(teller, &input, &job, numbers, skips)?),
        None => Ok(()),
    }
}

/// Answers standard input, by these words.
pub fn answer(teller: &Teller, words: &[String]) -> io::Result<()> {
    let skips = skips_of(teller.alloc(), words)?;
    answer_skips(teller, numbers_of(words), &skips)
}
