//! Outputs that tell a number.
use crate::telling::Teller;
use mr_bytes::By;
use mr_input::Input;
use mr_jobs::Job;
use mr_splits::Plan;
use mr_task::{MapOutput, ReduceOutput, Stored, map_task, reduce_task};
use std::alloc::Global;

/// The input of the one word that is `w` with the number.
fn input_of(alloc: Global, number: u32) -> Option<Input> {
    let text = format!(in alloc; "w{number}\n").ok()?;
    let mut files = Vec::new(alloc);
    files.push(text.into_bytes()).ok()?;
    Input::of(files).ok()
}

/// What the map task gives for that word.
fn map_output(alloc: Global, number: u32) -> Option<MapOutput> {
    let input = input_of(alloc, number)?;
    let plan = Plan::of(alloc, &input, 64).ok()?;
    if plan.splits() == 0 {
        return None;
    }
    map_task(alloc, &plan, &Job::words(false), 1, 0, &[], By::Key).ok()
}

/// What the reduce task makes of an output.
fn reduced(alloc: Global, output: &MapOutput) -> Option<ReduceOutput> {
    if output.parts() == 0 {
        return None;
    }
    let regions = output.regions(alloc, 0).ok()?;
    reduce_task(alloc, &Job::words(false), 0, regions.as_slice()).ok()
}

/// What the reduce task makes of it.
pub fn reduce_output(alloc: Global, number: u32) -> Option<ReduceOutput> {
    reduced(alloc, &map_output(alloc, number)?)
}

/// Where the one region of a map task lies, under that number.
pub fn stored(alloc: Global, number: u32) -> Option<Stored> {
    let mut stored = Stored::new(alloc, 1, 0);
    stored.push(u64::from(number)).ok()?;
    Some(stored)
}

/// Tells where the regions of partition 0 lie.
pub fn show_map(out: &Teller, stored: &Stored) {
    if stored.parts() == 0 {
        return;
    }
    for run in 0..stored.runs() {
        out.value(&stored.place(0, run));
    }
}
