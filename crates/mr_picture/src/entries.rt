//! An event of a history with the master's answer, and its line.
ghost use Rattle.std.specs.Prelude.{◌≡◌, ◌++◌, OnOk, IfOk, string_bytes};
ghost use Rattle.mr_picture.specs.Answers.{reply_of};
ghost use Rattle.mr_picture.specs.HistoryLines.{entry_line, event_text, fault_name, reply_text};
ghost use Rattle.mr_picture.specs.HistoryLines.{shape_line, without_text};

use mr_core::{End, Event, JobFault, Reply, Shape};
use std::alloc::{AllocError, Global};
use std::marker::Model;

/// What the master answered to an event; `Map` without the records to leave out.
#[derive(Clone, Copy, Debug, PartialEq, Eq)]
pub(crate) enum Answer {
    Map { attempt: u32, split: u32 },
    Reduce { attempt: u32, partition: u32 },
    Wait,
    Stop(End),
    Region { output: u64 },
    Gone,
    Accepted,
    Ignored,
}

/// An event with its answer. Only a `Map` has records to leave out.
#[derive(Drop)]
pub(crate) struct Entry {
    pub(crate) event: Event,
    pub(crate) answer: Answer,
    pub(crate) skips: Vec<u32>,
}

impl Model for Entry {
    ghost use Rattle.mr_core.specs.declared.event.Event.{Event};
    ghost use Rattle.mr_core.specs.declared.event.Reply.{Reply};
    ghost use Rattle.mr_picture.specs.Answers.{reply_of};

    ghost Value = { Event × Reply };

    ghost view = { λ e. (e.event, reply_of e.answer e.skips.items) };
}

pub(crate) fn add_event(text: &mut String, event: Event) -> Result<(), AllocError>
    ensures { OnOk result (string_bytes text.new ≡ string_bytes text.old ++ event_text event) }
{
    match event {
        Event::Ask(worker) => write!(text, "ask {worker}"),
        Event::Fetch(attempt, split) => write!(text, "fetch attempt {attempt} split {split}"),
        Event::MapDone(attempt, output) => {
            write!(text, "map-done attempt {attempt} output {output}")
        }
        Event::MapFailed(attempt, rec) => {
            write!(text, "map-failed attempt {attempt} record {rec}")
        }
        Event::ReduceDone(attempt, output) => {
            write!(text, "reduce-done attempt {attempt} output {output}")
        }
        Event::Lose(worker) => write!(text, "lose {worker}"),
        Event::Damaged(attempt, split) => write!(text, "damaged attempt {attempt} split {split}"),
    }
}

pub fn fault_name(fault: JobFault) -> &'static str
    ensures { result.now ≡ fault_name fault }
{
    match fault {
        JobFault::TooManyAttempts => "TooManyAttempts",
        JobFault::TooManySkips => "TooManySkips",
        JobFault::NoWorkers => "NoWorkers",
    }
}

fn add_without(text: &mut String, skips: &[u32]) -> Result<(), AllocError>
    ensures { OnOk result
        (string_bytes text.new ≡ string_bytes text.old ++ without_text skips.now) }
{
    if skips.is_empty() {
        return Ok(());
    }
    write!(text, " without")?;
    for rec in skips {
        write!(text, " {rec}")?;
    }
    Ok(())
}

pub(crate) fn add_reply(text: &mut String, answer: Answer, skips: &[u32]) -> Result<(), AllocError>
    ensures { OnOk result
        (string_bytes text.new ≡ string_bytes text.old ++ reply_text (reply_of answer skips.now)) }
{
    match answer {
        Answer::Map { attempt, split } => {
            write!(text, "map attempt {attempt} split {split}")?;
            add_without(text, skips)
        }
        Answer::Reduce { attempt, partition } => write!(
            text,
            "reduce attempt {attempt} partition {partition}"
        ),
        Answer::Wait => write!(text, "wait"),
        Answer::Stop(End::Done) => write!(text, "stop done"),
        Answer::Stop(End::Dismissed) => write!(text, "stop dismissed"),
        Answer::Stop(End::Failed(fault)) => {
            let name = fault_name(fault);
            write!(text, "stop failed {name}")
        }
        Answer::Region { output } => write!(text, "output {output}"),
        Answer::Gone => write!(text, "gone"),
        Answer::Accepted => write!(text, "accepted"),
        Answer::Ignored => write!(text, "ignored"),
    }
}

/// A reply's answer, and the records that it leaves out.
fn parts_of(reply: &Reply) -> (Answer, &[u32])
    ensures { reply_of result.0 result.1.now ≡ reply.entry.now }
{
    match reply {
        Reply::Map {
            attempt,
            split,
            skips,
        } => {
            let (attempt, split) = (*attempt, *split);
            (Answer::Map { attempt, split }, skips.as_slice())
        }
        Reply::Reduce { attempt, partition } => {
            let (attempt, partition) = (*attempt, *partition);
            (Answer::Reduce { attempt, partition }, &[])
        }
        Reply::Wait => (Answer::Wait, &[]),
        Reply::Stop(end) => (Answer::Stop(*end), &[]),
        Reply::Region { output } => (Answer::Region { output: *output }, &[]),
        Reply::Gone => (Answer::Gone, &[]),
        Reply::Accepted => (Answer::Accepted, &[]),
        Reply::Ignored => (Answer::Ignored, &[]),
    }
}

fn add_parts(
    text: &mut String,
    event: Event,
    answer: Answer,
    skips: &[u32],
) -> Result<(), AllocError>
    ensures { OnOk result (string_bytes text.new
        ≡ string_bytes text.old ++ entry_line (event, reply_of answer skips.now)) }
{
    add_event(text, event)?;
    write!(text, ": ")?;
    add_reply(text, answer, skips)?;
    write!(text, "\n")
}

/// Adds the line of an event and its reply.
pub fn add_line(text: &mut String, event: Event, reply: &Reply) -> Result<(), AllocError>
    ensures { OnOk result (string_bytes text.new ≡ string_bytes text.old ++ entry_line (event, reply.now)) }
{
    let (answer, skips) = parts_of(reply);
    add_parts(text, event, answer, skips)
}

/// Adds the line of an entry.
pub(crate) fn add_entry(text: &mut String, entry: &Entry) -> Result<(), AllocError>
    ensures { OnOk result (string_bytes text.new ≡ string_bytes text.old ++ entry_line entry.now) }
{
    add_parts(text, entry.event, entry.answer, entry.skips.as_slice())
}

/// The first line of a history.
pub fn shape_line(alloc: Global, shape: Shape) -> Result<String, AllocError>
    ensures { IfOk result (λ text. string_bytes text ≡ shape_line shape) }
{
    let Shape {
        maps,
        parts,
        workers,
        limits,
    } = shape;
    let attempts = limits.attempts;
    let skips = limits.skips;
    format!(in alloc;
        "history 1 maps {maps} parts {parts} workers {workers} attempts {attempts} skips {skips}\n"
    )
}
