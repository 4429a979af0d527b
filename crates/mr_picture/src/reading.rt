//! Reads a history: parses each line leniently, and accepts it only if it is the line of what was
//! so parsed, and if the entries before it allow it.
//!
//!     line  ->  event and answer  ->  its line  ->  the same bytes?  ->  allowed?  ->  entries
//!
//! So no rule of the text is written twice. The tasks that were given, by attempt, are all that is
//! kept to decide what is allowed. Cost: a few passes over each line, and the memory of entries,
//! tasks and one line.
//! Source: docs/FORMATS.md, "The history of a run".
ghost use Rattle.std.specs.Prelude.{◌≡◌, ◌↔◌, ◌++◌, ℕ, List, MatchOption, IfErr, IfOk, IfSome};
ghost use Rattle.std.specs.Prelude.{◌<◌, IsTrue, Some, length, slice_get, option_to_list};
ghost use Rattle.mr_core.specs.Core.{InLimits};
ghost use Rattle.mr_core.specs.declared.event.Event.{Event};
ghost use Rattle.mr_core.specs.declared.event.Reply.{Reply};
ghost use Rattle.mr_picture.specs.Answers.{reply_of};
ghost use Rattle.mr_picture.specs.Histories.{HasNoEntry, HasNoShape, IsHistory, IsRefused, given};
ghost use Rattle.mr_picture.specs.Histories.{answers_ask, answers_fetch, answers_report, fits};
ghost use Rattle.mr_picture.specs.Histories.{is_map, is_reduce, task_in};
ghost use Rattle.mr_picture.specs.HistoryLines.{entry_line, shape_line};
ghost use Rattle.mr_picture.specs.Reading.{AddsEntry, AreSmall, IsFront, IsNext};

use crate::entries::{Answer, Entry, add_entry, shape_line};
use crate::parsing::{numbers_in, parts_of, shape_of};
use crate::picture::PictureFault;
use mr_core::{Event, Shape, Task};
use std::alloc::{AllocError, Global};

/// A history, and the tasks that its asks were given, by attempt.
#[derive(Drop)]
pub(crate) struct History {
    pub(crate) shape: Shape,
    pub(crate) entries: Vec<Entry>,
    pub(crate) tasks: Vec<Task>,
}

fn is_map(tasks: &[Task], attempt: u32) -> bool
    ensures { result ≡ is_map (slice_get tasks.now attempt) }
{
    matches!(tasks.get(attempt as usize), Some(Task::Map(_)))
}

fn is_reduce(tasks: &[Task], attempt: u32) -> bool
    ensures { result ≡ is_reduce (slice_get tasks.now attempt) }
{
    matches!(tasks.get(attempt as usize), Some(Task::Reduce(_)))
}

fn answers_ask(shape: Shape, next: usize, answer: Answer, skips: &[u32]) -> bool
    ensures { result ≡ answers_ask shape next (reply_of answer skips.now) }
{
    match answer {
        Answer::Map { attempt, split } => attempt as usize == next && split < shape.maps,
        Answer::Reduce { attempt, partition } => {
            attempt as usize == next && partition < shape.parts
        }
        Answer::Wait | Answer::Stop(_) => true,
        _ => false,
    }
}

fn answers_fetch(at: u64, answer: Answer, skips: &[u32]) -> bool
    ensures { result ≡ answers_fetch at (reply_of answer skips.now) }
{
    match answer {
        Answer::Region { output } => output < at,
        Answer::Gone | Answer::Ignored => true,
        _ => false,
    }
}

fn answers_report(answer: Answer, skips: &[u32]) -> bool
    ensures { result ≡ answers_report (reply_of answer skips.now) }
{
    matches!(answer, Answer::Accepted | Answer::Ignored)
}

/// Whether an entry is allowed behind `at` entries that gave these tasks.
fn fits(shape: Shape, at: u64, tasks: &[Task], entry: &Entry) -> bool
    ensures { result ≡ fits shape at tasks.now entry.now.0 entry.now.1 }
{
    let answer = entry.answer;
    let skips = entry.skips.as_slice();
    match entry.event {
        Event::Ask(worker) => {
            worker < shape.workers && answers_ask(shape, tasks.len(), answer, skips)
        }
        Event::Fetch(attempt, split) => {
            is_reduce(tasks, attempt) && split < shape.maps && answers_fetch(at, answer, skips)
        }
        Event::MapDone(attempt, output) => {
            is_map(tasks, attempt) && output == at && answers_report(answer, skips)
        }
        Event::MapFailed(attempt, _) => is_map(tasks, attempt) && answers_report(answer, skips),
        Event::ReduceDone(attempt, output) => {
            is_reduce(tasks, attempt) && output == at && answers_report(answer, skips)
        }
        Event::Lose(worker) => worker < shape.workers && answers_report(answer, skips),
        Event::Damaged(attempt, split) => {
            is_reduce(tasks, attempt) && split < shape.maps && answers_report(answer, skips)
        }
    }
}

/// The entry whose line may be at the front of the text.
fn entry_at(alloc: Global, text: &[u8]) -> Result<Option<Entry>, AllocError>
    ensures only { IfOk result (λ o. (e : Event × Reply) (more : List ℕ) → AreSmall e
        → text.now ≡ entry_line e ++ more → o ≡ Some e) }
    ensures small { IfOk result (λ o. IfSome o AreSmall) }
{
    let Some((event, answer, left_out)) = parts_of(text) else {
        return Ok(None);
    };
    let skips = numbers_in(alloc, left_out)?;
    Ok(Some(Entry {
        event,
        answer,
        skips,
    }))
}

/// The line's length, if the text begins with it.
fn length_of_front(text: &[u8], line: &[u8]) -> Option<usize>
    requires { 0 < length line.now }
    ensures { MatchOption result ((more : List ℕ) → text.now ≡ line.now ++ more → ⊥)
        (λ n. IsFront n line.now text.now) }
{
    if text.starts_with(line) {
        Some(line.len())
    } else {
        None
    }
}

/// The entry at the front of the text, if it is allowed there, and the length of its line.
fn next_entry(
    alloc: Global,
    history: &History,
    text: &[u8],
) -> Result<Option<(Entry, usize)>, AllocError>
    requires { history.now.tasks.items ≡ given history.now.entries.items }
    ensures { IfOk result (λ o. MatchOption o
        (HasNoEntry history.now.shape history.now.entries.items text.now)
        (λ r. IsNext history.now text.now r.0 r.1)) }
{
    let Some(entry) = entry_at(alloc, text)? else {
        return Ok(None);
    };
    let at = history.entries.len() as u64;
    if !fits(history.shape, at, history.tasks.as_slice(), &entry) {
        return Ok(None);
    }
    let mut line = String::new(alloc);
    add_entry(&mut line, &entry)?;
    match length_of_front(text, line.as_bytes()) {
        Some(length) => Ok(Some((entry, length))),
        None => Ok(None),
    }
}

fn task_in(entry: &Entry) -> Option<Task>
    ensures { option_to_list result ≡ task_in entry.now }
{
    match entry.answer {
        Answer::Map { split, .. } => Some(Task::Map(split)),
        Answer::Reduce { partition, .. } => Some(Task::Reduce(partition)),
        _ => None,
    }
}

/// Adds the entry at the front of the text, if it is allowed there. Returns the length of its line.
fn add_line(alloc: Global, history: &mut History, text: &[u8]) -> Result<Option<usize>, AllocError>
    requires { history.old.tasks.items ≡ given history.old.entries.items }
    ensures { IfOk result (λ o. MatchOption o
        (HasNoEntry history.old.shape history.old.entries.items text.now)
        (λ n. AddsEntry history.old history.new text.now n)) }
{
    let Some((entry, length)) = next_entry(alloc, history, text)? else {
        return Ok(None);
    };
    if let Some(task) = task_in(&entry) {
        history.tasks.push(task).map_err(AllocError::from)?;
    }
    history.entries.push(entry).map_err(AllocError::from)?;
    Ok(Some(length))
}

/// Whether the shape is within the limits of a job.
fn is_in_limits(shape: Shape) -> bool
    ensures { IsTrue result ↔ InLimits shape }
{
    let limits = shape.limits;
    shape.maps <= 1 << 20
        && 1 <= shape.parts
        && shape.parts <= 1024
        && 1 <= shape.workers
        && shape.workers <= 64
        && 1 <= limits.attempts
        && limits.attempts <= 16
        && limits.skips <= 1000
}

/// The shape at the front of the text, and the length of its line.
fn shape_at(alloc: Global, text: &[u8]) -> Result<Option<(Shape, usize)>, AllocError>
    ensures { IfOk result (λ o. MatchOption o (HasNoShape text.now)
        (λ r. InLimits r.0 × IsFront r.1 (shape_line r.0) text.now)) }
{
    let Some(shape) = shape_of(text) else {
        return Ok(None);
    };
    if !is_in_limits(shape) {
        return Ok(None);
    }
    let line = shape_line(alloc, shape)?;
    match length_of_front(text, line.as_bytes()) {
        Some(length) => Ok(Some((shape, length))),
        None => Ok(None),
    }
}

/// Reads a history, or reports its first bad line.
pub(crate) fn read_history(alloc: Global, text: &[u8]) -> Result<History, PictureFault>
    ensures ok { IfOk result (λ h. IsHistory text.now h.shape h.entries.items) }
    ensures err { IfErr result (IsRefused text.now) }
{
    let Some((shape, length)) = shape_at(alloc, text)? else {
        return Err(PictureFault::BadHistory { line: 1 });
    };
    let mut history = History {
        shape,
        entries: Vec::new(alloc),
        tasks: Vec::new(alloc),
    };
    let mut from = length;
    let mut line = 1u64;
    while from < text.len() {
        line += 1;
        let Some(length) = add_line(alloc, &mut history, &text[from..])? else {
            return Err(PictureFault::BadHistory { line });
        };
        from += length;
    }
    Ok(history)
}
