//! The master: each line of standard input is an event, and is answered by a line that tells the reply, made twice, and all
//! that can be looked at. A line whose fourth number isn't 0 has its reply made once.
ghost use Rattle.std.specs.Prelude.{◌<◌};

use crate::telling::Teller;
use mr_core::{Core, Event, Limits, Task};
use std::alloc::AllocError;
use std::io;

/// The numbers of a line; what is missing or is no number is 0.
pub fn numbers_of(line: &str) -> [u32; 6] {
    let mut numbers = [0; 6];
    let mut words = line.split(' ');
    for i in 0..6 {
        if let Some(word) = words.next() {
            numbers[i] = word.parse().unwrap_or(0);
        }
    }
    numbers
}

/// The master that `0 MAPS PARTS WORKERS ATTEMPTS SKIPS` opens, where these are within the limits of a small job.
fn opened(teller: &Teller, numbers: [u32; 6]) -> Result<Option<Core>, AllocError> {
    let [_, maps, parts, workers, attempts, skips] = numbers;
    if 64 < maps || parts < 1 || 8 < parts || workers < 1 || 8 < workers {
        return Ok(None);
    }
    if attempts < 1 || 8 < attempts || 8 < skips {
        return Ok(None);
    }
    let limits = Limits { attempts, skips };
    Ok(Some(Core::new(teller.alloc(), maps, parts, workers, limits)?))
}

/// The event of a line: its kind, and then its numbers.
fn event_of(numbers: [u32; 6]) -> Event {
    let [kind, first, second, ..] = numbers;
    match kind {
        1 => Event::Ask(first),
        2 => Event::Fetch(first, second),
        3 => Event::MapDone(first, u64::from(second)),
        4 => Event::MapFailed(first, second),
        5 => Event::ReduceDone(first, u64::from(second)),
        7 => Event::Damaged(first, second),
        _ => Event::Lose(first),
    }
}

fn show_split(teller: &Teller, core: &Core, split: u32)
    requires split { split < core.now.shape.maps }
{
    let complete = core.complete(Task::Map(split));
    teller.three_behind_bar(&complete, &core.output(split), &core.set(split));
}

fn show_part(teller: &Teller, core: &Core, part: u32)
    requires part { part < core.now.shape.parts }
{
    let complete = core.complete(Task::Reduce(part));
    teller.two_behind_bar(&complete, &core.committed(part));
}

/// Tells what can be looked at: the shape, the end, each split and each partition.
fn show(teller: &Teller, core: &Core) {
    let shape = core.shape();
    teller.behind("|", &shape);
    teller.behind("|", &core.end());
    for split in 0..shape.maps {
        show_split(teller, core, split);
    }
    for part in 0..shape.parts {
        show_part(teller, core, part);
    }
    teller.end_line();
}

/// Gives the event to the master, and tells what it replies, made twice.
fn hear_twice(teller: &Teller, core: &mut Core, event: Event) -> Result<(), AllocError> {
    let (reply, again) = core.apply_with_copy(teller.alloc(), event)?;
    teller.part(&reply);
    teller.behind("|", &again);
    Ok(())
}

/// Gives the event to the master, and tells what it replies, made once.
fn hear_once(teller: &Teller, core: &mut Core, event: Event) -> Result<(), AllocError> {
    let reply = core.apply(teller.alloc(), event)?;
    teller.part(&reply);
    teller.text("|once");
    Ok(())
}

/// Gives the event of a line to the master, and tells what it replies, and what can be looked at.
fn hear(teller: &Teller, core: &mut Core, numbers: [u32; 6]) -> Result<(), AllocError> {
    if numbers[3] == 0 {
        hear_twice(teller, core, event_of(numbers))?;
    } else {
        hear_once(teller, core, event_of(numbers))?;
    }
    show(teller, core);
    Ok(())
}

/// Answers a line: one that opens a master puts it in the place of the one before.
fn answer_line(
    teller: &Teller,
    master: &mut Option<Core>,
    numbers: [u32; 6],
) -> Result<(), AllocError> {
    if numbers[0] == 0 {
        *master = opened(teller, numbers)?;
        return Ok(());
    }
    match master {
        Some(core) => hear(teller, core, numbers),
        None => Ok(()),
    }
}

/// Answers each line.
fn serve(teller: &Teller, master: &mut Option<Core>) -> io::Result<()> {
    for line in teller.lines() {
        answer_line(teller, master, numbers_of(line?.as_str()))?;
    }
    Ok(())
}

/// Answers standard input.
pub fn answer(teller: &Teller) -> io::Result<()> {
    let mut master = None;
    serve(teller, &mut master)
}
