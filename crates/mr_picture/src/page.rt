//! Makes the page: how the run ended, numbers, the picture (`drawing.rt`), and a table of events.
//! All text but the name is numbers and words of the program, so only the name is escaped.
//! Cost: linear in the entries, the workers and the splits.
use crate::drawing::{Drawing, events_of_column, sum_of};
use crate::entries::fault_name;
use crate::kinds::Kind;
use crate::reading::History;
use crate::template::{HEAD, KEYS, LABEL, PAGE_FRONT, SCRIPT, SHAPES, STYLE};
use crate::tracking::Track;
use mr_core::End;
use std::alloc::{AllocError, Global};

/// Most rows of the table.
const ROWS: usize = 500;

/// Adds the name: what HTML reads as its own is spelled, control characters are replaced.
fn add_escaped(page: &mut String, name: &str) -> Result<(), AllocError> {
    for char in name.chars() {
        match char {
            '&' => page.push_str("&amp;")?,
            '<' => page.push_str("&lt;")?,
            '>' => page.push_str("&gt;")?,
            '"' => page.push_str("&quot;")?,
            '\'' => page.push_str("&#39;")?,
            _ if char.is_control() => page.push('\u{fffd}')?,
            _ => page.push(char)?,
        }
    }
    Ok(())
}

fn add_end(page: &mut String, parts: u32, end: Option<End>) -> Result<(), AllocError> {
    page.push_str("<p class=\"end\">")?;
    match end {
        Some(End::Failed(fault)) => {
            let name = fault_name(fault);
            write!(page, "The job failed: {name}.")?;
        }
        Some(_) => {
            page.push_str("The job is done: all of its ")?;
            write!(page, "{parts} partitions are committed.")?;
        }
        None => page.push_str("The history does not tell how the job ended.")?,
    }
    page.push_str("</p>\n")
}

fn add_numbers(page: &mut String, history: &History, track: &Track) -> Result<(), AllocError> {
    let shape = history.shape;
    let all = history.entries.as_slice();
    let count = |kind: Kind| all.iter().filter(|it| Kind::of(it) == kind).count();
    let lost = track.lost.iter().filter(|at| at.is_some()).count();
    let backups = track.attempts.iter().filter(|own| own.backup).count();
    let numbers = [
        ("events", all.len()),
        ("workers", shape.workers as usize),
        ("workers lost", lost),
        ("splits", shape.maps as usize),
        ("partitions", shape.parts as usize),
        ("map attempts", count(Kind::Map)),
        ("reduce attempts", count(Kind::Reduce)),
        ("of these backups", backups),
        ("failed on a record", count(Kind::MapFailed)),
        ("outputs lost with workers", sum_of(track.taken.as_slice())),
        ("damaged regions", count(Kind::Damaged)),
        ("records left out", sum_of(track.left_out.as_slice())),
        ("ignored", count(Kind::Ignored)),
    ];
    page.push_str("<dl>\n")?;
    for (name, number) in numbers.iter() {
        write!(page, "<div><dt>{name}</dt><dd>{number}</dd></div>\n")?;
    }
    page.push_str("</dl>\n")
}

/// The events to note, as text.
fn add_table(page: &mut String, drawing: &Drawing) -> Result<(), AllocError> {
    page.push_str("<details><summary>Events to note</summary>\n<table>\n")?;
    page.push_str("<tr><th>Losses, failures, damage, and what was ignored</th></tr>\n")?;
    let mut rows = 0usize;
    for (at, entry) in drawing.history.entries.as_slice().iter().enumerate() {
        if !Kind::of(entry).is_notable() && entry.skips.is_empty() {
            continue;
        }
        rows = rows.saturating_add(1);
        if rows <= ROWS {
            page.push_str("<tr><td>")?;
            drawing.add_label(page, at, entry)?;
            page.push_str("</td></tr>\n")?;
        }
    }
    if rows > ROWS {
        let more = rows - ROWS;
        write!(page, "<tr><td>and {more} more</td></tr>\n")?;
    }
    page.push_str("</table>\n</details>\n")
}

/// The whole page.
pub(crate) fn page_of(
    alloc: Global,
    name: &str,
    history: &History,
    track: &Track,
) -> Result<String, AllocError> {
    let mut page = String::from_str(alloc, PAGE_FRONT)?;
    page.push_str(HEAD)?;
    page.push_str("<title>")?;
    add_escaped(&mut page, name)?;
    page.push_str("</title>\n")?;
    page.push_str(STYLE)?;
    page.push_str("<h1>The run of ")?;
    add_escaped(&mut page, name)?;
    page.push_str("</h1>\n")?;
    add_end(&mut page, history.shape.parts, track.end)?;
    add_numbers(&mut page, history, track)?;
    page.push_str(SHAPES)?;
    page.push_str(KEYS)?;
    let each = events_of_column(history);
    if each > 1 {
        page.push_str("<p>These are too many events to draw each: a column stands for ")?;
        write!(page, "{each} of them, a box for those of a worker, ")?;
        page.push_str("with their number, higher for more, ")?;
        page.push_str("and with the letters of what is to be noted.</p>\n")?;
    }
    page.push_str(LABEL)?;
    let drawing = Drawing {
        history,
        track,
        each,
    };
    drawing.draw(alloc, &mut page)?;
    page.push_str("</div>\n")?;
    add_table(&mut page, &drawing)?;
    page.push_str(SCRIPT)?;
    Ok(page)
}
