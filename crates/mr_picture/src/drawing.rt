//! Draws the picture: a row for each worker, and events to the right in their order. A column
//! stands for `each` events.
//!
//!     each = 1    up to 1,500 events: a bar for each attempt, a mark for each other event
//!     each > 1    more: a cell for a row's events of a column, higher for more of them, with the
//!                 letters of what is to be noted; its label counts them by kind
//!
//! So a picture has some 1,500 marks at most, whatever the history: a folded one has some 1,200
//! cells in at most 401 columns, fewer for many workers.
//! Cost: linear in the events and the workers, and 12 numbers a cell.
use crate::entries::{Answer, Entry, add_event, add_reply};
use crate::kinds::{KINDS, Kind};
use crate::reading::History;
use crate::tracking::{NAMED, Note, Track, item_at};
use mr_core::Task;
use std::alloc::{AllocError, Global};

/// Most events that are drawn each by itself.
const DRAWN: usize = 1500;

const CELLS: usize = 1200;

const COLUMNS: usize = 400;

/// A run, and how many events a column of its picture stands for.
#[derive(Clone, Copy)]
pub(crate) struct Drawing<'a> {
    pub(crate) history: &'a History,
    pub(crate) track: &'a Track,
    pub(crate) each: usize,
}

/// How many events a column stands for.
pub(crate) fn events_of_column(history: &History) -> usize {
    let events = history.entries.len();
    let workers = (history.shape.workers as usize).max(1);
    if events <= DRAWN {
        1
    } else {
        events / (CELLS / workers).min(COLUMNS).max(1) + 1
    }
}

/// The place of a row's item, behind rows of so many.
fn place_in(row: usize, items: usize, item: usize) -> usize {
    row.saturating_mul(items).saturating_add(item)
}

/// The upper edge of a worker's row.
fn top_of(worker: u32) -> u32 {
    worker.saturating_mul(42).saturating_add(16)
}

pub(crate) fn sum_of(counts: &[usize]) -> usize {
    let mut sum = 0usize;
    for count in counts {
        sum = sum.saturating_add(*count);
    }
    sum
}

/// Adds the counts by kind. Returns the letters of those to be noted.
fn add_counts(alloc: Global, page: &mut String, counts: &[usize]) -> Result<String, AllocError> {
    let mut letters = String::new(alloc);
    for ((letter, name, notable), count) in KINDS.iter().zip(counts) {
        if *count > 0 {
            write!(page, ", {count} {name}")?;
            letters.push_str(if *notable { letter } else { "" })?;
        }
    }
    Ok(letters)
}

impl Drawing<'_> {
    fn columns(&self) -> usize {
        self.column_of(self.track.notes.len()).saturating_add(1)
    }

    fn column_of(&self, at: usize) -> usize {
        at / self.each.max(1)
    }

    /// The left edge of an event's column.
    fn left_of(&self, at: usize) -> usize {
        let width = if self.each > 1 { 26 } else { 16 };
        self.column_of(at).saturating_mul(width)
    }

    /// The event in words: its line in the history, and what the line leaves unsaid.
    pub(crate) fn add_label(
        &self,
        page: &mut String,
        at: usize,
        entry: &Entry,
    ) -> Result<(), AllocError> {
        let Some(Note { worker, more }) = self.track.notes.get(at).copied() else {
            return Ok(());
        };
        write!(page, "event {at}, worker {worker}: ")?;
        add_event(page, entry.event)?;
        page.push_str(": ")?;
        let skips = entry.skips.as_slice();
        let few = skips.get(..NAMED).unwrap_or(skips);
        add_reply(page, entry.answer, few)?;
        if few.len() < skips.len() {
            page.push_str(" ..")?;
        }
        page.push_str(more)?;
        if item_at(&self.track.lost, worker) == Some(Some(at)) {
            self.add_losses(page, worker)?;
        }
        Ok(())
    }

    /// Adds the splits whose outputs went with a worker, or the first of many.
    fn add_losses(&self, page: &mut String, worker: u32) -> Result<(), AllocError> {
        let taken = item_at(&self.track.taken, worker).unwrap_or(0);
        if taken > 0 {
            page.push_str(", and its outputs went with it, ")?;
            write!(page, "{taken} in all: splits")?;
        }
        for (holder, split) in self.track.gone.as_slice() {
            if *holder == worker {
                write!(page, " {split}")?;
            }
        }
        page.push_str(if taken > NAMED { " .." } else { "" })
    }

    /// Begins a mark, which its label follows.
    fn begin_mark(&self, page: &mut String, at: usize, worker: u32) -> Result<(), AllocError> {
        let (x, y) = (self.left_of(at), top_of(worker));
        page.push_str("<g class=\"k\" tabindex=\"0\" role=\"img\" ")?;
        write!(page, "transform=\"translate({x} {y})\"><title>")
    }

    /// Adds the bar of an attempt, from its ask to its end.
    fn add_bar(&self, page: &mut String, attempt: u32) -> Result<(), AllocError> {
        let Some(own) = item_at(&self.track.attempts, attempt) else {
            return Ok(());
        };
        let (class, letter, number) = match own.task {
            Task::Map(split) => ("m", "M", split),
            Task::Reduce(partition) => ("r", "R", partition),
        };
        let mark = if own.backup { " b" } else { "" };
        let end = own.end.unwrap_or(self.history.entries.len());
        let rest = self.left_of(end).saturating_sub(self.left_of(own.begin));
        let width = rest.saturating_add(14);
        page.push_str("<rect y=\"2\" height=\"18\" rx=\"3\" ")?;
        write!(page, "class=\"{class}{mark}\" width=\"{width}\"/>")?;
        write!(page, "<text x=\"3\" y=\"15\">{letter}{number}{mark}</text>")
    }

    /// Adds one event: a bar for an ask that was given a task, else a mark.
    fn add_mark(&self, page: &mut String, at: usize, entry: &Entry) -> Result<(), AllocError> {
        let Some(Note { worker, .. }) = self.track.notes.get(at).copied() else {
            return Ok(());
        };
        self.begin_mark(page, at, worker)?;
        self.add_label(page, at, entry)?;
        page.push_str("</title>")?;
        match entry.answer {
            Answer::Map { attempt, .. } | Answer::Reduce { attempt, .. } => {
                self.add_bar(page, attempt)?;
            }
            _ => {
                let mark = Kind::of(entry).mark();
                write!(page, "<use href=\"#{mark}\" y=\"23\"/>")?;
            }
        }
        page.push_str("</g>\n")
    }

    /// Counts the events by column, worker and kind.
    fn count(&self, alloc: Global, workers: usize) -> Result<Vec<usize>, AllocError> {
        let entries = self.history.entries.as_slice();
        let cells = self.columns().saturating_mul(workers);
        let mut counts = vec![in alloc; 0usize; cells.saturating_mul(KINDS.len())]?;
        for (at, (entry, note)) in entries.iter().zip(self.track.notes.as_slice()).enumerate() {
            let cell = place_in(self.column_of(at), workers, note.worker as usize);
            let place = place_in(cell, KINDS.len(), Kind::of(entry) as usize);
            if let Some(count) = counts.get_mut(place) {
                *count = count.saturating_add(1);
            }
        }
        Ok(counts)
    }

    /// Adds a cell, of a worker's events of a column, if there are some.
    fn add_cell(
        &self,
        alloc: Global,
        page: &mut String,
        cell: usize,
        counts: &[usize],
    ) -> Result<(), AllocError> {
        let workers = (self.history.shape.workers as usize).max(1);
        let worker = (cell % workers) as u32;
        let first = (cell / workers).saturating_mul(self.each);
        let last = first.saturating_add(self.each).saturating_sub(1);
        let sum = sum_of(counts);
        if sum == 0 {
            return Ok(());
        }
        self.begin_mark(page, first, worker)?;
        write!(page, "events {first} to {last}, worker {worker}: ")?;
        write!(page, "{sum} events")?;
        let letters = add_counts(alloc, page, counts)?;
        let class = if letters.is_empty() { "m" } else { "bad" };
        let share = sum.saturating_mul(workers).saturating_mul(12) / self.each.max(1);
        let height = share.max(10).min(24) + 2;
        let top = 38usize.saturating_sub(height);
        write!(page, "</title><rect class=\"{class}\" y=\"{top}\" ")?;
        write!(page, "width=\"24\" height=\"{height}\"/>")?;
        write!(page, "<text y=\"{top}\" dy=\"-2\">{sum}</text>")?;
        page.push_str("<text y=\"38\">")?;
        page.push_str(letters.as_str())?;
        page.push_str("</text></g>\n")
    }

    /// Adds the numbers of events above, and the rows, hatched behind the loss of the worker.
    fn add_rows(&self, page: &mut String, width: usize) -> Result<(), AllocError> {
        for column in 0..self.columns() {
            if column % 5 == 0 {
                let first = column.saturating_mul(self.each);
                let x = self.left_of(first);
                write!(page, "<text x=\"{x}\" y=\"10\">{first}</text>\n")?;
            }
        }
        for worker in 0..self.history.shape.workers {
            let y = top_of(worker);
            write!(page, "<path class=\"row\" d=\"M0 {y}h{width}\"/>\n")?;
            if let Some(Some(at)) = item_at(&self.track.lost, worker) {
                let x = self.left_of(at);
                page.push_str("<path class=\"lost\" ")?;
                write!(page, "d=\"M{x} {y}H{width}v40H{x}z\"/>\n")?;
            }
        }
        Ok(())
    }

    /// Adds the names of the rows, which stay where the picture is scrolled.
    fn add_names(&self, page: &mut String, height: u32) -> Result<(), AllocError> {
        page.push_str("<svg class=\"names\" width=\"60\" aria-hidden=\"true\" ")?;
        write!(page, "height=\"{height}\">\n")?;
        page.push_str("<text x=\"4\" y=\"10\">event</text>\n")?;
        for worker in 0..self.history.shape.workers {
            let y = top_of(worker).saturating_add(22);
            write!(page, "<text x=\"4\" y=\"{y}\">worker {worker}</text>\n")?;
        }
        page.push_str("</svg>\n")
    }

    /// Adds the picture.
    pub(crate) fn draw(&self, alloc: Global, page: &mut String) -> Result<(), AllocError> {
        let workers = self.history.shape.workers;
        let height = top_of(workers);
        let width = self.left_of(self.track.notes.len()).saturating_add(40);
        self.add_names(page, height)?;
        page.push_str("<svg role=\"group\" aria-label=\"events\" ")?;
        write!(page, "width=\"{width}\" height=\"{height}\">\n")?;
        self.add_rows(page, width)?;
        if self.each > 1 {
            let counts = self.count(alloc, workers as usize)?;
            for (cell, counts) in counts.as_slice().chunks(KINDS.len()).enumerate() {
                self.add_cell(alloc, page, cell, counts)?;
            }
        } else {
            for (at, entry) in self.history.entries.as_slice().iter().enumerate() {
                self.add_mark(page, at, entry)?;
            }
        }
        page.push_str("</svg>\n")
    }
}
