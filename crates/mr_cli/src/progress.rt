//! Notes before the work, on directories and earlier results. Then a line of progress: the phase, the
//! share done, lost workers. The first thread that reports draws it, at most a few times a second; it
//! is wiped before any other output. No clause speaks of it, and it doesn't influence the work.

use crate::options::letter_and_options;
use mr_args::{Options, RunOptions, SeqOptions, Subcommand};
use mr_bytes::{Phase, Progress};
use mr_files::{Inspect, PathKind, certificate_name, part_name, verdict_name};
use std::alloc::{AllocError, Global};
use std::io::{Stderr, Write};
use std::sync::atomic::{AtomicBool, AtomicU64, Ordering};
use std::time::Clock;

/// The least milliseconds between two drawings and before the first: short work shows nothing.
const PAUSE: u64 = 300;

/// Goes back to the line's start and wipes it.
const WIPE: &str = "\r\x1b[K";

/// A line of progress. `next` is the time of the clock, in milliseconds, from which it may be drawn
/// again; `stands` says whether the terminal shows it.
#[derive(Drop)]
pub struct ProgressLine<C: Clock> {
    clock: C,
    alloc: Global,
    err: Stderr,
    next: AtomicU64,
    lost: AtomicU64,
    judging: AtomicBool,
    stands: AtomicBool,
}

/// Milliseconds of the clock; 0 if it can't be read, and then nothing is drawn.
fn now<C: Clock>(clock: &C) -> u64 {
    match clock.monotonic() {
        Ok(time) => time
            .as_secs()
            .saturating_mul(1000)
            .saturating_add(time.subsec_millis() as u64),
        Err(_) => 0,
    }
}

/// The line; `share` is how many hundredths are done.
fn line(alloc: Global, phase: Phase, share: u64, lost: u64) -> Result<String, AllocError> {
    let word = match phase {
        Phase::Mapping => "mapping",
        Phase::Reducing => "reducing",
        Phase::Judging => "judging",
    };
    match lost {
        0 => format!(in alloc; "{WIPE}mapred: {word} {share} %"),
        1 => format!(in alloc; "{WIPE}mapred: {word} {share} %, 1 worker lost"),
        _ => format!(in alloc; "{WIPE}mapred: {word} {share} %, {lost} workers lost"),
    }
}

impl<C: Clock> ProgressLine<C> {
    /// Nothing is drawn yet.
    pub fn new(clock: C, alloc: Global, err: Stderr) -> ProgressLine<C> {
        let next = now(&clock).saturating_add(PAUSE);
        ProgressLine {
            clock,
            alloc,
            err,
            next: AtomicU64::new(next),
            lost: AtomicU64::new(0),
            judging: AtomicBool::new(false),
            stands: AtomicBool::new(false),
        }
    }

    /// Whether this call may draw; no other may until the pause is over.
    fn is_due(&self) -> bool {
        let now = now(&self.clock);
        let next = self.next.load(Ordering::SeqCst);
        let after = now.saturating_add(PAUSE);
        next <= now
            && self
                .next
                .compare_exchange(next, after, Ordering::SeqCst, Ordering::SeqCst)
                .is_ok()
    }

    /// Wipes the line, if the terminal shows it.
    pub fn wipe(&self) {
        if self.stands.swap(false, Ordering::SeqCst) {
            let mut err = self.err;
            let _ = err.write_all(WIPE.as_bytes());
        }
    }
}

impl<C: Clock + Sync> Progress for ProgressLine<C> {
    fn report(&self, phase: Phase, done: u64, all: u64) {
        // The judge begins while the line shows another phase: it will work for long.
        let begins = phase == Phase::Judging
            && !self.judging.swap(true, Ordering::SeqCst)
            && self.stands.load(Ordering::SeqCst);
        if !begins && !self.is_due() {
            return;
        }
        let lost = self.lost.load(Ordering::SeqCst);
        let share = done.min(all).saturating_mul(100) / all.max(1);
        if let Ok(text) = line(self.alloc, phase, share, lost) {
            self.stands.store(true, Ordering::SeqCst);
            let mut err = self.err;
            let _ = err.write_all(text.as_bytes());
        }
    }

    fn worker_lost(&self) {
        let _ = self.lost.fetch_add(1, Ordering::SeqCst);
    }
}

const MOST_PARTS: usize = 1024;

/// Notes before the work, and where they come from.
#[derive(Drop)]
struct NoteList<'a, L: Inspect> {
    look: &'a L,
    alloc: Global,
    lines: Vec<String>,
}

impl<'a, L: Inspect> NoteList<'a, L> {
    fn is_there(&self, name: &str) -> bool {
        !matches!(self.look.path_kind(name), PathKind::Nothing)
    }

    fn note_directory(&mut self, dir: &str) -> Result<(), AllocError> {
        let alloc = self.alloc;
        let line = match self.look.path_kind(dir) {
            PathKind::Directory => return Ok(()),
            PathKind::Nothing => format!(in alloc;
                "note: there is no directory {dir}: make it first"
            )?,
            _ => format!(in alloc; "note: {dir} is no directory")?,
        };
        Ok(self.lines.push(line)?)
    }

    /// The directory of a result, and whether it has one, by its first part or by the file that is
    /// written last.
    fn note_made(&mut self, dir: &str, last: String) -> Result<(), AllocError> {
        let alloc = self.alloc;
        self.note_directory(dir)?;
        let part = part_name(alloc, dir, 0)?;
        if self.is_there(last.as_str()) || self.is_there(part.as_str()) {
            self.lines.push(format!(in alloc;
                "note: {dir} has a result already, which will be written over"
            )?)?;
        }
        Ok(())
    }

    /// The first part in the result's directory that is none of the result's.
    fn note_others(&mut self, options: &Options<'_>) -> Result<(), AllocError> {
        let alloc = self.alloc;
        let Options { out, parts, .. } = options;
        for part in *parts as usize..MOST_PARTS {
            let name = part_name(alloc, out, part)?;
            if self.is_there(name.as_str()) {
                let line = format!(in alloc;
                    "note: {out} has part-{part:05} too, which is none of this result (--parts {parts}) and stays"
                )?;
                return Ok(self.lines.push(line)?);
            }
        }
        Ok(())
    }
}

/// Lines on the directories of the result, unless it must be fresh, and of regions, without line
/// ends; none if there can't be so many parts, since then the command will fail.
pub fn notes<L: Inspect>(
    look: &L,
    alloc: Global,
    asked: &Subcommand<'_>,
    is_fresh: bool,
) -> Result<Vec<String>, AllocError> {
    let lines = Vec::new(alloc);
    let mut notes = NoteList { look, alloc, lines };
    let (_, options) = letter_and_options(asked);
    if !(1..=MOST_PARTS).contains(&options.map_or(1, |options| options.parts as usize)) {
        return Ok(notes.lines);
    }
    match asked {
        Subcommand::Check(asked) => notes.note_others(&asked.options)?,
        // Only the verdicts say how many parts a merge writes, so others can't be noted.
        Subcommand::Merge(asked) if !is_fresh => {
            notes.note_made(asked.out, verdict_name(alloc, asked.out)?)?;
        }
        Subcommand::Seq(SeqOptions { options, .. }) | Subcommand::Run(RunOptions { options, .. })
            if !is_fresh => {
            notes.note_made(options.out, certificate_name(alloc, options.out)?)?;
            notes.note_others(options)?;
        }
        _ => {}
    }
    if let Subcommand::Run(asked) = asked
        && let Some(dir) = asked.scratch
    {
        notes.note_directory(dir)?;
    }
    Ok(notes.lines)
}
