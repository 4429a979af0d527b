//! Follows a run from entry to entry: who works at an attempt, and which outputs each worker has.
//!
//!     ask       an attempt begins; it is a backup if another worker's live attempt has its task
//!     report    its attempt ends; a map's output is its worker's from then on
//!     lose      the worker's attempt ends, and its outputs are gone
//!
//! A history says only that a report was ignored. The reason is found in the order of the master's
//! table: the job had ended, the attempt was no longer live, its task was complete, another
//! left-out set was fixed or not every output was fetched. A job has ended when each partition is
//! committed or each worker is lost, and behind the last entry that changed anything if an ask was
//! told of an end.
//! Cost: a few steps an entry, a look at each worker for an attempt, a scan of all splits for each
//! worker lost, and of the attempt's entries for each damaged region.
use crate::entries::{Answer, Entry};
use crate::reading::History;
use mr_core::{End, Event, JobFault, Shape, Task};
use std::alloc::{AllocError, Global};

/// An execution of a task, from the entry of its ask to the entry that ended it.
#[derive(Clone, Copy)]
pub(crate) struct Attempt {
    pub(crate) worker: u32,
    pub(crate) task: Task,
    pub(crate) left_out: usize,
    pub(crate) begin: usize,
    pub(crate) end: Option<usize>,
    pub(crate) backup: bool,
}

/// An entry's worker, and what its line leaves unsaid.
#[derive(Clone, Copy)]
pub(crate) struct Note {
    pub(crate) worker: u32,
    pub(crate) more: &'static str,
}

/// A run as far as it was followed.
#[derive(Drop)]
pub(crate) struct Track {
    pub(crate) attempts: Vec<Attempt>,
    pub(crate) notes: Vec<Note>,
    pub(crate) end: Option<End>,
    /// By worker: the entry that lost it, how many outputs went with it, its last attempt.
    pub(crate) lost: Vec<Option<usize>>,
    pub(crate) taken: Vec<usize>,
    last: Vec<Option<u32>>,
    /// The first of the splits whose outputs went with a worker.
    pub(crate) gone: Vec<(u32, u32)>,
    /// By split: the worker that has its output, the output, and the records left out of it.
    holders: Vec<Option<u32>>,
    outputs: Vec<u64>,
    pub(crate) left_out: Vec<usize>,
    /// By partition.
    committed: Vec<bool>,
}

/// How many splits are named of those whose outputs went with a worker.
pub(crate) const NAMED: usize = 20;

const ENDED: &str = ", since the job had ended";

pub(crate) fn item_at<T: Copy>(items: &Vec<T>, place: u32) -> Option<T> {
    items.get(place as usize).copied()
}

fn put<T: Copy>(items: &mut Vec<T>, place: u32, item: T) {
    if let Some(old) = items.get_mut(place as usize) {
        *old = item;
    }
}

fn attempt_of(event: Event) -> Option<u32> {
    match event {
        Event::Ask(_) | Event::Lose(_) => None,
        Event::Fetch(attempt, _) | Event::Damaged(attempt, _) => Some(attempt),
        Event::MapDone(attempt, _) | Event::ReduceDone(attempt, _) => Some(attempt),
        Event::MapFailed(attempt, _) => Some(attempt),
    }
}

impl Track {
    fn new(alloc: Global, shape: Shape) -> Result<Track, AllocError> {
        let (maps, workers) = (shape.maps as usize, shape.workers as usize);
        Ok(Track {
            attempts: Vec::new(alloc),
            notes: Vec::new(alloc),
            end: None,
            lost: vec![in alloc; None; workers]?,
            taken: vec![in alloc; 0usize; workers]?,
            last: vec![in alloc; None; workers]?,
            gone: Vec::new(alloc),
            holders: vec![in alloc; None; maps]?,
            outputs: vec![in alloc; 0u64; maps]?,
            left_out: vec![in alloc; 0usize; maps]?,
            committed: vec![in alloc; false; shape.parts as usize]?,
        })
    }

    fn live(&self, attempt: Option<u32>) -> Option<Attempt> {
        item_at(&self.attempts, attempt?).filter(|own| own.end.is_none())
    }

    fn worker_of(&self, event: Event) -> u32 {
        match event {
            Event::Ask(worker) | Event::Lose(worker) => worker,
            _ => item_at(&self.attempts, attempt_of(event).unwrap_or(0)).map_or(
                0,
                |own| own.worker,
            ),
        }
    }

    fn end_attempt(&mut self, attempt: Option<u32>, at: usize) {
        if let Some(mut own) = self.live(attempt) {
            own.end = Some(at);
            put(&mut self.attempts, attempt.unwrap_or(0), own);
        }
    }

    /// Ends the worker's live attempt, if it has one.
    fn end_work(&mut self, worker: u32, at: usize) {
        let last = item_at(&self.last, worker).unwrap_or(None);
        self.end_attempt(last, at);
    }

    /// Begins an attempt. Returns what its line leaves unsaid.
    fn begin(&mut self, at: usize, entry: &Entry, task: Task) -> Result<&'static str, AllocError> {
        let worker = self.worker_of(entry.event);
        self.end_work(worker, at);
        let backup = (self.last.iter()).any(|attempt| self
            .live(*attempt)
            .is_some_and(|own| own.task == task));
        let number = u32::try_from(self.attempts.len()).ok();
        put(&mut self.last, worker, number);
        let attempt = Attempt {
            worker,
            task,
            left_out: entry.skips.len(),
            begin: at,
            end: None,
            backup,
        };
        self.attempts.push(attempt)?;
        Ok(if backup { ", as a backup" } else { "" })
    }

    /// The worker is lost, and the outputs that it has go with it.
    fn lose(&mut self, worker: u32, at: usize) -> Result<(), AllocError> {
        self.end_work(worker, at);
        if item_at(&self.lost, worker) != Some(None) {
            return Ok(());
        }
        put(&mut self.lost, worker, Some(at));
        let mut taken = 0usize;
        for split in 0..u32::try_from(self.holders.len()).unwrap_or(u32::MAX) {
            if item_at(&self.holders, split) == Some(Some(worker)) {
                put(&mut self.holders, split, None);
                taken = taken.saturating_add(1);
                if taken <= NAMED {
                    self.gone.push((worker, split))?;
                }
            }
        }
        put(&mut self.taken, worker, taken);
        Ok(())
    }

    /// The attempt is done with its task, and its worker has a map's output.
    fn complete(&mut self, attempt: u32, output: u64) {
        let Some(own) = self.live(Some(attempt)) else {
            return;
        };
        match own.task {
            Task::Map(split) => {
                put(&mut self.holders, split, Some(own.worker));
                put(&mut self.outputs, split, output);
                put(&mut self.left_out, split, own.left_out);
            }
            Task::Reduce(partition) => put(&mut self.committed, partition, true),
        }
    }

    fn is_complete(&self, task: Task) -> bool {
        match task {
            Task::Map(split) => matches!(item_at(&self.holders, split), Some(Some(_))),
            Task::Reduce(part) => item_at(&self.committed, part).unwrap_or(false),
        }
    }

    /// A region is damaged: its split's output goes, if the attempt fetched that one.
    fn damage(&mut self, entries: &[Entry], attempt: u32, split: u32) {
        let begin = self
            .live(Some(attempt))
            .map_or(entries.len(), |own| own.begin);
        let fetch = Event::Fetch(attempt, split);
        let output = item_at(&self.outputs, split).unwrap_or(0);
        for entry in entries.get(begin..).unwrap_or(&[]) {
            if entry.event == fetch && entry.answer == (Answer::Region { output }) {
                put(&mut self.holders, split, None);
            }
        }
    }

    /// What an accepted report changes; the entries are those up to it.
    fn accept(&mut self, entries: &[Entry], event: Event) -> Result<(), AllocError> {
        match event {
            Event::MapDone(attempt, output) => self.complete(attempt, output),
            Event::ReduceDone(attempt, output) => self.complete(attempt, output),
            Event::Damaged(attempt, split) => self.damage(entries, attempt, split),
            Event::Lose(worker) => self.lose(worker, entries.len())?,
            _ => {}
        }
        if self.committed.iter().all(|is_committed| *is_committed) {
            self.end = Some(End::Done);
        } else if self.lost.iter().all(|at| at.is_some()) {
            self.end = Some(End::Failed(JobFault::NoWorkers));
        }
        Ok(())
    }

    fn why_ignored(&self, event: Event) -> &'static str {
        if attempt_of(event).is_none() {
            return ", since the worker was lost already";
        }
        match self.live(attempt_of(event)) {
            None => ", since the attempt was no longer live",
            Some(own) => match event {
                Event::Fetch(..) | Event::MapFailed(..) => ENDED,
                Event::Damaged(..) => ", since it had not fetched the region's output",
                _ if self.is_complete(own.task) => ", since its task was complete already",
                Event::ReduceDone(..) => ", since it had not fetched every output",
                _ => ", since another left-out set was fixed for the split",
            },
        }
    }

    /// Follows the run over an entry behind others. Returns what its line leaves unsaid.
    fn follow(
        &mut self,
        before: &[Entry],
        entry: &Entry,
        ended: bool,
    ) -> Result<&'static str, AllocError> {
        let mut more = "";
        match entry.answer {
            Answer::Map { split, .. } => more = self.begin(before.len(), entry, Task::Map(split))?,
            Answer::Reduce { partition, .. } => {
                more = self.begin(before.len(), entry, Task::Reduce(partition))?;
            }
            Answer::Wait | Answer::Stop(_) | Answer::Region { .. } => return Ok(""),
            Answer::Gone => {}
            Answer::Accepted => self.accept(before, entry.event)?,
            Answer::Ignored if ended => return Ok(ENDED),
            Answer::Ignored => more = self.why_ignored(entry.event),
        }
        self.end_attempt(attempt_of(entry.event), before.len());
        Ok(more)
    }
}

/// Follows a run to its end.
pub(crate) fn follow(alloc: Global, history: &History) -> Result<Track, AllocError> {
    let entries = history.entries.as_slice();
    // How the job ended, as the first ask behind its end was told.
    let told = entries.iter().find_map(|entry| match entry.answer {
        Answer::Stop(end) if end != End::Dismissed => Some(end),
        _ => None,
    });
    // The entries up to the last one that changed anything.
    let mut changed = 0;
    for (at, entry) in entries.iter().enumerate() {
        if !matches!(entry.answer, Answer::Ignored | Answer::Stop(_)) {
            changed = at.saturating_add(1);
        }
    }
    let mut track = Track::new(alloc, history.shape)?;
    for (at, entry) in entries.iter().enumerate() {
        let ended = track.end.is_some() || told.is_some() && at >= changed;
        let worker = track.worker_of(entry.event);
        let more = track.follow(entries.get(..at).unwrap_or(entries), entry, ended)?;
        track.notes.push(Note { worker, more })?;
    }
    track.end = told.or(track.end);
    Ok(track)
}
