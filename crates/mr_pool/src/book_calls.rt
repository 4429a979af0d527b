//! A worker's calls of the book, each under one hold of the lock. It wakes the waiting workers
//! where a call may have made a task.
use crate::worker::Worker;
use mr_bytes::{Gate, Progress};
use mr_core::{Reply, Task};
use mr_spill::RegionStore;
use mr_task::{ReduceOutput, Stored};
use std::alloc::AllocError;
use std::sync::atomic::Ordering;
use std::sync::ledger::Ledger;
use std::sync::{Arc, Wait};
use std::thread;

/// How often a worker that holds its first report back looks at the book.
const LOOKS: u32 = 1_000;

impl<'s, L: Ledger, G: Gate, W: Progress, S: RegionStore, R: Wait> Worker<'s, L, G, W, S, R> {
    /// Ends all workers after their present turn, waiting ones too. It sets the flag under the
    /// lock, so that no worker which is about to wait misses it.
    pub(crate) fn stop(&self) {
        let shared = self.shared;
        let book = shared.book.lock(self.rt);
        shared.stopped.store(true, Ordering::SeqCst);
        drop(book);
        shared.news.notify_all();
    }

    /// Asks for a task. If there is none, waits until an event may have made one or the workers
    /// stop. It holds the lock until it waits, so it misses no event.
    pub(crate) fn ask(&mut self) -> Result<Reply, AllocError> {
        let shared = self.shared;
        let mut book = shared.book.lock(self.rt);
        let reply = book.ask(&mut self.seat, self.number)?;
        if matches!(reply, Reply::Wait) {
            let seen = book.grown();
            let stopped = &shared.stopped;
            let _book = shared.news.wait_while(self.rt, book, |b| {
                b.grown() == seen && !stopped.load(Ordering::SeqCst)
            });
        }
        Ok(reply)
    }

    /// Fetches the output of a split for a reduce attempt.
    pub(crate) fn fetch(
        &mut self,
        attempt: u32,
        split: u32,
    ) -> Result<Option<Arc<Stored>>, AllocError> {
        let shared = self.shared;
        let (_reply, output) = shared
            .book
            .lock(self.rt)
            .fetch(&mut self.seat, attempt, split)?;
        if output.is_none() {
            shared.news.notify_all();
        }
        Ok(output)
    }

    pub(crate) fn report_map(
        &mut self,
        attempt: u32,
        split: u32,
        output: Stored,
    ) -> Result<(), AllocError> {
        let shared = self.shared;
        let told = shared
            .book
            .lock(self.rt)
            .map_done(&mut self.seat, attempt, output);
        shared.news.notify_all();
        if matches!(told?, Reply::Accepted) {
            shared.completed.mark(Task::Map(split), true);
            shared.progress.mapped();
        }
        Ok(())
    }

    /// Ends a map attempt whose task another worker has completed: reports an empty output, which
    /// the book ignores. It checks under the same lock that the task is complete, so the book
    /// accepts no empty output. If it isn't, it reports nothing and returns false.
    pub(crate) fn leave_map(&mut self, attempt: u32, split: u32) -> Result<bool, AllocError> {
        let shared = self.shared;
        let nothing = Stored::new(shared.alloc, shared.request.parts(), self.number);
        let mut book = shared.book.lock(self.rt);
        if !book.complete(Task::Map(split)) {
            return Ok(false);
        }
        let told = book.map_done(&mut self.seat, attempt, nothing);
        drop(book);
        shared.news.notify_all();
        told?;
        Ok(true)
    }

    pub(crate) fn report_failure(&mut self, attempt: u32, rec: u32) -> Result<(), AllocError> {
        let shared = self.shared;
        let told = shared
            .book
            .lock(self.rt)
            .map_failed(&mut self.seat, attempt, rec);
        shared.news.notify_all();
        told?;
        Ok(())
    }

    /// A reduce attempt can't read what it fetched of a split.
    pub(crate) fn report_damage(&mut self, attempt: u32, split: u32) -> Result<(), AllocError> {
        let shared = self.shared;
        let told = shared
            .book
            .lock(self.rt)
            .damaged(&mut self.seat, attempt, split);
        shared.news.notify_all();
        told?;
        Ok(())
    }

    pub(crate) fn report_reduce(
        &mut self,
        attempt: u32,
        partition: u32,
        output: ReduceOutput,
    ) -> Result<(), AllocError> {
        let shared = self.shared;
        let told = shared
            .book
            .lock(self.rt)
            .reduce_done(&mut self.seat, attempt, output);
        shared.news.notify_all();
        if matches!(told?, Reply::Accepted) {
            shared.completed.mark(Task::Reduce(partition), true);
            shared.progress.reduced();
        }
        Ok(())
    }

    pub(crate) fn lose(&mut self) -> Result<(), AllocError> {
        let shared = self.shared;
        let told = shared.book.lock(self.rt).lose(&mut self.seat, self.number);
        shared.news.notify_all();
        if matches!(told?, Reply::Accepted) {
            shared.progress.worker_lost();
        }
        Ok(())
    }

    /// Holds a report back until the task is complete or the job has ended, for at most `LOOKS`
    /// looks, and releases the lock between them.
    pub(crate) fn hold(&self, task: Task) {
        for _ in 0..LOOKS {
            let book = self.shared.book.lock(self.rt);
            if book.complete(task) || book.end().is_some() {
                return;
            }
            drop(book);
            thread::yield_now();
        }
    }
}
