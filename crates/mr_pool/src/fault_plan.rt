//! What a script orders: lost workers, failing records, spoiled outputs, and when.
//!
//!     lines      sorted once: by trigger; worker, split or partition; report, record or place
//!     reached    by line: attempts that reached a flaky record, regions put of a damaged partition
//!
//! An attempt looks at the lines of its own split or partition alone, each once. `accounts_for`
//! decides which failure of a job is expected: `NoWorkers` if the script loses all workers or the
//! store is unsteady; `TooManySkips` if it has failing records; `TooManyAttempts` if it has these
//! or loses a worker, if a region was damaged, or if the store is unsteady.
//! Cost: a sort of the lines, then a binary search a look-up.
//! Source: docs/FORMATS.md, "Scripts".
ghost use Rattle.std.specs.Prelude.{◌≡◌};
ghost use Rattle.std.specs.List.{list_all, list_any, range_with_len};
ghost use Rattle.mr_pool.specs.Accounts.{accounts, fails_record, is_worker_lost, loses_some};
ghost use Rattle.mr_pool.specs.Accounts.{loses_worker};

use mr_core::JobFault;
use mr_script::{Directive, Script};
use mr_splits::Plan;
use mr_task::ReduceOutput;
use std::alloc::{AllocError, Global};
use std::sync::atomic::{AtomicU64, Ordering};

/// What a line acts on: the loss of a worker after so many reports, its next report, a record of a
/// split, a byte of a partition's output, or a byte of its first region put for a split.
#[derive(Clone, Copy, PartialEq, Eq, PartialOrd, Ord)]
pub(crate) enum Trigger {
    Loss,
    Report,
    Record,
    Output,
    Region,
}

/// A line, in look-up order: by trigger; by worker, split or partition; by number of reports,
/// record, byte or partition; by line number.
#[derive(Clone, Copy, PartialEq, Eq, PartialOrd, Ord)]
pub(crate) struct Line {
    about: Trigger,
    of: u32,
    at: u32,
    number: usize,
}

/// A script's directives with its lines, sorted once: a look-up in a long script is a binary
/// search. `reached` counts how often any worker came to a line's flaky record or region.
#[derive(Drop)]
pub(crate) struct FaultPlan<'a> {
    directives: &'a [Directive],
    lines: Vec<Line>,
    reached: Vec<AtomicU64>,
}

/// A worker holds back its first report, the one after none.
fn line_of(directive: &Directive, number: usize) -> Line {
    let (about, of, at) = match *directive {
        Directive::Lose { worker, after } => (Trigger::Loss, worker, after),
        Directive::Zombie { worker, after } => (Trigger::Report, worker, after),
        Directive::Hold { worker } => (Trigger::Report, worker, 0),
        Directive::Bad { split, rec } => (Trigger::Record, split, rec),
        Directive::Flaky { split, rec, .. } => (Trigger::Record, split, rec),
        Directive::Spoil { partition, place } => (Trigger::Output, partition, place),
        Directive::Damage {
            split,
            partition,
            ..
        } => (Trigger::Region, split, partition),
    };
    Line {
        about,
        of,
        at,
        number,
    }
}

impl<'a> FaultPlan<'a> {
    pub(crate) fn of(alloc: Global, script: &'a Script) -> Result<FaultPlan<'a>, AllocError> {
        let directives = script.directives();
        let mut lines = Vec::with_capacity(alloc, directives.len())?;
        let mut reached = Vec::with_capacity(alloc, directives.len())?;
        for (number, directive) in directives.iter().enumerate() {
            lines.push(line_of(directive, number))?;
            reached.push(AtomicU64::new(0))?;
        }
        lines.sort_unstable();
        Ok(FaultPlan {
            directives,
            lines,
            reached,
        })
    }

    /// The lines about this, with `at` from `first` to `last`.
    fn lines_between(&self, about: Trigger, of: u32, first: u32, last: u32) -> &[Line] {
        let least = Line {
            about,
            of,
            at: first,
            number: 0,
        };
        let most = Line {
            about,
            of,
            at: last,
            number: usize::MAX,
        };
        let (Ok(from) | Err(from)) = self.lines.binary_search(&least);
        let (Ok(to) | Err(to)) = self.lines.binary_search(&most);
        self.lines.get(from..to).unwrap_or(&[])
    }

    /// Whether the worker is lost once it has made so many reports.
    pub(crate) fn loses(&self, worker: u32, reports: u32) -> bool {
        !self
            .lines_between(Trigger::Loss, worker, reports, reports)
            .is_empty()
    }

    /// What happens just before the worker's report after so many, in the order of the lines.
    pub(crate) fn before_report(&self, worker: u32, reports: u32) -> &[Line] {
        self.lines_between(Trigger::Report, worker, reports, reports)
    }

    pub(crate) fn directive(&self, line: &Line) -> Option<&Directive> {
        self.directives.get(line.number)
    }

    /// Whether this line fails its record in an attempt that reaches it now.
    fn fails_by(&self, line: &Line) -> bool {
        match self.directive(line) {
            Some(Directive::Bad { .. }) => true,
            Some(Directive::Flaky { attempts, .. }) => self.reached.get(line.number).is_some_and(
                |n| n.fetch_add(1, Ordering::SeqCst) < u64::from(*attempts),
            ),
            _ => false,
        }
    }

    /// The record at which a map attempt fails. The attempt reaches the named records in order, up
    /// to the first that fails. Of several lines on a flaky record the greatest count of attempts
    /// holds. Missing records have no effect.
    pub(crate) fn failing(&self, plan: &Plan<'_>, split: u32, skips: &[u32]) -> Option<u32> {
        let mut failing = None;
        for line in self.lines_between(Trigger::Record, split, 0, u32::MAX) {
            if let Some(rec) = failing
                && rec != line.at
            {
                return failing;
            }
            let is_reached = plan.record_of(split, line.at).is_some() && !skips.contains(&line.at);
            if is_reached && self.fails_by(line) {
                failing = Some(line.at);
            }
        }
        failing
    }

    /// Flips a region's named bytes, if it is the partition's first for the split. A byte's lowest
    /// bit flips once for each line that names it.
    pub(crate) fn damage(&self, split: u32, partition: u32, region: &mut [u8]) {
        let lines = self.lines_between(Trigger::Region, split, partition, partition);
        let first = lines.first().and_then(|line| self.reached.get(line.number));
        if first.is_none_or(|reached| reached.fetch_add(1, Ordering::SeqCst) != 0) {
            return;
        }
        for line in lines {
            if let Some(Directive::Damage { place, .. }) = self.directive(line)
                && let Some(byte) = region.get_mut(*place as usize)
            {
                *byte ^= 1;
            }
        }
    }

    /// Flips the lowest bit of a named byte of a reduce output, once for each line that names it.
    pub(crate) fn spoil(&self, partition: u32, output: &mut ReduceOutput) {
        for line in self.lines_between(Trigger::Output, partition, 0, u32::MAX) {
            output.flip(line.at);
        }
    }
}

fn loses(directive: &Directive, worker: u32) -> bool
    ensures { result ≡ loses_worker worker directive.now }
{
    match *directive {
        Directive::Lose { worker: w, .. } => w == worker,
        Directive::Zombie { worker: w, .. } => w == worker,
        _ => false,
    }
}

fn is_lost(directives: &[Directive], worker: u32) -> bool
    ensures { result ≡ list_any (loses_worker worker) directives.now }
{
    directives.iter().any(|directive| loses(directive, worker))
}

fn all_are_lost(directives: &[Directive], workers: u32) -> bool
    ensures { result ≡ list_all (is_worker_lost directives.now) (range_with_len 0 workers) }
{
    for worker in 0..workers {
        if !is_lost(directives, worker) {
            return false;
        }
    }
    true
}

fn records_fail(directives: &[Directive]) -> bool
    ensures { result ≡ list_any fails_record directives.now }
{
    directives.iter().any(|directive| matches!(
        directive,
        Directive::Bad { .. } | Directive::Flaky { .. }
    ))
}

fn workers_are_lost(directives: &[Directive]) -> bool
    ensures { result ≡ list_any loses_some directives.now }
{
    directives.iter().any(|directive| matches!(
        directive,
        Directive::Lose { .. } | Directive::Zombie { .. }
    ))
}

/// Whether the script, an unreadable region or an unsteady store accounts for the job's fault.
pub fn accounts_for(
    script: &Script,
    damage: bool,
    steady: bool,
    workers: u32,
    fault: JobFault,
) -> bool
    ensures { result ≡ accounts script.now damage steady workers fault }
{
    let directives = script.directives();
    match fault {
        JobFault::NoWorkers => all_are_lost(directives, workers) || !steady,
        JobFault::TooManySkips => records_fail(directives),
        JobFault::TooManyAttempts => {
            records_fail(directives) || workers_are_lost(directives) || damage || !steady
        }
    }
}
