//! A run: workers do the job, then its result is assembled and judged.
//!
//!     run_workers  ->  done      ->  one thread assembles files and certificate  ->  judge
//!                  ->  failed    ->  Failed, where script, damage or store accounts for the fault
//!                  ->  neither   ->  Uncertified
//!
//! The judge has as many threads as there are workers, and takes nothing from the run but the
//! result. The region store and the plan go with the workers, so they and what the judge holds are
//! never there together. After the threads the book's shape and end are compared: a lock's type does
//! not say what it holds.
ghost use Rattle.std.specs.Prelude.{◌≡◌, ◌↔◌, ◌⊎◌, Err, ◌≤◌, ◌<◌, ◌^◌, Some, Ok, IfOk, OnOk, IfErr};
ghost use Rattle.std.specs.Prelude.{Bool, IsTrue, vec_len};
ghost use Rattle.mr_pool.specs.Endings.{ending_of};
ghost use Rattle.mr_input.specs.Files.{contents, split_total};
ghost use Rattle.mr_core.specs.declared.event.End.{End as Ended};
ghost use Rattle.mr_book.specs.Faithful.{IsOpenedFor};
ghost use Rattle.mr_verdict.specs.declared.answers.No.{No};
ghost use Rattle.mr_sequential.specs.Good.{IsGoodResult};
ghost use Rattle.mr_verdict.specs.Headline.{IsCertified, accepted_of};
ghost use Rattle.mr_verdict.specs.Verdict.{verdict_of};
ghost use Rattle.mr_pool.specs.Outcomes.{IsCertifiedRun, IsDoneRun, IsInVersion, IsRunFault};
ghost use Rattle.mr_pool.specs.Outcomes.{IsRunnable, run_shape};

use crate::fault_plan::{FaultPlan, accounts_for};
use crate::run_spec::{RunSpec, shape_of};
use crate::workers::{JudgesProgress, RunProgress, Shared, TaskFlags, run_workers};
use mr_book::{Book, History, Seat};
use mr_bytes::{Gate, OpenGate, Phase, Progress, RecordName, Unwatched};
use mr_certform::Version;
use mr_check::{Case, JudgeOptions, No, Yes, is_same_fault, judge};
use mr_core::{End, JobFault, Shape};
use mr_input::Input;
use mr_jobs::Request;
use mr_script::Script;
use mr_spill::RegionStore;
use mr_splits::Plan;
use std::alloc::{AllocError, Global};
use std::fmt::{self, Debug, Formatter};
use std::marker::Brand;
use std::sync::atomic::AtomicBool;
use std::sync::ledger::{Blank, Ledger};
use std::sync::{Condvar, Mutex, Wait};
use std::thread::Threads;
use thiserror::Error;

/// A result that the judge accepted, with the history of its run.
#[derive(Drop)]
pub struct Certified {
    /// Each partition's file.
    pub outputs: Vec<Vec<u8>>,
    pub certificate: Vec<u8>,
    /// The records that the result leaves out, rising.
    pub skips: Vec<RecordName>,
    /// How many pairs the other records emit.
    pub pairs: u64,
    pub history: History,
}

/// Why a run gives no certified result.
#[derive(Drop, Error)]
pub enum RunFault {
    /// The job failed, and the script accounts for that.
    #[error("failed: {0}")]
    Failed(JobFault, History),
    /// The judge said no; `OtherJob` also if the book has not ended, or ended as it may not.
    #[error("uncertified: {0}")]
    Uncertified(No, History),
    #[error("OutOfMemory")]
    OutOfMemory,
}

// Prints the fault alone: a history may have a million events.
impl Debug for RunFault {
    fn fmt<W: fmt::Write>(&self, f: &mut Formatter<W>) -> fmt::Result {
        write!(f, "{self}")
    }
}

impl From<AllocError> for RunFault {
    ghost use Rattle.mr_pool.specs.declared.running.RunFault.TheVariants.{OutOfMemory};

    ghost from_gives = { λ e r. r ≡ OutOfMemory };

    fn from(_: AllocError) -> RunFault {
        RunFault::OutOfMemory
    }
}

/// How a job ended, according to its script.
#[derive(Clone, Copy, PartialEq, Eq)]
enum Ending {
    Done,
    /// By a fault that the script accounts for.
    Failed(JobFault),
    /// Not at all, or by another fault.
    Astray,
}

fn ending_by(end: Option<End>, script: &Script, damage: bool, steady: bool, workers: u32) -> Ending
    ensures { result ≡ ending_of end script.now damage steady workers }
{
    match end {
        Some(End::Done) => Ending::Done,
        Some(End::Failed(fault)) => {
            if accounts_for(script, damage, steady, workers, fault) {
                Ending::Failed(fault)
            } else {
                Ending::Astray
            }
        }
        Some(End::Dismissed) | None => Ending::Astray,
    }
}

/// A lock's type doesn't say that it holds the same book, so compare the shapes.
fn is_opened(shape: Shape, opened: Shape) -> bool
    ensures { IsTrue result ↔ (shape ≡ opened) }
{
    shape == opened
}

/// What the workers of a run meet: a gate around each attempt, the store of regions, an observer.
#[derive(Drop)]
pub struct Environment<'a, G: Gate, S: RegionStore + Drop, W: Progress> {
    pub gate: &'a G,
    pub store: S,
    pub watch: &'a W,
}

/// Assembles and judges the result of a run, with as many threads as workers.
#[derive(Drop)]
struct RunJudge<'a, W: Progress, R: Threads + Sync> {
    rt: &'a R,
    alloc: Global,
    spec: RunSpec<'a>,
    /// Whether the store of regions is steady.
    steady: bool,
    watch: &'a W,
}

impl<'a, W: Progress, R: Threads + Sync> RunJudge<'a, W, R> {
    fn judge(&self, outputs: &[Vec<u8>], certificate: &[u8]) -> Result<Yes, No>
        requires runnable { IsRunnable self.now.spec.request.now self.now.spec.input.now self.now.spec.shape }
        ensures headline { IfOk result
            (λ y. IsCertified self.now.spec.request.now self.now.spec.input.now
            (contents outputs.now) certificate.now
            y.skips.items y.pairs) }
        ensures yes { IfOk result (λ y. verdict_of self.now.spec.request.now self.now.spec.input.now
            (contents outputs.now) certificate.now
            ≡ Ok (accepted_of y)) }
        ensures good { OnOk result (IsGoodResult self.now.spec.request.now self.now.spec.input.now
            (contents outputs.now) certificate.now) }
        ensures no { IfErr result (λ e. (e ≡ No.OutOfMemory)
            ⊎ (verdict_of self.now.spec.request.now self.now.spec.input.now
            (contents outputs.now) certificate.now ≡ Err e)) }
    {
        let RunSpec { request, input, .. } = self.spec;
        let case = Case {
            request,
            input,
            outputs,
            certificate,
        };
        let workers = self.spec.shape.workers;
        let progress = JudgesProgress { watch: self.watch };
        let options = JudgeOptions::of(workers, &OpenGate, &progress);
        judge(self.rt, self.alloc, &case, &options)
    }

    fn assemble_and_judge<L: Ledger>(
        &self,
        book: Book<L>,
        seats: Vec<Seat<L>>,
    ) -> Result<Certified, RunFault>
        requires runnable { IsRunnable self.now.spec.request.now self.now.spec.input.now self.now.spec.shape }
        requires ends { book.state.end ≡ Some Ended.Done }
        requires opened { IsOpenedFor self.now.spec.request.now self.now.spec.input.now book.shape }
        requires seats { vec_len seats ≡ L.parts }
        ensures certified { IfOk result
            (IsCertifiedRun self.now.spec.request.now self.now.spec.input.now book.shape
            self.now.spec.version) }
        ensures fault { IfErr result
            (IsRunFault self.now.spec.request.now self.now.spec.input.now self.now.spec.script.now
            self.now.steady book.shape) }
    {
        self.watch.report(Phase::Judging, 0, 1);
        let spec = self.spec;
        let (outputs, certificate) = book.assemble_bytes(
            self.alloc,
            spec.request,
            spec.input,
            spec.version,
        )?;
        let judged = self.judge(outputs.as_slice(), certificate.as_slice());
        let history = book.close(seats);
        match judged {
            Ok(yes) => Ok(Certified {
                outputs,
                certificate,
                skips: yes.skips,
                pairs: yes.pairs,
                history,
            }),
            Err(no) => {
                if is_same_fault(no, No::OutOfMemory) {
                    return Err(RunFault::OutOfMemory);
                }
                Err(RunFault::Uncertified(no, history))
            }
        }
    }

    /// The result of a run whose book has closed.
    fn conclude<L: Ledger>(&self, book: Book<L>, seats: Vec<Seat<L>>) -> Result<Certified, RunFault>
        requires runnable { IsRunnable self.now.spec.request.now self.now.spec.input.now self.now.spec.shape }
        requires seats { vec_len seats ≡ L.parts }
        ensures certified { IfOk result
            (IsCertifiedRun self.now.spec.request.now self.now.spec.input.now self.now.spec.shape
            self.now.spec.version) }
        ensures fault { IfErr result
            (IsRunFault self.now.spec.request.now self.now.spec.input.now self.now.spec.script.now
            self.now.steady self.now.spec.shape) }
    {
        let RunSpec { script, shape, .. } = self.spec;
        if !is_opened(book.shape(), shape) {
            return Err(RunFault::Uncertified(No::OtherJob, book.close(seats)));
        }
        match ending_by(
            book.end(),
            script,
            book.has_damage(),
            self.steady,
            shape.workers,
        ) {
            Ending::Done => self.assemble_and_judge(book, seats),
            Ending::Failed(fault) => Err(RunFault::Failed(fault, book.close(seats))),
            Ending::Astray => Err(RunFault::Uncertified(No::OtherJob, book.close(seats))),
        }
    }
}

fn run_in<
    L: Ledger + Send + Sync,
    G: Gate,
    S: RegionStore + Drop,
    W: Progress,
    R: Threads + Wait + Sync,
>(
    rt: &R,
    alloc: Global,
    blank: Blank,
    spec: RunSpec<'_>,
    around: Environment<'_, G, S, W>,
) -> Result<Certified, RunFault>
    requires ledger { (blank.name ≡ L.name) × (blank.parts ≡ L.parts) }
    requires parts { blank.parts ≡ spec.shape.workers }
    requires runnable { IsRunnable spec.request.now spec.input.now spec.shape }
    ensures certified { IfOk result
        (IsCertifiedRun spec.entry.request.now spec.entry.input.now spec.entry.shape spec.entry.version) }
    ensures fault { IfErr result
        (IsRunFault spec.entry.request.now spec.entry.input.now spec.entry.script.now S.steady
        spec.entry.shape) }
{
    let Shape {
        maps,
        parts,
        workers,
        limits,
    } = spec.shape;
    let Environment { gate, store, watch } = around;
    let plan = Plan::new_fitting(alloc, spec.input, spec.request.split_size())?;
    let (book, seats) = Book::<L>::open(
        alloc,
        blank,
        maps,
        parts,
        workers,
        limits,
        workers as usize,
    )?;
    let shared = Shared {
        alloc,
        book: Mutex::new(book),
        news: Condvar::new(),
        stopped: AtomicBool::new(false),
        plan,
        request: spec.request,
        orders: FaultPlan::of(alloc, spec.script)?,
        completed: TaskFlags::new(alloc, maps, parts)?,
        gate,
        store,
        progress: RunProgress::new(watch, maps, parts),
    };
    let (book, seats) = run_workers(rt, shared, seats)?;
    let judge = RunJudge {
        rt,
        alloc,
        spec,
        steady: S::is_steady(),
        watch,
    };
    judge.conclude(book, seats)
}

/// Runs the request's job over the input with 1 to 64 workers, each in a thread of its own if one
/// can be made. A task may have 1 to 16 attempts. What the script orders goes wrong. The judge
/// checks the result of a finished job, and only a yes is `Certified`. The certificate has this
/// version, which can encode whatever the judge accepts. The input's splits must fit
/// (`Request::fits`). It may wait for threads.
pub fn run<G: Gate, S: RegionStore + Drop, R: Threads + Wait + Sync>(
    rt: &R,
    alloc: Global,
    request: &Request,
    input: &Input,
    script: &Script,
    workers: u32,
    attempts: u32,
    gate: &G,
    store: S,
    version: Version,
) -> Result<Certified, RunFault>
    requires fits { split_total request.now.split input.now ≤ 2 ^ 20 }
    requires workers { (1 ≤ workers) × (workers ≤ 64) }
    requires attempts { (1 ≤ attempts) × (attempts ≤ 16) }
    ensures certified { IfOk result (IsCertifiedRun request.now input.now
        (run_shape request.now input.now workers attempts) version) }
    ensures fault { IfErr result (IsRunFault request.now input.now script.now S.steady
        (run_shape request.now input.now workers attempts)) }
{
    let spec = RunSpec {
        request,
        input,
        script,
        shape: shape_of(request, input, workers, attempts),
        version,
    };
    let watch = &Unwatched;
    run_watched(rt, alloc, spec, Environment { gate, store, watch })
}

/// Runs a job like `run` and reports to `watch`: the accepted outputs of map and of reduce tasks,
/// each lost worker, and the judge's work. Several threads report at once, and wait for each call.
pub fn run_watched<G: Gate, S: RegionStore + Drop, W: Progress, R: Threads + Wait + Sync>(
    rt: &R,
    alloc: Global,
    spec: RunSpec<'_>,
    around: Environment<'_, G, S, W>,
) -> Result<Certified, RunFault>
    requires runnable { IsRunnable spec.request.now spec.input.now spec.shape }
    ensures certified { IfOk result
        (IsCertifiedRun spec.entry.request.now spec.entry.input.now spec.entry.shape spec.entry.version) }
    ensures fault { IfErr result
        (IsRunFault spec.entry.request.now spec.entry.input.now spec.entry.script.now S.steady
        spec.entry.shape) }
{
    let blank = Blank::new(spec.shape.workers as u64);
    run_in::<Brand, G, S, W, R>(rt, alloc, blank, spec, around)
}
