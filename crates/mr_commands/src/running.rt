//! `run`: tests what is asked for, runs the job, and writes its history and its result.
ghost use Rattle.std.specs.Prelude.{◌≡◌, ℕ, ◌++◌, Some, List, IfOk, IfErr, IfSome, OnOk};
ghost use Rattle.std.specs.Prelude.{map, option_map, string_bytes};
ghost use Rattle.mr_files.specs.Holding.{Begins, ChangesAmong};
ghost use Rattle.mr_files.specs.Refusals.{IsOneUnwritten};
ghost use Rattle.mr_pool.specs.Outcomes.{IsRunnable};
ghost use Rattle.mr_commands.specs.Runs.{AnswersRun, AreGoodAttempts, AreGoodWorkers, EndsOver};
ghost use Rattle.mr_commands.specs.Runs.{IsCrewRefusal, IsEnding, IsHistoryKept};
ghost use Rattle.mr_commands.specs.Runs.{IsResultKept, IsResultRefused, IsScratchClash};
ghost use Rattle.mr_commands.specs.Runs.{IsScratchRefusal, scratch_name};
ghost use Rattle.mr_commands.specs.Runs.{IsStartRefusal, IsRunUnanswered, IsScript};
ghost use Rattle.mr_commands.specs.Runs.{IsScriptRefusal, Runs, ReportsRan, history_of as history_in};
ghost use Rattle.mr_commands.specs.Named.{named};
ghost use Rattle.mr_commands.specs.HistoryLines.{history_text};
ghost use Rattle.mr_commands.specs.Runs.{HasPairsMade, IsPairlessRun, names_left, read_by_run};
ghost use Rattle.mr_commands.specs.Runs.{written_by_run};
ghost use Rattle.mr_commands.specs.OldVerdicts.{ChangesOver};
ghost use Rattle.mr_files.specs.Names.{name_of_verdict};
ghost use Rattle.mr_commands.specs.Facts.{AreLengths, AreRanFacts, AreRunFacts, KnowsHistory};
ghost use Rattle.mr_commands.specs.Facts.{KnowsRan, sizes};

use crate::commands::expect_pairs;
use crate::counts::{Facts, JobFacts, sizes_of};
use crate::input::{FileNames, input_of, name_given};
use crate::old_verdicts::{old_verdict, write_over};
use crate::texts::{CommandOutput, counts_line, fault_text, history_text};
use mr_args::{Fault, RunOptions, request_of};
use mr_book::History;
use mr_bytes::{OpenGate, Progress};
use mr_check::No;
use mr_core::JobFault;
use mr_files::{FileFault, Store, add_names, folder_of, names_of_result, read_file, write_file};
use mr_picture::fault_name;
use mr_pool::{Certified, Environment, RunFault, RunSpec, run_watched, shape_of};
use mr_script::Script;
use mr_sequential::lengths_of;
use mr_spill::{MemoryStore, RegionStore, Scratch, ScratchFault};
use mr_store::Bytes;
use std::alloc::{AllocError, Global};
use std::sync::Wait;
use std::thread;
use std::thread::Threads;

const MAX_WORKERS: u32 = 64;

const MAX_ATTEMPTS: u32 = 16;

// The clauses have these numbers.
const _: () = prove!(MAX_WORKERS == 64 && MAX_ATTEMPTS == 16);

/// What commands run on: threads, directories for regions, memory.
#[derive(Drop)]
pub struct Machine<'a, C: Scratch, R: Threads + Wait + Sync> {
    pub rt: &'a R,
    pub scratch: &'a C,
    pub alloc: Global,
}

/// How a run ended.
#[derive(Drop)]
pub enum RunOutcome {
    Certified(Certified),
    /// The job failed, and the script accounts for that.
    Failed(JobFault, History),
    /// The judge refused the result.
    Uncertified(No, History),
}

fn expect_crew(asked: &RunOptions<'_>) -> Result<(), Fault>
    ensures workers { OnOk result (AreGoodWorkers asked.now.workers) }
    ensures attempts { OnOk result (AreGoodAttempts asked.now.attempts) }
    ensures refused { IfErr result (λ e. IsCrewRefusal asked.now e) }
{
    if asked.workers == 0 || asked.workers > MAX_WORKERS {
        return Err(Fault::BadWorkers);
    }
    if asked.attempts == 0 || asked.attempts > MAX_ATTEMPTS {
        return Err(Fault::BadAttempts);
    }
    Ok(())
}

/// The script of that name; without a name nothing goes wrong.
fn script_of<S: Store>(store: &S, alloc: Global, name: Option<&str>) -> Result<Script, Fault>
    ensures script { IfOk result (λ s. IsScript (S.holds store.now) (option_map (λ n. n.now) name.entry) s) }
    ensures refused { IfErr result (λ e. IsScriptRefusal (S.holds store.now)
        (S.unreadable store.now) (option_map (λ n. n.now) name.entry) e) }
{
    let bytes = match name {
        Some(name) => read_file(store, alloc, name)?,
        None => Vec::new(alloc),
    };
    Ok(Script::read(alloc, bytes.as_slice())?)
}

fn run_over<S: RegionStore + Drop, R: Threads + Wait + Sync>(
    rt: &R,
    alloc: Global,
    spec: RunSpec<'_>,
    store: S,
    watch: &dyn Progress,
) -> Result<RunOutcome, Fault>
    requires runnable { IsRunnable spec.request.now spec.input.now spec.shape }
    ensures ends { IfOk result
        (λ ran. IsEnding spec.entry.request.now spec.entry.input.now spec.entry.script.now S.steady
        spec.entry.shape spec.entry.version ran) }
    ensures memory { IfErr result (λ e. e ≡ Fault.OutOfMemory) }
{
    let (gate, watch) = (&OpenGate, &watch);
    match run_watched(rt, alloc, spec, Environment { gate, store, watch }) {
        Ok(certified) => Ok(RunOutcome::Certified(certified)),
        Err(RunFault::Failed(fault, history)) => Ok(RunOutcome::Failed(fault, history)),
        Err(RunFault::Uncertified(no, history)) => Ok(RunOutcome::Uncertified(no, history)),
        Err(RunFault::OutOfMemory) => Err(Fault::OutOfMemory),
    }
}

/// The names that a run writes: its history, if it has a name, then its result.
fn names_written(alloc: Global, asked: &RunOptions<'_>) -> Result<Vec<String>, AllocError>
    ensures { IfOk result (λ v. map string_bytes v.items ≡ written_by_run asked.now) }
{
    let mut names = name_given(alloc, asked.history)?;
    let options = &asked.options;
    let mut files = names_of_result(alloc, options.out, options.parts as usize)?;
    names.append(&mut files)?;
    Ok(names)
}

/// Whether the last part of a name may be one of a region or of their lock.
fn is_region_name(name: &str) -> bool {
    let last = name.rsplit_once('/').map_or(name, |(_, last)| last);
    last.starts_with("region-") || last == "regions.lock"
}

/// The names of all files that a run reads, then of those that it may write besides regions.
fn names_of_run(alloc: Global, asked: &RunOptions<'_>) -> Result<Vec<String>, AllocError>
    ensures { IfOk result (λ v. map string_bytes v.items ≡ read_by_run asked.now ++ written_by_run asked.now) }
{
    let mut names = name_given(alloc, asked.script)?;
    add_names(alloc, &mut names, asked.options.files.as_slice())?;
    let mut written = names_written(alloc, asked)?;
    names.append(&mut written)?;
    Ok(names)
}

/// No file that a run reads or writes may be a region in the directory, if there is one.
fn expect_scratch_apart<S: Store>(
    store: &S,
    alloc: Global,
    asked: &RunOptions<'_>,
) -> Result<(), Fault>
    ensures { IfErr result (λ e. IsScratchClash (S.alike store.now) (read_by_run asked.now
        ++ written_by_run asked.now) (scratch_name asked.now) e) }
{
    let Some(dir) = asked.scratch else {
        return Ok(());
    };
    let names = names_of_run(alloc, asked)?;
    for name in names.as_slice() {
        let name = name.as_str();
        if is_region_name(name) && store.is_same_folder(dir, folder_of(name)) {
            return Err(Fault::SameFile(String::from_str(alloc, name)?));
        }
    }
    Ok(())
}

/// Runs a job, with regions in the directory's files, or in memory without one.
fn run_job<C: Scratch, R: Threads + Wait + Sync>(
    machine: &Machine<'_, C, R>,
    dir: Option<&str>,
    spec: RunSpec<'_>,
    watch: &dyn Progress,
) -> Result<RunOutcome, Fault>
    requires runnable { IsRunnable spec.request.now spec.input.now spec.shape }
    ensures ends { IfOk result (λ ran. EndsOver
        (option_map (λ d. d.now) dir.entry) spec.entry.request.now spec.entry.input.now
        spec.entry.script.now spec.entry.shape spec.entry.version ran) }
    ensures refused { IfErr result (λ e. IsScratchRefusal (option_map (λ d. d.now) dir.entry) e) }
{
    let (rt, alloc, workers) = (machine.rt, machine.alloc, spec.shape.workers);
    match dir {
        None => run_over(
            rt,
            alloc,
            spec,
            MemoryStore::new(rt, alloc, workers)?,
            watch,
        ),
        Some(dir) => match machine.scratch.open(alloc, dir, workers) {
            Ok(store) => run_over(rt, alloc, spec, store, watch),
            Err(ScratchFault::InUse) => Err(Fault::ScratchInUse),
            Err(ScratchFault::OutOfMemory) => Err(Fault::OutOfMemory),
        },
    }
}

/// Tests, in this order: the request, the numbers, the script, the files, that none of these is
/// written, their fit, that none is a region's, that no other run uses the directory. Then runs;
/// writes nothing, and tells how many bytes are taken of each file too.
fn test_and_run<S: Store, C: Scratch, R: Threads + Wait + Sync>(
    machine: &Machine<'_, C, R>,
    store: &S,
    asked: &RunOptions<'_>,
    watch: &dyn Progress,
) -> Result<(RunOutcome, Vec<u64>), Fault>
    ensures runs { IfOk result (λ r. Runs (S.holds store.now) (S.known_as store.now) asked.now r.0) }
    ensures inputs { IfOk result (λ r. AreLengths (S.holds store.now) asked.now.options r.1.items) }
    ensures refused { IfErr result (λ e. IsStartRefusal (S.holds store.now)
        (S.unreadable store.now) (S.alike store.now) (S.known_as store.now) asked.now e) }
{
    let alloc = machine.alloc;
    let request = request_of(alloc, &asked.options)?;
    expect_crew(asked)?;
    let script = script_of(store, alloc, asked.script)?;
    let besides = name_given(alloc, asked.script)?;
    let written = names_written(alloc, asked)?;
    let files = FileNames { besides, written };
    let (input, _) = input_of(store, alloc, &request, &asked.options, files)?;
    expect_scratch_apart(store, alloc, asked)?;
    let inputs = lengths_of(alloc, &input)?;
    let spec = RunSpec {
        request: &request,
        input: &input,
        script: &script,
        shape: shape_of(&request, &input, asked.workers, asked.attempts),
        version: asked.version,
    };
    let ran = run_job(machine, asked.scratch, spec, watch)?;
    Ok((ran, inputs))
}

/// The line of a run, and the status.
fn line_of(alloc: Global, ran: &RunOutcome) -> Result<(String, u8), AllocError>
    ensures { IfOk result (λ r. ReportsRan ran.now (string_bytes r.0) r.1) }
{
    match ran {
        RunOutcome::Certified(done) => {
            let (files, left_out) = (done.outputs.len(), done.skips.len());
            Ok((
                counts_line(alloc, "certified: ", files, done.pairs, left_out)?,
                0,
            ))
        }
        RunOutcome::Failed(fault, _) => {
            let name = fault_name(*fault);
            Ok((format!(in alloc; "failed: {name}\n")?, 1))
        }
        RunOutcome::Uncertified(no, _) => {
            let fault = fault_text(alloc, no)?;
            Ok((format!(in alloc; "uncertified: {fault}\n")?, 1))
        }
    }
}

/// What is known of a run over files of which so many bytes are taken.
fn job_of(alloc: Global, inputs: Vec<u64>, ran: &RunOutcome) -> Result<JobFacts, AllocError>
    ensures { IfOk result (λ job. (files : List (List ℕ)) → inputs.items ≡ sizes files → KnowsRan files ran.now job) }
{
    match ran {
        RunOutcome::Certified(done) => Ok(JobFacts::uncounted(
            inputs,
            sizes_of(alloc, done.outputs.as_slice())?,
            Some(done.skips.len() as u64),
            Some(done.pairs),
        )),
        _ => Ok(JobFacts::uncounted(inputs, Vec::new(alloc), None, None)),
    }
}

fn output_of(
    alloc: Global,
    page: Option<&str>,
    inputs: Vec<u64>,
    ran: &RunOutcome,
) -> Result<CommandOutput, AllocError>
    ensures told { IfOk result (λ said. ReportsRan ran.now (string_bytes said.text) said.status) }
    ensures facts { IfOk result (λ said. (files : List (List ℕ)) → inputs.items ≡ sizes files
        → AreRanFacts files ran.now said.facts) }
    ensures history { IfOk result (λ said. KnowsHistory page.entry ran.now said.facts) }
{
    let (text, status) = line_of(alloc, ran)?;
    let history = match page {
        Some(_) => Some(history_text(alloc, history_of(ran))?),
        None => None,
    };
    let job = job_of(alloc, inputs, ran)?;
    let facts = Facts::Job(JobFacts { history, ..job });
    Ok(CommandOutput {
        text,
        status,
        facts,
    })
}

fn history_of(ran: &RunOutcome) -> &History
    ensures { result.now ≡ history_in ran.entry.now }
{
    match ran {
        RunOutcome::Certified(done) => &done.history,
        RunOutcome::Failed(_, history) => history,
        RunOutcome::Uncertified(_, history) => history,
    }
}

fn keep_history<S: Store>(
    store: &mut S,
    alloc: Global,
    name: Option<&str>,
    history: &History,
) -> Result<(), FileFault>
    ensures kept { OnOk result (IsHistoryKept (S.holds store.new) (option_map (λ n. n.now) name.entry) history.now) }
    ensures others { ChangesAmong (S.holds store.old) (S.holds store.new) (named (option_map (λ n. n.now) name.entry)) }
    ensures begins { IfSome (option_map (λ n. n.now) name.entry)
        (λ own. Begins (S.holds store.old) (S.holds store.new) own (history_text history.now)) }
    ensures refused { IfErr result (λ e. IsOneUnwritten (S.unwritable store.old) (named (option_map (λ n. n.now) name.entry)) e) }
    ensures still { (n : List ℕ) → S.unwritable store.new n → S.unwritable store.old n }
{
    let Some(name) = name else {
        return Ok(());
    };
    let text = history_text(alloc, history)?;
    write_file(store, alloc, name, text.as_bytes())?;
    Ok(())
}

/// Where a result is certified, it has pairs if they are needed.
fn expect_pairs_made(needed: bool, ran: &RunOutcome) -> Result<(), Fault>
    ensures some { OnOk result (HasPairsMade needed ran.now) }
    ensures refused { IfErr result (IsPairlessRun needed ran.now) }
{
    match ran {
        RunOutcome::Certified(done) => expect_pairs(needed, done.pairs),
        _ => Ok(()),
    }
}

/// Writes a certified result, over a verdict that stands there. Meanwhile the history, with all
/// reduce outputs, is freed, in a thread of its own if one can be made.
fn keep_result<S: Store, R: Threads>(
    rt: &R,
    store: &mut S,
    alloc: Global,
    verdict: Option<&str>,
    out: &str,
    ran: RunOutcome,
) -> Result<(), FileFault>
    requires verdict { IfSome (option_map (λ s. s.now) verdict) (λ name. name ≡ name_of_verdict out.now) }
    ensures kept { OnOk result
        (IsResultKept (S.holds store.new) (option_map (λ s. s.now) verdict.entry) out.now ran) }
    ensures others { ChangesAmong (S.holds store.old) (S.holds store.new)
        (names_left (option_map (λ s. s.now) verdict.entry) out.now ran) }
    ensures refused { IfErr result (IsResultRefused (S.holds store.old) (S.holds store.new)
        (S.unwritable store.old) (option_map (λ s. s.now) verdict.entry) out.now ran) }
{
    let RunOutcome::Certified(done) = ran else {
        return Ok(());
    };
    let Certified {
        outputs,
        certificate,
        history,
        ..
    } = done;
    let freeing = thread::spawn(rt, move || drop(history));
    let certificate = Bytes(certificate.as_slice());
    write_over(store, alloc, verdict, out, outputs.as_slice(), &certificate)?;
    if let Ok(handle) = freeing {
        handle.join(rt);
    }
    Ok(())
}

/// Runs a job by workers, then writes the history, if it has a name, and the result, if it is
/// certified, over a verdict that stands there. The history comes before, so that a result is whole
/// whatever the history's name.
pub fn run<S: Store, C: Scratch, R: Threads + Wait + Sync>(
    machine: &Machine<'_, C, R>,
    store: &mut S,
    asked: &RunOptions<'_>,
    watch: &dyn Progress,
) -> Result<CommandOutput, Fault>
    ensures done { IfOk result (λ said. AnswersRun (S.holds store.old) (S.holds store.new)
        (S.unreadable store.old) (S.known_as store.old) asked.now (string_bytes said.text) said.status) }
    ensures facts { IfOk result (λ said. AreRunFacts (S.holds store.old) (S.known_as store.old)
        asked.now (string_bytes said.text) said.status said.facts) }
    ensures others { ChangesOver (S.holds store.old) (S.holds store.new)
        asked.now.options.out.now (written_by_run asked.now) }
    ensures refused { IfErr result
        (λ e. IsRunUnanswered (S.holds store.old) (S.holds store.new) (S.unreadable store.old)
        (S.unwritable store.old) (S.alike store.old) (S.known_as store.old) asked.now e) }
{
    let (rt, alloc) = (machine.rt, machine.alloc);
    let (ran, inputs) = test_and_run(machine, store, asked, watch)?;
    expect_pairs_made(asked.need_pairs, &ran)?;
    let names = names_of_run(alloc, asked)?;
    let out = asked.options.out;
    let verdict = old_verdict(store, alloc, out, names.as_slice())?;
    let said = output_of(alloc, asked.picture, inputs, &ran)?;
    keep_history(store, alloc, asked.history, history_of(&ran))?;
    keep_result(rt, store, alloc, verdict.as_deref(), out, ran)?;
    Ok(said)
}
