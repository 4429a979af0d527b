//! The sequential command, and the choice among all commands.
ghost use Rattle.std.specs.Prelude.{◌≡◌, ℕ, ◌≤◌, ◌<◌, ◌^◌, List, IfOk, IfErr, None, Some, OnOk, length, map, true};
ghost use Rattle.std.specs.Prelude.{string_bytes};
ghost use Rattle.mr_input.specs.Files.{contents, nth_file, split_total};
ghost use Rattle.mr_commands.specs.Outcomes.{IsSequentialResult, done_line};
ghost use Rattle.mr_certform.specs.declared.version.Version.{Version};
ghost use Rattle.mr_certform.specs.Value.{CanSpell, SpellsIn};
ghost use Rattle.std.specs.List.{AllByRecursion};
ghost use Rattle.mr_commands.specs.Answers.{AnswersSeq, IsRunRefusal, IsSeqRefusal, IsUnworked};
ghost use Rattle.mr_commands.specs.Answers.{HasPairs, WorksOut};
ghost use Rattle.mr_sequential.specs.Skips.{skip_fault};
ghost use Rattle.mr_commands.specs.Named.{input_names};
ghost use Rattle.mr_commands.specs.OldVerdicts.{ChangesOver};
ghost use Rattle.mr_splits.specs.Named.{named_records};
ghost use Rattle.mr_sequential.specs.Emitted.{emitted, silent_count};
ghost use Rattle.mr_sequential.specs.Sequential.{sequential};
ghost use Rattle.mr_commands.specs.Facts.{AreSeqFacts, HasFacts, IsKnownWork, KnowsJob};
ghost use Rattle.mr_commands.specs.Commands.{Answers, ChangesOwn, IsRefusal, PrintsOwn};
ghost use Rattle.mr_files.specs.Names.{result_names};

use crate::counts::{Facts, JobFacts, sizes_of};
use crate::explaining::explain;
use crate::input::{RunInput, run_input_of};
use crate::judging::check;
use crate::merging::merge;
use crate::old_verdicts::{old_verdict, write_over};
use crate::picturing::picture;
use crate::running::{Machine, run as run_by_workers};
use crate::texts::{CommandOutput, counts_line};
use crate::verifying::verify;
use mr_args::{Fault, Options, SeqOptions, Subcommand};
use mr_bytes::Progress;
use mr_certform::{Certificate, Version, VersionedCertificate, text_law};
use mr_files::{Store, add_names};
use mr_sequential::{lengths_of, run_watched};
use mr_spill::Scratch;
use mr_store::CountedWrite;
use std::alloc::{AllocError, Global};
use std::sync::Wait;
use std::thread::Threads;

/// An executed job to write, and its line. The certificate is encoded only while it is written: its
/// bytes would take as much memory again.
#[derive(Drop)]
struct Work {
    outputs: Vec<Vec<u8>>,
    certificate: Certificate,
    pairs: u64,
    line: String,
    job: JobFacts,
}

/// Runs the request. It makes the line before a file is written, so nothing fails after the last.
fn run_request(alloc: Global, run: RunInput, watch: &dyn Progress) -> Result<Work, Fault>
    requires { split_total run.request.split run.input ≤ 2 ^ 20 }
    ensures result { IfOk result
        (λ w. (version : Version) (bytes : List ℕ) → SpellsIn version bytes w.certificate
        → IsSequentialResult version run.request run.input run.skips.items (contents w.outputs.items) bytes) }
    ensures can { IfOk result (λ w. (version : Version) → AllByRecursion (CanSpell version) w.certificate.groups) }
    ensures allowed { OnOk result (skip_fault run.request run.input run.skips.items ≡ None) }
    ensures pairs { IfOk result (λ w. w.pairs
        ≡ length (emitted run.request.job run.request.split run.input run.skips.items)) }
    ensures line { IfOk result (λ w. string_bytes w.line ≡ done_line run.request.parts
        (length (emitted run.request.job run.request.split run.input run.skips.items))
        (length run.skips.items)) }
    ensures texts { IfOk result (λ w. (p : ℕ) → p < run.request.parts
        → nth_file (contents w.outputs.items) p
        ≡ sequential run.request run.input run.skips.items p) }
    ensures job { IfOk result (λ w. KnowsJob run.input (contents w.outputs.items)
        (Some (length (named_records run.request.split run.input)))
        (Some (silent_count run.request.job run.request.split run.input run.skips.items))
        (Some (length run.skips.items)) (Some w.pairs) w.job) }
    ensures refused { IfErr result (λ e. IsRunRefusal run.request run.input run.skips.items e) }
{
    let skips = run.skips.as_slice();
    let made = run_watched(alloc, &run.request, &run.input, skips, watch)?;
    let left_out = run.skips.len();
    let pairs = made.certificate.total();
    let job = JobFacts {
        inputs: lengths_of(alloc, &run.input)?,
        parts: sizes_of(alloc, made.outputs.as_slice())?,
        records: Some(made.records),
        silent: Some(made.silent),
        left_out: Some(left_out as u64),
        pairs: Some(pairs),
        history: None,
    };
    // Free what is done before asking for more memory.
    drop(run);
    let line = counts_line(alloc, "done: ", made.outputs.len(), pairs, left_out)?;
    Ok(Work {
        outputs: made.outputs,
        certificate: made.certificate,
        pairs,
        line,
        job,
    })
}

/// Where pairs are needed there are some.
pub(crate) fn expect_pairs(needed: bool, pairs: u64) -> Result<(), Fault>
    ensures some { OnOk result (HasPairs needed pairs) }
    ensures refused { IfErr result (λ e. (e ≡ Fault.NoPairs) × (needed ≡ true) × (pairs ≡ 0)) }
{
    if needed && pairs == 0 {
        return Err(Fault::NoPairs);
    }
    Ok(())
}

/// Tests the request, the skip list, the files, that none is written, their fit; then works, and
/// tests that there are pairs where they are needed. It writes nothing.
fn test_and_work<S: Store>(
    store: &S,
    alloc: Global,
    asked: &SeqOptions<'_>,
    watch: &dyn Progress,
) -> Result<Work, Fault>
    ensures work { IfOk result (λ w. (bytes : List ℕ) → SpellsIn asked.now.version bytes w.certificate
        → WorksOut (S.holds store.now) (S.known_as store.now) asked.now
        (contents w.outputs.items) bytes (string_bytes w.line)) }
    ensures can { IfOk result (λ w. AllByRecursion (CanSpell asked.now.version) w.certificate.groups) }
    ensures facts { IfOk result (λ w. IsKnownWork (S.holds store.now) asked.now (string_bytes w.line) w.job) }
    ensures refused { IfErr result (IsUnworked (S.holds store.now)
        (S.unreadable store.now) (S.known_as store.now) asked.now) }
{
    let options = &asked.options;
    let run = run_input_of(store, alloc, options, asked.skips, Some(options.out))?;
    let work = run_request(alloc, run, watch)?;
    expect_pairs(asked.need_pairs, work.pairs)?;
    Ok(work)
}

fn input_names_of(alloc: Global, options: &Options<'_>) -> Result<Vec<String>, AllocError>
    ensures { IfOk result (λ v. map string_bytes v.items ≡ input_names options.now) }
{
    let mut names = Vec::new(alloc);
    add_names(alloc, &mut names, options.files.as_slice())?;
    Ok(names)
}

fn spelled_in(certificate: &Certificate, version: Version) -> VersionedCertificate<'_>
    requires { AllByRecursion (CanSpell version) certificate.now.groups }
    ensures { result ≡ record { version = version; certificate = certificate.entry.now } }
{
    match certificate.in_version(version) {
        Some(spelled) => spelled,
        None => unreachable!(),
    }
}

/// Runs a job sequentially and writes its result, over a verdict that stands there. It reports the
/// line once all files are written.
pub fn seq<S: Store>(
    store: &mut S,
    alloc: Global,
    asked: &SeqOptions<'_>,
    watch: &dyn Progress,
) -> Result<CommandOutput, Fault>
    ensures status { IfOk result (λ said. said.status ≡ 0) }
    ensures done { IfOk result (λ said. AnswersSeq (S.holds store.old) (S.holds store.new)
        (S.unreadable store.old) (S.known_as store.old) asked.now (string_bytes said.text)) }
    ensures facts { IfOk result (λ said. AreSeqFacts (S.holds store.old) asked.now
        (string_bytes said.text) said.facts) }
    ensures others { ChangesOver (S.holds store.old) (S.holds store.new) asked.now.options.out.now
        (result_names asked.now.options.out.now asked.now.options.parts) }
    ensures refused { IfErr result (λ e. IsSeqRefusal (S.holds store.old) (S.holds store.new)
        (S.unreadable store.old) (S.unwritable store.old)
        (S.known_as store.old) asked.now e) }
{
    let work = test_and_work(store, alloc, asked, watch)?;
    let out = asked.options.out;
    let names = input_names_of(alloc, &asked.options)?;
    let verdict = old_verdict(store, alloc, out, names.as_slice())?;
    let spelled = spelled_in(&work.certificate, asked.version);
    text_law(&spelled);
    let outputs = work.outputs.as_slice();
    write_over(store, alloc, verdict.as_deref(), out, outputs, &spelled)?;
    Ok(CommandOutput {
        text: work.line,
        status: 0,
        facts: Facts::Job(work.job),
    })
}

/// Executes one command. `watch` gets the progress of long work, `out` what a command prints while
/// it works.
pub fn execute<S: Store, C: Scratch, R: Threads + Wait + Sync, W: CountedWrite>(
    machine: &Machine<'_, C, R>,
    store: &mut S,
    asked: &Subcommand<'_>,
    watch: &dyn Progress,
    out: &mut W,
) -> Result<CommandOutput, Fault>
    ensures answers { IfOk result (λ said. Answers (S.holds store.old) (S.holds store.new)
        (S.unreadable store.old) (S.known_as store.old) asked.now (W.seen out.old) (W.seen out.new)
        (string_bytes said.text) said.status) }
    ensures facts { IfOk result (λ said. HasFacts (S.holds store.old) (S.holds store.new)
        (S.known_as store.old) asked.now (W.seen out.old) (W.seen out.new)
        (string_bytes said.text) said.status said.facts) }
    ensures others { ChangesOwn (S.holds store.old) (S.holds store.new) asked.now }
    ensures prints { PrintsOwn asked.now (W.seen out.old) (W.seen out.new) }
    ensures refused { IfErr result (λ e. IsRefusal (S.holds store.old) (S.holds store.new)
        (S.unreadable store.old) (S.unwritable store.old)
        (S.alike store.old) (S.known_as store.old) asked.now (W.seen out.old) (W.seen out.new) e) }
{
    let (rt, alloc) = (machine.rt, machine.alloc);
    match asked {
        Subcommand::Check(asked) => check(rt, store, alloc, asked, watch),
        Subcommand::Seq(asked) => seq(store, alloc, asked, watch),
        Subcommand::Run(asked) => run_by_workers(machine, store, asked, watch),
        Subcommand::Merge(asked) => merge(rt, store, alloc, asked),
        Subcommand::Verify(asked) => verify(store, alloc, asked),
        Subcommand::Explain(asked) => explain(store, alloc, asked, out),
        Subcommand::Picture(asked) => picture(store, alloc, asked),
    }
}
