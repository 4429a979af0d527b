//! `check`: tests the options, has the result judged, held or while its files are read, and keeps the
//! verdict of a yes.
ghost use Rattle.std.specs.Prelude.{◌≡◌, ℕ, [], ◌<◌, IfErr, IfOk, IfSome, MatchOption};
ghost use Rattle.std.specs.Prelude.{OnOk, Contains, map, option_map, slice_index_or, length};
ghost use Rattle.std.specs.Prelude.{string_bytes, List, MatchResult, get_or};
ghost use Rattle.mr_files.specs.Holding.{ChangesAmong};
ghost use Rattle.mr_commands.specs.Checks.{AreGoodThreads, IsCheckRefusal, IsFirstLineEnd};
ghost use Rattle.mr_commands.specs.Checks.{IsOptionRefusal};
ghost use Rattle.mr_commands.specs.Facts.{AreCheckFacts};
ghost use Rattle.mr_commands.specs.Judgements.{Judges, AnswersResult, files_judged};
ghost use Rattle.mr_commands.specs.Named.{AreClear, verdict_file, written_by_check};
ghost use Rattle.mr_commands.specs.Verdicts.{IsCheckUnanswered, IsKeptUnder, IsTextRefused};
ghost use Rattle.mr_commands.specs.Verdicts.{KeepsVerdict, names_kept};
ghost use Rattle.mr_files.specs.Refusals.{IsUnreadAmong, ReportsCause};
ghost use Rattle.mr_commands.specs.Streamed.{DidFail, GivesAnswer, ReportsOther, ReportsRead};

use crate::check_job::{CheckJob, Judgement};
use crate::input::{FileNames, input_of, name_given};
use crate::texts::CommandOutput;
use mr_args::{CheckOptions, Fault, request_of};
use mr_bytes::Progress;
use mr_check::{Computation, No, Source, Yes, judge_readers};
use mr_files::{
    FileFault, NamedReader, ReadCause, ResultReaders, Store, names_of_result, result_readers,
    write_file,
};
use mr_store::CountedRead;
use std::alloc::Global;
use std::thread::Threads;

const MAX_THREADS: u32 = 64;

// The clauses have this number.
const _: () = prove!(MAX_THREADS == 64);

fn first_line_end(names: &[&str]) -> Option<usize>
    ensures { MatchOption result ((k : ℕ) → k < length names.now
        → ¬ Contains (slice_index_or (map (λ s. s.now) names.now) k []) 10)
        (IsFirstLineEnd (map (λ s. s.now) names.now)) }
{
    for (at, name) in names.iter().enumerate() {
        if name.as_bytes().contains(&b'\n') {
            return Some(at);
        }
    }
    None
}

/// Tests the number of threads, and that a verdict, if there is one, can list the input's names.
fn expect_options(asked: &CheckOptions<'_>) -> Result<(), Fault>
    ensures threads { OnOk result (AreGoodThreads asked.now.threads) }
    ensures clear { OnOk result (IfSome (verdict_file asked.now) (λ _. AreClear asked.now.options)) }
    ensures refused { IfErr result (λ e. IsOptionRefusal asked.now e) }
{
    if asked.threads == 0 || asked.threads > MAX_THREADS {
        return Err(Fault::BadThreads);
    }
    if asked.verdict.is_none() {
        return Ok(());
    }
    match first_line_end(asked.options.files.as_slice()) {
        Some(file) => Err(Fault::LineEndInName { file }),
        None => Ok(()),
    }
}

/// Tests the request, the number of threads and the names for a verdict, then reads the input, with
/// its files and the result's distinct from the verdict, then judges the result. It writes nothing.
fn judge_asked<S: Store, R: Threads + Sync>(
    rt: &R,
    store: &S,
    alloc: Global,
    asked: &CheckOptions<'_>,
    watch: &dyn Progress,
) -> Result<Judgement, Fault>
    ensures judges { IfOk result (Judges (S.holds store.now) (S.known_as store.now) asked.now) }
    ensures refused { IfErr result (IsCheckRefusal (S.holds store.now) (S.unreadable store.now) (S.known_as store.now) asked.now) }
{
    let request = request_of(alloc, &asked.options)?;
    expect_options(asked)?;
    let options = &asked.options;
    let besides = names_of_result(alloc, options.out, options.parts as usize)?;
    let written = name_given(alloc, asked.verdict)?;
    let files = FileNames { besides, written };
    let (input, ends) = input_of(store, alloc, &request, options, files)?;
    let job = CheckJob {
        asked,
        request: &request,
        input: &input,
        ends,
    };
    job.judge_result(rt, store, alloc, watch)
}

/// Writes the text under the name, if there are both.
fn keep<S: Store>(
    store: &mut S,
    alloc: Global,
    name: Option<&str>,
    text: Option<Vec<u8>>,
) -> Result<(), FileFault>
    ensures kept { OnOk result (IsKeptUnder (S.holds store.new)
        (option_map (λ n. n.now) name.entry) (option_map (λ t. t.items) text)) }
    ensures others { ChangesAmong (S.holds store.old) (S.holds store.new)
        (names_kept (option_map (λ n. n.now) name.entry) (option_map (λ t. t.items) text)) }
    ensures refused { IfErr result
        (λ e. IsTextRefused (S.holds store.old) (S.holds store.new) (S.unwritable store.old)
        (option_map (λ n. n.now) name.entry) (option_map (λ t. t.items) text) e) }
{
    let Some(name) = name else {
        return Ok(());
    };
    let Some(text) = text else {
        return Ok(());
    };
    write_file(store, alloc, name, text.as_slice())
}

/// Judges a result and writes the verdict of a yes, if it has a name. Before it reads anything, it
/// tests the request, the number of threads, and that a verdict can list the input's names. Before
/// it judges, it tests the input, and that the verdict replaces no file of the input or the result.
pub fn check<S: Store, R: Threads + Sync>(
    rt: &R,
    store: &mut S,
    alloc: Global,
    asked: &CheckOptions<'_>,
    watch: &dyn Progress,
) -> Result<CommandOutput, Fault>
    ensures answer { IfOk result (λ said. KeepsVerdict (S.holds store.old) (S.holds store.new)
        (S.known_as store.old) asked.now (string_bytes said.text) said.status) }
    ensures facts { IfOk result (λ said. AreCheckFacts (S.holds store.old) asked.now.options
        (string_bytes said.text) said.status said.facts) }
    ensures others { ChangesAmong (S.holds store.old) (S.holds store.new) (written_by_check asked.now) }
    ensures refused { IfErr result (λ e. IsCheckUnanswered (S.holds store.old)
        (S.holds store.new) (S.unreadable store.old) (S.unwritable store.old)
        (S.known_as store.old) asked.now e) }
{
    let Judgement { said, verdict } = judge_asked(rt, store, alloc, asked, watch)?;
    keep(store, alloc, asked.verdict, verdict)?;
    Ok(said)
}

/// The judge's fault, or that of the file whose read failed.
fn trace_fault<R: CountedRead + Drop, C: ReadCause>(
    alloc: Global,
    parts: &[NamedReader<R, C>],
    certificate: &NamedReader<R, C>,
    no: No,
) -> Result<No, FileFault>
    requires failed { DidFail (map (λ r. r.failed) parts.now) certificate.now.failed no }
    ensures { MatchResult result (λ e. ReportsOther no e) (λ f. ReportsCause C.cause f) }
{
    match no {
        No::Device(Source::Certificate) => Err(certificate.fault(alloc)),
        No::Device(Source::Output(partition)) => Err(parts[partition as usize].fault(alloc)),
        _ => Ok(no),
    }
}

/// Judges what the readers give; none has failed yet. If a read fails, the fault is its file's.
fn judge_files<R: CountedRead + Drop, C: ReadCause>(
    job: &CheckJob<'_>,
    alloc: Global,
    parts: &mut [NamedReader<R, C>],
    certificate: &mut NamedReader<R, C>,
    watch: &dyn Progress,
) -> Result<Result<Yes, No>, FileFault>
    requires parts { (p : ℕ) → get_or (map (λ r. r.failed) parts.old) p 0 ≡ 0 }
    requires certificate { certificate.old.failed ≡ 0 }
    ensures answer { IfOk result (GivesAnswer job.now.request.now job.now.input.now
        (map (λ r. R.remaining r.reader) parts.old) (R.remaining certificate.old.reader)) }
    ensures refused { IfErr result (ReportsCause C.cause) }
{
    let (request, input) = (job.request, job.input);
    let computation = Computation { request, input };
    match judge_readers(alloc, &computation, parts, certificate, watch) {
        Ok(yes) => Ok(Ok(yes)),
        Err(no) => Ok(Err(trace_fault(alloc, parts, certificate, no)?)),
    }
}

/// Judges a result while it reads it: the certificate and one part at a time, in pieces.
pub(crate) fn judge_as_read<S: Store, C: ReadCause>(
    job: &CheckJob<'_>,
    store: &S,
    alloc: Global,
    watch: &dyn Progress,
) -> Result<Result<Yes, No>, Fault>
    requires cause { (n : List ℕ) → IsUnreadAmong (S.unreadable store.now) (files_judged job.now) n → C.cause n }
    ensures answer { IfOk result (AnswersResult (S.holds store.now) job.now) }
    ensures refused { IfErr result (ReportsRead C.cause) }
{
    let options = &job.asked.options;
    let ResultReaders {
        mut parts,
        mut certificate,
    } = result_readers::<S, C>(store, alloc, options.out, options.parts as usize)?;
    let parts = parts.as_mut_slice();
    Ok(judge_files(job, alloc, parts, &mut certificate, watch)?)
}
