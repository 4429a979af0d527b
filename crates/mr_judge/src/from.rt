//! Judges a result through readers.
ghost use Rattle.std.specs.Prelude.{◌≡◌, ◌⊎◌, ◌<◌, ◌≤◌, ◌^◌, ℕ, List, Err, IfOk, IfErr, IfSome};
ghost use Rattle.std.specs.Prelude.{MatchOption, map, length, get_or};
ghost use Rattle.mr_input.specs.Files.{split_total};
ghost use Rattle.mr_jobs.specs.JobSpec.{RequestSpec};
ghost use Rattle.mr_certform.specs.Grammar.{AreBytes};
ghost use Rattle.mr_verdict.specs.Headline.{IsCertified};
ghost use Rattle.mr_judge.specs.Outputs.{IsVerdict};
ghost use Rattle.mr_judge.specs.From.{Give, Judged, VerdictOfSome, IsVerdictFrom, IsDevice};
ghost use Rattle.mr_judge.specs.Readers.{StopOfSome, ReportsNoRead};

use crate::judge::{Work, judge_all};
use crate::readers::{ByRef, ReaderOutputs};
use mr_bytes::{Progress, Unwatched};
use mr_certform::StreamWalker;
use mr_input::Input;
use mr_jobs::Request;
use mr_store::CountedRead;
use mr_verdict::{Computation, JudgeError, No, Source, Yes};
use std::alloc::{AllocError, Global};

fn failures_of<R: CountedRead>(alloc: Global, readers: &[R]) -> Result<Vec<u64>, AllocError>
    ensures { IfOk result (λ v. v.items ≡ map R.failed readers.now) }
{
    let mut failures = Vec::with_capacity(alloc, readers.len())?;
    for reader in readers {
        failures.push(reader.failures())?;
    }
    Ok(failures)
}

/// The first reader of which a read has failed since `before` was counted.
fn first_failed<R: CountedRead>(readers: &[R], before: &[u64]) -> Option<u64>
    requires { length readers.now ≡ length before.now }
    ensures { MatchOption result (map R.failed readers.now ≡ before.now)
        (λ p. (p < length before.now)
        × (get_or (map R.failed readers.now) p 0 ≡ get_or before.now p 0 → ⊥)) }
{
    for i in 0..readers.len() {
        if readers[i].failures() != before[i] {
            return Some(i as u64);
        }
    }
    None
}

fn judge_lent<R: CountedRead, C: CountedRead>(
    alloc: Global,
    computation: &Computation<'_>,
    outputs: &mut [R],
    certificate: &mut C,
    progress: &dyn Progress,
) -> Result<Yes, JudgeError>
    requires parts { length outputs.old ≡ computation.now.request.now.parts }
    requires known { IfSome (C.remaining certificate.old) AreBytes }
    ensures { StopOfSome computation.now.request.now computation.now.input.now
        (map R.remaining outputs.old) (C.remaining certificate.old) result }
{
    let mut outputs = ReaderOutputs::new(alloc, outputs)?;
    let mut walker = StreamWalker::new(
        alloc,
        ByRef {
            reader: certificate,
        },
    )?;
    let mut work = Work::new(alloc);
    judge_all(computation, &mut outputs, &mut walker, &mut work, progress)
}

/// The answer where no read failed. An output or a certificate of 2^63 bytes or more counts as too
/// long for the machine's memory.
fn answer_of(answer: Result<Yes, JudgeError>) -> Result<Yes, No>
    requires { IfErr answer ReportsNoRead }
    ensures verdict { (o : RequestSpec) (files outs : List (List ℕ)) (bytes : List ℕ)
        → IsVerdict o files outs bytes answer → IsVerdictFrom o files outs bytes result }
    ensures device { (outs : List ℕ) (cert : ℕ) → IsDevice outs outs cert cert result }
{
    match answer {
        Ok(yes) => Ok(yes),
        Err(JudgeError::Fault(fault)) => Err(fault),
        Err(_) => Err(No::OutOfMemory),
    }
}

/// The readers' counts of failures say whether a read failed, and which.
fn judge_from<R: CountedRead, C: CountedRead>(
    alloc: Global,
    computation: &Computation<'_>,
    outputs: &mut [R],
    certificate: &mut C,
    progress: &dyn Progress,
) -> Result<Yes, No>
    ensures judged { VerdictOfSome computation.now.request.now computation.now.input.now
        (map R.remaining outputs.old) (C.remaining certificate.old) result }
    ensures device { IsDevice (map R.failed outputs.old) (map R.failed outputs.new)
        (C.failed certificate.old) (C.failed certificate.new) result }
{
    let certificate_failures = certificate.failures();
    if outputs.len() != computation.request.parts() as usize {
        return Err(No::OutputCount);
    }
    let failures = failures_of(alloc, outputs)?;
    let answer = judge_lent(alloc, computation, outputs, certificate, progress);
    if certificate.failures() != certificate_failures {
        return Err(No::Device(Source::Certificate));
    }
    match first_failed(outputs, &failures) {
        Some(partition) => Err(No::Device(Source::Output(partition))),
        None => answer_of(answer),
    }
}

/// Judges a result as `check` does, through readers: one for each partition's output, in order, and
/// one for the certificate. Returns the verdict over the bytes that they give; where these aren't
/// known before, over bytes that they may give. `Device` comes exactly where a read failed in this
/// call, and at once; an interrupted read is a failed one.
///
/// Each read takes at most 65,536 bytes, into buffers that are allocated at the start. An output's
/// reader is asked only after those before it were read to their ends: where each opens its file at
/// the first call and closes it at the end, at most one output is open. After a no it isn't
/// specified how far they were read.
pub fn check_from<R: CountedRead, C: CountedRead>(
    alloc: Global,
    request: &Request,
    input: &Input,
    outputs: &mut [R],
    certificate: &mut C,
) -> Result<Yes, No>
    requires { split_total request.now.split input.now ≤ 2 ^ 20 }
    ensures judged { Judged request.now input.now (map R.remaining outputs.old)
        (C.remaining certificate.old) result }
    ensures headline { IfOk result (λ y. (outs : List (List ℕ)) (bytes : List ℕ)
        → Give (map R.remaining outputs.old) (C.remaining certificate.old) outs bytes
        → IsCertified request.now input.now outs bytes y.skips.items y.pairs) }
    ensures verdict { (outs : List (List ℕ)) (bytes : List ℕ)
        → Give (map R.remaining outputs.old) (C.remaining certificate.old) outs bytes
        → IsVerdictFrom request.now input.now outs bytes result }
    ensures device { IsDevice (map R.failed outputs.old) (map R.failed outputs.new)
        (C.failed certificate.old) (C.failed certificate.new) result }
{
    let computation = Computation { request, input };
    judge_readers(alloc, &computation, outputs, certificate, &Unwatched)
}

/// What `check_from` does. It reports its progress as `judge_on_one_thread` does.
pub fn judge_readers<R: CountedRead, C: CountedRead>(
    alloc: Global,
    computation: &Computation<'_>,
    outputs: &mut [R],
    certificate: &mut C,
    progress: &dyn Progress,
) -> Result<Yes, No>
    ensures judged { Judged computation.now.request.now computation.now.input.now
        (map R.remaining outputs.old) (C.remaining certificate.old) result }
    ensures headline { IfOk result (λ y. (outs : List (List ℕ)) (bytes : List ℕ)
        → Give (map R.remaining outputs.old) (C.remaining certificate.old) outs bytes
        → IsCertified computation.now.request.now computation.now.input.now outs bytes
        y.skips.items y.pairs) }
    ensures verdict { (outs : List (List ℕ)) (bytes : List ℕ)
        → Give (map R.remaining outputs.old) (C.remaining certificate.old) outs bytes
        → IsVerdictFrom computation.now.request.now computation.now.input.now outs bytes result }
    ensures device { IsDevice (map R.failed outputs.old) (map R.failed outputs.new)
        (C.failed certificate.old) (C.failed certificate.new) result }
{
    // A request's splits have at least one byte.
    let _size = computation.request.split_size();
    judge_from(alloc, computation, outputs, certificate, progress)
}
