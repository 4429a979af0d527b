//! An example: `execute` runs a job in memory, and `judge` judges the result before anyone uses it.
#![tactic(auto)]

ghost use Rattle.std.specs.Prelude.{◌≡◌, ℕ, ◌≤◌, ◌<◌, ◌^◌, ◌∷◌, [], false, IfOk, IsOk};
ghost use Rattle.mr_bytes.specs.declared.By.{By};
ghost use Rattle.mr_input.specs.Files.{contents, nth_file, split_total};
ghost use Rattle.mr_jobs.specs.JobSpec.{WordCount};
ghost use Rattle.mr_sequential.specs.Good.{IsGoodResult};
ghost use Rattle.mr_sequential.specs.Sequential.{sequential};
ghost use Rattle.mr_verdict.specs.Headline.{IsCertified};

use mr_certform::{Version, WriteFault, write};
use mr_check::{No, Yes, check};
use mr_input::{Input, InputFault};
use mr_jobs::{Job, Request, RequestFault};
use mr_sequential::{RunFault, run};
use std::alloc::{AllocError, Global};
use thiserror::Error;

/// Why there is no result, or none to be used.
#[derive(Debug, Drop, Error)]
pub enum ExampleFault {
    #[error("{0}")]
    Request(#[from] RequestFault),
    #[error("{0}")]
    Input(#[from] InputFault),
    #[error("the input has too many splits")]
    TooManySplits,
    #[error("{0}")]
    Run(#[from] RunFault),
    #[error("{0}")]
    Certificate(#[from] WriteFault),
    #[error("{0}")]
    Verdict(#[from] No),
    #[error("out of memory")]
    Memory(#[from] AllocError),
}

/// A result as its makers give it to its users.
#[derive(Drop)]
pub struct JobResult {
    pub outputs: Vec<Vec<u8>>,
    pub certificate: Vec<u8>,
}

/// The request of both sides: count words, in two partitions, and leave no record out.
pub fn word_count_request() -> Result<Request, ExampleFault>
    ensures request { IfOk result (λ r. r
        ≡ record { job = WordCount false; by = By.Key; parts = 2; split = 67108864; skips = 0 }) }
    ensures some { IsOk result }
{
    Ok(Request::new(Job::words(false), 2, 67_108_864, 0)?)
}

/// One text as the input of the request, if it fits.
pub fn input_of(alloc: Global, request: &Request, text: &[u8]) -> Result<Input, ExampleFault>
    ensures input { IfOk result (λ input. input ≡ text.now ∷ []) }
    ensures fits { IfOk result (λ input. split_total request.now.split input ≤ 2 ^ 20) }
{
    let mut files = Vec::new(alloc);
    files
        .push(Vec::from_slice(alloc, text)?)
        .map_err(AllocError::from)?;
    let input = Input::of(files)?;
    if !request.fits(&input) {
        return Err(ExampleFault::TooManySplits);
    }
    Ok(input)
}

/// Runs the job and writes its certificate in the shorter version, for the makers.
pub fn execute(alloc: Global, request: &Request, input: &Input) -> Result<JobResult, ExampleFault>
    requires { split_total request.now.split input.now ≤ 2 ^ 20 }
    ensures texts { IfOk result (λ h. (p : ℕ) → p < request.now.parts
        → nth_file (contents h.outputs.items) p ≡ sequential request.now input.now [] p) }
    ensures good { IfOk result
        (λ h. IsGoodResult request.now input.now (contents h.outputs.items) h.certificate.items) }
{
    let (outputs, certificate) = run(alloc, request, input, &[])?;
    let certificate = write(alloc, &certificate, Version::V2)?;
    Ok(JobResult {
        outputs,
        certificate,
    })
}

/// Judges the result, for users who trust no maker. After `Yes` it is the sequential execution's.
pub fn judge(
    alloc: Global,
    request: &Request,
    input: &Input,
    answer: &JobResult,
) -> Result<Yes, ExampleFault>
    requires { split_total request.now.split input.now ≤ 2 ^ 20 }
    ensures { IfOk result (λ yes. IsCertified request.now input.now
        (contents answer.now.outputs.items) answer.now.certificate.items
        yes.skips.items yes.pairs) }
{
    let JobResult {
        outputs,
        certificate,
    } = answer;
    Ok(check(
        alloc,
        request,
        input,
        outputs.as_slice(),
        certificate.as_slice(),
    )?)
}
