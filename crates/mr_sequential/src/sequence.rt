//! Executes a job from a request and an input to the outputs; its faults, and laws of good results.
ghost use Rattle.std.specs.Prelude.{◌≡◌, ◌↔◌, ℕ, ◌≤◌, ◌<◌, ◌^◌, ◌⊎◌, IfOk, OnOk, IfErr, IfSome};
ghost use Rattle.std.specs.Prelude.{◌≢◌, None, Some, length, map};
ghost use Rattle.mr_input.specs.Files.{contents, nth_file, split_total};
ghost use Rattle.mr_jobs.specs.JobSpec.{flags_of, job_literal, job_number};
ghost use Rattle.mr_splits.specs.Cut.{records_of};
ghost use Rattle.mr_splits.specs.Named.{named_records};
ghost use Rattle.mr_sequential.specs.Emitted.{silent_count};
ghost use Rattle.mr_sequential.specs.Names.{silent_of};
ghost use Rattle.mr_sequential.specs.Certified.{certificate_of};
ghost use Rattle.mr_sequential.specs.Good.{IsGood};
ghost use Rattle.mr_sequential.specs.Rows.{AreOutputs};
ghost use Rattle.mr_sequential.specs.Sequential.{sequential};
ghost use Rattle.mr_sequential.specs.Skips.{list_fault, skip_fault};
ghost use Rattle.mr_sequential.specs.GoodLaws.{EntriesAreDistinct, NoMoreEntries, NoneIsLeftOut};
ghost use Rattle.mr_sequential.specs.GoodLaws.{GoodPartsAreSequential, GoodIsSequential};
ghost use Rattle.mr_sequential.specs.GoodLaws.{SequentialIsGood, CertificateIsSequential};
ghost use Rattle.mr_sequential.specs.GoodLaws.{CertificateIsUnique, WorkedGroups, WorkedOutput};

use crate::outputs::outputs;
use crate::source::gather;
use mr_bytes::{Phase, Progress, RecordName, Unwatched};
use mr_certform::{Certificate, FlatGroups, Header};
use mr_input::Input;
use mr_jobs::Request;
use mr_splits::{KeptPlan, Plan, SkipFault};
use std::alloc::{AllocError, Global};
use thiserror::Error;

/// Why there is no sequential execution.
#[derive(Clone, Copy, Debug, PartialEq, Eq, Drop, Error)]
pub enum RunFault {
    /// A left-out record does not exist.
    #[error("NoSuchRecord")]
    NoSuchRecord,
    /// A left-out record is not past the one before it.
    #[error("SkipOrder")]
    SkipOrder,
    /// More records are left out than the request allows.
    #[error("TooManySkips")]
    TooManySkips,
    /// The machine refused memory.
    #[error("OutOfMemory")]
    OutOfMemory,
}

impl From<AllocError> for RunFault {
    ghost use Rattle.mr_sequential.specs.declared.sequence.RunFault.{RunFault};

    ghost from_gives = { λ _ f. f ≡ RunFault.OutOfMemory };

    fn from(_fault: AllocError) -> RunFault {
        RunFault::OutOfMemory
    }
}

fn fault_of(plan: &Plan<'_>, skips: &[RecordName]) -> Option<RunFault>
    ensures first { result ≡ list_fault (records_of plan.now) None skips.now }
    ensures other { IfSome result (λ e. e ≢ RunFault.TooManySkips) }
{
    match plan.first_fault(skips) {
        None => None,
        Some(SkipFault::TooMany) => Some(RunFault::TooManySkips),
        Some(SkipFault::Order) => Some(RunFault::SkipOrder),
        Some(SkipFault::NoSuchRecord) => Some(RunFault::NoSuchRecord),
    }
}

fn plan_of<'a>(alloc: Global, request: &Request, input: &'a Input) -> Result<Plan<'a>, AllocError>
    requires { split_total request.now.split input.now ≤ 2 ^ 20 }
    ensures plan { IfOk result
        (λ r. r ≡ record { size = request.now.split; files = input.entry.now }) }
    ensures some { IfOk result (λ r. 0 < r.size) }
{
    Plan::new_fitting(alloc, input, request.split_size())
}

/// What a sequential execution gives.
#[derive(Drop)]
pub struct Executed {
    pub outputs: Vec<Vec<u8>>,
    pub certificate: Certificate,
    /// How many records the input has.
    pub records: u64,
    /// How many of those that aren't left out give nothing.
    pub silent: u64,
}

/// Executes the request's job over the input, record by record, without the records of `skips`.
/// Returns each partition's output, and the certificate, which lists the names of each group's
/// pairs. The input's splits must fit (`Request::fits`). The number of left-out records is tested
/// first, then each of them in turn, its order before its existence.
pub fn run(
    alloc: Global,
    request: &Request,
    input: &Input,
    skips: &[RecordName],
) -> Result<(Vec<Vec<u8>>, Certificate), RunFault>
    requires { split_total request.now.split input.now ≤ 2 ^ 20 }
    ensures count { IfOk result (λ r. length r.0.items ≡ request.now.parts) }
    ensures texts { IfOk result (λ r. (p : ℕ) → p < request.now.parts
        → nth_file (contents r.0.items) p ≡ sequential request.now input.now skips.now p) }
    ensures certificate { IfOk result (λ r. r.1 ≡ certificate_of request.now input.now skips.now) }
    ensures is_good { IfOk result (λ r. IsGood request.now input.now (contents r.0.items) r.1) }
    ensures skips { OnOk result (skip_fault request.now input.now skips.now ≡ None) }
    ensures fault { IfErr result
        (λ e. (e ≡ RunFault.OutOfMemory) ⊎ (skip_fault request.now input.now skips.now ≡ Some e)) }
    ensures too_many { (result ≡ Err RunFault.TooManySkips)
        ↔ (request.now.skips < length skips.now) }
{
    let Executed {
        outputs,
        certificate,
        ..
    } = run_watched(alloc, request, input, skips, &Unwatched)?;
    Ok((outputs, certificate))
}

/// What `run` does. It reports mapped records, and the outputs' begin and end, to `watch`,
/// and counts records.
pub fn run_watched(
    alloc: Global,
    request: &Request,
    input: &Input,
    skips: &[RecordName],
    watch: &dyn Progress,
) -> Result<Executed, RunFault>
    requires { split_total request.now.split input.now ≤ 2 ^ 20 }
    ensures count { IfOk result (λ r. length r.outputs.items ≡ request.now.parts) }
    ensures texts { IfOk result (λ r. (p : ℕ) → p < request.now.parts
        → nth_file (contents r.outputs.items) p ≡ sequential request.now input.now skips.now p) }
    ensures certificate { IfOk result (λ r. r.certificate ≡ certificate_of request.now input.now skips.now) }
    ensures is_good { IfOk result (λ r. IsGood request.now input.now (contents r.outputs.items) r.certificate) }
    ensures records { IfOk result (λ r. r.records
        ≡ length (named_records request.now.split input.now)) }
    ensures silent { IfOk result (λ r. r.silent
        ≡ silent_count request.now.job request.now.split input.now skips.now) }
    ensures skips { OnOk result (skip_fault request.now input.now skips.now ≡ None) }
    ensures fault { IfErr result
        (λ e. (e ≡ RunFault.OutOfMemory) ⊎ (skip_fault request.now input.now skips.now ≡ Some e)) }
    ensures too_many { (result ≡ Err RunFault.TooManySkips)
        ↔ (request.now.skips < length skips.now) }
{
    if (request.max_skips() as usize) < skips.len() {
        return Err(RunFault::TooManySkips);
    }
    let plan = plan_of(alloc, request, input)?;
    if let Some(fault) = fault_of(&plan, skips) {
        return Err(fault);
    }
    execute(alloc, request, &plan, skips, watch)
}

/// How many bytes each file of the input has.
pub fn lengths_of(alloc: Global, input: &Input) -> Result<Vec<u64>, AllocError>
    ensures { IfOk result (λ v. v.items ≡ map length input.now) }
{
    let mut lengths = Vec::new(alloc);
    for i in 0..input.files() {
        lengths.push(input.len(i) as u64)?;
    }
    Ok(lengths)
}

/// The header of a certificate that leaves out these records. Fails only for want of memory.
pub fn header_of(
    alloc: Global,
    request: &Request,
    input: &Input,
    skips: &[RecordName],
) -> Result<Header, AllocError>
    ensures job { IfOk result (λ h. h.job ≡ job_number request.now.job) }
    ensures flags { IfOk result (λ h. h.flags ≡ flags_of request.now) }
    ensures literal { IfOk result (λ h. h.literal.items ≡ job_literal request.now.job) }
    ensures short { IfOk result (λ h. length h.literal.items ≤ 4096) }
    ensures split { IfOk result (λ h. h.split_size ≡ request.now.split) }
    ensures lengths { IfOk result (λ h. h.lengths.items ≡ map length input.now) }
    ensures skips { IfOk result (λ h. h.skips.items ≡ skips.now) }
{
    let job = request.job();
    Ok(Header {
        job: job.number(),
        flags: request.flags(),
        literal: Vec::from_slice(alloc, job.literal())?,
        split_size: request.split_size(),
        lengths: lengths_of(alloc, input)?,
        skips: Vec::from_slice(alloc, skips)?,
    })
}

fn outputs_of(
    alloc: Global,
    request: &Request,
    kept: &KeptPlan<'_>,
    watch: &dyn Progress,
) -> Result<(Vec<Vec<u8>>, FlatGroups, u64), AllocError>
    requires some { 0 < kept.now.cut.size }
    requires size { kept.now.cut.size ≡ request.now.split }
    ensures outputs { IfOk result (λ r. AreOutputs request.now kept.now (contents r.0.items) r.1) }
    ensures silent { IfOk result (λ r. r.2 ≡ silent_of request.now.job kept.now) }
{
    // Files within the limits of an input emit fewer pairs than a u32 numbers.
    let _files = kept.plan().input().files();
    let (emitted, silent) = gather(alloc, request.job(), kept, watch)?;
    watch.report(Phase::Reducing, 0, 1);
    let (texts, groups) = outputs(alloc, request, kept, emitted)?;
    watch.report(Phase::Reducing, 1, 1);
    Ok((texts, groups, silent))
}

fn execute(
    alloc: Global,
    request: &Request,
    plan: &Plan<'_>,
    skips: &[RecordName],
    watch: &dyn Progress,
) -> Result<Executed, RunFault>
    requires some { 0 < plan.now.size }
    requires size { plan.now.size ≡ request.now.split }
    requires few { length skips.now < 2 ^ 32 }
    requires fault { skip_fault request.now plan.now.files skips.now ≡ None }
    ensures count { IfOk result (λ r. length r.outputs.items ≡ request.now.parts) }
    ensures texts { IfOk result (λ r. (p : ℕ) → p < request.now.parts
        → nth_file (contents r.outputs.items) p ≡ sequential request.now plan.now.files skips.now p) }
    ensures certificate { IfOk result
        (λ r. r.certificate ≡ certificate_of request.now plan.now.files skips.now) }
    ensures is_good { IfOk result
        (λ r. IsGood request.now plan.now.files (contents r.outputs.items) r.certificate) }
    ensures records { IfOk result (λ r. r.records
        ≡ length (named_records request.now.split plan.now.files)) }
    ensures silent { IfOk result (λ r. r.silent
        ≡ silent_count request.now.job request.now.split plan.now.files skips.now) }
    ensures only { IfErr result (λ e. e ≡ RunFault.OutOfMemory) }
{
    // An input has few enough files, and a request few enough partitions, for a certificate.
    let _files = plan.input().files();
    let _parts = request.parts();
    let kept = plan.without(alloc, skips)?;
    let (texts, groups, silent) = outputs_of(alloc, request, &kept, watch)?;
    let header = header_of(alloc, request, plan.input(), skips)?;
    Ok(Executed {
        outputs: texts,
        certificate: Certificate::of(header, groups),
        records: plan.count() as u64,
        silent,
    })
}

/// Entries of partitions with good groups are distinct, already by names, keys and partitions, so
/// there are no more of them than triples. Distinct entries that name triples, as many as there are
/// triples, leave none out.
pub fn entries_law()
    ensures distinct { EntriesAreDistinct }
    ensures no_more { NoMoreEntries }
    ensures all { NoneIsLeftOut }
{}

/// A good result is the sequential execution's without the records that its certificate lists.
pub fn good_law()
    ensures parts { GoodPartsAreSequential }
    ensures whole { GoodIsSequential }
{}

/// The sequential execution's own result is good: its groups are the certificate.
pub fn certified_law()
    ensures good { SequentialIsGood }
    ensures worked_groups { WorkedGroups }
    ensures worked_output { WorkedOutput }
{}

/// Good results that leave out the same records share the sequential execution's certificate.
pub fn unique_law()
    ensures sequential { CertificateIsSequential }
    ensures one { CertificateIsUnique }
{}
