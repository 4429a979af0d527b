//! The judge by one thread: the fast yes, and where it says nothing, the plain judge.
ghost use Rattle.std.specs.Prelude.{◌≡◌, ◌⊎◌, ◌≤◌, ◌^◌, Ok, Err, IfErr, IfOk, IfSome, length};
ghost use Rattle.mr_input.specs.Files.{contents, split_total};
ghost use Rattle.mr_certform.specs.Grammar.{AreBytes};
ghost use Rattle.mr_verdict.specs.declared.answers.No.TheVariants.{OutOfMemory};
ghost use Rattle.mr_verdict.specs.Cases.{IsWorth, verdict_on};
ghost use Rattle.mr_verdict.specs.Headline.{IsCertified, accepted_of};
ghost use Rattle.mr_verdict.specs.Verdict.{verdict_of};
ghost use Rattle.mr_check.specs.Accepted.{AcceptsRead};

use crate::accept::accept;
use mr_bytes::{Progress, Unwatched};
use mr_certform::StreamWalker;
use mr_input::Input;
use mr_jobs::Request;
use mr_judge::{ByRef, judge_plainly, walk};
use mr_store::CountedRead;
use mr_verdict::{Case, Computation, No, Yes};
use std::alloc::Global;

/// Judges a case as `check` does. It reports now and then to `progress` how many entries were
/// read, and then how many windows of the input were mapped.
pub fn judge_on_one_thread(
    alloc: Global,
    case: &Case<'_>,
    progress: &dyn Progress,
) -> Result<Yes, No>
    ensures headline { IfOk result (IsWorth case.now) }
    ensures yes { IfOk result (λ y. verdict_on case.now ≡ Ok (accepted_of y)) }
    ensures no { IfErr result (λ e. (e ≡ OutOfMemory) ⊎ (verdict_on case.now ≡ Err e)) }
{
    // A request's splits have at least one byte.
    let _size = case.request.split_size();
    if case.outputs.len() == case.request.parts() as usize {
        let computation = Computation {
            request: case.request,
            input: case.input,
        };
        let mut items = walk(case.certificate);
        if let Some(yes) = accept(alloc, &computation, case.outputs, &mut items, progress) {
            return Ok(yes);
        }
    }
    judge_plainly(alloc, case, progress)
}

/// Judges a result of the request over the input: the partitions' outputs and the certificate's
/// bytes. It trusts no worker. Returns `Yes` exactly where the result is good (`yes_law`): the
/// outputs are byte for byte those of the sequential execution without the records that the
/// certificate lists. Otherwise it returns the first fault, or `OutOfMemory`. The input's splits
/// must fit (`Request::fits`).
pub fn check(
    alloc: Global,
    request: &Request,
    input: &Input,
    outputs: &[Vec<u8>],
    certificate: &[u8],
) -> Result<Yes, No>
    requires { split_total request.now.split input.now ≤ 2 ^ 20 }
    ensures headline { IfOk result (λ y. IsCertified request.now input.now
        (contents outputs.now) certificate.now y.skips.items y.pairs) }
    ensures yes { IfOk result
        (λ y. verdict_of request.now input.now (contents outputs.now) certificate.now
        ≡ Ok (accepted_of y)) }
    ensures no { IfErr result (λ e. (e ≡ OutOfMemory)
        ⊎ (verdict_of request.now input.now (contents outputs.now) certificate.now ≡ Err e)) }
{
    let case = Case {
        request,
        input,
        outputs,
        certificate,
    };
    judge_on_one_thread(alloc, &case, &Unwatched)
}

/// The yes to a result whose outputs are at hand, one for each partition, and whose certificate is
/// still to be read, if it is accepted. The certificate is read once, in pieces of 64 KiB. Of a
/// result that isn't accepted nothing is said, and not how far the certificate was read.
pub fn accept_read<C: CountedRead>(
    alloc: Global,
    computation: &Computation<'_>,
    outputs: &[Vec<u8>],
    certificate: &mut C,
    progress: &dyn Progress,
) -> Option<Yes>
    requires known { IfSome (C.remaining certificate.old) AreBytes }
    ensures { IfSome result (AcceptsRead computation.now.request.now computation.now.input.now
        (contents outputs.now) (C.remaining certificate.old)) }
{
    // A request's splits have at least one byte.
    let _size = computation.request.split_size();
    if outputs.len() != computation.request.parts() as usize {
        return None;
    }
    let reader = ByRef {
        reader: certificate,
    };
    let Ok(mut items) = StreamWalker::new(alloc, reader) else {
        return None;
    };
    accept(alloc, computation, outputs, &mut items, progress)
}
