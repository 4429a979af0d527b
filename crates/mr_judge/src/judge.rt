//! The judge, from the bytes of a certificate to the verdict.
ghost use Rattle.std.specs.Prelude.{◌≡◌, ◌⊎◌, ℕ, List, ◌<◌, ◌≤◌, ◌^◌, IfOk, IfErr, length};
ghost use Rattle.mr_input.specs.Files.{contents, split_total};
ghost use Rattle.mr_certform.specs.declared.grammar_state.Item.{Item as Read};
ghost use Rattle.mr_certform.specs.declared.grammar_state.GrammarState.TheVariants.{AtMagic};
ghost use Rattle.mr_certform.specs.Grammar.{AreBytes};
ghost use Rattle.mr_certform.specs.Walking.{items_left, halt};
ghost use Rattle.mr_certform.specs.Spelling.{items_of, stop};
ghost use Rattle.mr_verdict.specs.declared.answers.No.TheVariants.{OutOfMemory};
ghost use Rattle.mr_verdict.specs.Verdict.{start, subject_of, verdict_of};
ghost use Rattle.mr_verdict.specs.Cases.{IsVerdictOn, IsWorth, verdict_on};
ghost use Rattle.mr_verdict.specs.Headline.{IsCertified, accepted_of};
ghost use Rattle.mr_judge.specs.Metered.{IsBounded, IsExact, MapsExactly, MapsOnce, cut_by};
ghost use Rattle.mr_verdict.specs.Steps.{case_at};
ghost use Rattle.mr_judge.specs.Kinds.{InKind};
ghost use Rattle.mr_verdict.specs.Items.{CanCome, Each};
ghost use Rattle.mr_judge.specs.Outputs.{CanCome as CanComeAhead, Fits, Through};
ghost use Rattle.mr_judge.specs.Outputs.{AllJudged, HaltsItems, HaltsOutputs, begins};

use crate::border::Border;
use crate::outputs::{MemoryOutputs, Outputs};
use crate::parts::{PlainWalk, check_parts};
use mr_bytes::{Progress, Unwatched};
use mr_certform::Walker;
use mr_index::{EmissionIndex, Meter};
use mr_input::Input;
use mr_jobs::Request;
use mr_splits::Plan;
use mr_verdict::{
    Case, Computation, ItemSource, JudgeError, No, Yes, expect_count, expect_header, read_skips,
};
use std::alloc::{AllocError, Global};

/// What a judgement works with: memory, and its counts of what it looks up and maps.
#[derive(Drop)]
pub(crate) struct Work {
    pub alloc: Global,
    pub meter: Meter,
}

impl Work {
    pub(crate) fn new(alloc: Global) -> Work
        ensures { (result.meter.lookups ≡ 0) × (result.meter.mapped ≡ 0) }
    {
        Work {
            alloc,
            meter: Meter {
                lookups: 0,
                mapped: 0,
            },
        }
    }
}

/// The plan of an input under a request that fits it.
pub fn plan_of<'a>(
    alloc: Global,
    request: &Request,
    input: &'a Input,
) -> Result<Plan<'a>, AllocError>
    requires { split_total request.now.split input.now ≤ 2 ^ 20 }
    ensures plan { IfOk result
        (λ r. r ≡ record { size = request.now.split; files = input.entry.now }) }
{
    Plan::new_fitting(alloc, input, request.split_size())
}

/// A walker at the front of a certificate's bytes.
pub fn walk(certificate: &[u8]) -> Walker<'_>
    ensures items { items_left result ≡ items_of certificate.entry.now }
    ensures stop { halt result ≡ stop certificate.entry.now }
    ensures few { length (items_left result) ≤ 2 ^ 63 }
    ensures bytes { AreBytes certificate.entry.now }
{
    Walker::new(certificate)
}

/// Judges a result over any source of items and any outputs, one for each partition.
pub(crate) fn judge_all<I: ItemSource, O: Outputs>(
    computation: &Computation<'_>,
    outputs: &mut O,
    walker: &mut I,
    work: &mut Work,
    watch: &dyn Progress,
) -> Result<Yes, JudgeError>
    requires sound { I.sound walker.old }
    requires given { CanCome (I.gives walker.old) }
    requires few { I.most walker.old ≤ 2 ^ 63 }
    requires front { (is : List Read) (at : ℕ) → I.gives walker.old is at → InKind AtMagic is }
    requires count { (work.old.meter.lookups ≤ 2 ^ 63) × (work.old.meter.mapped ≤ 2 ^ 63) }
    requires outputs { CanComeAhead (O.gives outputs.old) }
    requires ahead { Fits (O.gives outputs.old) start }
    requires place { O.place outputs.old ≡ 0 }
    ensures judged { Through (O.gives outputs.old) start
        (AllJudged (I.gives walker.old) computation.now.request.now computation.now.input.now
        work.old.meter.lookups work.new.meter.lookups result) }
    ensures mapped { MapsOnce (cut_by computation.now.request.now computation.now.input.now)
        work.old.meter work.new.meter }
    ensures exact { MapsExactly (cut_by computation.now.request.now computation.now.input.now)
        work.old.meter work.new.meter result }
    ensures stops { HaltsItems I.steady (I.failed walker.old) (I.failed walker.new) result }
    ensures halts { HaltsOutputs O.steady (O.failed outputs.old) (O.failed outputs.new) result }
{
    let request = computation.request;
    expect_header(walker, request, computation.input)?;
    let listed = expect_count(walker, request.max_skips())?;
    let plan = plan_of(work.alloc, request, computation.input)?;
    let skips = read_skips(work.alloc, walker, &plan, listed)?;
    let pairs = {
        let kept = plan.without(work.alloc, &skips)?;
        // A plan has far fewer records than a u64 counts.
        let _few = plan.count();
        let meter = &mut work.meter;
        let index = EmissionIndex::of_watched(work.alloc, &kept, request.job(), meter, watch)?;
        let walk = PlainWalk {
            request,
            index: &index,
            border: Border::before(0),
            named: 0,
        };
        check_parts(&walk, outputs, walker, work, watch)?
    };
    Ok(Yes { skips, pairs })
}

/// Judges a case, and adds to the meter what it looks up and maps.
fn judge_at_hand(case: &Case<'_>, work: &mut Work, progress: &dyn Progress) -> Result<Yes, No>
    requires count { (work.old.meter.lookups ≤ 2 ^ 63) × (work.old.meter.mapped ≤ 2 ^ 63) }
    ensures headline { IfOk result (IsWorth case.now) }
    ensures verdict { IsVerdictOn case.now result }
    ensures bounded { IsBounded (cut_by case.now.request.now case.now.input.now)
        (items_of case.now.certificate.now) work.old.meter work.new.meter }
    ensures exact { MapsExactly (cut_by case.now.request.now case.now.input.now)
        work.old.meter work.new.meter result }
{
    // A request's splits have at least one byte.
    let _size = case.request.split_size();
    if case.outputs.len() != case.request.parts() as usize {
        return Err(No::OutputCount);
    }
    let mut walker = walk(case.certificate);
    let mut outputs = MemoryOutputs::new(case.outputs);
    let computation = Computation {
        request: case.request,
        input: case.input,
    };
    match judge_all(&computation, &mut outputs, &mut walker, work, progress) {
        Ok(yes) => Ok(yes),
        Err(JudgeError::Fault(fault)) => Err(fault),
        Err(_) => unreachable!(),
    }
}

/// The verdict on a case. It looks up each entry in an index of all pairs. It reports now and then
/// to `progress` how many records are mapped, and after that how many pairs are judged.
pub fn judge_plainly(alloc: Global, case: &Case<'_>, progress: &dyn Progress) -> Result<Yes, No>
    ensures headline { IfOk result (IsWorth case.now) }
    ensures yes { IfOk result (λ y. verdict_on case.now ≡ Ok (accepted_of y)) }
    ensures no { IfErr result (λ e. (e ≡ OutOfMemory) ⊎ (verdict_on case.now ≡ Err e)) }
{
    judge_at_hand(case, &mut Work::new(alloc), progress)
}

/// What `judge_plainly` does, adding what it looks up and maps to the meter, whose counts are at
/// most 2^63 before. It looks up each entry and maps each record at most once; on a yes, each pair
/// and each record that isn't left out exactly once. The clauses speak only of the meter. That nothing is
/// looked up or mapped uncounted rests on the code of the index. On a no they say only that counts
/// didn't fall and stayed within bounds.
pub fn check_metered(
    alloc: Global,
    request: &Request,
    input: &Input,
    outputs: &[Vec<u8>],
    certificate: &[u8],
    meter: &mut Meter,
) -> Result<Yes, No>
    requires fits { split_total request.now.split input.now ≤ 2 ^ 20 }
    requires count { (meter.old.lookups ≤ 2 ^ 63) × (meter.old.mapped ≤ 2 ^ 63) }
    ensures headline { IfOk result (λ y. IsCertified request.now input.now
        (contents outputs.now) certificate.now y.skips.items y.pairs) }
    ensures yes { IfOk result
        (λ y. verdict_of request.now input.now (contents outputs.now) certificate.now
        ≡ Ok (accepted_of y)) }
    ensures no { IfErr result (λ e. (e ≡ OutOfMemory)
        ⊎ (verdict_of request.now input.now (contents outputs.now) certificate.now ≡ Err e)) }
    ensures bounded { IsBounded (cut_by request.now input.now)
        (items_of certificate.now) meter.old meter.new }
    ensures exact { IfOk result
        (λ y. IsExact (cut_by request.now input.now) y.skips.items y.pairs meter.old meter.new) }
{
    let case = Case {
        request,
        input,
        outputs,
        certificate,
    };
    let mut work = Work {
        alloc,
        meter: *meter,
    };
    let answer = judge_at_hand(&case, &mut work, &Unwatched);
    *meter = work.meter;
    answer
}
