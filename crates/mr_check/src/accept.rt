//! The fast yes: a result that is accepted is good. Of one that isn't, nothing is said: then the
//! plain judge (`mr_judge`) tells the verdict.
//!
//!     certificate, outputs  -walk->  claims, by windows  -windows->  all right, so many pairs
//!
//! A result is accepted where no test of the judge fails if the claims are right, each claim is
//! right, and there are as many entries as pairs.
ghost use Rattle.std.specs.Prelude.{◌≡◌, ◌≤◌, ◌<◌, ◌^◌, ℕ, List, [], Ok, IfOk, IfSome};
ghost use Rattle.std.specs.Prelude.{Result};
ghost use Rattle.mr_input.specs.Files.{contents};
ghost use Rattle.mr_certform.specs.declared.grammar_state.Item.{Item as Read};
ghost use Rattle.mr_certform.specs.declared.grammar_state.GrammarState.TheVariants.{AtMagic};
ghost use Rattle.mr_verdict.specs.declared.answers.No.{No as Fault};
ghost use Rattle.mr_verdict.specs.Items.{CanCome};
ghost use Rattle.mr_judge.specs.Kinds.{InKind};
ghost use Rattle.mr_judge.specs.Outputs.{AllJudged};
ghost use Rattle.mr_check.specs.Accepted.{PartsJudged, answer_behind};
ghost use Rattle.mr_check.specs.Claims.{claims_of};

use crate::claims::Claims;
use crate::given::{Given, Ground, total_bytes};
use crate::walk::{Came, Walk};
use crate::windows::test_one;
use mr_bytes::{Progress, RecordName};
use mr_jobs::Request;
use mr_judge::{Border, plan_of};
use mr_splits::Plan;
use mr_verdict::{Computation, ItemSource, Yes, expect_count, expect_header, read_skips};
use std::alloc::{AllocError, Global};

/// What is known behind the front: the plan of the input, and the records that are left out.
#[derive(Drop)]
pub(crate) struct Front<'a> {
    pub request: &'a Request,
    pub outputs: &'a [Vec<u8>],
    pub plan: Plan<'a>,
    pub skips: Vec<RecordName>,
}

impl<'a> Front<'a> {
    /// Reads header and left-out records, if they have no fault. An answer on the partitions behind
    /// them is then one on all.
    pub fn read<I: ItemSource>(
        alloc: Global,
        computation: &Computation<'a>,
        outputs: &'a [Vec<u8>],
        items: &mut I,
    ) -> Option<Front<'a>>
        requires sound { I.sound items.old }
        requires given { CanCome (I.gives items.old) }
        requires few { I.most items.old ≤ 2 ^ 63 }
        requires front { (is : List Read) (at : ℕ) → I.gives items.old is at → InKind AtMagic is }
        ensures sound { IfSome result (λ _. I.sound items.new) }
        ensures few { IfSome result (λ _. I.most items.new < 2 ^ 63) }
        ensures judged { IfSome result (λ f. (answer : Result ℕ Fault)
            → PartsJudged (I.gives items.new) f answer
            → AllJudged (I.gives items.old) computation.now.request.now computation.now.input.now
            0 0 (answer_behind f.skips answer) (contents outputs.entry.now)) }
    {
        let request = computation.request;
        let Ok(()) = expect_header(items, request, computation.input) else {
            return None;
        };
        let Ok(listed) = expect_count(items, request.max_skips()) else {
            return None;
        };
        let Ok(plan) = plan_of(alloc, request, computation.input) else {
            return None;
        };
        let Ok(skips) = read_skips(alloc, items, &plan, listed) else {
            return None;
        };
        Some(Front {
            request,
            outputs,
            plan,
            skips,
        })
    }
}

/// Lists for what a walk puts off: for as many as `pairs`, if the job emits so many. All keys that a
/// job emits have at most as many bytes as the input.
pub(crate) fn claims_for<'a>(
    alloc: Global,
    given: &Given<'a>,
    pairs: u64,
) -> Result<Claims<'a>, AllocError>
    ensures windows { IfOk result (λ c. c.windows ≡ given.now.windows.now) }
    ensures none { IfOk result (λ c. claims_of c ≡ []) }
{
    let bytes = total_bytes(given.kept.plan());
    // About how many pairs a job emits that emits one for each word: in texts a word takes some
    // seven bytes. A wrong number costs memory or time alone.
    let expected = if matches!(given.request.job().number(), 1 | 4) {
        (bytes / 7).min(pairs) as usize
    } else {
        0
    };
    Claims::new(alloc, given.windows, bytes, expected)
}

/// How many pairs there are, if the partitions are accepted.
fn accept_parts<I: ItemSource>(
    alloc: Global,
    front: &Front<'_>,
    items: &mut I,
    progress: &dyn Progress,
) -> Option<u64>
    requires sound { I.sound items.old }
    requires few { I.most items.old < 2 ^ 63 }
    ensures { IfSome result (λ n. PartsJudged (I.gives items.old) front.now (Ok n)) }
{
    let ground = Ground::of(alloc, &front.plan, &front.skips, front.outputs)?;
    let given = ground.given(front.request);
    let began = Border::before(0);
    let most = u64::MAX;
    let Ok(claims) = claims_for(alloc, &given, most) else {
        return None;
    };
    let mut walk = Walk::at(alloc, &given, &began, claims);
    let came = walk.take_some(&given, items, most, progress);
    let Came::ToEnd = came else {
        return None;
    };
    let named = walk.judging.named();
    let walked = walk.end(began, most, came);
    let emitted = test_one(alloc, &given, walked, progress)?;
    if emitted != named {
        return None;
    }
    Some(named)
}

/// What the judge accepts of a computation: the outputs, and the certificate's items.
pub(crate) fn accept<I: ItemSource>(
    alloc: Global,
    computation: &Computation<'_>,
    outputs: &[Vec<u8>],
    items: &mut I,
    progress: &dyn Progress,
) -> Option<Yes>
    requires sound { I.sound items.old }
    requires given { CanCome (I.gives items.old) }
    requires few { I.most items.old ≤ 2 ^ 63 }
    requires front { (is : List Read) (at : ℕ) → I.gives items.old is at → InKind AtMagic is }
    ensures { IfSome result (λ y. AllJudged (I.gives items.old) computation.now.request.now
        computation.now.input.now 0 0 (Ok y) (contents outputs.now)) }
{
    let front = Front::read(alloc, computation, outputs, items)?;
    let pairs = accept_parts(alloc, &front, items, progress)?;
    Some(Yes {
        skips: front.skips,
        pairs,
    })
}
