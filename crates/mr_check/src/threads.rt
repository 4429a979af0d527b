//! The judge by many threads.
//!
//!     certificate   | section | section | section |     each walked by the thread that draws it
//!     joined        each walk comes to the border at which the next one began
//!     input         | window | window | window | ...    each tested by the thread that draws it
//!
//! Sections and windows are drawn. A walk begins at a border that was guessed. Where the one before
//! comes to another, where a walk fails or a claim is wrong, the calling thread judges on plainly from
//! the last border up to which all is right (`joining.rt`): so a no takes a yes, an index of all
//! pairs, and a plain walk over one section.
ghost use Rattle.std.specs.Prelude.{◌≡◌, ◌⊎◌, ◌<◌, ◌≤◌, ◌+◌, ◌^◌, ℕ, List, All, IfOk, IfErr};
ghost use Rattle.std.specs.Prelude.{IfSome, IsTrue, Option, Ok, Err, length, slice_index_or};
ghost use Rattle.mr_input.specs.Files.{contents, split_total};
ghost use Rattle.mr_certform.specs.declared.grammar_state.Item.{Item as Read};
ghost use Rattle.mr_certform.specs.Walking.{items_left, halt};
ghost use Rattle.mr_verdict.specs.declared.answers.No.TheVariants.{OutOfMemory};
ghost use Rattle.mr_verdict.specs.Verdict.{verdict_of};
ghost use Rattle.mr_verdict.specs.Steps.{Known, subject};
ghost use Rattle.mr_verdict.specs.Cases.{IsVerdictOn, IsWorth, verdict_on};
ghost use Rattle.mr_verdict.specs.Headline.{IsCertified, accepted_of};
ghost use Rattle.mr_judge.specs.Borders.{IsSmall};
ghost use Rattle.mr_certform.specs.declared.walker.Walker.{Walker as Walks};
ghost use Rattle.mr_check.specs.Sections.{AreJudged, AreWalked, IsRightTo, IsSection, IsWalked};
ghost use Rattle.mr_check.specs.Accepted.{PartsJudged};
ghost use Rattle.mr_check.specs.Walk.{known};
ghost use Rattle.mr_check.specs.Windows.{AreByWindows, IsByWindows, IsTested};
ghost use Rattle.mr_check.specs.declared.windows.Tested.{Tested as Found};

use crate::accept::{Front, claims_for};
use crate::given::{Given, Ground, total_bytes};
use crate::guesses::guesses_of;
use crate::joining::{Joined, join};
use crate::section::Section;
use crate::sections::{Cuts, sections_of};
use crate::walk::{Came, Walk, Walked};
use crate::windows::{Tested, sum_windows, test_window};
use mr_bytes::{Gate, OpenGate, Phase, Progress, Unwatched};
use mr_certform::Walker;
use mr_input::Input;
use mr_jobs::Request;
use mr_judge::{Border, Remainder, judge_plainly, judge_remainder, walk};
use mr_tickets::{Drawing, WorkPieces, draw_all};
use mr_verdict::{Case, Computation, No, Yes};
use std::alloc::{AllocError, Global};
use std::thread::Threads;

/// How a result is judged.
#[derive(Drop)]
pub struct JudgeOptions<'a, G: Gate, W: Progress> {
    /// The number of threads that judge, 1 to 64.
    pub threads: u32,
    /// Each thread calls it before and after each piece of work.
    pub gate: &'a G,
    /// Each thread reports each piece of work to it.
    pub progress: &'a W,
    pub ghost some: { 1 ≤ threads },
    pub ghost few: { threads ≤ 64 },
}

impl<'a, G: Gate, W: Progress> JudgeOptions<'a, G, W> {
    /// Options for `threads` threads, 1 to 64.
    pub fn of(threads: u32, gate: &'a G, progress: &'a W) -> JudgeOptions<'a, G, W>
        requires { (1 ≤ threads) × (threads ≤ 64) }
    {
        JudgeOptions {
            threads,
            gate,
            progress,
        }
    }
}

/// What runs the pieces of a judge's work.
#[derive(Drop)]
pub(crate) struct Crew<'a, R: Threads + Sync, G: Gate, W: Progress> {
    pub rt: &'a R,
    pub alloc: Global,
    pub options: &'a JudgeOptions<'a, G, W>,
}

impl<'a, R: Threads + Sync, G: Gate, W: Progress> Crew<'a, R, G, W> {
    /// How the threads draw `count` pieces, which the gate numbers from `first`.
    pub fn drawing(&self, count: u32, first: u32) -> Drawing<'a, G>
        requires { first + count < 2 ^ 32 }
        ensures count { result.count ≡ count }
        ensures threads { result.threads ≡ self.now.options.now.threads }
        ensures first { result.first ≡ first }
        ensures gate { result.gate ≡ self.now.options.now.gate }
    {
        Drawing {
            count,
            threads: self.options.threads,
            first,
            gate: self.options.gate,
        }
    }
}

/// The fewest items of a section: enough for some milliseconds of a thread's work.
const SECTION: u64 = 65_536;

/// How many bytes of input there are for each item of a section, on one thread. So each thread walks
/// some sections, and what they put off is in lists that are long enough to be filled.
const BYTES_AN_ITEM: u64 = 32;

/// How many items a section has at least for each window.
const ITEMS_A_LIST: u64 = 4;

/// How many of the partitions' first groups begin a section, however few items come before, and up
/// to how many windows.
const OPENINGS: usize = 64;

const FEW_WINDOWS: usize = 4096;

/// Walks a section from the border at which it is guessed to begin, for at most `most` items. How
/// many items the last section has is not known: its lists begin without room.
fn walk_section<'a>(
    alloc: Global,
    given: &Given<'a>,
    section: &Section<'_>,
    began: Border<'a>,
    most: u64,
) -> Result<Walked<'a>, AllocError>
    requires { IsSmall began }
    ensures windows { IfOk result (IsByWindows given.now) }
    ensures walked { IfOk result (IsWalked (known given.now) (items_left section.now.walker)) }
{
    let expected = if most == u64::MAX { 0 } else { most };
    let claims = claims_for(alloc, given, expected)?;
    let mut walk = Walk::at(alloc, given, &began, claims);
    let mut items = section.walker;
    let came = walk.take_some(given, &mut items, most, &Unwatched);
    // All walks stand until the windows are tested, so none keeps more than it put off.
    walk.claims.pack(alloc);
    Ok(walk.end(began, most, came))
}

/// The sections of a certificate, each to be walked from a border.
#[derive(Drop)]
struct Walking<'a, 'g, 's, 'i, 'b, 'w, W: Progress> {
    given: &'g Given<'a>,
    sections: &'s [Section<'i>],
    guesses: &'b [Border<'a>],
    watch: &'w W,
}

impl<'a, 'g, 's, 'i, 'b, 'w, W: Progress> WorkPieces for Walking<'a, 'g, 's, 'i, 'b, 'w, W> {
    ghost use Rattle.std.specs.Prelude.{◌≡◌, ◌<◌, All, length, slice_index_or};
    ghost use Rattle.mr_certform.specs.Walking.{items_left};
    ghost use Rattle.mr_check.specs.declared.section.Section.{Section as Begins};
    ghost use Rattle.mr_judge.specs.Borders.{IsSmall};
    ghost use Rattle.mr_check.specs.Sections.{IsWalked};
    ghost use Rattle.mr_check.specs.Walk.{known};
    ghost use Rattle.mr_check.specs.Windows.{IsByWindows};

    type Out = Walked<'a>;

    ghost has = { λ j p. (p < length j.sections.now) × (All IsSmall j.guesses.now) };

    ghost gives = { λ j p out. IsByWindows j.given.now out
        × ((d : Begins) → IsWalked (known j.given.now)
        (items_left (slice_index_or j.sections.now p d).walker) out) };

    fn do_piece(&self, alloc: Global, number: u32) -> Result<Walked<'a>, AllocError> {
        let all = self.sections.len() as u64;
        self.watch.report(Phase::Judging, u64::from(number), all);
        let at = number as usize;
        let began = match self.guesses.get(at) {
            Some(guess) => *guess,
            None => Border::before(0),
        };
        let most = match self.sections.get(at + 1) {
            Some(next) => next.at.saturating_sub(self.sections[at].at),
            None => u64::MAX,
        };
        walk_section(alloc, self.given, &self.sections[at], began, most)
    }
}

/// The windows of the input, each to be tested for what was put off.
#[derive(Drop)]
struct Testing<'a, 'g, 'b, 's, 'w, W: Progress> {
    given: &'g Given<'a>,
    walked: &'s [Walked<'b>],
    watch: &'w W,
}

impl<'a, 'g, 'b, 's, 'w, W: Progress> WorkPieces for Testing<'a, 'g, 'b, 's, 'w, W> {
    ghost use Rattle.std.specs.Prelude.{◌<◌, IfSome, length};
    ghost use Rattle.mr_check.specs.Windows.{AreByWindows, IsTested};

    type Out = Option<Tested>;

    ghost has = { λ t w. (w < length t.given.now.windows.now.list)
        × AreByWindows t.given.now t.walked.now };

    ghost gives = { λ t w out. IfSome out (IsTested t.given.now t.walked.now w) };

    fn do_piece(&self, alloc: Global, number: u32) -> Result<Option<Tested>, AllocError> {
        let all = self.given.windows.count() as u64;
        self.watch.report(Phase::Mapping, u64::from(number), all);
        Ok(test_window(alloc, self.given, self.walked, number as usize))
    }
}

impl<'c, R: Threads + Sync, G: Gate, W: Progress> Crew<'c, R, G, W> {
    /// How the certificate is cut. A section has a list for each window, so where there are many
    /// windows no section has few items.
    fn cuts(&self, given: &Given<'_>) -> Cuts {
        let items = total_bytes(given.kept.plan()) / BYTES_AN_ITEM;
        let windows = given.windows.count();
        let openings = if windows <= FEW_WINDOWS { OPENINGS } else { 0 };
        Cuts {
            share: SECTION
                .max(items / u64::from(self.options.threads))
                .max((windows as u64).saturating_mul(ITEMS_A_LIST)),
            openings,
        }
    }

    /// Walks all sections, which the gate numbers on from the windows.
    fn walk_sections<'a>(
        &self,
        given: &Given<'a>,
        sections: &[Section<'_>],
    ) -> Result<Vec<Walked<'a>>, AllocError>
        requires { length given.now.windows.now.list + length sections.now < 2 ^ 32 }
        ensures same { IfOk result (λ v. length v.items ≡ length sections.now) }
        ensures by { IfOk result (λ v. All (IsByWindows given.now) v.items) }
        ensures walked { IfOk result (λ v. AreWalked (known given.now) sections.now v.items) }
    {
        let outputs = given.outputs.outputs();
        let guesses = guesses_of(
            self.alloc,
            outputs,
            given.request.job().has_lines(),
            sections,
        )?;
        let walking = Walking {
            given,
            sections,
            guesses: &guesses,
            watch: self.options.progress,
        };
        let first = given.windows.count() as u32;
        let drawing = self.drawing(sections.len() as u32, first);
        draw_all(self.rt, self.alloc, &walking, &drawing)
    }

    /// The answer on the partitions: how many pairs there are if they are accepted, else the first
    /// fault behind the border up to which all is right. `None` if that is not known.
    fn judge_parts(&self, front: &Front<'_>, walker: &Walker<'_>) -> Option<Result<u64, No>>
        requires { length (items_left walker.now) < 2 ^ 63 }
        ensures { IfSome result (PartsJudged
            (λ is at. (is ≡ items_left walker.now) × (at ≡ halt walker.now)) front.now) }
    {
        let ground = Ground::of(self.alloc, &front.plan, &front.skips, front.outputs)?;
        let given = ground.given(front.request);
        let Ok(sections) = sections_of(self.alloc, walker, self.cuts(&given)) else {
            return None;
        };
        let pieces = given.windows.count().saturating_add(sections.len());
        if pieces > u32::MAX as usize {
            return None;
        }
        // What walks put off is let go before there is an index of all pairs.
        let joined = {
            let Ok(walked) = self.walk_sections(&given, &sections) else {
                return None;
            };
            self.join_tested(&given, &sections, &walked)?
        };
        Some(self.answer(&given, &joined))
    }

    /// Tests what walks over all sections put off, and joins them as far as it is right. Only if that
    /// is all, and there are as many pairs, `all` is how many.
    fn join_tested<'a, 'i>(
        &self,
        given: &Given<'a>,
        sections: &[Section<'i>],
        walked: &[Walked<'a>],
    ) -> Option<Joined<'a, 'i>>
        requires few { length given.now.windows.now.list < 2 ^ 32 }
        requires by { AreByWindows given.now walked.now }
        requires same { length walked.now ≡ length sections.now }
        ensures small { IfSome result (λ j. IsSmall j.border × (j.named ≤ 2 ^ 32)) }
        ensures right { (all : Walks) → All (IsSection all) sections.now
            → AreWalked (known given.now) sections.now walked.now
            → IfSome result (IsRightTo (known given.now) all) }
    {
        let hoped = join(sections, walked, walked.len())?;
        if hoped.walks == 0 && hoped.all.is_none() {
            return None;
        }
        let testing = Testing {
            given,
            walked,
            watch: self.options.progress,
        };
        let drawing = self.drawing(given.windows.count() as u32, 0);
        let Ok(tested) = draw_all(self.rt, self.alloc, &testing, &drawing) else {
            return None;
        };
        let found = sum_windows(given, walked, &tested)?;
        let joined = join(sections, walked, found.right)?;
        if let Some(named) = joined.all {
            if joined.walks < found.right && named == found.pairs {
                return Some(joined);
            }
        }
        Some(Joined {
            all: None,
            ..joined
        })
    }

    /// How many pairs there are, if all is right; else what the plain walk finds from the border on up
    /// to which it is.
    fn answer(&self, given: &Given<'_>, joined: &Joined<'_, '_>) -> Result<u64, No>
        requires small { IsSmall joined.now.border × (joined.now.named ≤ 2 ^ 32) }
        ensures { (all : Walks) → IsRightTo (known given.now) all joined.now
            → AreJudged (known given.now) all result }
    {
        if let Some(pairs) = joined.all {
            return Ok(pairs);
        }
        let rest = Remainder {
            request: given.request,
            kept: given.kept,
            outputs: given.outputs.outputs(),
            walker: joined.section.walker,
            border: joined.border,
            named: joined.named,
        };
        judge_remainder(self.alloc, &rest, &Unwatched)
    }

    /// The answer on a case. `None` if the walks don't tell it.
    fn judge_case(&self, case: &Case<'_>) -> Option<Result<Yes, No>>
        ensures headline { IfSome result (λ r. IfOk r (IsWorth case.now)) }
        ensures verdict { IfSome result (IsVerdictOn case.now) }
    {
        // A request's splits have at least one byte.
        let _size = case.request.split_size();
        if case.outputs.len() != case.request.parts() as usize {
            return None;
        }
        let computation = Computation {
            request: case.request,
            input: case.input,
        };
        let mut items = walk(case.certificate);
        let front = Front::read(self.alloc, &computation, case.outputs, &mut items)?;
        let answer = self.judge_parts(&front, &items)?;
        match answer {
            Ok(pairs) => Some(Ok(Yes {
                skips: front.skips,
                pairs,
            })),
            Err(fault) => Some(Err(fault)),
        }
    }
}

/// Judges a case by threads, as `check` does by one. The threads draw the sections of the
/// certificate and walk them; then they draw the windows of the input, map each, and test what the
/// walks put off. Where that gives no yes, the calling thread judges plainly, from the section on
/// before which all is right.
///
/// Each thread calls the gate before and after each piece of work that it draws, with the number of
/// its seat, from 0, and the piece's, from 0: first those of the windows, split by split, then the
/// sections. It reports how many of the phase's pieces were drawn before.
pub fn judge<R: Threads + Sync, G: Gate, W: Progress>(
    rt: &R,
    alloc: Global,
    case: &Case<'_>,
    options: &JudgeOptions<'_, G, W>,
) -> Result<Yes, No>
    ensures headline { IfOk result (IsWorth case.now) }
    ensures yes { IfOk result (λ y. verdict_on case.now ≡ Ok (accepted_of y)) }
    ensures no { IfErr result (λ e. (e ≡ OutOfMemory) ⊎ (verdict_on case.now ≡ Err e)) }
{
    let crew = Crew { rt, alloc, options };
    match crew.judge_case(case) {
        Some(answer) => answer,
        None => judge_plainly(alloc, case, &Unwatched),
    }
}

/// What `check` does, by `threads` threads, from 1 to 64 (`judge`). The answer is that of one
/// thread, memory aside. Where a thread can't be started, the calling one does its share.
pub fn check_threads<R: Threads + Sync>(
    rt: &R,
    alloc: Global,
    request: &Request,
    input: &Input,
    outputs: &[Vec<u8>],
    certificate: &[u8],
    threads: u32,
) -> Result<Yes, No>
    requires fits { split_total request.now.split input.now ≤ 2 ^ 20 }
    requires threads { (1 ≤ threads) × (threads ≤ 64) }
    ensures headline { IfOk result (λ y. IsCertified request.now input.now
        (contents outputs.now) certificate.now y.skips.items y.pairs) }
    ensures yes { IfOk result
        (λ y. verdict_of request.now input.now (contents outputs.now) certificate.now
        ≡ Ok (accepted_of y)) }
    ensures no { IfErr result (λ e. (e ≡ OutOfMemory)
        ⊎ (verdict_of request.now input.now (contents outputs.now) certificate.now ≡ Err e)) }
{
    check_gated(
        rt,
        alloc,
        request,
        input,
        outputs,
        certificate,
        threads,
        &OpenGate,
    )
}

/// What `check_threads` does, with the gate called around each piece of work (`judge`).
pub fn check_gated<R: Threads + Sync, G: Gate>(
    rt: &R,
    alloc: Global,
    request: &Request,
    input: &Input,
    outputs: &[Vec<u8>],
    certificate: &[u8],
    threads: u32,
    gate: &G,
) -> Result<Yes, No>
    requires fits { split_total request.now.split input.now ≤ 2 ^ 20 }
    requires threads { (1 ≤ threads) × (threads ≤ 64) }
    ensures headline { IfOk result (λ y. IsCertified request.now input.now
        (contents outputs.now) certificate.now y.skips.items y.pairs) }
    ensures yes { IfOk result
        (λ y. verdict_of request.now input.now (contents outputs.now) certificate.now
        ≡ Ok (accepted_of y)) }
    ensures no { IfErr result (λ e. (e ≡ OutOfMemory)
        ⊎ (verdict_of request.now input.now (contents outputs.now) certificate.now ≡ Err e)) }
{
    let case = Case {
        request,
        input,
        outputs,
        certificate,
    };
    let options = JudgeOptions::of(threads, gate, &Unwatched);
    judge(rt, alloc, &case, &options)
}
