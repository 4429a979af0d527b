//! Tests what a walk put off, window by window of the input.
//!
//!     window    map its records; then of each claim in its list: the pair of that name is there,
//!               and the line tells its key
//!
//! A window is as large as a processor's cache holds, so no look-up of a pair waits for memory. Each
//! record is mapped once. The claims of a list may come in any order: it is asked only that each is
//! right.
//!
//! Where the outputs are larger than a cache, a look at a line waits for memory too. There the lines of
//! many claims are read, one after another, before these claims are tested: the waits overlap.
ghost use Rattle.std.specs.Prelude.{◌≡◌, ℕ, Option, ◌+◌, ◌≤◌, ◌<◌, All, IfSome, IsTrue, length};
ghost use Rattle.std.specs.Prelude.{slice_index_or};
ghost use Rattle.mr_index.specs.Windows.{Tiles};
ghost use Rattle.mr_check.specs.Claims.{claims_of};
ghost use Rattle.mr_check.specs.Sections.{HoldTo};
ghost use Rattle.mr_check.specs.Walk.{HoldsFor, known};
ghost use Rattle.mr_check.specs.Windows.{IsMapped, IsRightIn, AreByWindows, IsByWindows, IsTested};
ghost use Rattle.mr_check.specs.declared.windows.Tested.{Tested as Found};

use crate::claims::{Late, place_in, rec_in};
use crate::given::Given;
use crate::lines::{NEAR, tells};
use crate::walk::Walked;
use mr_bytes::{Phase, Progress, Throttle};
use mr_index::{Piece, Window};
use std::alloc::Global;

/// Whether a claim's pair is there, and its line tells the pair's key. The output that was looked
/// at last is `p`.
#[inline(always)]
fn is_right(given: &Given<'_>, piece: &Piece, bits: u32, late: Late, p: &mut usize) -> bool
    requires bits { bits ≤ 32 }
    ensures { (window : Window) → IsTrue result → IsMapped given.now window piece.now
        → IsRightIn given.now bits window late }
{
    let Some((keys, start, end)) = piece.key(rec_in(late.low, bits), place_in(late.low, bits))
    else {
        return false;
    };
    tells(given.outputs.rest_at(late.line, p), keys, start, end)
}

/// Of how many claims the lines are read ahead.
const AHEAD: usize = 64;

/// Up to how many bytes of outputs stay in a processor's cache.
const CACHED: u64 = 2 << 20;

/// Reads ahead in a list of claims. The sum of the bytes that it reads is of no use, but without it
/// they need not be read. Lists are far too short for it to reach its bound.
#[derive(Drop)]
struct Ahead {
    /// How many claims were passed.
    passed: usize,
    /// Whether a look at a line waits for memory.
    waits: bool,
    sum: u64,
}

impl Ahead {
    /// Passes a claim. It reads the lines of the next ones where those read so far are passed.
    #[inline(always)]
    fn pass(&mut self, given: &Given<'_>, list: &[Late]) {
        if self.waits && self.passed % AHEAD == 0 {
            let more = read_lines(given, list, self.passed);
            self.sum = self.sum.wrapping_add(more);
        }
        self.passed = self.passed.wrapping_add(1);
    }
}

/// Reads of the lines of claim `from` and those after it both ends of what `tells` looks at, as far as
/// they stand behind that line in its output. Returns the bytes' sum.
#[inline(never)]
fn read_lines(given: &Given<'_>, list: &[Late], from: usize) -> u64 {
    let next = list.get(from..).unwrap_or(&[]);
    let Some(first) = next.first() else {
        return 0;
    };
    let mut p = 0;
    let rest = given.outputs.rest_at(first.line, &mut p);
    let mut sum = 0u64;
    for late in &next[..next.len().min(AHEAD)] {
        let at = late.line.wrapping_sub(first.line) as usize;
        if let Some(near) = rest.get(at..at + NEAR) {
            sum = sum.wrapping_add(u64::from(near[0]) + u64::from(near[NEAR - 1]));
        }
    }
    sum
}

/// So it is for each claim of a list.
#[inline(never)]
fn are_right(given: &Given<'_>, piece: &Piece, bits: u32, list: &[Late]) -> bool
    requires bits { bits ≤ 32 }
    ensures { (window : _) → IsTrue result → IsMapped given.now window piece.now
        → All (IsRightIn given.now bits window) list.now }
{
    let mut p = 0;
    let mut ahead = Ahead {
        passed: 0,
        waits: given.outputs.len() > CACHED,
        sum: 0,
    };
    for late in list {
        ahead.pass(given, list);
        if !is_right(given, piece, bits, *late, &mut p) {
            return false;
        }
    }
    ahead.sum < u64::MAX
}

/// A window that was tested: how many pairs its records emit, and of how many of the walks, from the
/// first on, each claim is right there.
#[derive(Clone, Copy)]
pub(crate) struct Tested {
    pub pairs: u64,
    pub right: usize,
}

/// Tests the claims of window `w`, walk by walk up to one with a wrong claim.
pub(crate) fn test_window(
    alloc: Global,
    given: &Given<'_>,
    walked: &[Walked<'_>],
    w: usize,
) -> Option<Tested>
    requires within { w < length given.now.windows.now.list }
    requires by { AreByWindows given.now walked.now }
    ensures { IfSome result (IsTested given.now walked.now w) }
{
    // This shows the plan's size to be at least 1, so that records have distinct names.
    let _size = given.kept.plan().size();
    let window = given.windows.window(w);
    let Ok(piece) = Piece::map(alloc, given.kept, given.request.job(), window) else {
        return None;
    };
    let bits = given.windows.bits();
    let mut right = 0;
    while right < walked.len() {
        if !are_right(given, &piece, bits, walked[right].claims.of_window(w)) {
            break;
        }
        right += 1;
    }
    Some(Tested {
        pairs: piece.len() as u64,
        right,
    })
}

/// How many pairs the input has, and of how many of the walks, from the first on, each claim is
/// right, if all windows were tested.
pub(crate) fn sum_windows(
    given: &Given<'_>,
    walked: &[Walked<'_>],
    tested: &[Option<Tested>],
) -> Option<Tested>
    requires by { AreByWindows given.now walked.now }
    requires all { length tested.now ≡ length given.now.windows.now.list }
    requires tested { (w : ℕ) (d : Option Found) → w < length tested.now
        → IfSome (slice_index_or tested.now w d) (IsTested given.now walked.now w) }
    ensures pairs { IfSome result (λ t. length (known given.now).triples ≡ t.pairs) }
    ensures right { IfSome result (λ t. HoldTo (known given.now) t.right walked.now) }
    ensures few { IfSome result (λ t. t.right ≤ length walked.now) }
{
    // As in `test_window`.
    let _size = given.kept.plan().size();
    let mut sum = 0u64;
    let mut right = walked.len();
    for w in 0..tested.len() {
        let window = tested[w]?;
        sum = sum.checked_add(window.pairs)?;
        right = right.min(window.right);
    }
    Some(Tested { pairs: sum, right })
}

/// Tests what one walk put off. Returns how many pairs the input has, if all claims are right.
pub(crate) fn test_one(
    alloc: Global,
    given: &Given<'_>,
    walked: Walked<'_>,
    progress: &dyn Progress,
) -> Option<u64>
    requires tiles { Tiles given.now.kept.now.cut 0 0 given.now.windows.now.list }
    requires by { IsByWindows given.now walked }
    ensures pairs { IfSome result (λ n. length (known given.now).triples ≡ n) }
    ensures right { IfSome result
        (λ _. HoldsFor (known given.now) (claims_of walked.entry.claims)) }
{
    let all = [walked];
    let count = given.windows.count();
    let mut pace = Throttle::new(Phase::Mapping, count as u64);
    let Ok(mut tested) = Vec::with_capacity(alloc, count) else {
        return None;
    };
    for w in 0..count {
        pace.reach(w as u64, progress);
        let window = test_window(alloc, given, &all, w)?;
        if window.right == 0 {
            return None;
        }
        let Ok(()) = tested.push(Some(window)) else {
            return None;
        };
    }
    let found = sum_windows(given, &all, &tested)?;
    if found.right == 0 {
        return None;
    }
    Some(found.pairs)
}
