//! The plain walk over a certificate's partitions.
//!
//!     next_item -> item -look_up-> item, pair -step-> the first fault, or the next item
//!
//! At the items' end each emitted pair must have been named. Nothing behind a fault is read or
//! looked up. Invariant: the items so far have no fault, and each entry among them was looked up
//! once. Each look-up waits for memory, so a yes is found faster by `mr_check`.
ghost use Rattle.std.specs.Prelude.{◌≡◌, ◌⊎◌, ◌<◌, ◌≤◌, ◌+◌, ◌^◌, ◌∷◌, [], IfOk, MatchResult};
ghost use Rattle.std.specs.Prelude.{nat_le};
ghost use Rattle.mr_verdict.specs.Verdict.{entries_in, passes};
ghost use Rattle.mr_verdict.specs.Steps.{Answers, subject_with};
ghost use Rattle.mr_verdict.specs.Items.{CanCome, Each};
ghost use Rattle.mr_judge.specs.Borders.{IsSmall, begun_at, ground_of};
ghost use Rattle.mr_judge.specs.Rows.{IsFound};
ghost use Rattle.mr_judge.specs.Outputs.{CanCome as CanComeAhead, Fits, Through, JudgesOn};
ghost use Rattle.mr_judge.specs.Outputs.{HaltsItems, HaltsOutputs, begins};

use crate::border::{Border, FoundItem};
use crate::judge::Work;
use crate::judge_state::JudgeState;
use crate::outputs::Outputs;
use mr_bytes::{Phase, Progress, Throttle};
use mr_certform::Item;
use mr_index::{EmissionIndex, Meter};
use mr_jobs::Request;
use mr_verdict::{ItemSource, JudgeError, No};

/// What a plain walk judges against: the request, and all that its job emits. And where it begins:
/// at a border, after so many entries.
#[derive(Clone, Copy)]
pub(crate) struct PlainWalk<'a> {
    pub request: &'a Request,
    pub index: &'a EmissionIndex,
    pub border: Border<'a>,
    pub named: u64,
}

/// Judges the partitions from a border on, and the items' end, up to the first fault. Returns the
/// number of entries, with those before the border. It looks up each entry at most once, and
/// reports to `watch` how many entries are judged.
pub(crate) fn check_parts<I: ItemSource, O: Outputs>(
    walk: &PlainWalk<'_>,
    outputs: &mut O,
    walker: &mut I,
    work: &mut Work,
    watch: &dyn Progress,
) -> Result<u64, JudgeError>
    requires small { IsSmall walk.now.border }
    requires named { walk.now.named ≤ 2 ^ 63 }
    requires sound { I.sound walker.old }
    requires some { CanCome (I.gives walker.old) }
    requires few { I.most walker.old < 2 ^ 63 }
    requires begins { Each (I.gives walker.old) begins ⊎ O.begun outputs.old }
    requires count { work.old.meter.lookups ≤ 2 ^ 63 }
    requires outputs { CanComeAhead (O.gives outputs.old) }
    requires fits { Fits (O.gives outputs.old) (begun_at walk.now) }
    requires place { O.place outputs.old ≡ walk.now.border.from }
    ensures judged { Through (O.gives outputs.old) (begun_at walk.now)
        (λ outs. JudgesOn (I.gives walker.old) (subject_with (ground_of walk.now) outs)
        (begun_at walk.now) work.old.meter.lookups work.new.meter.lookups result) }
    ensures all { IfOk result
        (λ n. work.new.meter.lookups + walk.now.named ≡ work.old.meter.lookups + n) }
    ensures mapped { work.new.meter.mapped ≡ work.old.meter.mapped }
    ensures stops { HaltsItems I.steady (I.failed walker.old) (I.failed walker.new) result }
    ensures halts { HaltsOutputs O.steady (O.failed outputs.old) (O.failed outputs.new) result }
{
    let request = walk.request;
    let index = walk.index;
    let mut judging = JudgeState::resume(work.alloc, &walk.border, walk.named);
    let mut pace = Throttle::new(Phase::Judging, index.total());
    loop {
        let named = judging.named();
        pace.reach(named, watch);
        let item = walker.next_item()?;
        if let Item::End = item {
            test_named(index.total(), named)?;
            return Ok(named);
        }
        let row = look_up(index, item, &mut work.meter);
        judging.step(request, outputs, &row)?;
    }
}

/// The item with its pair, if it is an entry and there is such a pair.
#[inline(always)]
fn look_up<'a>(index: &'a EmissionIndex, item: Item, meter: &mut Meter) -> FoundItem<'a>
    requires { meter.old.lookups + entries_in (item ∷ []) < 2 ^ 64 }
    ensures item { result.item ≡ item }
    ensures found { IsFound index.entry.now result }
    ensures lookups { meter.new.lookups ≡ meter.old.lookups + entries_in (item ∷ []) }
    ensures mapped { meter.new.mapped ≡ meter.old.mapped }
{
    let found = match item {
        Item::Entry(name) => index.pair(name, meter),
        _ => None,
    };
    FoundItem { item, found }
}

/// Whether every emitted pair has a name.
pub fn test_named(emitted: u64, named: u64) -> Result<(), No>
    ensures { let fs = passes (nat_le emitted named)
        (No.Unnamed emitted named) in MatchResult result (λ _. fs ≡ []) (λ e. Answers fs e) }
{
    if named < emitted {
        return Err(No::Unnamed { emitted, named });
    }
    Ok(())
}
