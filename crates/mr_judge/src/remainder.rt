//! Judges what is left of a certificate at hand, where all before a border between two groups
//! passed: the plain walk begins at that border, with an index of all pairs.
ghost use Rattle.std.specs.Prelude.{◌<◌, ◌≤◌, ◌^◌, length};
ghost use Rattle.mr_certform.specs.Walking.{items_left};
ghost use Rattle.mr_judge.specs.Borders.{IsSmall};
ghost use Rattle.mr_judge.specs.Remainder.{IsJudged};

use crate::border::Border;
use crate::judge::Work;
use crate::outputs::MemoryOutputs;
use crate::parts::{PlainWalk, check_parts};
use mr_bytes::Progress;
use mr_certform::Walker;
use mr_index::EmissionIndex;
use mr_jobs::Request;
use mr_splits::KeptPlan;
use mr_verdict::{JudgeError, No};
use std::alloc::Global;

/// What is left of a judgement at a border: `walker` is behind all items that passed, and `named`
/// of them were entries.
#[derive(Clone, Copy)]
pub struct Remainder<'a> {
    pub request: &'a Request,
    pub kept: &'a KeptPlan<'a>,
    pub outputs: &'a [Vec<u8>],
    pub walker: Walker<'a>,
    pub border: Border<'a>,
    pub named: u64,
}

/// Judges what is left, and returns how many entries there are in all. It reports now and then to
/// `progress` how many records are mapped, and after that how many pairs are judged.
pub fn judge_remainder(
    alloc: Global,
    rest: &Remainder<'_>,
    progress: &dyn Progress,
) -> Result<u64, No>
    requires small { IsSmall rest.now.border }
    requires few { length (items_left rest.now.walker) < 2 ^ 63 }
    requires named { rest.now.named ≤ 2 ^ 63 }
    ensures { IsJudged rest.now result }
{
    let Remainder { request, kept, .. } = *rest;
    // A plan has far fewer records than a u64 counts.
    let _few = kept.plan().count();
    let mut work = Work::new(alloc);
    let meter = &mut work.meter;
    let index = EmissionIndex::of_watched(alloc, kept, request.job(), meter, progress)?;
    let walk = PlainWalk {
        request,
        index: &index,
        border: rest.border,
        named: rest.named,
    };
    let mut walker = rest.walker;
    let mut outputs = MemoryOutputs::at(rest.outputs, rest.border.next, rest.border.from);
    match check_parts(&walk, &mut outputs, &mut walker, &mut work, progress) {
        Ok(named) => Ok(named),
        Err(JudgeError::Fault(fault)) => Err(fault),
        Err(_) => unreachable!(),
    }
}
