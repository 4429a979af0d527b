//! What a result is judged against.
ghost use Rattle.std.specs.Prelude.{◌≡◌, ◌≤◌, Some, IfSome};
ghost use Rattle.mr_bytes.specs.Pairs.{Triple};
ghost use Rattle.mr_input.specs.Files.{contents};
ghost use Rattle.mr_index.specs.Index.{triples_of};
ghost use Rattle.mr_index.specs.Windows.{Tiles};
ghost use Rattle.mr_sequential.specs.Good.{named};

use crate::claims::Windows;
use crate::joined::JoinedOutputs;
use mr_bytes::{Name, RecordName, Value};
use mr_jobs::Request;
use mr_splits::{KeptPlan, Plan};
use std::alloc::Global;

/// What a result is judged against: all but the pairs that the job emits, which are had window by
/// window.
#[derive(Drop)]
pub(crate) struct Given<'a> {
    pub request: &'a Request,
    pub kept: &'a KeptPlan<'a>,
    pub outputs: &'a JoinedOutputs<'a>,
    pub windows: &'a Windows,
}

impl<'a> Given<'a> {
    /// The key of the pair that an entry claims is told by its group's line; its value is that of
    /// every pair of its record. `None` if there is no such record.
    #[inline(always)]
    pub fn value_of(&self, name: Name) -> Option<Value>
        ensures { IfSome result (λ v. (t : Triple)
            → named (triples_of self.now.request.now.job self.now.kept.now.cut
            self.now.kept.now.skips) name ≡ Some t
            → (t.name ≡ name) × (t.value ≡ v)) }
    {
        let Name { split, rec, .. } = name;
        let plan = self.kept.plan();
        // This shows the plan's size to be at least 1, so that records have distinct names.
        let _size = plan.size();
        if !plan.has_record(RecordName { split, rec }) {
            return None;
        }
        let job = self.request.job();
        if job.counts() {
            return Some(Value::One);
        }
        let record = plan.locate(split, rec);
        Some(job.value_at(record.file, record.start))
    }
}

/// The most bytes of text in the windows of an input, if its records are all of one length. Text
/// and table of a window then stay in a processor's cache. Smaller windows have more lists than a
/// walk keeps near, and each goes over all outputs for fewer claims.
const WINDOW_BYTES: u64 = 393_216;

/// How many bytes the files of an input have.
pub(crate) fn total_bytes(plan: &Plan<'_>) -> u64 {
    let input = plan.input();
    let mut bytes = 0u64;
    for file in 0..input.files() {
        bytes = bytes.saturating_add(input.len(file) as u64);
    }
    bytes
}

/// The power of two of records that a window has, by their average length.
fn shift_for(bytes: u64, records: u64) -> u32
    ensures { result ≤ 20 }
{
    let mut shift = 0;
    while shift < 20 && bytes << (shift + 1) <= WINDOW_BYTES.saturating_mul(records) {
        shift += 1;
    }
    shift
}

/// What a result is judged against, made for it.
#[derive(Drop)]
pub(crate) struct Ground<'a> {
    kept: KeptPlan<'a>,
    outputs: JoinedOutputs<'a>,
    windows: Windows,
}

impl<'a> Ground<'a> {
    /// `None` if memory is wanting, or if the outputs have 4 GiB or more in all.
    pub fn of(
        alloc: Global,
        plan: &'a Plan<'a>,
        skips: &'a [RecordName],
        outputs: &'a [Vec<u8>],
    ) -> Option<Ground<'a>>
        ensures kept { IfSome result (λ g. g.kept
            ≡ record { cut = plan.entry.now; skips = skips.entry.now }) }
        ensures outputs { IfSome result (λ g. g.outputs ≡ contents outputs.entry.now) }
        ensures windows { IfSome result (λ g. Tiles plan.entry.now 0 0 g.windows.list) }
    {
        let Ok(kept) = plan.without(alloc, skips) else {
            return None;
        };
        let Ok(Some(outputs)) = JoinedOutputs::of(alloc, outputs) else {
            return None;
        };
        let shift = shift_for(total_bytes(plan), plan.count() as u64);
        let Ok(windows) = Windows::cut(alloc, plan, shift) else {
            return None;
        };
        Some(Ground {
            kept,
            outputs,
            windows,
        })
    }

    pub fn given<'g>(&'g self, request: &'g Request) -> Given<'g>
        ensures request { result.request.now ≡ request.entry.now }
        ensures kept { result.kept.now ≡ self.entry.now.kept }
        ensures outputs { result.outputs.now ≡ self.entry.now.outputs }
        ensures windows { result.windows.now ≡ self.entry.now.windows }
    {
        Given {
            request,
            kept: &self.kept,
            outputs: &self.outputs,
            windows: &self.windows,
        }
    }
}
