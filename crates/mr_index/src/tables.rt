//! Tables of what the records of a window emit: the pairs in order, and where each record's end.
//!
//!     record   0   1   2
//!     ends   [ 2   2   3 ]
//!     pairs  [ a b     c ]
//!
//! Two looks find a pair: it is at `ends[record - 1] + place`, if that is below `ends[record]`.
ghost use Rattle.std.specs.Prelude.{◌≡◌, ℕ, ◌+◌, ◌≤◌, ◌<◌, ◌^◌, ◌++◌, [], ◌∷◌, IfOk, OnOk, OnErr};
ghost use Rattle.std.specs.Prelude.{length};
ghost use Rattle.mr_jobs.specs.Emissions.{emissions};
ghost use Rattle.mr_jobs.specs.Hits.{IsLine};
ghost use Rattle.mr_splits.specs.Named.{is_left_out};
ghost use Rattle.mr_splits.specs.Cut.{records_of, nth_named};
ghost use Rattle.mr_index.specs.Index.{mapped_among};
ghost use Rattle.mr_index.specs.Pairs.{pairs_seen, EndsRise, Sound, Fits};
ghost use Rattle.mr_index.specs.Building.{ended, IsPlaceOf, Shows};
ghost use Rattle.mr_index.specs.Windows.{piece_of, window_records, IsWindow};

use crate::pairs::{Pairs, fill, push_end, start_of};
use crate::window::Window;
use mr_bytes::{Phase, Progress, Throttle};
use mr_jobs::{Job, Mapper};
use mr_splits::{KeptPlan, Plan, RecordAt};
use std::alloc::{AllocError, Global};

/// Room for some records in tables: for as many records, and for bytes of keys.
#[derive(Clone, Copy)]
struct Room {
    records: usize,
    bytes: usize,
}

/// What maps one record after another: a job with its input, and how many records it mapped.
#[derive(Drop)]
pub(crate) struct Mapping<'a> {
    pub mapper: Mapper<'a, 'a>,
    pub mapped: u64,
    pace: Throttle,
}

impl<'a> Mapping<'a> {
    pub(crate) fn new(alloc: Global, plan: &Plan<'a>, job: &'a Job) -> Mapping<'a>
        ensures source { result.mapper ≡ record { job = job.entry.now; files = plan.now.files } }
        ensures none { result.mapped ≡ 0 }
    {
        Mapping {
            mapper: job.mapper(alloc, plan.input()),
            mapped: 0,
            pace: Throttle::new(Phase::Mapping, plan.count() as u64),
        }
    }
}

/// Tables of what the records of a window emit.
#[derive(Drop)]
pub(crate) struct Tables {
    /// Where each record's pairs end, up to the last record that emits any.
    pub ends: Vec<u32>,
    pub pairs: Pairs,
    /// What the first pairs make room for.
    room: Room,
}

impl Tables {
    fn new(alloc: Global, room: Room) -> Tables
        ensures sound { Sound result.pairs }
        ensures none { (pairs_seen result.pairs ≡ []) × (result.ends.items ≡ []) }
    {
        Tables {
            ends: Vec::new(alloc),
            pairs: Pairs::new(alloc),
            room,
        }
    }

    /// The number among all of the pair at a place of a record, if there is such a pair.
    #[inline]
    pub(crate) fn place_of(&self, number: usize, place: u32) -> Option<usize>
        requires { EndsRise 0 (length (pairs_seen self.now.pairs)) self.now.ends.items }
        ensures { IsPlaceOf self.now.ends.items (pairs_seen self.now.pairs) number place result }
    {
        if self.ends.len() <= number {
            return None;
        }
        let start = start_of(self.ends.as_slice(), number);
        if (self.ends[number] as usize).saturating_sub(start) <= place as usize {
            return None;
        }
        Some(start + place as usize)
    }

    /// Makes room after the first pairs only: a window that emits nothing takes none, and the lists
    /// of others need not move.
    fn make_room(&mut self, before: usize) -> Result<(), AllocError>
        requires sound { Sound self.old.pairs }
        ensures sound { OnOk result (Sound self.new.pairs) }
        ensures pairs { OnOk result (pairs_seen self.new.pairs ≡ pairs_seen self.old.pairs) }
        ensures ends { OnOk result (self.new.ends.items ≡ self.old.ends.items) }
    {
        if 0 < before || self.pairs.len() == 0 {
            return Ok(());
        }
        self.ends.reserve(self.room.records)?;
        self.pairs.reserve(self.room.bytes)
    }

    /// Ends the pairs of record `number`, before which there were `before` pairs.
    fn end_record(&mut self, number: usize, before: usize) -> Result<(), AllocError>
        requires sound { Sound self.old.pairs }
        requires few { (before < 2 ^ 32) × (length (pairs_seen self.old.pairs) < 2 ^ 32) }
        ensures pairs { self.new.pairs ≡ self.old.pairs }
        ensures ends { OnOk result (self.new.ends.items
            ≡ ended number before (length (pairs_seen self.old.pairs)) self.old.ends.items) }
    {
        let after = self.pairs.len();
        if before == after {
            return Ok(());
        }
        fill(&mut self.ends, number, before)?;
        push_end(&mut self.ends, after)
    }

    /// Appends what record `number` emits, and counts it. Skipped records emitted nothing.
    fn map_record(
        &mut self,
        number: usize,
        line: RecordAt<'_>,
        mapping: &mut Mapping<'_>,
    ) -> Result<(), AllocError>
        requires sound { Sound self.old.pairs }
        requires small { length line.bytes.now ≤ 2 ^ 30 }
        requires line { IsLine mapping.old.mapper.files line.file line.start line.bytes.now }
        requires fits { Fits (pairs_seen self.old.pairs
            ++ emissions mapping.old.mapper.job line.file line.start line.bytes.now) }
        requires room { mapping.old.mapped + 1 < 2 ^ 64 }
        ensures same { mapping.new.mapper ≡ mapping.old.mapper }
        ensures sound { OnOk result (Sound self.new.pairs) }
        ensures pairs { OnOk result (pairs_seen self.new.pairs ≡ pairs_seen self.old.pairs
            ++ emissions mapping.old.mapper.job line.entry.file line.entry.start
            line.entry.bytes.now) }
        ensures ends { OnOk result (self.new.ends.items
            ≡ ended number (length (pairs_seen self.old.pairs))
            (length (pairs_seen self.new.pairs)) self.old.ends.items) }
        ensures counted { OnOk result (mapping.new.mapped ≡ mapping.old.mapped + 1) }
        ensures err { OnErr result (mapping.new.mapped ≡ mapping.old.mapped) }
    {
        let before = self.pairs.len();
        self.pairs.map(&mut mapping.mapper, line)?;
        self.make_room(before)?;
        self.end_record(number, before)?;
        mapping.mapped += 1;
        Ok(())
    }
}

fn room_of(plan: &Plan<'_>, window: Window) -> Room
    requires { IsWindow plan.now window }
{
    let Window { split, from, end } = window;
    if from == end {
        return Room {
            records: 0,
            bytes: 0,
        };
    }
    let last = plan.locate(split, end - 1);
    let bytes = (last.start as usize)
        .saturating_add(last.bytes.len())
        .saturating_sub(plan.locate(split, from).start as usize);
    Room {
        records: (end - from) as usize,
        bytes,
    }
}

/// Whether the record of this number among all is left out.
fn leaves_out(kept: &KeptPlan<'_>, index: usize) -> bool
    requires { index < length (records_of kept.now.cut) }
    ensures { result ≡ is_left_out kept.now.skips (nth_named (records_of kept.now.cut) index).name }
{
    kept.left_out().has(index)
}

/// What the kept records of a window emit. It reports to `watch` now and then how many of the
/// plan's records are done.
pub(crate) fn map_window(
    alloc: Global,
    kept: &KeptPlan<'_>,
    window: Window,
    mapping: &mut Mapping<'_>,
    watch: &dyn Progress,
) -> Result<Tables, AllocError>
    requires window { IsWindow kept.now.cut window }
    requires files { mapping.old.mapper.files ≡ kept.now.cut.files }
    requires room { mapping.old.mapped + mapped_among kept.now.skips
        (window_records kept.now.cut window.split window.from window.end) < 2 ^ 64 }
    ensures same { mapping.new.mapper ≡ mapping.old.mapper }
    ensures sound { IfOk result (λ t. Sound t.pairs) }
    ensures shows { IfOk result (λ t. Shows
        (piece_of mapping.old.mapper.job kept.now window.split window.from window.end)
        t.ends.items (pairs_seen t.pairs)) }
    ensures few { IfOk result (λ t. length (pairs_seen t.pairs) < 2 ^ 32) }
    ensures counted { OnOk result (mapping.new.mapped ≡ mapping.old.mapped
        + mapped_among kept.now.skips
        (window_records kept.now.cut window.split window.from window.end)) }
    ensures err { OnErr result ((mapping.old.mapped ≤ mapping.new.mapped)
        × (mapping.new.mapped ≤ mapping.old.mapped + mapped_among kept.now.skips
        (window_records kept.now.cut window.split window.from window.end))) }
{
    let plan = kept.plan();
    // An input's files emit few enough pairs and bytes of keys for the tables.
    let _files = plan.input().files();
    let mut tables = Tables::new(alloc, room_of(plan, window));
    for number in window.from..window.end {
        let index = plan.record_index(window.split, number);
        mapping.pace.reach(index as u64, watch);
        if leaves_out(kept, index) {
            continue;
        }
        let line = plan.locate(window.split, number);
        tables.map_record((number - window.from) as usize, line, mapping)?;
    }
    Ok(tables)
}
