//! Collects a map task's pairs: a full buffer is sealed as a run and reused for the next.
ghost use Rattle.std.specs.Prelude.{◌≡◌, ℕ, IfOk, ◌≤◌, ◌<◌, ◌^◌, ◌++◌, ◌∷◌, [], List, OnOk, length};
ghost use Rattle.std.specs.List.Sorted.{IsNonDecreasing};
ghost use Rattle.mr_task.specs.Values.{has_number};
ghost use Rattle.mr_bytes.specs.Lists.{Rises};
ghost use Rattle.mr_bytes.specs.Order.{name_order};
ghost use Rattle.mr_bytes.specs.Pairs.{Triple};
ghost use Rattle.mr_jobs.specs.Emissions.{emissions};
ghost use Rattle.mr_jobs.specs.Hits.{IsLine};
ghost use Rattle.mr_sequential.specs.Emitted.{placed_from};
ghost use Rattle.mr_spill.specs.Column.{names_of};
ghost use Rattle.mr_task.specs.Mapped.{IsMapped};
ghost use Rattle.mr_task.specs.Runs.{AreAlike, AreNext, AreOf, HasTaken, Takes, part_in};

use crate::output::MapOutput;
use mr_bytes::{By, Name, RecordName, Value};
use mr_jobs::Mapper;
use mr_spill::{Buffer, PushKeyFault};
use mr_splits::RecordAt;
use std::alloc::{AllocError, Global};
use std::mem;

pub(crate) fn in_order(alloc: Global, numbers: &[u32]) -> Result<Vec<u32>, AllocError>
    ensures rise { IfOk result (λ v. IsNonDecreasing v.items) }
    ensures same { IfOk result (λ v. (n : ℕ) → has_number v.items n ≡ has_number numbers.now n) }
{
    let mut rising = Vec::from_slice(alloc, numbers)?;
    rising.sort_unstable();
    Ok(rising)
}

pub(crate) fn has(rising: &[u32], number: u32) -> bool
    requires { IsNonDecreasing rising.now }
    ensures { result ≡ has_number rising.now number }
{
    rising.binary_search(&number).is_ok()
}

/// A map task's sealed runs, and the pairs of the run that it fills.
#[derive(Drop)]
pub(crate) struct Runs {
    pub alloc: Global,
    pub split: u32,
    by: By,
    sealed: MapOutput,
    limit: usize,
    buffer: Buffer,
}

impl Runs {
    pub fn new(alloc: Global, split: u32, by: By, parts: u32, limit: usize) -> Runs
        ensures split { result.split ≡ split }
        ensures by { result.by ≡ by }
        ensures parts { result.sealed.parts ≡ parts }
        ensures taken { HasTaken [] result }
        ensures waiting { result.buffer.pairs ≡ [] }
    {
        Runs {
            alloc,
            split,
            by,
            sealed: MapOutput::new(alloc, parts),
            limit,
            buffer: Buffer::new(alloc, limit),
        }
    }

    /// Whether a run has ended, or 15 of the 16 parts of one are full.
    pub fn has_run(&self) -> bool {
        self.sealed.runs() > 0 || self.buffer.len() >= self.limit - self.limit / 16
    }

    /// Ends the run: its pairs become a region for each partition.
    fn seal(&mut self) -> Result<(), AllocError>
        requires some { 0 < self.old.sealed.parts }
        requires own { AreOf self.old.split self.old.buffer.pairs }
        ensures alike { OnOk result (AreAlike self.old self.new) }
        ensures taken { OnOk result (Takes [] self.old self.new) }
        ensures waiting { OnOk result (self.new.buffer.pairs ≡ []) }
    {
        let run = self
            .buffer
            .seal_run(self.alloc, self.split, self.sealed.parts(), self.by)?;
        self.sealed.push(run)
    }

    fn seal_rest(&mut self) -> Result<(), AllocError>
        requires some { 0 < self.old.sealed.parts }
        requires own { AreOf self.old.split self.old.buffer.pairs }
        ensures alike { OnOk result (AreAlike self.old self.new) }
        ensures taken { OnOk result (Takes [] self.old self.new) }
        ensures waiting { OnOk result (self.new.buffer.pairs ≡ []) }
    {
        let waiting = self.buffer.len();
        if waiting == 0 {
            return Ok(());
        }
        self.seal()
    }

    /// Takes a pair whose name is past all before it. A full buffer is sealed first.
    fn push(&mut self, key: &[u8], value: Value, name: Name) -> Result<(), AllocError>
        requires some { 0 < self.old.sealed.parts }
        requires own { AreOf self.old.split self.old.buffer.pairs }
        requires here { name.split ≡ self.old.split }
        requires rise { Rises name_order (names_of self.old.buffer.pairs ++ name ∷ []) }
        ensures alike { OnOk result (AreAlike self.old self.new) }
        ensures own { OnOk result (AreOf self.new.split self.new.buffer.pairs) }
        ensures taken { OnOk result
            (Takes (record { key = key.now; value = value; name = name } ∷ []) self.old self.new) }
        ensures waiting { OnOk result
            (AreNext (record { key = key.now; value = value; name = name })
            self.old.buffer.pairs self.new.buffer.pairs) }
    {
        match self.buffer.push_key(key, value, name) {
            Ok(()) => Ok(()),
            Err(PushKeyFault::OutOfMemory) => Err(AllocError),
            Err(PushKeyFault::BufferFull) => {
                self.seal()?;
                match self.buffer.push_key(key, value, name) {
                    Ok(()) => Ok(()),
                    Err(_) => Err(AllocError),
                }
            }
        }
    }

    /// Takes what a job emits for a record, each pair with its name.
    pub fn take_record(
        &mut self,
        mapper: &mut Mapper<'_, '_>,
        number: RecordName,
        line: RecordAt<'_>,
    ) -> Result<(), AllocError>
        requires some { 0 < self.old.sealed.parts }
        requires own { AreOf self.old.split self.old.buffer.pairs }
        requires here { number.split ≡ self.old.split }
        requires small { length line.bytes.now ≤ 2 ^ 30 }
        requires line { IsLine mapper.old.files line.file line.start line.bytes.now }
        requires rise { Rises name_order (names_of (self.old.buffer.pairs
            ++ placed_from number 0
            (emissions mapper.old.job line.file line.start line.bytes.now))) }
        ensures same { mapper.new ≡ mapper.old }
        ensures alike { OnOk result (AreAlike self.old self.new) }
        ensures own { OnOk result (AreOf self.new.split self.new.buffer.pairs) }
        ensures taken { OnOk result (Takes
            (placed_from number 0 (emissions
            mapper.old.job line.entry.file line.entry.start line.entry.bytes.now))
            self.old self.new) }
    {
        let mut emitter = mapper.emit(line.file, line.start, line.bytes)?.emitter();
        let mut place = 0;
        while let Some((key, value)) = emitter.next() {
            let name = Name {
                split: number.split,
                rec: number.rec,
                place,
            };
            self.push(key, value, name)?;
            place += 1;
        }
        Ok(())
    }

    /// Takes out all runs, the rest as the last of them. The buffer keeps its memory.
    pub fn finish(&mut self) -> Result<MapOutput, AllocError>
        requires some { 0 < self.old.sealed.parts }
        requires own { AreOf self.old.split self.old.buffer.pairs }
        ensures all { IfOk result (λ o. (pairs : List Triple) → HasTaken pairs self.old
            → IsMapped (part_in self.old) self.old.sealed.parts pairs o) }
        ensures none { OnOk result (HasTaken [] self.new) }
        ensures waiting { OnOk result (self.new.buffer.pairs ≡ []) }
        ensures alike { OnOk result (AreAlike self.old self.new) }
    {
        self.seal_rest()?;
        let empty = MapOutput::new(self.alloc, self.sealed.parts());
        Ok(mem::replace(&mut self.sealed, empty))
    }
}
