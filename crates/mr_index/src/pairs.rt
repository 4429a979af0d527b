//! Keys with their values, in order, in one buffer: no key takes an allocation of its own.
ghost use Rattle.std.specs.Prelude.{◌≡◌, ℕ, ◌+◌, ◌≤◌, ◌<◌, ◌^◌, ◌++◌, [], ◌∷◌, IfOk, OnOk};
ghost use Rattle.std.specs.Prelude.{MatchOption, length, slice_index, slice_index_or, slice_range};
ghost use Rattle.mr_bytes.specs.declared.Value.TheVariants.{One};
ghost use Rattle.mr_jobs.specs.Emissions.{emissions};
ghost use Rattle.mr_jobs.specs.Hits.{IsLine};
ghost use Rattle.mr_index.specs.Pairs.{pairs_seen, filled, Sound, Fits};

use mr_bytes::{Value, ValueColumn};
use mr_jobs::{Emitter, Mapper};
use mr_splits::RecordAt;
use std::alloc::{AllocError, Global};

#[derive(Drop)]
pub(crate) struct Pairs {
    /// The bytes of all keys, one key after another.
    pub keys: Vec<u8>,
    /// Where each key ends. Four bytes are enough: an input has at most 1 GiB, and a record's keys
    /// are parts of it that don't overlap.
    pub ends: Vec<u32>,
    pub values: ValueColumn,
}

pub(crate) fn push_end(ends: &mut Vec<u32>, end: usize) -> Result<(), AllocError>
    requires { end < 2 ^ 32 }
    ensures { OnOk result (ends.new.items ≡ ends.old.items ++ end ∷ []) }
{
    ends.push(end as u32)?;
    Ok(())
}

/// Appends `end` until there are `count` ends.
pub(crate) fn fill(ends: &mut Vec<u32>, count: usize, end: usize) -> Result<(), AllocError>
    requires { end < 2 ^ 32 }
    ensures { OnOk result (ends.new.items ≡ filled count end ends.old.items) }
{
    while ends.len() < count {
        push_end(ends, end)?;
    }
    Ok(())
}

pub(crate) fn start_of(ends: &[u32], i: usize) -> usize
    requires { i ≤ length ends.now }
    ensures { result ≡ slice_index (0 ∷ ends.now) i }
{
    if i == 0 { 0 } else { ends[i - 1] as usize }
}

impl Pairs {
    pub(crate) fn new(alloc: Global) -> Pairs
        ensures none { pairs_seen result ≡ [] }
        ensures sound { Sound result }
    {
        Pairs {
            keys: Vec::new(alloc),
            ends: Vec::new(alloc),
            values: ValueColumn::new(alloc),
        }
    }

    /// Makes room for the keys of `bytes` more bytes of a file: at most as many, and a key for each
    /// eight. Room that isn't used isn't touched, and a list that has it need not move.
    pub(crate) fn reserve(&mut self, bytes: usize) -> Result<(), AllocError>
        requires sound { Sound self.old }
        ensures sound { OnOk result (Sound self.new) }
        ensures pairs { OnOk result (pairs_seen self.new ≡ pairs_seen self.old) }
    {
        self.keys.reserve(bytes)?;
        self.ends.reserve(bytes / 8)
    }

    pub(crate) fn len(&self) -> usize
        requires { Sound self.now }
        ensures { result ≡ length (pairs_seen self.now) }
    {
        self.ends.len()
    }

    pub(crate) fn get(&self, i: usize) -> (&[u8], Value)
        requires sound { Sound self.now }
        requires within { i < length (pairs_seen self.now) }
        ensures { (result.0.now, result.1) ≡ slice_index_or (pairs_seen self.now) i ([], One) }
    {
        let (keys, start, end) = self.key_at(i);
        (&keys[start..end], self.values.get(i))
    }

    /// The bytes of all keys, and where among them that of pair `i` begins and ends.
    #[inline]
    pub(crate) fn key_at(&self, i: usize) -> (&[u8], usize, usize)
        requires sound { Sound self.now }
        requires within { i < length (pairs_seen self.now) }
        ensures key { slice_range result.0.now result.1 result.2
            ≡ (slice_index_or (pairs_seen self.now) i ([], One)).0 }
        ensures bounds { (result.1 ≤ result.2) × (result.2 ≤ length result.0.now) }
    {
        let start = start_of(self.ends.as_slice(), i);
        (self.keys.as_slice(), start, self.ends[i] as usize)
    }

    fn push(&mut self, key: &[u8], value: Value) -> Result<(), AllocError>
        requires sound { Sound self.old }
        requires room { length self.old.keys.items + length key.now < 2 ^ 32 }
        ensures sound { OnOk result (Sound self.new) }
        ensures pairs { OnOk result (pairs_seen self.new
            ≡ pairs_seen self.old ++ (key.now, value) ∷ []) }
    {
        self.keys.extend_from_slice(key)?;
        push_end(&mut self.ends, self.keys.len())?;
        self.values.push(value)?;
        Ok(())
    }

    fn push_all(&mut self, mut emitter: Emitter<'_>) -> Result<(), AllocError>
        requires sound { Sound self.old }
        requires fits { Fits (pairs_seen self.old ++ emitter) }
        ensures sound { OnOk result (Sound self.new) }
        ensures pairs { OnOk result (pairs_seen self.new ≡ pairs_seen self.old ++ emitter.entry) }
    {
        while let Some((key, value)) = next_pair(&mut emitter) {
            self.push(key, value)?;
        }
        Ok(())
    }

    pub(crate) fn map(
        &mut self,
        mapper: &mut Mapper<'_, '_>,
        line: RecordAt<'_>,
    ) -> Result<(), AllocError>
        requires sound { Sound self.old }
        requires small { length line.bytes.now ≤ 2 ^ 30 }
        requires line { IsLine mapper.old.files line.file line.start line.bytes.now }
        requires fits { Fits (pairs_seen self.old
            ++ emissions mapper.old.job line.file line.start line.bytes.now) }
        ensures same { mapper.new ≡ mapper.old }
        ensures sound { OnOk result (Sound self.new) }
        ensures pairs { OnOk result (pairs_seen self.new ≡ pairs_seen self.old
            ++ emissions mapper.old.job line.entry.file line.entry.start line.entry.bytes.now) }
    {
        let pairs = mapper.emit(line.file, line.start, line.bytes)?;
        self.push_all(pairs.emitter())
    }
}

fn next_pair<'a>(emitter: &mut Emitter<'a>) -> Option<(&'a [u8], Value)>
    ensures { MatchOption result (emitter.old ≡ [])
        (λ e. emitter.old ≡ (e.0.now, e.1) ∷ emitter.new) }
{
    emitter.next()
}
