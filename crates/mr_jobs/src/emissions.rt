//! The pairs that a job emits for one record.
ghost use Rattle.std.specs.Prelude.{◌≡◌, ◌↔◌, IsTrue, ℕ, ◌+◌, ◌≤◌, ◌<◌, ◌^◌, ◌++◌, [], ◌∷◌, All};
ghost use Rattle.std.specs.Prelude.{OnOk, OnErr, if◌then◌else◌, is_ok, length, take, vec_len};
ghost use Rattle.mr_jobs.specs.Emissions.{emissions, nth_emission};
ghost use Rattle.mr_jobs.specs.Laws.{FewEmissions, KeysStand, ShortKeys, KeysFitTheRecord};
ghost use Rattle.mr_jobs.specs.Laws.{CountersEmitOnes, OneValueEach};
ghost use Rattle.mr_jobs.specs.Views.{IsIn, entries_seen, entry_for};

use crate::emitter::Emitter;
use crate::job::Job;
use mr_bytes::Value;
use std::alloc::{AllocError, Global};
use std::marker::Model;

/// Where a record begins: its file, from 0, and the place there of its first byte, or line feed.
#[derive(Clone, Copy, PartialEq, Eq, Debug)]
pub struct RecordStart {
    pub file: u32,
    pub start: u32,
}

#[derive(Clone, Copy)]
struct Entry {
    start: usize,
    end: usize,
    value: Value,
}

/// Keys with their values, in the order in which a job emitted them.
#[derive(Drop)]
pub struct Emissions {
    // The bytes of all keys, one key after another, so that no key is allocated by itself.
    keys: Vec<u8>,
    entries: Vec<Entry>,
}

impl Model for Emissions {
    ghost use Rattle.std.specs.Prelude.{List, All};
    ghost use Rattle.mr_jobs.specs.Emissions.{Emission};

    ghost Value = { List Emission };

    ghost use Rattle.mr_jobs.specs.Views.{entries_seen, IsIn};

    ghost view = { λ e. entries_seen e.keys.items e.entries.items };

    ghost invariant = { λ e. All (IsIn e.keys.items) e.entries.items };
}

impl Emissions {
    /// No emissions. Takes no memory.
    pub fn new(alloc: Global) -> Emissions
        ensures { result ≡ [] }
    {
        Emissions {
            keys: Vec::new(alloc),
            entries: Vec::new(alloc),
        }
    }

    /// How many emissions there are.
    pub fn len(&self) -> usize
        ensures { result ≡ length self.now }
    {
        self.entries.len()
    }

    pub fn is_empty(&self) -> bool
        ensures { IsTrue result ↔ (self.now ≡ []) }
    {
        self.entries.is_empty()
    }

    /// The key and the value of emission `i`, from 0.
    pub fn get(&self, i: usize) -> (&[u8], Value)
        requires { i < length self.now }
        ensures { (result.0.now, result.1) ≡ nth_emission self.now i }
    {
        let entry = self.entries[i];
        (&self.keys[entry.start..entry.end], entry.value)
    }

    /// Removes all emissions, and keeps the memory for the next ones.
    pub fn clear(&mut self)
        ensures { self.new ≡ [] }
    {
        self.entries.clear();
        self.keys.clear();
    }
}

fn push_one(
    keys: &mut Vec<u8>,
    entries: &mut Vec<Entry>,
    key: &[u8],
    value: Value,
) -> Result<(), AllocError>
    ensures keys { keys.new.items ≡ (if is_ok result then keys.old.items ++ key.now else keys.old.items) }
    ensures entries { entries.new.items ≡ (if is_ok result then entries.old.items
        ++ entry_for keys.old.items key.now value ∷ [] else entries.old.items) }
{
    let start = keys.len();
    keys.extend_from_slice(key)?;
    let end = keys.len();
    if entries.push(Entry { start, end, value }).is_err() {
        keys.truncate(start);
        return Err(AllocError);
    }
    Ok(())
}

fn push_all(
    mut emitter: Emitter<'_>,
    keys: &mut Vec<u8>,
    entries: &mut Vec<Entry>,
) -> Result<(), AllocError>
    requires { All (IsIn keys.old.items) entries.old.items }
    ensures keys_kept { take (vec_len keys.old) keys.new.items ≡ keys.old.items }
    ensures entries_kept { take (vec_len entries.old) entries.new.items ≡ entries.old.items }
    ensures within { OnOk result (All (IsIn keys.new.items) entries.new.items) }
    ensures ok { OnOk result (entries_seen keys.new.items entries.new.items
        ≡ entries_seen keys.old.items entries.old.items ++ emitter.entry) }
{
    while let Some((key, value)) = emitter.next() {
        push_one(keys, entries, key, value)?;
    }
    Ok(())
}

/// Appends what the record `line` emits, which has at most 1 GiB and begins at `at`. Fails only for
/// want of memory, and then leaves `out` as it was.
pub fn map(
    alloc: Global,
    job: &Job,
    at: RecordStart,
    line: &[u8],
    out: &mut Emissions,
) -> Result<(), AllocError>
    requires { length line.now ≤ 2 ^ 30 }
    ensures ok { OnOk result (out.new ≡ out.old ++ emissions job.now at.file at.start line.now) }
    ensures err { OnErr result (out.new ≡ out.old) }
{
    let mut buffer = Vec::new(alloc);
    job.fold_line(line, &mut buffer)?;
    let emitter = job.emit(at.file, at.start, line, buffer.as_slice());
    let bytes = out.keys.len();
    let count = out.entries.len();
    let done = push_all(emitter, &mut out.keys, &mut out.entries);
    if done.is_err() {
        out.keys.truncate(bytes);
        out.entries.truncate(count);
    }
    done
}

/// A record emits no more pairs than it has bytes, but for an empty field; each of its keys stands in it; its keys, even
/// together, are no longer than it; a job that counts emits only `One`; and all pairs of a record have the value
/// `Job::value_at`.
pub fn emission_law()
    ensures few { FewEmissions }
    ensures stand { KeysStand }
    ensures short { ShortKeys }
    ensures together { KeysFitTheRecord }
    ensures ones { CountersEmitOnes }
    ensures values { OneValueEach }
{}
