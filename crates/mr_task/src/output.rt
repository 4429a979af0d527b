//! The outputs of tasks, and where a map task's regions are stored.
ghost use Rattle.std.specs.Prelude.{◌≡◌, ◌<◌, ◌^◌, ◌≤◌, ◌++◌, ◌∷◌, [], All, IfOk, MatchOption};
ghost use Rattle.std.specs.Prelude.{OnOk, length, map, ◌/◌, OnErr};
ghost use Rattle.std.specs.List.{AllByRecursion, flat_map};
ghost use Rattle.mr_certform.specs.Flat.{chunks, total};
ghost use Rattle.mr_spill.specs.Groups.{nth_group};
ghost use Rattle.mr_reduce.specs.Text.{text_of};
ghost use Rattle.mr_task.specs.Mapped.{nth_run, region_of, regions_at};
ghost use Rattle.mr_task.specs.Outputs.{flipped, with_other_bit};
ghost use Rattle.mr_task.specs.Values.{group_text, reduced};
ghost use Rattle.mr_task.specs.Laid.{place_at, runs_of};

use mr_bytes::{Name, ValueColumn};
use mr_jobs::Job;
use mr_merge::Groups;
use mr_reduce::{append_text, append_total};
use mr_spill::{RegionView, SealedRun};
use std::alloc::{AllocError, Global};
use std::marker::Model;

/// A map task's output: the runs of its pairs, each with a region for each partition.
#[derive(Drop)]
pub struct MapOutput {
    parts: u32,
    runs: Vec<SealedRun>,
}

impl Model for MapOutput {
    ghost use Rattle.std.specs.Prelude.{◌≡◌, length};
    ghost use Rattle.std.specs.List.{AllByRecursion};
    ghost use Rattle.mr_task.specs.Mapped.{Mapped};

    ghost Value = { Mapped };

    ghost view = { λ o. record { parts = o.parts; runs = o.runs.items } };

    ghost invariant = { λ o. AllByRecursion (λ r. length r.regions ≡ o.parts) o.runs.items };
}

impl MapOutput {
    /// No runs of `parts` partitions. It allocates nothing.
    pub fn new(alloc: Global, parts: u32) -> MapOutput
        ensures { result ≡ record { parts = parts; runs = [] } }
    {
        MapOutput {
            parts,
            runs: Vec::new(alloc),
        }
    }

    pub(crate) fn push(&mut self, run: SealedRun) -> Result<(), AllocError>
        requires each { length run.regions ≡ self.old.parts }
        ensures { OnOk result (self.new
            ≡ record { parts = self.old.parts; runs = self.old.runs ++ run ∷ [] }) }
    {
        self.runs.push(run)?;
        Ok(())
    }

    pub fn parts(&self) -> u32
        ensures { result ≡ self.now.parts }
    {
        self.parts
    }

    pub fn runs(&self) -> usize
        ensures { result ≡ length self.now.runs }
    {
        self.runs.len()
    }

    /// The region of run `i` for partition `p`, both from 0.
    pub fn region(&self, p: u32, i: usize) -> RegionView<'_>
        requires partition { p < self.now.parts }
        requires run { i < length self.now.runs }
        ensures { result ≡ region_of p (nth_run self.now.runs i) }
    {
        self.runs[i].region(p)
    }

    /// The regions of all runs for partition `p`, from 0, run by run.
    pub fn regions(&self, alloc: Global, p: u32) -> Result<Vec<RegionView<'_>>, AllocError>
        requires { p < self.now.parts }
        ensures { IfOk result (λ v. v.items ≡ regions_at p self.now.runs) }
    {
        let mut regions = Vec::with_capacity(alloc, self.runs.len())?;
        for i in 0..self.runs() {
            regions.push(self.region(p, i))?;
        }
        Ok(regions)
    }

    /// The runs, moved and not copied.
    pub fn into_runs(self) -> Vec<SealedRun>
        ensures runs { result.items ≡ self.runs }
        ensures parts { AllByRecursion (λ r. length r.regions ≡ self.parts) result.items }
    {
        let MapOutput { parts: _, runs } = self;
        runs
    }
}

/// A reduce task's output: its partition's text, and the names of each group's pairs. No group is
/// empty. A u32 counts the groups, and the names in each.
#[derive(Drop)]
pub struct ReduceOutput {
    text: Vec<u8>,
    counts: Vec<u32>,
    names: Vec<Name>,
}

impl Model for ReduceOutput {
    ghost use Rattle.std.specs.Prelude.{◌≡◌, ◌<◌, ◌^◌, ◌≤◌, length};
    ghost use Rattle.std.specs.List.{AllByRecursion};
    ghost use Rattle.mr_certform.specs.Flat.{chunks, total};
    ghost use Rattle.mr_task.specs.Values.{Reduced};

    ghost Value = { Reduced };

    ghost view = { λ o. record {
      output = o.text.items;
      groups = chunks o.counts.items o.names.items;
    } };

    ghost invariant = { λ o. record {
      some_entry : AllByRecursion (λ n. 1 ≤ n) o.counts.items;
      few : length o.counts.items < 2 ^ 32;
      entries : total o.counts.items ≡ length o.names.items;
    } };
}

fn put_values(groups: &Groups, g: usize, values: &mut ValueColumn) -> Result<(), AllocError>
    requires { g < length groups.now }
    ensures { OnOk result (values.new ≡ map (λ t. t.value) (nth_group groups.now g).pairs) }
{
    values.clear();
    for i in 0..groups.count(g) {
        values.push(groups.value(g, i))?;
    }
    Ok(())
}

/// Appends a group's text. Only a job that doesn't count reads the values, through `values`.
fn put_text(
    job: &Job,
    groups: &Groups,
    g: usize,
    values: &mut ValueColumn,
    text: &mut Vec<u8>,
) -> Result<(), AllocError>
    requires { g < length groups.now }
    ensures { OnOk result (text.new.items
        ≡ text.old.items ++ group_text (text_of job.now) (nth_group groups.now g)) }
{
    let key = groups.key(g);
    if job.counts() {
        return append_total(key, groups.count(g) as u64, text);
    }
    put_values(groups, g, values)?;
    append_text(job, key, values, text)
}

fn texts(alloc: Global, job: &Job, groups: &Groups) -> Result<Vec<u8>, AllocError>
    ensures { IfOk result (λ v. v.items ≡ flat_map (group_text (text_of job.now)) groups.now) }
{
    let mut text = Vec::new(alloc);
    let mut values = ValueColumn::new(alloc);
    for g in 0..groups.len() {
        put_text(job, groups, g, &mut values, &mut text)?;
    }
    Ok(text)
}

fn pair_counts(alloc: Global, groups: &Groups) -> Result<Vec<u32>, AllocError>
    requires { All (λ g. length g.pairs < 2 ^ 32) groups.now }
    ensures counts { IfOk result (λ v. v.items ≡ map (λ g. length g.pairs) groups.now) }
    ensures some { IfOk result (λ v. AllByRecursion (λ n. 1 ≤ n) v.items) }
{
    let mut counts = Vec::with_capacity(alloc, groups.len())?;
    for g in 0..groups.len() {
        counts.push(groups.count(g) as u32)?;
    }
    Ok(counts)
}

fn flipped_bit(byte: u8) -> u8
    ensures { result ≡ with_other_bit byte }
{
    if byte % 2 == 0 { byte + 1 } else { byte - 1 }
}

impl ReduceOutput {
    /// No groups. It allocates nothing.
    pub fn new(alloc: Global) -> ReduceOutput
        ensures { result ≡ record { output = []; groups = [] } }
    {
        ReduceOutput {
            text: Vec::new(alloc),
            counts: Vec::new(alloc),
            names: Vec::new(alloc),
        }
    }

    /// What a job makes of groups: the text and the names of each. Names are moved, not copied.
    pub(crate) fn of(alloc: Global, job: &Job, groups: Groups) -> Result<ReduceOutput, AllocError>
        requires few { All (λ g. length g.pairs < 2 ^ 32) groups }
        requires count { length groups < 2 ^ 32 }
        ensures { IfOk result (λ o. o ≡ reduced (text_of job.now) groups) }
    {
        let text = texts(alloc, job, &groups)?;
        let counts = pair_counts(alloc, &groups)?;
        let names = groups.into_names();
        Ok(ReduceOutput {
            text,
            counts,
            names,
        })
    }

    pub fn text(&self) -> &[u8]
        ensures { result.now ≡ self.now.output }
    {
        &self.text
    }

    /// Flips the lowest bit of the text's byte at `place`, where there is one.
    pub fn flip(&mut self, place: u32)
        ensures { self.new ≡ record self.old { output = flipped place self.old.output } }
    {
        let at = place as usize;
        if at < self.text.len() {
            self.text[at] = flipped_bit(self.text[at]);
        }
    }

    /// The number of names in each group, and the names of all groups, one group after another.
    pub fn flat_groups(&self) -> (&[u32], &[Name])
        ensures groups { chunks result.0.now result.1.now ≡ self.now.groups }
        ensures some_entry { AllByRecursion (λ n. 1 ≤ n) result.0.now }
        ensures few { length result.0.now < 2 ^ 32 }
        ensures entries { total result.0.now ≡ length result.1.now }
    {
        (&self.counts, &self.names)
    }
}

/// The place of a region: which worker stored it, and under which number.
#[derive(Clone, Copy, Debug, PartialEq, Eq)]
pub struct Place {
    pub worker: u32,
    pub number: u64,
}

/// The places of a map task's regions, which one worker stored: run by run, one a partition.
#[derive(Debug, Drop)]
pub struct Stored {
    parts: u32,
    worker: u32,
    numbers: Vec<u64>,
}

impl Model for Stored {
    ghost use Rattle.std.specs.Prelude.{◌<◌};
    ghost use Rattle.mr_task.specs.Laid.{Laid};

    ghost Value = { Laid };

    ghost view = { λ s. record { parts = s.parts; worker = s.worker; numbers = s.numbers.items } };

    ghost invariant = { λ s. 0 < s.parts };
}

impl Stored {
    /// No regions of `parts` partitions. It allocates nothing.
    pub fn new(alloc: Global, parts: u32, worker: u32) -> Stored
        requires { 0 < parts }
        ensures { result ≡ record { parts = parts; worker = worker; numbers = [] } }
    {
        Stored {
            parts,
            worker,
            numbers: Vec::new(alloc),
        }
    }

    /// Appends the number of the next region. Those of a run follow one another by partition.
    pub fn push(&mut self, number: u64) -> Result<(), AllocError>
        ensures ok { OnOk result
            (self.new ≡ record self.old { numbers = self.old.numbers ++ number ∷ [] }) }
        ensures err { OnErr result (self.new ≡ self.old) }
    {
        self.numbers.push(number)?;
        Ok(())
    }

    pub fn parts(&self) -> u32
        ensures { result ≡ self.now.parts }
    {
        self.parts
    }

    /// How many runs have a region for every partition.
    pub fn runs(&self) -> usize
        ensures { result ≡ runs_of self.now }
    {
        self.numbers.len() / self.parts as usize
    }

    /// The place of run `i`'s region for partition `p`, both from 0.
    pub fn place(&self, p: u32, i: usize) -> Place
        requires partition { p < self.now.parts }
        requires run { i < runs_of self.now }
        ensures { result ≡ place_at self.now p i }
    {
        Place {
            worker: self.worker,
            number: self.numbers[i * self.parts as usize + p as usize],
        }
    }
}
