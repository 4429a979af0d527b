//! Cuts the pairs of a run by partition into sorted regions, and writes each as bytes at once: a
//! header, and then the pairs key by key.
ghost use Rattle.std.specs.Prelude.{◌≡◌, ◌+◌, ◌<◌, ◌≤◌, ◌^◌, ◌++◌, [], IfOk, OnOk, OnErr};
ghost use Rattle.std.specs.Prelude.{length, map, slice_index_or, slice_range};
ghost use Rattle.std.specs.List.{AllByRecursion, flat_map};
ghost use Rattle.mr_partition.specs.Hosts.{partition_by};
ghost use Rattle.mr_spill.specs.Groups.{AreWithin, pairs_of, nth_group};
ghost use Rattle.mr_spill.specs.Regions.{region};
ghost use Rattle.mr_spill.specs.Sealed.{AreTexts, IsText, SpellsRun};
ghost use Rattle.mr_spill.specs.Spelling.{PairFits, pair_bytes};

use crate::buffer::Buffer;
use crate::cursor::RegionView;
use crate::groups::{Cut, Groups, cut_pairs, range_of};
use crate::spelling::{put_header, put_pair};
use mr_bytes::{By, Value};
use std::alloc::{AllocError, Global};
use std::marker::Model;

/// The regions of a run of a split as bytes, one per partition.
#[derive(Drop)]
pub struct SealedRun {
    split: u32,
    regions: Vec<Vec<u8>>,
}

impl Model for SealedRun {
    ghost use Rattle.std.specs.Prelude.{map};
    ghost use Rattle.mr_spill.specs.Sealed.{RunText};

    ghost Value = { RunText };

    ghost view = { λ r. record { split = r.split; regions = map (λ b. b.items) r.regions.items } };
}

impl SealedRun {
    /// How many partitions there are.
    pub fn parts(&self) -> usize
        ensures { result ≡ length self.now.regions }
    {
        self.regions.len()
    }

    /// The region of partition `p`, from 0.
    pub fn region(&self, p: u32) -> RegionView<'_>
        requires { p < length self.now.regions }
        ensures { result
            ≡ record { split = self.now.split; bytes = slice_index_or self.now.regions p [] } }
    {
        RegionView::of(self.regions[p as usize].as_slice(), self.split)
    }

    /// The bytes of each region, moved, not copied.
    pub fn into_texts(self) -> Vec<Vec<u8>>
        ensures { map (λ b. b.items) result.items ≡ self.regions }
    {
        let SealedRun { regions, .. } = self;
        regions
    }
}

/// How many pairs some groups that follow one another have, and how many bytes their region takes
/// if all values of a key are of one kind. Over 4 Gi pairs fail as want of memory.
fn size_of(groups: &Groups, begin: usize, end: usize) -> Result<(u32, usize), AllocError>
    requires order { begin ≤ end }
    requires within { end ≤ length groups.now }
    ensures { IfOk result
        (λ s. s.0 ≡ length (flat_map pairs_of (slice_range groups.now begin end))) }
{
    let mut count = 0u32;
    let mut bytes = 20usize;
    for g in begin..end {
        let more = groups.count(g);
        if more > (u32::MAX - count) as usize {
            return Err(AllocError);
        }
        let is_one = matches!(groups.value(g, 0), Value::One);
        let each = groups
            .key(g)
            .len()
            .saturating_add(if is_one { 17 } else { 29 });
        count += more as u32;
        bytes = bytes.saturating_add(more.saturating_mul(each));
    }
    Ok((count, bytes))
}

/// Appends the pairs of group `g`.
fn spell_group(groups: &Groups, g: usize, text: &mut Vec<u8>) -> Result<(), AllocError>
    requires { g < length groups.now }
    ensures text { OnOk result (text.new.items
        ≡ text.old.items ++ flat_map pair_bytes (nth_group groups.now g).pairs) }
    ensures fit { OnOk result (AllByRecursion PairFits (nth_group groups.now g).pairs) }
{
    let key = groups.key(g);
    for i in 0..groups.count(g) {
        let (value, name) = groups.get(g, i);
        put_pair(text, key, value, name)?;
    }
    Ok(())
}

/// The region of some groups that follow one another.
fn spelled(
    alloc: Global,
    groups: &Groups,
    range: (usize, usize),
    split: u32,
    part: u32,
) -> Result<Vec<u8>, AllocError>
    requires order { range.0 ≤ range.1 }
    requires within { range.1 ≤ length groups.now }
    ensures { IfOk result (λ v. IsText split part
        (flat_map pairs_of (slice_range groups.now (range.0) (range.1))) v.items) }
{
    let (begin, end) = range;
    let (count, bytes) = size_of(groups, begin, end)?;
    let mut text = Vec::with_capacity(alloc, bytes)?;
    put_header(&mut text, split, part, count)?;
    for g in begin..end {
        spell_group(groups, g, &mut text)?;
    }
    Ok(text)
}

/// The regions of all partitions.
fn spelled_all(alloc: Global, cut: &Cut, split: u32) -> Result<Vec<Vec<u8>>, AllocError>
    requires few { length cut.now.ends.items < 2 ^ 32 }
    requires within { AreWithin (length cut.now.groups) cut.now.ends.items }
    ensures { IfOk result (λ v. AreTexts split cut.now.groups cut.now.ends.items v.items) }
{
    let mut texts = Vec::with_capacity(alloc, cut.ends.len())?;
    for part in 0..cut.ends.len() {
        let range = range_of(&cut.ends, part);
        texts.push(spelled(alloc, &cut.groups, range, split, part as u32)?)?;
    }
    Ok(texts)
}

impl Buffer {
    /// Like `seal`, with the regions as bytes; all pairs are of this split. Fails only for want of
    /// memory, and then leaves the buffer as it was.
    pub fn seal_run(
        &mut self,
        alloc: Global,
        split: u32,
        parts: u32,
        by: By,
    ) -> Result<SealedRun, AllocError>
        requires some { 0 < parts }
        requires own { AllByRecursion (λ t. t.name.split ≡ split) self.old.pairs }
        ensures ok { IfOk result
            (λ r. SpellsRun r split parts (region (λ k. partition_by by k parts) self.old.pairs)) }
        ensures empty { OnOk result (self.new ≡ record { limit = self.old.limit; pairs = [] }) }
        ensures err { OnErr result (self.new ≡ self.old) }
    {
        let cut = cut_pairs(alloc, &self.pairs, by, parts)?;
        let regions = spelled_all(alloc, &cut, split)?;
        self.pairs.clear();
        Ok(SealedRun { split, regions })
    }
}
