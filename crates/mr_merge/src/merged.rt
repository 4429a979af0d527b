//! Merges all regions of a partition into groups, one for each key.
ghost use Rattle.std.specs.Prelude.{◌≡◌, ◌↔◌, ◌<◌, ◌++◌, IfErr, IfOk, IsTrue, OnOk, length};
ghost use Rattle.std.specs.declared.cmp.Ordering.TheVariants.{Less};
ghost use Rattle.mr_bytes.specs.Lists.{Rises};
ghost use Rattle.mr_bytes.specs.Pairs.{pair_order};
ghost use Rattle.mr_spill.specs.Column.{nth_pair};
ghost use Rattle.mr_merge.specs.Merged.{merged, AreSound, NamesDiffer, joined, values_of};
ghost use Rattle.mr_merge.specs.Laws.{GroupsHave, GroupsRise, MergedHas, MergedIsOne};
ghost use Rattle.mr_merge.specs.Worked.{WorkedFalling, WorkedGroups, WorkedTwice, WorkedTwoKeys};
ghost use Rattle.mr_merge.specs.declared.merged.MergeFault.{MergeFault};
ghost use Rattle.mr_merge.specs.declared.merged.MergeFault.TheVariants.{RegionDamaged};

use mr_bytes::{compare_keys, compare_names};
use mr_spill::{Groups, PairColumns, group_pairs};
use std::alloc::{AllocError, Global};
use std::cmp::Ordering;
use thiserror::Error;

/// Groups pairs in any order: sorts them by name before. `RegionDamaged` if a name occurs twice.
pub(crate) fn grouped_by_name(alloc: Global, pairs: &PairColumns) -> Result<Groups, MergeFault>
    ensures differ { IfOk result (λ g. NamesDiffer pairs.now) }
    ensures groups { IfOk result (λ g. g ≡ merged pairs.now) }
    ensures damaged { IfErr result (λ e. e ≡ RegionDamaged → NamesDiffer pairs.now → ⊥) }
{
    let Some(by_name) = pairs.in_name_order(alloc)? else {
        return Err(MergeFault::RegionDamaged);
    };
    Ok(group_pairs(alloc, by_name)?)
}

/// Why regions are not merged.
#[derive(Clone, Copy, Debug, PartialEq, Eq, Drop, Error)]
pub enum MergeFault {
    /// The machine refused memory.
    #[error("OutOfMemory")]
    OutOfMemory,
    /// A region is malformed or out of order, or a name occurs twice.
    #[error("RegionDamaged")]
    RegionDamaged,
}

impl From<AllocError> for MergeFault {
    ghost use Rattle.mr_merge.specs.declared.merged.MergeFault.TheVariants.{OutOfMemory as told_memory};

    ghost from_gives = { λ _ f. f ≡ told_memory };

    fn from(_error: AllocError) -> MergeFault {
        MergeFault::OutOfMemory
    }
}

fn is_before(pairs: &PairColumns, i: usize, j: usize) -> bool
    requires first { i < length pairs.now }
    requires second { j < length pairs.now }
    ensures { IsTrue result ↔ (pair_order (nth_pair pairs.now i) (nth_pair pairs.now j) ≡ Less) }
{
    match compare_keys(pairs.key(i), pairs.key(j)) {
        Ordering::Less => true,
        Ordering::Equal => matches!(compare_names(pairs.name(i), pairs.name(j)), Ordering::Less),
        Ordering::Greater => false,
    }
}

fn pairs_rise(pairs: &PairColumns) -> bool
    ensures { IsTrue result ↔ Rises pair_order pairs.now }
{
    for i in 1..pairs.len() {
        if !is_before(pairs, i - 1, i) {
            return false;
        }
    }
    true
}

/// Appends the pairs of a column.
fn put_column(all: &mut PairColumns, column: &PairColumns) -> Result<(), AllocError>
    ensures { OnOk result (all.new ≡ all.old ++ column.now) }
{
    for i in 0..column.len() {
        all.push(column.key(i), column.value(i), column.name(i))?;
    }
    Ok(())
}

/// Merges the regions of one partition: each key once, rising, with its pairs by name. Returns
/// `RegionDamaged` where a region is out of order, or a name occurs twice, under one key or two.
pub fn merge(alloc: Global, regions: &[&PairColumns]) -> Result<Groups, MergeFault>
    ensures sound { IfOk result (λ g. AreSound (values_of regions.now)) }
    ensures groups { IfOk result (λ g. g ≡ merged (joined (values_of regions.now))) }
    ensures damaged { IfErr result (λ e. e ≡ RegionDamaged → AreSound (values_of regions.now) → ⊥) }
{
    let mut all = PairColumns::new(alloc);
    for region in regions {
        if !pairs_rise(region) {
            return Err(MergeFault::RegionDamaged);
        }
        put_column(&mut all, region)?;
    }
    grouped_by_name(alloc, &all)
}

/// The keys of groups rise strictly. Where names differ, each group has exactly the pairs of its
/// key, by rising name, and every pair is in a group. The order of pairs does not matter.
pub fn merge_law()
    ensures rise { GroupsRise }
    ensures have { GroupsHave }
    ensures all { MergedHas }
    ensures one { MergedIsOne }
{}

/// Regions merged by hand, and unsound ones.
pub fn worked_groups()
    ensures groups { WorkedGroups }
    ensures twice { WorkedTwice }
    ensures keys { WorkedTwoKeys }
    ensures falling { WorkedFalling }
{}
