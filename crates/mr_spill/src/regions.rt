//! Cuts pairs by partition into sorted regions: each key's pairs go to the region of its partition.
ghost use Rattle.std.specs.Prelude.{◌≡◌, ◌<◌, ◌≤◌, ◌++◌, IfOk, OnOk, length, slice_range};
ghost use Rattle.std.specs.List.{flat_map};
ghost use Rattle.mr_partition.specs.Hosts.{partition_by};
ghost use Rattle.mr_spill.specs.Groups.{pairs_of, nth_group};
ghost use Rattle.mr_spill.specs.Regions.{RegionsHave, RegionsRise, RisesUnderKeys, regions};

use crate::groups::{Groups, cut_pairs, range_of};
use crate::pair_columns::PairColumns;
use mr_bytes::By;
use std::alloc::{AllocError, Global};

/// Appends the pairs of group `g`.
fn put_group(groups: &Groups, g: usize, region: &mut PairColumns) -> Result<(), AllocError>
    requires { g < length groups.now }
    ensures { OnOk result (region.new ≡ region.old ++ (nth_group groups.now g).pairs) }
{
    let key = groups.key(g);
    for i in 0..groups.count(g) {
        let (value, name) = groups.get(g, i);
        region.push(key, value, name)?;
    }
    Ok(())
}

/// The pairs of some groups that follow one another.
fn region_of(
    alloc: Global,
    groups: &Groups,
    range: (usize, usize),
) -> Result<PairColumns, AllocError>
    requires order { range.0 ≤ range.1 }
    requires within { range.1 ≤ length groups.now }
    ensures { IfOk result
        (λ r. r ≡ flat_map pairs_of (slice_range groups.now (range.0) (range.1))) }
{
    let (begin, end) = range;
    let mut region = PairColumns::new(alloc);
    for g in begin..end {
        put_group(groups, g, &mut region)?;
    }
    Ok(region)
}

/// A region per partition, in order, of pairs whose names rise under each key.
pub(crate) fn cut(
    alloc: Global,
    pairs: &PairColumns,
    by: By,
    parts: u32,
) -> Result<Vec<PairColumns>, AllocError>
    requires some { 0 < parts }
    requires rise { RisesUnderKeys pairs.now }
    ensures { IfOk result (λ v. v.items ≡ regions (λ k. partition_by by k parts) parts pairs.now) }
{
    let cut = cut_pairs(alloc, pairs, by, parts)?;
    let mut regions = Vec::with_capacity(alloc, parts as usize)?;
    for part in 0..parts as usize {
        regions.push(region_of(alloc, &cut.groups, range_of(&cut.ends, part))?)?;
    }
    Ok(regions)
}

/// Regions rise strictly by key and name, and contain exactly the pairs of their partition.
pub fn spill_law()
    ensures rise { RegionsRise }
    ensures have { RegionsHave }
{}
