//! Takes the regions of a partition one by one, and groups their pairs.
//!
//!     regions   [ cat 0:0:1, dog 0:0:0 ]  [ cat 1:0:0 ]     as bytes, each let go once it is taken
//!     pairs     cat 0:0:1  dog 0:0:0  cat 1:0:0             one region behind another
//!     groups    cat: 0:0:1 1:0:0   dog: 0:0:0
//!
//! Regions are in turn while the names of each differ and are past all names of those before. Then
//! names rise under each key, and no name occurs twice. Map tasks give such regions. Of any others
//! the pairs are sorted by name before they are grouped, and that finds a name that occurs twice.
ghost use Rattle.std.specs.Prelude.{◌≡◌, ◌↔◌, ◌++◌, ◌∷◌, [], List, IfErr, IfOk, IsTrue};
ghost use Rattle.std.specs.Prelude.{MatchOption, false, length};
ghost use Rattle.mr_bytes.specs.Pairs.{Triple};
ghost use Rattle.mr_spill.specs.Cursor.{EndsWithKey};
ghost use Rattle.mr_spill.specs.Spelling.{SpellsRegion};
ghost use Rattle.mr_merge.specs.Merged.{NamesDiffer, merged};
ghost use Rattle.mr_merge.specs.Taking.{IsPast, IsPut, IsTaken, IsUpTo};
ghost use Rattle.mr_merge.specs.declared.merged.MergeFault.TheVariants.{RegionDamaged};

use crate::distinct::RegionNames;
use crate::merged::{MergeFault, grouped_by_name};
use mr_bytes::{Name, compare_names};
use mr_spill::{Groups, PairColumns, RegionPair, RegionView, group_pairs, open_region};
use std::alloc::{AllocError, Global};
use std::cmp::Ordering;
use std::marker::Model;

/// The pairs of regions, and their last name.
#[derive(Drop)]
pub(crate) struct Gathering {
    pub pairs: PairColumns,
    pub last: Option<Name>,
}

/// The pairs of a partition's regions, as these arrive.
#[derive(Drop)]
pub struct Reduction {
    partition: u32,
    in_turn: bool,
    all: Gathering,
    names: RegionNames,
}

impl Model for Reduction {
    ghost use Rattle.std.specs.Prelude.{◌≡◌, true};
    ghost use Rattle.mr_merge.specs.Reduction.{Collected};
    ghost use Rattle.mr_merge.specs.Taking.{AreInTurn};

    ghost Value = { Collected };

    ghost view = { λ r. record { partition = r.partition; pairs = r.all.pairs } };

    ghost invariant = { λ r. r.in_turn ≡ true → AreInTurn r.all };
}

fn is_past(last: Option<Name>, name: Name) -> bool
    ensures { IsTrue result ↔ IsPast last name }
{
    match last {
        None => true,
        Some(last) => matches!(compare_names(last, name), Ordering::Less),
    }
}

fn later(last: Option<Name>, name: Name) -> Option<Name>
    ensures up_to { (n : Name) → IsUpTo last n → IsUpTo result n }
    ensures it { IsUpTo result name }
{
    if is_past(last, name) {
        Some(name)
    } else {
        last
    }
}

/// Takes a pair. Returns whether its name is past `before`, the last of the regions before.
#[inline(always)]
fn take_pair(
    all: &mut Gathering,
    before: Option<Name>,
    pair: RegionPair<'_>,
) -> Result<bool, AllocError>
    requires { IsTrue pair.again → EndsWithKey all.old.pairs pair.key.now }
    ensures { IfOk result (λ past. IsPut before pair.entry past all.old all.new) }
{
    all.last = later(all.last, pair.name);
    all.pairs.take(pair)?;
    Ok(is_past(before, pair.name))
}

/// Takes the pairs of a region. Returns whether it is in turn, or `None` if it is damaged.
fn take_region(
    all: &mut Gathering,
    names: &mut RegionNames,
    region: &RegionView<'_>,
    partition: u32,
) -> Result<Option<bool>, AllocError>
    ensures { IfOk result (λ o. MatchOption o
        ((ts : List Triple) → SpellsRegion region.now.bytes region.now.split partition ts → ⊥)
        (λ in_turn. IsTaken partition region.now in_turn all.old all.new)) }
{
    let Some(mut cursor) = open_region(region.bytes(), region.split(), partition) else {
        return Ok(None);
    };
    let before = all.last;
    let mut in_turn = true;
    names.clear();
    while let Some(pair) = cursor.next() {
        names.push(pair.name)?;
        let past = take_pair(all, before, pair)?;
        in_turn = in_turn && past;
    }
    if !cursor.is_at_end() {
        return Ok(None);
    }
    Ok(Some(in_turn && names.differ()))
}

impl Reduction {
    /// No regions yet. It allocates nothing.
    pub fn new(alloc: Global, partition: u32) -> Reduction
        ensures { result ≡ record { partition = partition; pairs = [] } }
    {
        Reduction {
            partition,
            in_turn: true,
            all: Gathering {
                pairs: PairColumns::new(alloc),
                last: None,
            },
            names: RegionNames::new(alloc),
        }
    }

    /// The partition of the regions.
    pub fn partition(&self) -> u32
        ensures { result ≡ self.now.partition }
    {
        self.partition
    }

    /// The number of pairs taken.
    pub fn len(&self) -> usize
        ensures { result ≡ length self.now.pairs }
    {
        self.all.pairs.len()
    }

    /// Makes room for `more` pairs. Fails only for want of memory, and then leaves all as it was.
    pub fn reserve(&mut self, more: usize) -> Result<(), AllocError>
        ensures { self.new ≡ self.old }
    {
        self.all.pairs.reserve(more)
    }

    /// Takes the pairs of the next region; false if its bytes are no region of the partition and of
    /// the split that comes with them. Then, and where memory is refused, some of its pairs may
    /// have been taken, and the reduction is of no more use.
    pub fn take(&mut self, region: &RegionView<'_>) -> Result<bool, AllocError>
        ensures partition { self.new.partition ≡ self.old.partition }
        ensures taken { IfOk result (λ b. IsTrue b → (ts : List Triple)
            × SpellsRegion region.now.bytes region.now.split self.old.partition ts
            × (self.new.pairs ≡ self.old.pairs ++ ts)) }
        ensures damaged { IfOk result (λ b. b ≡ false → (ts : List Triple)
            → SpellsRegion region.now.bytes region.now.split self.old.partition ts → ⊥) }
    {
        let was = self.in_turn;
        // Pairs of a part of a region are in no order.
        self.in_turn = false;
        let Some(in_turn) = take_region(&mut self.all, &mut self.names, region, self.partition)?
        else {
            return Ok(false);
        };
        self.in_turn = was && in_turn;
        Ok(true)
    }

    /// The groups of the pairs taken. Returns `RegionDamaged` where a name occurs twice, under one
    /// key or two.
    pub fn groups(self, alloc: Global) -> Result<Groups, MergeFault>
        ensures differ { IfOk result (λ g. NamesDiffer self.pairs) }
        ensures groups { IfOk result (λ g. g ≡ merged self.pairs) }
        ensures damaged { IfErr result (λ e. e ≡ RegionDamaged → NamesDiffer self.pairs → ⊥) }
    {
        let Reduction { in_turn, all, .. } = self;
        if in_turn {
            return Ok(group_pairs(alloc, all.pairs)?);
        }
        grouped_by_name(alloc, &all.pairs)
    }
}
