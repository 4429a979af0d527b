//! What one split emits, looked up by name.
ghost use Rattle.std.specs.Prelude.{◌≡◌, ◌+◌, ◌≤◌, ◌<◌, ◌^◌, IfOk, OnOk, OnErr, MatchOption};
ghost use Rattle.std.specs.Prelude.{Some, None, length};
ghost use Rattle.mr_input.specs.Files.{split_total};
ghost use Rattle.mr_splits.specs.Named.{of_split};
ghost use Rattle.mr_splits.specs.Cut.{records_of};
ghost use Rattle.mr_sequential.specs.Good.{named};
ghost use Rattle.mr_index.specs.Index.{mapped_among, triples_in, triples_of};

use crate::tables::{Mapping, Tables, map_window};
use crate::window::Window;
use mr_bytes::{Name, Progress, Value};
use mr_splits::KeptPlan;
use std::alloc::{AllocError, Global};
use std::marker::Model;

/// What one split emits. Where it emits nothing, it allocates nothing.
#[derive(Drop)]
pub struct Part {
    split: u32,
    tables: Tables,
}

impl Model for Part {
    ghost use Rattle.std.specs.Prelude.{◌<◌, ◌^◌, List, length};
    ghost use Rattle.mr_bytes.specs.Pairs.{Triple};
    ghost use Rattle.mr_index.specs.Pairs.{pairs_seen, EndsRise, Sound};
    ghost use Rattle.mr_index.specs.Building.{numbered};

    ghost Value = { List Triple };

    ghost view = { λ p. numbered p.split 0 0 p.tables.ends.items (pairs_seen p.tables.pairs) };

    ghost invariant = { λ p. record {
      rise : EndsRise 0 (length (pairs_seen p.tables.pairs)) p.tables.ends.items;
      sound : Sound p.tables.pairs;
      few : length (pairs_seen p.tables.pairs) < 2 ^ 32;
    } };
}

impl Part {
    pub(crate) fn len(&self) -> usize
        ensures count { result ≡ length self.now }
        ensures few { result < 2 ^ 32 }
    {
        self.tables.pairs.len()
    }

    pub(crate) fn pair(&self, name: Name) -> Option<(&[u8], Value)>
        ensures { MatchOption result (named self.now name ≡ None)
            (λ p. named self.now name ≡ Some (record { key = p.0.now; value = p.1; name = name })) }
    {
        let Name { split, rec, place } = name;
        if split != self.split {
            return None;
        }
        match self.tables.place_of(rec as usize, place) {
            None => None,
            Some(at) => Some(self.tables.pairs.get(at)),
        }
    }
}

/// What the kept records of a split emit.
pub(crate) fn map_split(
    alloc: Global,
    kept: &KeptPlan<'_>,
    split: u32,
    mapping: &mut Mapping<'_>,
    watch: &dyn Progress,
) -> Result<Part, AllocError>
    requires split { split < split_total kept.now.cut.size kept.now.cut.files }
    requires files { mapping.old.mapper.files ≡ kept.now.cut.files }
    requires room { mapping.old.mapped
        + mapped_among kept.now.skips (of_split split (records_of kept.now.cut)) < 2 ^ 64 }
    ensures same { mapping.new.mapper ≡ mapping.old.mapper }
    ensures part { IfOk result (λ r.
        r ≡ triples_in split (triples_of mapping.old.mapper.job kept.now.cut kept.now.skips)) }
    ensures counted { OnOk result (mapping.new.mapped ≡ mapping.old.mapped
        + mapped_among kept.now.skips (of_split split (records_of kept.now.cut))) }
    ensures err { OnErr result ((mapping.old.mapped ≤ mapping.new.mapped)
        × (mapping.new.mapped ≤ mapping.old.mapped
        + mapped_among kept.now.skips (of_split split (records_of kept.now.cut)))) }
{
    let window = Window {
        split,
        from: 0,
        end: kept.plan().records_in(split),
    };
    let tables = map_window(alloc, kept, window, mapping, watch)?;
    Ok(Part { split, tables })
}
