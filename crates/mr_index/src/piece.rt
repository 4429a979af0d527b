//! What some of a split's records emit, looked up by a record's number and a pair's place.
ghost use Rattle.std.specs.Prelude.{◌≡◌, IfOk, MatchOption, None, length, slice_range};
ghost use Rattle.mr_sequential.specs.Good.{named};
ghost use Rattle.mr_index.specs.Windows.{HasKey, name_in, piece_of, IsWindow};

use crate::tables::{Mapping, Tables, map_window};
use crate::window::Window;
use mr_bytes::Unwatched;
use mr_jobs::Job;
use mr_splits::KeptPlan;
use std::alloc::{AllocError, Global};
use std::marker::Model;

/// What the kept records of a window emit.
#[derive(Drop)]
pub struct Piece {
    window: Window,
    tables: Tables,
}

impl Model for Piece {
    ghost use Rattle.std.specs.Prelude.{length};
    ghost use Rattle.mr_index.specs.Pairs.{pairs_seen, EndsRise, Sound};
    ghost use Rattle.mr_index.specs.Building.{numbered};
    ghost use Rattle.mr_index.specs.Windows.{PieceView};

    ghost Value = { PieceView };

    ghost view = { λ p. record {
      split = p.window.split;
      from = p.window.from;
      end = p.window.end;
      pairs = pairs_seen p.tables.pairs;
      triples = numbered p.window.split p.window.from 0 p.tables.ends.items
          (pairs_seen p.tables.pairs);
    } };

    ghost invariant = { λ p. record {
      rise : EndsRise 0 (length (pairs_seen p.tables.pairs)) p.tables.ends.items;
      sound : Sound p.tables.pairs;
    } };
}

impl Piece {
    /// What the kept records of a window emit. Threads may share the plan: the cost is that of the
    /// window alone.
    pub fn map(
        alloc: Global,
        kept: &KeptPlan<'_>,
        job: &Job,
        window: Window,
    ) -> Result<Piece, AllocError>
        requires { IsWindow kept.now.cut window }
        ensures { IfOk result (λ p.
            p ≡ piece_of job.now kept.now window.split window.from window.end) }
    {
        let mut mapping = Mapping::new(alloc, kept.plan(), job);
        let tables = map_window(alloc, kept, window, &mut mapping, &Unwatched)?;
        Ok(Piece { window, tables })
    }

    /// The number of pairs.
    pub fn len(&self) -> usize
        ensures { result ≡ length self.now.triples }
    {
        self.tables.pairs.len()
    }

    /// The bytes of all keys, and where among them the key begins and ends of the pair at `place`
    /// of the piece's record `number`, counted from its first, if there is such a pair. It reads no
    /// byte of the key and allocates nothing.
    #[inline]
    pub fn key(&self, number: u32, place: u32) -> Option<(&[u8], usize, usize)>
        ensures { MatchOption result (named self.now.triples (name_in self.now number place) ≡ None)
            (λ k. HasKey self.now.triples (name_in self.now number place)
            (slice_range k.0.now k.1 k.2)) }
    {
        match self.tables.place_of(number as usize, place) {
            None => None,
            Some(at) => Some(self.tables.pairs.key_at(at)),
        }
    }
}
