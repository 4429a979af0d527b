//! The bytes that each record contains which gives a key, and the search for them in one record or
//! in many at once.
//!
//! A key is a part of its record, folded where the job folds words. So the needle is the key, or the
//! front of a long one, and a search for it passes over all other records. If records are looked for
//! that give nothing, the needle is empty, and stands everywhere.
ghost use Rattle.std.specs.Prelude.{◌≡◌};
ghost use Rattle.mr_jobs.specs.JobSpec.{folds_words};
ghost use Rattle.mr_jobs.specs.Literal.{holds};
ghost use Rattle.mr_explain.specs.Needles.{IsNeedle};

use crate::query::Wanted;
use memchr::memmem::Finder;
use mr_jobs::{Job, MAX_LITERAL};
use mr_lanes::find_folded;

#[derive(Drop)]
pub(crate) struct Needle<'k> {
    literal: &'k [u8],
    fold: bool,
    finder: Finder<'k>,
    ghost same: { finder ≡ literal.now },
}

/// Whether keys are folded: those of words and of an index that don't keep the case.
fn folds_keys(job: &Job) -> bool
    ensures { result ≡ folds_words job.now }
{
    let row = job.row();
    (row.number == 1 || row.number == 4) && row.flags == 0
}

pub(crate) fn needle_of<'k>(job: &Job, wanted: Wanted<'k>) -> Needle<'k>
    ensures { IsNeedle job.now wanted.entry result.fold result.literal.now }
{
    let literal = match wanted {
        Wanted::Key(key) => &key[..key.len().min(MAX_LITERAL)],
        Wanted::Nothing => b"",
    };
    Needle {
        literal,
        fold: folds_keys(job),
        finder: Finder::new(literal),
    }
}

impl<'k> Needle<'k> {
    /// Whether it stands somewhere in the bytes.
    pub(crate) fn is_in(&self, bytes: &[u8]) -> bool
        ensures { result ≡ holds self.now.fold bytes.now self.now.literal.now }
    {
        if self.fold {
            find_folded(bytes, self.literal).is_some()
        } else {
            self.finder.find(bytes).is_some()
        }
    }
}
