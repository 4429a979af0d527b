//! Maps the lines of an input, one after another. It reads a file by pieces and not by lines.
//!
//!     (file, start, line)  ->  Mapper  ->  LinePairs: what `Job::emit` gives for the line
//!
//! The words of many lines are found at once, by lanes (`piece.rt`). Most lines lack the literal,
//! and one search over a file finds the few that have it (`literal_search.rt`); the mapper keeps
//! what the search knows of the current file, and begins anew at each other file.
//! Invariant: the piece is a part of its file, and the search is about the text of file `file`,
//! once there is such a file.
//! Cost: linear for all lines in order; memory for a piece with its words, or the longest line.
ghost use Rattle.std.specs.Prelude.{◌≡◌, ◌≤◌, ◌<◌, ◌+◌, ◌^◌, IfOk, OnErr, length};
ghost use Rattle.mr_jobs.specs.Emissions.{emissions};
ghost use Rattle.mr_jobs.specs.Hits.{IsLine};
ghost use Rattle.mr_jobs.specs.JobSpec.{ReadsWords};
ghost use Rattle.mr_jobs.specs.Pairs.{pairs_of};

use crate::job::{Job, Kind};
use crate::literal_search::LiteralSearch;
use crate::pairs::LinePairs;
use crate::piece::WordPiece;
use mr_input::Input;
use std::alloc::{AllocError, Global};
use std::marker::Model;

/// A job that maps the lines of an input's files.
#[derive(Drop)]
pub struct Mapper<'j, 'i> {
    job: &'j Job,
    input: &'i Input,
    /// The number of the current file, or the number of files if there is none yet.
    file: u32,
    hits: LiteralSearch<'i, 'j>,
    piece: WordPiece,
}

impl<'j, 'i> Model for Mapper<'j, 'i> {
    ghost use Rattle.std.specs.Prelude.{◌≡◌, ◌<◌, ℕ, Bool, List, length};
    ghost use Rattle.mr_input.specs.Files.{nth_file};
    ghost use Rattle.mr_jobs.specs.JobSpec.{LinesWith, folds_words};
    ghost use Rattle.mr_jobs.specs.Hits.{Source};
    ghost use Rattle.mr_jobs.specs.Pieces.{IsPart};

    ghost Value = { Source };

    ghost view = { λ m. record { job = m.job.now; files = m.input.now } };

    ghost invariant = { λ m. record {
      hits : (literal : List ℕ) (fold : Bool) → m.job.now ≡ LinesWith literal fold
          → m.file < length m.input.now
          → m.hits ≡ record { text = nth_file m.input.now m.file; literal = literal; fold = fold };
      folds : m.piece.folds ≡ folds_words m.job.now;
      piece : m.piece.file < length m.input.now → IsPart (nth_file m.input.now m.piece.file) m.piece;
    } };
}

impl Job {
    /// This job over the lines of an input. Takes no memory.
    pub fn mapper<'j, 'i>(&'j self, alloc: Global, input: &'i Input) -> Mapper<'j, 'i>
        ensures { result ≡ record { job = self.entry.now; files = input.entry.now } }
    {
        Mapper {
            job: self,
            input,
            file: input.files() as u32,
            hits: LiteralSearch::new(b"", b"", false),
            piece: WordPiece::new(alloc, self.folds_words()),
        }
    }
}

impl<'j, 'i> Mapper<'j, 'i> {
    ghost use Rattle.std.specs.Borrow.{sem};
    ghost use Rattle.mr_jobs.specs.Lending.{KeepsSource};

    pub fn job(&self) -> &'j Job
        ensures { result.now ≡ self.now.job }
    {
        self.job
    }

    /// The pairs that `Job::emit` tells of the line, of at most 1 GiB, at place `start` of file `file`.
    /// Lines may come in any order; all lines in order take time linear in the input's length.
    /// Fails only for want of memory, which only a job that reads words takes. Another try may then
    /// succeed.
    #[inline(always)]
    pub fn emit<'l>(
        &'l mut self,
        file: u32,
        start: u32,
        line: &'l [u8],
    ) -> Result<LinePairs<'l>, AllocError>
        requires small { length line.now ≤ 2 ^ 30 }
        requires line { IsLine self.old.files file start line.now }
        ensures* same { sem 𝓛 (KeepsSource self.entry) }
        ensures emissions { IfOk result (λ e. pairs_of e ≡ emissions self.old.job file start line.entry.now) }
        ensures only { OnErr result (ReadsWords self.old.job) }
    {
        let job = self.job;
        let from = start as usize;
        let (literal, fold) = match &job.kind {
            Kind::Words { .. } | Kind::Index { .. } => {
                let text = self.input.file(file as usize);
                self.piece.ready(file, text, from, from + line.len())?;
                return Ok(self.piece.emit(job.value_at(file, start)));
            }
            Kind::Grep { literal, fold } => (literal.as_slice(), *fold),
            _ => return Ok(job.pairs(file, start, line, line)),
        };
        if self.file != file {
            let text = self.input.file(file as usize);
            self.hits = LiteralSearch::new(text, literal, fold);
            self.file = file;
        }
        if !self.hits.hold(from, from + line.len()) {
            return Ok(LinePairs::nothing(line));
        }
        Ok(LinePairs::one_pair(line, job.value_at(file, start)))
    }
}
