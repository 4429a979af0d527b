//! Reads a script: from its bytes, in one pass, to the directives of its lines, or to the number of
//! the first bad line. Memory grows with the directives.
ghost use Rattle.std.specs.Prelude.{◌≡◌, ◌≢◌, ℕ, ◌+◌, ◌<◌, ◌≤◌, [], ◌∷◌, IfOk, IfErr, MatchOption};
ghost use Rattle.std.specs.Prelude.{MatchResult, length, drop, slice_index};
ghost use Rattle.mr_records.specs.Records.{Record, records_from};
ghost use Rattle.mr_script.specs.Scripts.{SpellsScript, Adds, IsLineFault, IsScriptFault};
ghost use Rattle.mr_script.specs.Laws.{LinesByMeaning, OneDirective, NothingIsNoDirective};
ghost use Rattle.mr_script.specs.Laws.{OneScript, NoScriptHasABadLine};

use crate::line::{directive_of, says_nothing};
use mr_records::record_end;
use std::alloc::{AllocFailed, Global};
use std::marker::Model;
use thiserror::Error;

/// One fault that a run injects, with the numbers of its line in order.
#[derive(Clone, Copy, Debug, PartialEq, Eq)]
pub enum Directive {
    /// The worker is lost once it has made `after` reports.
    Lose {
        worker: u32,
        after: u32,
    },
    /// The worker is declared lost just before the report after its first `after`, and works on.
    Zombie {
        worker: u32,
        after: u32,
    },
    /// The record fails in each attempt that reaches it.
    Bad {
        split: u32,
        rec: u32,
    },
    /// The record fails in the first `attempts` attempts that reach it.
    Flaky {
        split: u32,
        rec: u32,
        attempts: u32,
    },
    /// The worker holds its first report back.
    Hold {
        worker: u32,
    },
    /// Flips the lowest bit of byte `place` of the partition's output.
    Spoil {
        partition: u32,
        place: u32,
    },
    /// Flips the lowest bit of byte `place` of the partition's first region stored for the split.
    Damage {
        split: u32,
        partition: u32,
        place: u32,
    },
}

/// The directives of a script, in the order of their lines.
#[derive(Drop)]
pub struct Script {
    directives: Vec<Directive>,
}

impl Model for Script {
    ghost use Rattle.std.specs.Prelude.{List};
    ghost use Rattle.mr_script.specs.declared.script.Directive.{Directive};

    ghost Value = { List Directive };

    ghost view = { λ s. s.directives.items };
}

/// Why bytes are not a script.
#[derive(Clone, Copy, Debug, PartialEq, Eq, Drop, Error)]
pub enum ScriptFault {
    /// The first line, from 1, that neither says nothing nor spells a directive.
    #[error("BadLine {line}")]
    BadLine { line: u64 },
    #[error("OutOfMemory")]
    OutOfMemory,
}

impl<T: Drop> From<AllocFailed<T>> for ScriptFault {
    ghost use Rattle.mr_script.specs.declared.script.ScriptFault.TheVariants.{OutOfMemory as told_memory};

    ghost from_gives = { λ _ f. f ≡ told_memory };

    fn from(_fault: AllocFailed<T>) -> ScriptFault {
        ScriptFault::OutOfMemory
    }
}

fn next_line(bytes: &[u8], from: usize) -> Option<&[u8]>
    ensures { MatchOption result (records_from from (drop from bytes.now) ≡ [])
        (λ l. (from + length l.now ≤ length bytes.now) × (from < length bytes.now)
        × (records_from from (drop from bytes.now) ≡ record { start = from; bytes = l.now }
        ∷ records_from (from + length l.now + 1) (drop (from + length l.now + 1) bytes.now))) }
{
    let end = record_end(bytes, from)?;
    Some(&bytes[from..end])
}

fn add_line(directives: &mut Vec<Directive>, line: &[u8], number: u64) -> Result<(), ScriptFault>
    ensures { MatchResult result (λ _. Adds line.now directives.old.items directives.new.items)
        (λ e. IsLineFault line.now number e) }
{
    if says_nothing(line) {
        return Ok(());
    }
    match directive_of(line) {
        Some(directive) => {
            directives.push(directive)?;
            Ok(())
        }
        None => Err(ScriptFault::BadLine { line: number }),
    }
}

fn directives_of(alloc: Global, bytes: &[u8]) -> Result<Vec<Directive>, ScriptFault>
    ensures { MatchResult result (λ v. SpellsScript bytes.now v.items) (λ e. IsScriptFault bytes.now e) }
{
    let mut directives = Vec::new(alloc);
    let mut from = 0;
    let mut number = 0u64;
    while let Some(line) = next_line(bytes, from) {
        number += 1;
        add_line(&mut directives, line, number)?;
        from += line.len() + 1;
    }
    Ok(directives)
}

impl Script {
    /// Parses a script. A line that is empty or begins with `#` says nothing. Any other line must
    /// be a directive, its words separated by single spaces, its numbers of 1 to 10 decimal digits.
    pub fn read(alloc: Global, bytes: &[u8]) -> Result<Script, ScriptFault>
        ensures spelled { IfOk result (λ s. SpellsScript bytes.now s) }
        ensures fault { IfErr result (λ e. IsScriptFault bytes.now e) }
    {
        let directives = directives_of(alloc, bytes)?;
        Ok(Script { directives })
    }

    /// The directives, in the order of their lines.
    pub fn directives(&self) -> &[Directive]
        ensures { result.now ≡ self.now }
    {
        &self.directives
    }
}

/// A line spells a directive exactly if its meaning is that directive, so at most one; a line that
/// says nothing spells none.
pub fn line_law()
    ensures meaning { LinesByMeaning }
    ensures one { OneDirective }
    ensures apart { NothingIsNoDirective }
{}

/// Bytes spell at most one list of directives, and none if a line is bad.
pub fn script_law()
    ensures one { OneScript }
    ensures bad { NoScriptHasABadLine }
{}
