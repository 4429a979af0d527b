//! The verdict of an earlier result in a directory. It is emptied before another result is written
//! there, so that no verdict outlives the result that it names.
//!
//! A file `verdict` is one if it begins `verdict 1` or `verdict 2` and a line feed. A file that
//! begins otherwise, or can't be read, is left alone; so are pipes, sockets and devices.
ghost use Rattle.std.specs.Prelude.{◌≡◌, ◌≢◌, ◌↔◌, ◌⊎◌, ◌∷◌, ◌++◌, [], IfErr, IfOk, IfSome, IsTrue, List, OnOk};
ghost use Rattle.std.specs.Prelude.{false, length, map, option_map, string_bytes, ℕ};
ghost use Rattle.mr_input.specs.Files.{contents};
ghost use Rattle.mr_files.specs.Holding.{ChangesAmong, Holding};
ghost use Rattle.mr_files.specs.Identities.{AreApart};
ghost use Rattle.mr_files.specs.Names.{name_of_certificate, name_of_verdict, part_names};
ghost use Rattle.mr_files.specs.Names.{result_names};
ghost use Rattle.mr_files.specs.Refusals.{IsWriteRefusal};
ghost use Rattle.mr_commands.specs.Named.{named};
ghost use Rattle.mr_commands.specs.OldVerdicts.{BeginsVerdict, IsEmptied, IsOldVerdict};
ghost use Rattle.mr_commands.specs.OldVerdicts.{IsVerdictLine, IsVerdictShared, no_text};

use crate::input::name_given;
use mr_args::Fault;
use mr_files::{
    FileFault, RangeFault, Store, first_shared, read_range_within, verdict_name, write_file,
    write_files,
};
use mr_store::Encode;
use std::alloc::{AllocError, Global};

/// The length of a verdict's first line.
const FRONT: u64 = 10;

fn is_verdict_line(line: &[u8]) -> bool
    ensures { IsTrue result ↔ IsVerdictLine line.now }
{
    line == b"verdict 1\n".as_slice() || line == b"verdict 2\n".as_slice()
}

/// No, whatever the fault; for want of memory nothing is known.
fn no_unless_memory(fault: RangeFault) -> Result<bool, AllocError>
    ensures { IfOk result (λ b. (b ≡ false) × (fault ≢ RangeFault.File FileFault.OutOfMemory)) }
{
    match fault {
        RangeFault::File(FileFault::OutOfMemory) => Err(AllocError),
        _ => Ok(false),
    }
}

/// Whether the file of that name begins as a verdict does; not if it can't be read.
fn is_verdict<S: Store>(store: &S, alloc: Global, name: &str) -> Result<bool, AllocError>
    ensures yes { IfOk result (λ b. IsTrue b
        → (text : List ℕ) × S.holds store.now name.now text × BeginsVerdict text) }
    ensures no { IfOk result (λ b. b ≡ false → S.unreadable store.now name.now
        ⊎ ((text : List ℕ) × S.holds store.now name.now text × ¬ BeginsVerdict text)) }
{
    match read_range_within(store, alloc, name, 0, Some(FRONT), FRONT) {
        Ok((front, _ends)) => Ok(is_verdict_line(front.as_slice())),
        Err(fault) => no_unless_memory(fault),
    }
}

/// The name of the verdict in the directory, if one stands there.
fn find_verdict<S: Store>(store: &S, alloc: Global, dir: &str) -> Result<Option<String>, AllocError>
    ensures { IfOk result (λ name. IsOldVerdict (S.holds store.now)
        (S.unreadable store.now) (S.known_as store.now) dir.now (option_map string_bytes name)) }
{
    let name = verdict_name(alloc, dir)?;
    if store.identity(alloc, name.as_str())?.is_none() {
        return Ok(None);
    }
    if !is_verdict(store, alloc, name.as_str())? {
        return Ok(None);
    }
    Ok(Some(name))
}

/// The same. It must be none of those files.
pub(crate) fn old_verdict<S: Store>(
    store: &S,
    alloc: Global,
    dir: &str,
    others: &[String],
) -> Result<Option<String>, Fault>
    ensures found { IfOk result (λ name. IsOldVerdict (S.holds store.now)
        (S.unreadable store.now) (S.known_as store.now) dir.now (option_map string_bytes name)) }
    ensures apart { IfOk result (λ name. AreApart (S.known_as store.now)
        (map string_bytes others.now) (named (option_map string_bytes name))) }
    ensures refused { IfErr result
        (IsVerdictShared (S.holds store.now) (S.known_as store.now) dir.now (map string_bytes others.now)) }
{
    let Some(name) = find_verdict(store, alloc, dir)? else {
        return Ok(None);
    };
    let emptied = name_given(alloc, Some(name.as_str()))?;
    match first_shared(store, alloc, others, emptied.as_slice())? {
        Some(shared) => Err(Fault::SameFile(shared)),
        None => Ok(Some(name)),
    }
}

fn empty_verdict<S: Store>(
    store: &mut S,
    alloc: Global,
    verdict: Option<&str>,
) -> Result<(), FileFault>
    ensures emptied { OnOk result (IsEmptied (S.holds store.new) (option_map (λ s. s.now) verdict.entry)) }
    ensures others { ChangesAmong (S.holds store.old) (S.holds store.new)
        (named (option_map (λ s. s.now) verdict.entry)) }
    ensures refused { IfErr result (IsWriteRefusal (S.holds store.old) (S.holds store.new) (S.unwritable store.old)
        (named (option_map (λ s. s.now) verdict.entry)) (no_text (option_map (λ s. s.now) verdict.entry))) }
    ensures still { (n : List ℕ) → S.unwritable store.new n → S.unwritable store.old n }
{
    match verdict {
        Some(name) => write_file(store, alloc, name, &[]),
        None => Ok(()),
    }
}

/// Empties the verdict of an earlier result, if there is one, and then writes the result. It fails
/// as `write_files` does.
pub(crate) fn write_over<S: Store, C: Encode>(
    store: &mut S,
    alloc: Global,
    verdict: Option<&str>,
    dir: &str,
    outputs: &[Vec<u8>],
    certificate: &C,
) -> Result<(), FileFault>
    requires verdict { IfSome (option_map (λ s. s.now) verdict) (λ name. name ≡ name_of_verdict dir.now) }
    ensures verdict { OnOk result (IsEmptied (S.holds store.new) (option_map (λ s. s.now) verdict.entry)) }
    ensures outputs { OnOk result (Holding (S.holds store.new)
        (part_names dir.now (length outputs.now)) (contents outputs.now)) }
    ensures certificate { OnOk result
        (S.holds store.new (name_of_certificate dir.now) (C.text certificate.now)) }
    ensures others { ChangesAmong (S.holds store.old) (S.holds store.new)
        (named (option_map (λ s. s.now) verdict.entry) ++ result_names dir.now (length outputs.now)) }
    ensures refused { IfErr result (IsWriteRefusal (S.holds store.old) (S.holds store.new) (S.unwritable store.old)
        (named (option_map (λ s. s.now) verdict.entry) ++ result_names dir.now (length outputs.now))
        (no_text (option_map (λ s. s.now) verdict.entry) ++ (contents outputs.now ++ C.text certificate.now ∷ []))) }
{
    empty_verdict(store, alloc, verdict)?;
    write_files(store, alloc, dir, outputs, certificate)
}
