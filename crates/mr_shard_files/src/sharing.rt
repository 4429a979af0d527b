//! Checks that the result's files are not among those read, and writes the verdict.
ghost use Rattle.std.specs.Prelude.{◌≡◌, IfErr, OnOk, map, ◌++◌, ℕ, List, IfOk, option_map};
ghost use Rattle.std.specs.Prelude.{string_bytes};
ghost use Rattle.mr_shard_files.specs.Apart.{AreApart, IsSameFolder};
ghost use Rattle.mr_files.specs.Folders.{IsFolderOf};
ghost use Rattle.mr_files.specs.Names.{merged_names, part_names, name_of_verdict};
ghost use Rattle.mr_shard_files.specs.Sharing.{AreBeside, AreRead, AreUnshared, IsShared};
ghost use Rattle.mr_shard_files.specs.Sharing.{names_with};
ghost use Rattle.mr_files.specs.Holding.{Begins, ChangesOnly};
ghost use Rattle.mr_shards.specs.Verdict.{spelling};
ghost use Rattle.mr_shard_files.specs.Made.{ReportsUnwritten};

use crate::fault::ShardFault;
use crate::merging::MergePlan;
use mr_files::{Store, add_names, first_shared, folder_of, part_name, verdict_name, write_file};
use mr_shards::{Verdict, write_verdict};
use std::alloc::{AllocError, Global};

/// Refuses a verdict in the result's folder: the merge would overwrite parts while it reads them.
pub(crate) fn expect_apart<S: Store>(store: &S, names: &[&str], out: &str) -> Result<(), ShardFault>
    ensures ok { OnOk result (AreApart (map (λ s. s.now) names.now) out.now) }
    ensures err { IfErr result (IsSameFolder (S.alike store.now) (map (λ s. s.now) names.now) out.now) }
{
    for shard in 0..names.len() {
        if store.is_same_folder(out, folder_of(names[shard])) {
            return Err(ShardFault::SameFolder { shard });
        }
    }
    Ok(())
}

fn add_parts(
    alloc: Global,
    names: &mut Vec<String>,
    folder: &str,
    parts: usize,
) -> Result<(), AllocError>
    ensures { OnOk result (map string_bytes names.new.items
        ≡ map string_bytes names.old.items ++ part_names folder.now parts) }
{
    for part in 0..parts {
        let name = part_name(alloc, folder, part)?;
        names.push(name).map_err(AllocError::from)?;
    }
    Ok(())
}

/// The names of all read files: the parts beside the verdicts, the verdicts, and the list, if any.
fn names_read(
    alloc: Global,
    names: &[&str],
    list: Option<&str>,
    parts: usize,
) -> Result<Vec<String>, AllocError>
    ensures { IfOk result (λ read. AreRead (map (λ s. s.now) names.now)
        (option_map (λ n. n.now) list.entry) parts (map string_bytes read.items)) }
{
    let mut read = Vec::new(alloc);
    for shard in 0..names.len() {
        add_parts(alloc, &mut read, folder_of(names[shard]), parts)?;
    }
    add_names(alloc, &mut read, names)?;
    if let Some(name) = list {
        add_names(alloc, &mut read, &[name])?;
    }
    Ok(read)
}

/// Refuses a written file that the merge also reads, or writes before.
pub(crate) fn expect_unshared<S: Store>(
    store: &S,
    alloc: Global,
    plan: &MergePlan<'_>,
    parts: u32,
) -> Result<(), ShardFault>
    ensures ok { OnOk result (AreUnshared (S.known_as store.now)
        (map (λ s. s.now) plan.now.names.now) (option_map (λ n. n.now) plan.now.list)
        plan.now.out.now parts) }
    ensures err { IfErr result (IsShared (S.known_as store.now)
        (map (λ s. s.now) plan.now.names.now) (option_map (λ n. n.now) plan.now.list)
        plan.now.out.now parts) }
{
    let parts = parts as usize;
    let read = names_read(alloc, plan.names, plan.list, parts)?;
    let mut written = Vec::new(alloc);
    add_parts(alloc, &mut written, plan.out, parts)?;
    let last = verdict_name(alloc, plan.out)?;
    written.push(last).map_err(AllocError::from)?;
    match first_shared(store, alloc, read.as_slice(), written.as_slice())? {
        Some(name) => Err(ShardFault::SameFile(name)),
        None => Ok(()),
    }
}

/// Writes a text as the folder's verdict.
pub(crate) fn put_verdict<S: Store>(
    store: &mut S,
    alloc: Global,
    dir: &str,
    text: &[u8],
) -> Result<(), ShardFault>
    ensures whole { OnOk result (S.holds store.new (name_of_verdict dir.now) text.now) }
    ensures begins { Begins (S.holds store.old) (S.holds store.new) (name_of_verdict dir.now) text.now }
    ensures others { ChangesOnly (S.holds store.old) (S.holds store.new) (name_of_verdict dir.now) }
    ensures still { (n : List ℕ) → S.unwritable store.new n → S.unwritable store.old n }
    ensures err { IfErr result (ReportsUnwritten (S.unwritable store.old (name_of_verdict dir.now))
        (name_of_verdict dir.now)) }
{
    let name = verdict_name(alloc, dir)?;
    write_file(store, alloc, name.as_str(), text)?;
    Ok(())
}

pub(crate) fn save_verdict<S: Store>(
    store: &mut S,
    alloc: Global,
    dir: &str,
    verdict: &Verdict,
) -> Result<(), ShardFault>
    ensures whole { OnOk result (S.holds store.new (name_of_verdict dir.now) (spelling verdict.now)) }
    ensures begins { Begins (S.holds store.old) (S.holds store.new) (name_of_verdict dir.now) (spelling verdict.now) }
    ensures others { ChangesOnly (S.holds store.old) (S.holds store.new) (name_of_verdict dir.now) }
    ensures still { (n : List ℕ) → S.unwritable store.new n → S.unwritable store.old n }
    ensures err { IfErr result (ReportsUnwritten (S.unwritable store.old (name_of_verdict dir.now))
        (name_of_verdict dir.now)) }
{
    let text = write_verdict(alloc, verdict)?;
    put_verdict(store, alloc, dir, text.as_slice())
}
