//! The files that are written last, behind a command's own: the picture of a run, then the report.
//! None is written over a file that the command reads or writes, nor over one that holds something
//! else. This is tested before any work, by names and identities as they are then: a link to a file
//! that the command makes only later passes.

use crate::failure::Failure;
use crate::options::letter_and_options;
use mr_args::{Fault, Subcommand};
use mr_files::{Store, add_names, first_shared, folder_of};
use mr_store::CountedRead;
use std::alloc::{AllocError, Global};

/// The names of all files that a command reads or writes and that are given to it, and the
/// directories in which it has files of other names.
fn places_of<'a>(
    alloc: Global,
    asked: &'a Subcommand<'a>,
) -> Result<(Vec<String>, Vec<&'a str>), AllocError> {
    let (mut names, mut folders) = (Vec::new(alloc), Vec::new(alloc));
    if let Some(options) = letter_and_options(asked).1 {
        add_names(alloc, &mut names, options.files.as_slice())?;
        folders.push(options.out)?;
    }
    match asked {
        Subcommand::Seq(_) | Subcommand::Explain(_) => {}
        Subcommand::Run(asked) => {
            for name in [asked.script, asked.history] {
                add_names(alloc, &mut names, name.as_slice())?;
            }
            folders.extend_from_slice(asked.scratch.as_slice())?;
        }
        Subcommand::Check(asked) => add_names(alloc, &mut names, asked.verdict.as_slice())?,
        Subcommand::Merge(asked) => {
            add_names(alloc, &mut names, asked.verdicts.as_slice())?;
            add_names(alloc, &mut names, asked.inputs.as_slice())?;
            folders.push(asked.out)?;
            for verdict in asked.verdicts.as_slice() {
                folders.push(folder_of(verdict))?;
            }
        }
        Subcommand::Verify(asked) => {
            add_names(alloc, &mut names, &[asked.verdict])?;
            folders.push(asked.out.unwrap_or(folder_of(asked.verdict)))?;
        }
        Subcommand::Picture(asked) => add_names(alloc, &mut names, &[asked.history, asked.page])?,
    }
    Ok((names, folders))
}

/// Whether a file of that name holds something else than one that begins so. Pipes, sockets and
/// devices, which have no identity, aren't read.
fn holds_other<S: Store>(
    alloc: Global,
    files: &S,
    name: &str,
    front: &str,
) -> Result<bool, AllocError> {
    let mut seen = [0u8; 10];
    if files.identity(alloc, name)?.is_some()
        && let Ok(mut reader) = files.reader(alloc, name)
        && let Ok(count) = reader.read(&mut seen)
    {
        return Ok(count > 0 && !front.as_bytes().starts_with(&seen[..count]));
    }
    Ok(false)
}

/// Whether a file of that name may be one of a result in these directories, or one of regions.
fn is_in_result<S: Store>(files: &S, folders: &[&str], name: &str) -> bool {
    let last = name.rsplit('/').next().unwrap_or("");
    let is_part = last.starts_with("part-") || last.starts_with("region");
    (is_part || ["certificate", "verdict"].contains(&last))
        && folders
            .iter()
            .any(|folder| files.is_same_folder(folder, folder_of(name)))
}

/// Refuses files that would be written over one that the command reads or writes, over one another,
/// or over any other that doesn't begin as they do. `last` has their names, each with what such a
/// file begins with.
pub fn expect_apart<S: Store>(
    alloc: Global,
    files: &S,
    asked: &Subcommand<'_>,
    last: &[(Option<&str>, &str)],
) -> Result<(), Failure> {
    let mut own = Vec::new(alloc);
    for (name, _) in last {
        add_names(alloc, &mut own, name.as_slice())?;
    }
    if own.is_empty() {
        return Ok(());
    }
    let (names, folders) = places_of(alloc, asked)?;
    if let Some(shared) = first_shared(files, alloc, names.as_slice(), own.as_slice())? {
        return Err(Failure::Command(Fault::SameFile(shared)));
    }
    for (name, front) in last {
        if let Some(name) = name
            && (holds_other(alloc, files, name, front)?
                || is_in_result(files, folders.as_slice(), name))
        {
            return Err(Failure::Command(Fault::SameFile(String::from_str(alloc, name)?)));
        }
    }
    Ok(())
}
