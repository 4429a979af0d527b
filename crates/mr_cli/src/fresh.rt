//! A fresh result, which is in its directory whole or not at all.
//!
//!     DIR, missing or empty   PARENT/.DIR.fresh-N is made, gets the files of DIR, is renamed to DIR
//!
//! Names of files in DIR lead to the directory beside it meanwhile, so no fault names that one. The
//! system renames in one step: a command that is killed leaves DIR as it was, and at most the
//! directory beside. No contract says so: read this file, as that of the disk.
ghost use Rattle.std.specs.Prelude.{⊤};

use crate::failure::Failure;
use mr_args::Fault;
use mr_commands::CommandOutput;
use mr_files::{DiskFiles, Inspect, PathKind, Store, WriteFault};
use mr_store::ReadFault;
use std::alloc::{AllocError, Global};
use std::cell::Cell;
use std::fs::{self, Metadata};
use std::io::{self, ErrorKind};
use std::os::unix::fs::MetadataExt;
use std::rt::Files;

/// A directory of a result, as it was given, and the one beside it.
#[derive(Drop)]
struct Moved {
    dir: String,
    beside: String,
}

/// The system's files. While a fresh result is made, its files are in the directory beside.
#[derive(Drop)]
pub struct ResultFiles<'a, R: Files> {
    rt: &'a R,
    last: &'a Cell<i32>,
    alloc: Global,
    disk: DiskFiles<'a, R>,
    moved: Option<Moved>,
}

/// What is in front of a directory's last part, and that part; none if it names no directory of its
/// own.
fn parted(dir: &str) -> Option<(&str, &str)> {
    let last = dir.rsplit('/').next().unwrap_or("");
    match last {
        "" | "." | ".." => None,
        _ => Some((dir.strip_suffix(last)?, last)),
    }
}

impl<'a, R: Files + Alloc + Clone + Drop> ResultFiles<'a, R> {
    /// `last` receives the number of the last error; it holds 0 before.
    pub fn new(rt: &'a R, alloc: Global, last: &'a Cell<i32>) -> ResultFiles<'a, R> {
        ResultFiles {
            rt,
            last,
            alloc,
            disk: DiskFiles::new(rt, last),
            moved: None,
        }
    }

    /// A directory that is there, no link, no mount point, and empty; none if nothing is there.
    fn expect_empty(&self, dir: &str, front: &str) -> io::Result<Option<Metadata>> {
        let seen = match fs::symlink_metadata(self.rt, dir) {
            Err(error) if error.kind() == ErrorKind::NotFound => return Ok(None),
            seen => seen?,
        };
        let parent = if front.is_empty() { "." } else { front };
        if !seen.is_dir() || seen.dev() != fs::metadata(self.rt, parent)?.dev() {
            return Err(io::Error::from(ErrorKind::ResourceBusy));
        }
        if fs::read_dir(self.rt, dir)?.next().is_some() {
            return Err(io::Error::from(ErrorKind::DirectoryNotEmpty));
        }
        Ok(Some(seen))
    }

    /// Makes the directory beside `dir`, with the permissions that `dir` has.
    fn make_beside(&self, dir: &str) -> io::Result<String> {
        let Some((front, last)) = parted(dir) else {
            return Err(io::Error::from(ErrorKind::ResourceBusy));
        };
        let old = self.expect_empty(dir, front)?;
        for number in 0..1000 {
            let beside = format!(in self.alloc; "{front}.{last}.fresh-{number}")?;
            match fs::create_dir(self.rt, beside.as_str()) {
                Err(error) if error.kind() == ErrorKind::AlreadyExists => continue,
                made => made?,
            }
            if let Some(old) = &old {
                fs::set_permissions(self.rt, beside.as_str(), old.permissions())?;
            }
            return Ok(beside);
        }
        Err(io::Error::from(ErrorKind::AlreadyExists))
    }

    fn failure(&self, dir: String, error: io::Error) -> Failure {
        self.last.set(error.raw_os_error().unwrap_or(0));
        match error.kind() {
            ErrorKind::OutOfMemory => Failure::Command(Fault::OutOfMemory),
            ErrorKind::DirectoryNotEmpty => Failure::NotFresh(dir),
            _ => Failure::Command(Fault::CannotWrite(dir)),
        }
    }

    /// From now on files in `dir` are in a new directory beside it.
    pub fn begin(&mut self, dir: &str) -> Result<(), Failure> {
        let dir = String::from_str(self.alloc, dir)?;
        match self.make_beside(dir.as_str().trim_end_matches('/')) {
            Ok(beside) => self.moved = Some(Moved { dir, beside }),
            Err(error) => return Err(self.failure(dir, error)),
        }
        Ok(())
    }

    /// Puts the directory beside in the place of its own if the command succeeded; else removes it.
    pub fn end(
        &mut self,
        answered: Result<CommandOutput, Failure>,
    ) -> Result<CommandOutput, Failure> {
        let Some(Moved { dir, beside }) = self.moved.take() else {
            return answered;
        };
        let is_done = matches!(&answered, Ok(said) if said.status == 0);
        let placed = match is_done {
            true => fs::rename(self.rt, beside.as_str(), dir.as_str().trim_end_matches('/')),
            false => Ok(()),
        };
        if !is_done || placed.is_err() {
            let _ = fs::remove_dir_all(self.rt, beside.as_str());
        }
        match placed {
            Ok(()) => answered,
            Err(error) => Err(self.failure(dir, error)),
        }
    }
}

impl<'a, R: Files> ResultFiles<'a, R> {
    /// Where the file of that name is.
    fn place(&self, name: &str) -> Result<String, AllocError> {
        if let Some(Moved { dir, beside }) = &self.moved
            && let Some(rest) = name.strip_prefix(dir.as_str())
            && rest.starts_with('/')
        {
            return format!(in self.alloc; "{beside}{rest}");
        }
        String::from_str(self.alloc, name)
    }
}

impl<'a, R: Files> Store for ResultFiles<'a, R> {
    type Reader = <DiskFiles<'a, R> as Store>::Reader;

    type Writer = <DiskFiles<'a, R> as Store>::Writer;

    ghost holds = { λ _ _ _. ⊤ };

    ghost unreadable = { λ _ _. ⊤ };

    ghost unwritable = { λ _ _. ⊤ };

    ghost alike = { λ _ _ _. ⊤ };

    ghost known_as = { λ _ _ _. ⊤ };

    fn is_same_folder(&self, name: &str, other: &str) -> bool {
        self.disk.is_same_folder(name, other)
    }

    fn identity(&self, alloc: Global, name: &str) -> Result<Option<String>, AllocError> {
        self.disk.identity(alloc, self.place(name)?.as_str())
    }

    fn try_open(&self, name: &str) -> Result<(), ReadFault> {
        self.disk.try_open(self.place(name)?.as_str())
    }

    fn reader_from(&self, alloc: Global, name: &str, at: u64) -> Result<Self::Reader, ReadFault> {
        self.disk.reader_from(alloc, self.place(name)?.as_str(), at)
    }

    fn writer(&mut self, alloc: Global, name: &str) -> Result<Self::Writer, WriteFault> {
        let place = self.place(name)?;
        self.disk.writer(alloc, place.as_str())
    }

    fn close(&mut self, name: &str, writer: Self::Writer) -> Result<(), AllocError> {
        self.disk.close(name, writer)
    }
}

impl<'a, R: Files> Inspect for ResultFiles<'a, R> {
    fn path_kind(&self, name: &str) -> PathKind {
        self.disk.path_kind(name)
    }

    fn last_error(&self) -> Option<io::Error> {
        self.disk.last_error()
    }
}
