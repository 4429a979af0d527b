//! The system's files. std's contracts don't say what bytes a name holds, so check by reading: the
//! code opens the file of the given name, once, and reads or writes that file. It also keeps the
//! number of the system's last error, for hints: a second try could make or empty the file. Add
//! nothing else.
//!
//!     reader    Unopened  - first read ->            Open  - its end ->   Ended, and closed
//!     writer    Unopened  - first write or flush ->  Open  - flush ->     Closed
//!     either    a failed call  ->  Closed: each later call fails
//!
//! So who reads or writes files in turn has one open at a time, and a flush alone makes an empty
//! file. A call that is interrupted has failed. Who opens a pipe, a socket or a device takes bytes
//! from who opens it next, so `try_open` opens none: a part may be a pipe, and its first read
//! reports a fault.
ghost use Rattle.std.specs.Prelude.{◌≡◌, ◌≤◌, ◌<◌, ⊤, None, IfOk, length};

use crate::names::{Inspect, PathKind};
use crate::store::{Store, WriteFault};
use mr_store::{CountedRead, CountedWrite, Device, Failures, ReadFault, read_some, write_some};
use std::alloc::{AllocError, Global};
use std::cell::Cell;
use std::fs::{self, File};
use std::io::{self, ErrorKind, Seek, SeekFrom, Write};
use std::mem;
use std::os::unix::fs::MetadataExt;
use std::rt::Files;

/// The system follows at most so many links in a row.
const MOST_LINKS: u32 = 40;

/// The state of a file. Taking the handle out closes the file, unless it is put back.
#[derive(Drop)]
enum Handle<F> {
    Unopened,
    Open(F),
    Ended,
    Closed,
}

fn noted<T>(last: &Cell<i32>, answer: io::Result<T>) -> io::Result<T>
    ensures { result ≡ answer }
{
    if let Err(error) = &answer
        && let Some(number) = error.raw_os_error()
    {
        last.set(number);
    }
    answer
}

/// Opens a file at byte `at`, or at its end if that comes before. A pipe is opened at 0 alone.
fn open_at<R: Files>(rt: &R, name: &str, at: u64) -> io::Result<R::File> {
    let mut file = File::open(rt, name)?;
    if at > 0 {
        let end = file.seek(SeekFrom::End(0))?;
        file.seek(SeekFrom::Start(at.min(end)))?;
    }
    Ok(file)
}

/// Opens at the first read; closes at the end or at a failed call, after which each call fails.
#[derive(Drop)]
pub struct FileReader<'a, R: Files> {
    rt: &'a R,
    last: &'a Cell<i32>,
    name: String,
    at: u64,
    handle: Handle<R::File>,
    failures: Failures,
}

impl<'a, R: Files> FileReader<'a, R> {
    fn read_open(&mut self, buffer: &mut [u8]) -> io::Result<usize>
        ensures bound { IfOk result (λ n. n ≤ length buffer.new) }
        ensures same { self.new.failures ≡ self.old.failures }
    {
        if let Handle::Ended = self.handle {
            return Ok(0);
        }
        let mut file = match mem::replace(&mut self.handle, Handle::Closed) {
            Handle::Unopened => open_at(self.rt, self.name.as_str(), self.at)?,
            Handle::Open(file) => file,
            Handle::Ended | Handle::Closed => return Err(io::Error::from(ErrorKind::Other)),
        };
        let count = read_some(&mut file, buffer)?;
        if count > 0 || buffer.is_empty() {
            self.handle = Handle::Open(file);
        } else {
            self.handle = Handle::Ended;
        }
        Ok(count)
    }
}

impl<'a, R: Files> CountedRead for FileReader<'a, R> {
    ghost failed = { λ r. r.failures.count };

    ghost lacked = { λ r. r.failures.lacked_memory };

    fn read(&mut self, buffer: &mut [u8]) -> Result<usize, Device> {
        let answer = noted(self.last, self.read_open(buffer));
        self.failures.counted(answer)
    }

    fn failures(&self) -> u64 {
        self.failures.count
    }

    fn is_out_of_memory(&self) -> bool {
        self.failures.lacked_memory
    }
}

/// Created or emptied at the first write or flush. A flush or a failed call closes it for good.
#[derive(Drop)]
pub struct FileWriter<'a, R: Files> {
    rt: &'a R,
    last: &'a Cell<i32>,
    name: String,
    handle: Handle<R::File>,
    failures: Failures,
}

impl<'a, R: Files> FileWriter<'a, R> {
    fn open(&mut self) -> io::Result<R::File>
        ensures { self.new.failures ≡ self.old.failures }
    {
        match mem::replace(&mut self.handle, Handle::Closed) {
            Handle::Unopened => File::create(self.rt, self.name.as_str()),
            Handle::Open(file) => Ok(file),
            Handle::Ended | Handle::Closed => Err(io::Error::from(ErrorKind::Other)),
        }
    }

    fn write_open(&mut self, bytes: &[u8]) -> io::Result<usize>
        ensures bound { IfOk result (λ n. n ≤ length bytes.now) }
        ensures some { IfOk result (λ n. 0 < length bytes.now → 0 < n) }
        ensures same { self.new.failures ≡ self.old.failures }
    {
        let mut file = self.open()?;
        let count = write_some(&mut file, bytes)?;
        self.handle = Handle::Open(file);
        Ok(count)
    }

    fn flush_open(&mut self) -> io::Result<()>
        ensures { self.new.failures ≡ self.old.failures }
    {
        let mut file = self.open()?;
        file.flush()
    }
}

impl<'a, R: Files> CountedWrite for FileWriter<'a, R> {
    ghost seen = { λ w. record { contents = None; handed_on = None; failed = w.failures.count } };

    ghost lacked = { λ w. w.failures.lacked_memory };

    fn write(&mut self, bytes: &[u8]) -> Result<usize, Device> {
        let answer = noted(self.last, self.write_open(bytes));
        self.failures.counted(answer)
    }

    fn flush(&mut self) -> Result<(), Device> {
        let answer = noted(self.last, self.flush_open());
        self.failures.counted(answer)
    }

    fn failures(&self) -> u64 {
        self.failures.count
    }

    fn is_out_of_memory(&self) -> bool {
        self.failures.lacked_memory
    }
}

/// The system's files.
#[derive(Drop)]
pub struct DiskFiles<'a, R: Files> {
    rt: &'a R,
    last: &'a Cell<i32>,
}

impl<'a, R: Files> DiskFiles<'a, R> {
    /// `last` receives the number of the last error; it holds 0 before.
    pub fn new(rt: &'a R, last: &'a Cell<i32>) -> DiskFiles<'a, R> {
        DiskFiles { rt, last }
    }
}

/// The folder and the last part of a name.
fn parted(name: &str) -> (&str, &str) {
    match name.rsplit_once('/') {
        Some(("", last)) => ("/", last),
        Some(parts) => parts,
        None => (".", name),
    }
}

/// The identity of a file that doesn't exist: that of its folder, and the last part of its name.
fn identity_to_be<R: Files>(
    rt: &R,
    alloc: Global,
    name: &str,
) -> Result<Option<String>, AllocError> {
    let (folder, last) = parted(name);
    let Ok(seen) = fs::metadata(rt, folder) else {
        return Ok(None);
    };
    let (device, number) = (seen.dev(), seen.ino());
    Ok(Some(format!(in alloc; "{device}:{number}/{last}")?))
}

/// The target of a symbolic link; none if the name is no link.
fn link_target<R: Files>(rt: &R, alloc: Global, name: &str) -> Result<Option<String>, AllocError> {
    let target = match rt.read_link(alloc, name) {
        Ok(target) => target.into_string(),
        Err(error) if error.kind() == ErrorKind::OutOfMemory => return Err(AllocError),
        Err(_) => return Ok(None),
    };
    if target.as_str().starts_with('/') {
        return Ok(Some(target));
    }
    let (folder, _) = parted(name);
    Ok(Some(format!(in alloc; "{folder}/{target}")?))
}

impl<'a, R: Files> Store for DiskFiles<'a, R> {
    type Reader = FileReader<'a, R>;

    type Writer = FileWriter<'a, R>;

    ghost holds = { λ _ _ _. ⊤ };

    ghost unreadable = { λ _ _. ⊤ };

    ghost unwritable = { λ _ _. ⊤ };

    ghost alike = { λ _ _ _. ⊤ };

    ghost known_as = { λ _ _ _. ⊤ };

    fn is_same_folder(&self, name: &str, other: &str) -> bool {
        if name == other {
            return true;
        }
        match (fs::metadata(self.rt, name), fs::metadata(self.rt, other)) {
            (Ok(one), Ok(two)) => one.dev() == two.dev() && one.ino() == two.ino(),
            _ => false,
        }
    }

    // `DEVICE:INODE` of an existing file or folder. It follows a link to a missing file: a write to
    // the link's name creates that file.
    fn identity(&self, alloc: Global, name: &str) -> Result<Option<String>, AllocError> {
        let mut name = String::from_str(alloc, name)?;
        for _ in 0..MOST_LINKS {
            if let Ok(seen) = fs::metadata(self.rt, name.as_str()) {
                if !seen.is_file() && !seen.is_dir() {
                    return Ok(None);
                }
                let (device, number) = (seen.dev(), seen.ino());
                return Ok(Some(format!(in alloc; "{device}:{number}")?));
            }
            match link_target(self.rt, alloc, name.as_str())? {
                Some(target) => name = target,
                None => return identity_to_be(self.rt, alloc, name.as_str()),
            }
        }
        Ok(None)
    }

    fn try_open(&self, name: &str) -> Result<(), ReadFault> {
        if let Ok(seen) = fs::metadata(self.rt, name)
            && !seen.is_file()
            && !seen.is_dir()
        {
            return Ok(());
        }
        match noted(self.last, File::open(self.rt, name)) {
            Ok(_) => Ok(()),
            Err(error) if error.kind() == ErrorKind::OutOfMemory => Err(ReadFault::OutOfMemory),
            Err(_) => Err(ReadFault::Device),
        }
    }

    fn reader_from(
        &self,
        alloc: Global,
        name: &str,
        at: u64,
    ) -> Result<FileReader<'a, R>, ReadFault> {
        Ok(FileReader {
            rt: self.rt,
            last: self.last,
            name: String::from_str(alloc, name)?,
            at,
            handle: Handle::Unopened,
            failures: Failures::new(),
        })
    }

    fn writer(&mut self, alloc: Global, name: &str) -> Result<FileWriter<'a, R>, WriteFault> {
        Ok(FileWriter {
            rt: self.rt,
            last: self.last,
            name: String::from_str(alloc, name)?,
            handle: Handle::Unopened,
            failures: Failures::new(),
        })
    }

    fn close(&mut self, _name: &str, _writer: FileWriter<'a, R>) -> Result<(), AllocError> {
        Ok(())
    }
}

impl<'a, R: Files> Inspect for DiskFiles<'a, R> {
    fn path_kind(&self, name: &str) -> PathKind {
        match fs::metadata(self.rt, name) {
            Ok(seen) if seen.is_dir() => PathKind::Directory,
            Ok(seen) if seen.is_file() => PathKind::File(seen.len()),
            Ok(_) => PathKind::Other,
            Err(error) if error.kind() == ErrorKind::NotFound => PathKind::Nothing,
            Err(error) if error.kind() == ErrorKind::NotADirectory => PathKind::Nothing,
            Err(_) => PathKind::Other,
        }
    }

    fn last_error(&self) -> Option<io::Error> {
        match self.last.get() {
            0 => None,
            number => Some(io::Error::from_raw_os_error(number)),
        }
    }
}
