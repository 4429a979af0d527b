//! Ranges and stretches of files in memory. A line of standard input has a limit, the byte from
//! which on the first file is taken, the one up to before which the last one is (2^32 - 1 for its
//! end), and the numbers of one to three files. It is answered by a line for each file that is
//! taken, and one that says whether the last one ends there; or by the number of the file that
//! isn't taken, and why. A range of one file is told before the stretch of that file.
ghost use Rattle.std.specs.Prelude.{◌≡◌, ◌≤◌, length};
ghost use Rattle.std.specs.Option.{ForSome};

use crate::master::numbers_of;
use crate::telling::Teller;
use mr_files::{
    FileFault, MemoryFiles, RangeFault, Stretch, UnreadStretch, read_range_within,
    read_stretch_within,
};
use std::alloc::{AllocError, Global};
use std::io;

/// What a line asks for, but for the files.
#[derive(Clone, Copy)]
struct Asked {
    limit: u64,
    from: u64,
    to: Option<u64>,
}

/// What is asked of so many files. Of one file no end before the beginning may be asked for: the
/// beginning stands for it.
fn asked_of(numbers: [u32; 6], files: usize) -> Asked
    ensures { files ≡ 1 → ForSome result.to (λ t. result.from ≤ t) }
{
    let [limit, from, to, ..] = numbers;
    let from = u64::from(from);
    let least = if files == 1 { from } else { 0 };
    let to = match to {
        u32::MAX => None,
        _ => Some(u64::from(to).max(least)),
    };
    Asked {
        limit: u64::from(limit),
        from,
        to,
    }
}

/// Three short files, one that takes more than one call, and one of which each use fails.
fn files(alloc: Global) -> Result<MemoryFiles, AllocError> {
    let mut files = MemoryFiles::new(alloc);
    files.put("open", b"ab\ncd", false)?;
    files.put("closed", b"ab\ncd\n", false)?;
    files.put("empty", b"", false)?;
    let mut long = Vec::new(alloc);
    for _ in 0..750 {
        long.extend_from_slice(b"x\n")?;
    }
    files.put("long", &long, false)?;
    files.put("failing", b"ab\n", true)?;
    Ok(files)
}

fn name_of(number: u32) -> &'static str {
    match number {
        1 => "open",
        2 => "closed",
        3 => "empty",
        4 => "long",
        5 => "failing",
        _ => "missing",
    }
}

/// The names of the files with these numbers; 0 stands for none.
fn names_of(alloc: Global, numbers: &[u32]) -> Result<Vec<&'static str>, AllocError> {
    let mut names = Vec::new(alloc);
    for number in numbers {
        if *number > 0 {
            names.push(name_of(*number))?;
        }
    }
    Ok(names)
}

fn show_fault(teller: &Teller, fault: RangeFault) {
    match fault {
        RangeFault::File(FileFault::CannotRead(name)) => teller.shown(&"cannot read ", &name),
        RangeFault::File(FileFault::CannotWrite(name)) => teller.shown(&"cannot write ", &name),
        RangeFault::File(FileFault::OutOfMemory) => teller.text("OutOfMemory"),
        RangeFault::PastEnd => teller.text("PastEnd"),
        RangeFault::InsideALine { byte } => teller.behind("InsideALine ", &byte),
        RangeFault::TooLong => teller.text("TooLong"),
    }
    teller.end_line();
}

/// Tells bytes; of many only how many they are.
fn show_bytes(teller: &Teller, bytes: &[u8]) {
    if bytes.len() > 100 {
        teller.line(&bytes.len());
    } else {
        teller.one(&bytes);
    }
}

fn show_range(teller: &Teller, files: &MemoryFiles, name: &str, asked: Asked)
    requires { ForSome asked.to (λ t. asked.from ≤ t) }
{
    let Asked { limit, from, to } = asked;
    match read_range_within(files, teller.alloc(), name, from, to, limit) {
        Ok((bytes, ends)) => {
            show_bytes(teller, &bytes);
            teller.one(&ends);
        }
        Err(fault) => show_fault(teller, fault),
    }
}

fn show_taken(teller: &Teller, taken: &[Vec<u8>], ends: bool) {
    for bytes in taken {
        show_bytes(teller, bytes);
    }
    teller.one(&ends);
}

fn show_stretch(teller: &Teller, files: &MemoryFiles, names: &[&str], asked: Asked)
    requires { length names.now ≡ 1 → ForSome asked.to (λ t. asked.from ≤ t) }
{
    let Asked { limit, from, to } = asked;
    let stretch = Stretch { names, from, to };
    match read_stretch_within(files, teller.alloc(), &stretch, limit) {
        Ok((taken, ends)) => show_taken(teller, &taken, ends),
        Err(UnreadStretch { file, fault }) => {
            teller.before(&file, " ");
            show_fault(teller, fault);
        }
    }
}

fn answer_line(teller: &Teller, files: &MemoryFiles, numbers: [u32; 6]) -> Result<(), AllocError> {
    let names = names_of(teller.alloc(), &numbers[3..])?;
    let asked = asked_of(numbers, names.len());
    if names.len() == 1 {
        show_range(teller, files, names[0], asked);
    }
    show_stretch(teller, files, &names, asked);
    Ok(())
}

/// Answers standard input.
pub fn answer(teller: &Teller) -> io::Result<()> {
    let files = files(teller.alloc())?;
    for line in teller.lines() {
        answer_line(teller, &files, numbers_of(line?.as_str()))?;
    }
    Ok(())
}
