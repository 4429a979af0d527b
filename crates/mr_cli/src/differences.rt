//! How a certificate differs from the request, if the judge reports another job or input.
use crate::table::JOBS;
use mr_args::{Options, request_of};
use mr_certform::{Item, Walker};
use mr_files::{Inspect, PathKind, Store, certificate_name, read_file};
use mr_jobs::Request;
use std::alloc::{AllocError, Global};

/// The front of a certificate has at most a literal, file lengths and nine more items.
const MOST_ITEMS: usize = 4096 + 1024 + 9;

/// The job and the files of a certificate.
#[derive(Drop)]
struct Front {
    job: u32,
    flags: u32,
    literal: Vec<u8>,
    parts: u32,
    split: u32,
    lengths: Vec<u64>,
}

/// The front of a certificate; none if it can't be read as a whole.
fn front_of(alloc: Global, bytes: &[u8]) -> Result<Option<Front>, AllocError> {
    let mut walker = Walker::new(bytes);
    let mut front = Front {
        job: 0,
        flags: 0,
        literal: Vec::new(alloc),
        parts: 0,
        split: 0,
        lengths: Vec::new(alloc),
    };
    for _ in 0..MOST_ITEMS {
        match walker.next() {
            Ok(Item::Job(n)) => front.job = n,
            Ok(Item::Flags(n)) => front.flags = n,
            Ok(Item::LiteralByte(b)) => front.literal.push(b)?,
            Ok(Item::Parts(n)) => front.parts = n,
            Ok(Item::SplitSize(n)) => front.split = n,
            Ok(Item::FileLength(n)) => front.lengths.push(n)?,
            Ok(Item::Skips(_)) => return Ok(Some(front)),
            Ok(_) => {}
            Err(_) => break,
        }
    }
    Ok(None)
}

fn add_where(text: &mut String, holds: bool, word: &str) -> Result<(), AllocError> {
    if holds {
        write!(text, " {word}")?;
    }
    Ok(())
}

fn add_flags(text: &mut String, flags: u32) -> Result<(), AllocError> {
    add_where(text, flags % 2 == 1, "--keep-case")?;
    add_where(text, flags / 2 % 2 == 1, "--fold")?;
    add_where(text, flags / 4 % 2 == 1, "--by-host")
}

/// Adds the options of a field: its number, and behind that the byte in front of it, if there is one.
fn add_field(text: &mut String, literal: &str) -> Result<(), AllocError> {
    let number = literal.trim_start_matches(|c: char| !c.is_ascii_digit());
    write!(text, " --field {number}")?;
    match literal.strip_suffix(number).unwrap_or("") {
        "" => Ok(()),
        "\t" => write!(text, " --separator '\\t'"),
        separator => write!(text, " --separator '{separator}'"),
    }
}

fn add_options(text: &mut String, front: &Front) -> Result<(), AllocError> {
    let job = JOBS.get((front.job as usize).wrapping_sub(1));
    write!(text, " --job {}", job.copied().unwrap_or("(no such job)"))?;
    let literal = str::from_utf8(front.literal.as_slice()).unwrap_or("(bytes that are not UTF-8)");
    match front.job {
        2 => write!(text, " --literal '{literal}'")?,
        5 => add_field(text, literal)?,
        _ => {}
    }
    add_flags(text, front.flags)?;
    let Front { parts, split, .. } = front;
    write!(text, " --parts {parts} --split {split}")
}

/// The options in which the certificate differs from the request, and those that it is of.
fn job_difference(alloc: Global, front: &Front, request: &Request) -> Result<String, AllocError> {
    let mut text = String::from_str(alloc, "the certificate has other")?;
    if front.job == request.job().number() {
        let own = match front.job {
            5 => "--field or --separator",
            _ => "--literal",
        };
        let is_other = front.literal.as_slice() != request.job().literal();
        add_where(&mut text, is_other, own)?;
        add_flags(&mut text, front.flags ^ request.flags())?;
    } else {
        text.push_str(" --job")?;
    }
    add_where(&mut text, front.parts != request.parts(), "--parts")?;
    add_where(&mut text, front.split != request.split_size(), "--split")?;
    text.push_str(": it is of")?;
    add_options(&mut text, front)?;
    Ok(text)
}

/// Another number of files, or the first file of which other bytes are taken, by their number.
fn input_difference<L: Inspect>(
    look: &L,
    alloc: Global,
    front: &Front,
    options: &Options<'_>,
) -> Result<String, AllocError> {
    let (was, is) = (front.lengths.len(), options.files.len());
    if was != is {
        return format!(in alloc; "the certificate is of {was} files, not {is}");
    }
    for (file, length) in front.lengths.iter().enumerate() {
        let name = options.files[file];
        let PathKind::File(now) = look.path_kind(name) else {
            continue;
        };
        let from = if file == 0 { options.from } else { 0 };
        let to = match options.to {
            Some(to) if file.saturating_add(1) == is => to.min(now),
            _ => now,
        };
        let taken = to.saturating_sub(from);
        if taken != *length && taken == now {
            return format!(in alloc; "{name} has {now} bytes, and had {length} by the certificate");
        }
        if taken != *length {
            return format!(in alloc;
                "{taken} bytes of {name} are taken, and by the certificate it were {length}"
            );
        }
    }
    Ok(String::new(alloc))
}

/// The hint for an answer of the judge, without a line end; empty if the certificate gives none.
pub fn check_hint<S: Store + Inspect>(
    store: &S,
    alloc: Global,
    options: &Options<'_>,
    said: &str,
) -> Result<String, AllocError> {
    let is_other_job = said == "no: OtherJob\n";
    if (is_other_job || said == "no: OtherInput\n")
        && let Ok(bytes) = read_file(store, alloc, certificate_name(alloc, options.out)?.as_str())
        && let Some(front) = front_of(alloc, bytes.as_slice())?
    {
        return match request_of(alloc, options) {
            Ok(request) if is_other_job => job_difference(alloc, &front, &request),
            _ => input_difference(store, alloc, &front, options),
        };
    }
    Ok(String::new(alloc))
}
