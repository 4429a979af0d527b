//! Why the program ends without an answer, with its status and message. Control bytes are escaped,
//! so that the name of a file can't steer a terminal.
ghost use Rattle.std.specs.Prelude.{◌≡◌, ◌↔◌, IsTrue, ◌<◌, ◌++◌, IfOk, OnOk};
ghost use Rattle.std.specs.IoError.{error_kind};
ghost use Rattle.mr_cli.specs.Statuses.{IsHelp, IsStatus, ReportsWords};
ghost use Rattle.mr_cli.specs.Shown.{byte_shown, hex_digit as digit_of, is_obeyed as obeys};
ghost use Rattle.mr_cli.specs.Shown.{text_shown};

use mr_args::Fault;
use std::alloc::{AllocError, Global};
use std::fmt;
use std::io::{self, ErrorKind};

/// Why the program ends without an answer.
#[derive(Drop)]
pub enum Failure {
    /// The parser's error, or its help.
    Line(clap::Error),
    NotUtf8,
    /// No subcommand. The parser reports that before.
    NoCommand,
    /// The directory of a fresh result is there, and not empty.
    NotFresh(String),
    Command(Fault),
}

impl From<AllocError> for Failure {
    ghost use Rattle.mr_cli.specs.Statuses.{no_memory_left};

    ghost from_gives = { λ _ f. f ≡ no_memory_left };

    fn from(_error: AllocError) -> Failure {
        Failure::Command(Fault::OutOfMemory)
    }
}

impl From<clap::Error> for Failure {
    ghost use Rattle.mr_cli.specs.Statuses.{ReportsLine};

    ghost from_gives = { λ e f. ReportsLine e f };

    fn from(error: clap::Error) -> Failure {
        match error.kind() {
            clap::error::ErrorKind::OutOfMemory => Failure::Command(Fault::OutOfMemory),
            _ => Failure::Line(error),
        }
    }
}

impl From<Fault> for Failure {
    ghost use Rattle.mr_cli.specs.declared.failure.Failure.TheVariants.{Command};

    ghost from_gives = { λ e f. f ≡ Command e };

    fn from(fault: Fault) -> Failure {
        Failure::Command(fault)
    }
}

impl Failure {
    /// Why the command line's words can't be read.
    pub fn of_words(error: io::Error) -> Failure
        ensures { ReportsWords (error_kind error) result }
    {
        match error.kind() {
            ErrorKind::OutOfMemory => Failure::Command(Fault::OutOfMemory),
            _ => Failure::NotUtf8,
        }
    }

    /// The exit status: 0 for help, 2 for other words, else that of the command's fault.
    pub fn status(&self) -> u8
        ensures { IsStatus self.now result }
    {
        match self {
            Failure::Line(error) => { if error.use_stderr() { 2 } else { 0 } }
            Failure::NotUtf8 | Failure::NoCommand | Failure::NotFresh(_) => 2,
            Failure::Command(fault) => fault.status(),
        }
    }

    /// Whether the text is requested help, which belongs on standard output.
    pub fn is_help(&self) -> bool
        ensures { IsTrue result ↔ IsHelp self.now }
    {
        matches!(self, Failure::Line(error) if !error.use_stderr())
    }
}

impl fmt::Display for Failure {
    fn fmt<W: fmt::Write>(&self, f: &mut fmt::Formatter<W>) -> fmt::Result {
        match self {
            Failure::Line(error) => write!(f, "{error}"),
            Failure::NotUtf8 => write!(f, "mapred: a word of the command line is not UTF-8\n"),
            Failure::NoCommand => write!(f, "mapred: no command\n"),
            Failure::NotFresh(dir) => write!(f, "mapred: NotFresh {dir}\n"),
            Failure::Command(fault) => write!(f, "{fault}"),
        }
    }
}

/// Whether a terminal obeys the byte after `before`; not a line feed if `lines`.
fn is_obeyed(lines: bool, before: u8, byte: u8) -> bool
    ensures { result ≡ obeys lines before byte }
{
    (byte < 0x20 && !(lines && byte == b'\n')) || (byte == 0x7F || (before == 0xC2 && byte < 0xA0))
}

fn hex_digit(n: u8) -> u8
    requires { n < 16 }
    ensures { result ≡ digit_of n }
{
    if n < 10 { b'0' + n } else { 0x57 + n }
}

/// Adds the byte, as `\x1b` if a terminal obeys it.
fn add_byte(out: &mut Vec<u8>, lines: bool, before: u8, byte: u8) -> Result<(), AllocError>
    ensures { OnOk result (out.new.items ≡ out.old.items ++ byte_shown lines before byte) }
{
    if is_obeyed(lines, before, byte) {
        let number = [b'\\', b'x', hex_digit(byte / 16), hex_digit(byte % 16)];
        out.extend_from_slice(&number)?;
    } else {
        out.extend_from_slice(&[byte])?;
    }
    Ok(())
}

/// The text with control bytes escaped; if `lines`, line feeds stay.
pub fn escape(alloc: Global, text: &[u8], lines: bool) -> Result<Vec<u8>, AllocError>
    ensures { IfOk result (λ v. v.items ≡ text_shown lines 0 text.now) }
{
    let mut out = Vec::new(alloc);
    let mut before = 0;
    for byte in text {
        add_byte(&mut out, lines, before, *byte)?;
        before = *byte;
    }
    Ok(out)
}
