//! What is printed beside the program's own lines: notes before the work, and after a fault what
//! helps against it: the text of its row, or the system's reason. It changes neither the work, nor
//! the answer, nor the exit status: those come from `answer` and `finish`.

use crate::differences::check_hint;
use crate::failure::{Failure, escape};
use crate::help::hint;
use crate::nearest::line_hint;
use crate::options::letter_and_options;
use crate::program::finish;
use crate::progress::notes;
use mr_args::{ExplainOptions, Fault, JobKind, Options, Subcommand};
use mr_commands::CommandOutput;
use mr_files::{Inspect, Store};
use std::alloc::{AllocError, Global};
use std::io::{self, Stderr, Stdout, Write};

/// The standard streams. At a terminal control bytes are escaped, and wherever hints are printed.
#[derive(Drop)]
pub struct Screen {
    pub out: Stdout,
    pub err: Stderr,
    pub alloc: Global,
    pub is_terminal: bool,
    pub hints: bool,
}

/// The row of an explained key: no output can write it, or the result differs.
fn evidence_row(asked: &ExplainOptions<'_>, status: u8) -> &'static str {
    let Options { job, keep_case, .. } = &asked.options;
    let folds = matches!(job, JobKind::Words | JobKind::Index) && !*keep_case;
    let key = asked.key.unwrap_or("");
    match status {
        _ if folds && key.bytes().any(|byte| byte.is_ascii_uppercase()) => "KEY: 0 pairs",
        0 => "",
        _ => "differs:",
    }
}

/// The system's reason, if it refused a file.
pub fn reason_of<F: Inspect>(files: &F, failure: &Failure) -> Option<io::Error> {
    match failure {
        Failure::Command(Fault::CannotRead(_) | Fault::CannotWrite(_)) => files.last_error(),
        _ => None,
    }
}

/// The hint for an answer, without a line end: what this input, this result or the system says of
/// it, or else the table; empty if there is none.
fn hint_for<F: Store + Inspect>(
    files: &F,
    alloc: Global,
    asked: Option<&Subcommand<'_>>,
    answered: &Result<CommandOutput, Failure>,
) -> Result<String, AllocError> {
    let (letter, options) = asked.map(|asked| letter_and_options(asked)).unzip();
    let own = match (answered, asked) {
        (Ok(said), Some(Subcommand::Check(asked))) => {
            check_hint(files, alloc, &asked.options, said.text.as_str())?
        }
        (Err(Failure::Command(Fault::InsideALine { file, byte })), _) => {
            line_hint(files, alloc, options.flatten(), *file, *byte)?
        }
        (Err(failure), _) => match reason_of(files, failure) {
            Some(reason) => format!(in alloc; "{reason}")?,
            None => String::new(alloc),
        },
        _ => String::new(alloc),
    };
    if !own.is_empty() {
        return Ok(own);
    }
    match (answered, asked) {
        (Ok(said), Some(Subcommand::Explain(asked))) => {
            hint(alloc, letter, evidence_row(asked, said.status))
        }
        (Ok(said), _) => hint(alloc, letter, said.text.as_str()),
        (Err(Failure::Line(_)), _) => Ok(String::new(alloc)),
        (Err(failure), _) => hint(alloc, letter, format!(in alloc; "{failure}")?.as_str()),
    }
}

/// Prints a text and a line end. It omits a text for which there is no memory.
fn show(alloc: Global, err: &mut Stderr, text: &[u8], lines: bool) {
    if let Ok(bytes) = escape(alloc, text, lines) {
        let _ = err.write_all(bytes.as_slice());
        let _ = err.write_all(b"\n");
    }
}

impl Screen {
    /// Prints what is to be noted before the work.
    pub fn note<F: Inspect>(&mut self, files: &F, asked: &Subcommand<'_>, is_fresh: bool) {
        if self.hints
            && let Ok(lines) = notes(files, self.alloc, asked, is_fresh)
        {
            for line in lines.as_slice() {
                show(self.alloc, &mut self.err, line.as_bytes(), false);
            }
        }
    }

    /// Prints an answer, with the control bytes of a failure's words escaped, and its hint. Returns
    /// the exit status.
    pub fn print<F: Store + Inspect>(
        &mut self,
        files: &F,
        asked: Option<&Subcommand<'_>>,
        answered: Result<CommandOutput, Failure>,
    ) -> u8 {
        let alloc = self.alloc;
        let lines = matches!(&answered, Err(Failure::Line(_)));
        let hint = match self.hints {
            true => hint_for(files, alloc, asked, &answered),
            false => Ok(String::new(alloc)),
        };
        let status = if answered.is_err() && (self.is_terminal || self.hints) {
            let mut text = Vec::new(alloc);
            let status = finish(answered, &mut self.out, &mut text);
            if let Some((_, text)) = text.split_last() {
                show(alloc, &mut self.err, text, lines);
            }
            status
        } else {
            finish(answered, &mut self.out, &mut self.err)
        };
        if let Ok(hint) = hint
            && !hint.is_empty()
        {
            let _ = self.err.write_all(b"hint: ");
            show(alloc, &mut self.err, hint.as_bytes(), false);
        }
        status
    }
}
