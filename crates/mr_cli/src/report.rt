//! The report of a command: its facts for scripts, as one JSON object and a line feed. Its request has
//! a member for each option of the command's rows in the table.
//!
//! It is written when all else is done, and changes neither the work nor what is printed. No clause
//! says what it holds: the numbers are those that `mr_commands` hands out beside the text, and a
//! fault's are read from its line.
//! Source: docs/FORMATS.md, "The report".

use crate::failure::Failure;
use crate::help::{column, is_of};
use crate::hints::reason_of;
use crate::options::{letter_and_options, name_of};
use crate::table::{OPTIONS, VERSION};
use clap::ArgMatches;
use hex::encode;
use mr_args::{Options, Subcommand};
use mr_commands::{CommandOutput, Facts, JobFacts};
use mr_files::{Inspect, folder_of, part_name};
use mr_shards::Verdict;
use serde::Serialize;
use serde_json::{Map, Value, put, to_string};
use std::alloc::{AllocError, Global};
use std::collections::BTreeMap;

/// The version of the report's form.
const FORM: u32 = 1;

/// What each report begins with.
pub const FRONT: &str = "{\"report\":";

/// A file of the input or of the result, or the range that is taken of it.
#[derive(Drop, Serialize)]
struct FileReport {
    name: String,
    from: u64,
    bytes: u64,
    sha256: Option<String>,
}

/// A fault: its name, the file or directory that it names, and its numbers.
#[derive(Drop, Serialize)]
struct FaultReport {
    name: String,
    file: Option<String>,
    numbers: BTreeMap<String, u64>,
}

/// What `explain` counted: pairs and records, of those that are kept and of those that are left out.
#[derive(Drop, Serialize)]
struct EvidenceReport {
    pairs: u64,
    records: u64,
    left_out_pairs: u64,
    left_out_records: u64,
}

#[derive(Default, Drop, Serialize)]
struct Report<'a> {
    report: u32,
    command: &'a str,
    version: &'a str,
    request: Value,
    status: u8,
    answer: Option<&'a str>,
    fault: Option<FaultReport>,
    reason: Option<String>,
    inputs: Option<Vec<FileReport>>,
    outputs: Option<Vec<FileReport>>,
    records: Option<u64>,
    silent: Option<u64>,
    left_out: Option<u64>,
    pairs: Option<u64>,
    evidence: Option<EvidenceReport>,
}

/// A fault as its line has it, without what is in front of it: words, then numbers, each behind its
/// name. A number that has none is that of a line.
fn fault_of(alloc: Global, told: &str) -> Result<FaultReport, AllocError> {
    let mut fault = FaultReport {
        name: String::new(alloc),
        file: None,
        numbers: BTreeMap::new(alloc),
    };
    for front in ["cannot read ", "cannot write ", "SameFile ", "NotFresh "] {
        if told != "cannot write standard output"
            && let Some(file) = told.strip_prefix(front)
        {
            fault.name.push_str(front.trim_end())?;
            fault.file = Some(String::from_str(alloc, file)?);
            return Ok(fault);
        }
    }
    let words: Vec<&str> = told.split(' ').collect(alloc)?;
    let words = words.as_slice();
    let mut named = words.len();
    for (at, word) in words.iter().enumerate() {
        if let Ok(number) = word.parse::<u64>() {
            let of = if at < 2 { "line" } else { words[at - 1] };
            let _ = fault.numbers.insert(String::from_str(alloc, of)?, number)?;
            named = named.min(at.saturating_sub(1).max(1));
        }
    }
    fault.name = words.get(..named).unwrap_or(words).join(alloc, " ")?;
    Ok(fault)
}

/// The word that answers, and the fault of an answer that isn't 0.
fn answer_of<'a>(asked: &Subcommand<'_>, said: &'a CommandOutput) -> (&'a str, Option<&'a str>) {
    if let Subcommand::Explain(asked) = asked {
        let word = match (asked.result, said.status) {
            (None, _) => "explained",
            (Some(_), 0) => "agrees",
            (Some(_), _) => "differs",
        };
        return (word, None);
    }
    let line = said.text.as_str().split('\n').next().unwrap_or("");
    let (word, told) = line.split_once(": ").unwrap_or((line, ""));
    (word, if said.status == 0 { None } else { Some(told) })
}

fn file_report(name: String, from: u64, bytes: u64, sha256: Option<String>) -> FileReport {
    FileReport {
        name,
        from,
        bytes,
        sha256,
    }
}

/// The files of an input, of which so many bytes are taken from a byte of the first on.
fn inputs_of(
    alloc: Global,
    options: &Options<'_>,
    lengths: &[u64],
) -> Result<Vec<FileReport>, AllocError> {
    let mut files = Vec::new(alloc);
    let mut from = options.from;
    for (name, bytes) in options.files.as_slice().iter().zip(lengths) {
        let name = String::from_str(alloc, name)?;
        files.push(file_report(name, from, *bytes, None))?;
        from = 0;
    }
    Ok(files)
}

impl<'a> Report<'a> {
    fn add_job(
        &mut self,
        alloc: Global,
        options: &Options<'_>,
        job: &JobFacts,
    ) -> Result<(), AllocError> {
        let mut outputs = Vec::new(alloc);
        for (part, bytes) in job.parts.as_slice().iter().enumerate() {
            let name = part_name(alloc, options.out, part)?;
            outputs.push(file_report(name, 0, *bytes, None))?;
        }
        self.inputs = Some(inputs_of(alloc, options, job.inputs.as_slice())?);
        self.outputs = Some(outputs);
        self.records = job.records;
        self.silent = job.silent;
        self.left_out = job.left_out;
        self.pairs = job.pairs;
        Ok(())
    }

    /// Adds what a verdict lists, with its parts in that directory.
    fn add_verdict(
        &mut self,
        alloc: Global,
        dir: &str,
        verdict: &Verdict,
    ) -> Result<(), AllocError> {
        let (mut inputs, mut outputs) = (Vec::new(alloc), Vec::new(alloc));
        for range in verdict.inputs.as_slice() {
            let name = String::from_utf8_lossy(alloc, range.name.as_slice())?;
            let digest = encode(alloc, range.digest)?;
            inputs.push(file_report(name, range.from, range.length, Some(digest)))?;
        }
        for (part, note) in verdict.outputs.as_slice().iter().enumerate() {
            let name = part_name(alloc, dir, part)?;
            let digest = encode(alloc, note.digest)?;
            outputs.push(file_report(name, 0, note.length, Some(digest)))?;
        }
        self.inputs = Some(inputs);
        self.outputs = Some(outputs);
        self.left_out = Some(verdict.left_out.len() as u64);
        self.pairs = Some(verdict.pairs);
        Ok(())
    }

    fn add_facts(
        &mut self,
        alloc: Global,
        asked: &Subcommand<'_>,
        facts: &Facts,
    ) -> Result<(), AllocError> {
        match (asked, facts, letter_and_options(asked).1) {
            (_, Facts::Job(job), Some(options)) => self.add_job(alloc, options, job)?,
            (Subcommand::Merge(asked), Facts::Verdict(verdict), _) => {
                self.add_verdict(alloc, asked.out, verdict)?;
            }
            (Subcommand::Verify(asked), Facts::Verdict(verdict), _) => {
                let beside = folder_of(asked.verdict);
                self.add_verdict(alloc, asked.out.unwrap_or(beside), verdict)?;
            }
            (_, Facts::Evidence(lengths, found), Some(options)) => {
                self.inputs = Some(inputs_of(alloc, options, lengths.as_slice())?);
                self.evidence = Some(EvidenceReport {
                    pairs: found.kept.pairs,
                    records: found.kept.records,
                    left_out_pairs: found.left_out.pairs,
                    left_out_records: found.left_out.records,
                });
            }
            _ => {}
        }
        Ok(())
    }

    /// Adds the answer, its facts, and what is wrong.
    fn add_answer<F: Inspect>(
        &mut self,
        alloc: Global,
        files: &F,
        asked: &Subcommand<'_>,
        answered: &'a Result<CommandOutput, Failure>,
    ) -> Result<(), AllocError> {
        match answered {
            Ok(said) => {
                let (word, fault) = answer_of(asked, said);
                self.status = said.status;
                self.answer = Some(word);
                if let Some(told) = fault {
                    self.fault = Some(fault_of(alloc, told)?);
                }
                self.add_facts(alloc, asked, &said.facts)?;
            }
            Err(failure) => {
                let line = format!(in alloc; "{failure}")?;
                let told = line.as_str().trim_end_matches('\n');
                self.status = failure.status();
                self.fault = Some(fault_of(alloc, told.strip_prefix("mapred: ").unwrap_or(told))?);
                if let Some(reason) = reason_of(files, failure) {
                    self.reason = Some(format!(in alloc; "{reason}")?);
                }
            }
        }
        Ok(())
    }
}

/// What the line gives for an option or an argument, or else its default; null if there is none.
fn value_of(alloc: Global, found: &ArgMatches<'_>, row: &str) -> Result<Value, AllocError> {
    let name = name_of(row);
    match column(row, 2) {
        "flag" => Ok(Value::Bool(found.get_flag(name))),
        "u32" | "u64" | "range" => {
            let default = column(row, 5).parse::<u64>().ok();
            Ok(Value::from(found.get_one::<u64>(name).or(default)))
        }
        takes if takes.contains(' ') && !takes.starts_with("one ") => {
            let mut texts = Vec::new(alloc);
            for text in found.get_strs(name).unwrap_or(&[]) {
                texts.push(Value::try_from_str(alloc, text)?)?;
            }
            Ok(Value::Array(texts))
        }
        _ => match found.get_str(name) {
            Some(text) => Value::try_from_str(alloc, text),
            None => Ok(Value::Null),
        },
    }
}

/// What is asked for: a member for each option and argument of the command's rows.
fn request_of(alloc: Global, line: &ArgMatches<'_>, letter: char) -> Result<Value, AllocError> {
    let mut request = Map::new(alloc);
    if let Some((_, found)) = line.subcommand() {
        for row in OPTIONS {
            let name = name_of(row);
            let is_asked = column(row, 2) != "help" && name != "report" && name != "hints";
            if is_asked && is_of(row, letter) {
                put(&mut request, alloc, name, value_of(alloc, found, row)?)?;
            }
        }
    }
    Ok(Value::Object(request))
}

/// The report of an answer: a JSON object and a line feed.
pub fn report_text<F: Inspect>(
    alloc: Global,
    files: &F,
    line: &ArgMatches<'_>,
    asked: &Subcommand<'_>,
    answered: &Result<CommandOutput, Failure>,
) -> Result<String, AllocError> {
    let mut report = Report {
        report: FORM,
        command: line.subcommand_name().unwrap_or(""),
        version: VERSION,
        request: request_of(alloc, line, letter_and_options(asked).0)?,
        ..Report::default()
    };
    report.add_answer(alloc, files, asked, answered)?;
    let mut text = to_string(alloc, &report).map_err(|_| AllocError)?;
    text.push('\n')?;
    Ok(text)
}
