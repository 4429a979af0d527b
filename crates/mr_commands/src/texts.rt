//! The lines that commands print, and the history of a run as text.
ghost use Rattle.std.specs.Prelude.{◌≡◌, ◌++◌, IfErr, IfOk, OnOk, string_bytes};
ghost use Rattle.mr_commands.specs.Facts.{AreAnswerFacts};
ghost use Rattle.mr_commands.specs.Judgements.{IsSaid};
ghost use Rattle.mr_commands.specs.YesLines.{left_out_line, yes_text};
ghost use Rattle.mr_commands.specs.Outcomes.{counts_line};
ghost use Rattle.mr_commands.specs.NoLines.{fault_text as text_of_fault, place_text};
ghost use Rattle.mr_commands.specs.NoLines.{no_line as line_of_no};
ghost use Rattle.mr_commands.specs.HistoryLines.{history_text};

use crate::counts::{Facts, JobFacts};
use mr_args::Fault;
use mr_book::History;
use mr_bytes::RecordName;
use mr_check::{No, Yes};
use mr_input::Input;
use mr_picture::{add_line, shape_line};
use mr_sequential::lengths_of;
use std::alloc::{AllocError, Global};

/// What the program prints on standard output, its exit status, and what is known besides.
#[derive(Drop)]
pub struct CommandOutput {
    pub text: String,
    pub status: u8,
    pub facts: Facts,
}

fn add_left_out(text: &mut String, name: RecordName) -> Result<(), AllocError>
    ensures { OnOk result (string_bytes text.new ≡ string_bytes text.old ++ left_out_line name) }
{
    let RecordName { split, rec } = name;
    write!(text, "left out {split} {rec}\n")
}

/// The lines of a yes: its numbers, and each record left out.
pub(crate) fn yes_text(alloc: Global, yes: &Yes) -> Result<String, AllocError>
    ensures { IfOk result (λ text. string_bytes text ≡ yes_text yes.now.pairs yes.now.skips.items) }
{
    let (pairs, left_out) = (yes.pairs, yes.skips.len());
    let mut text = format!(in alloc; "yes: {pairs} pairs, {left_out} left out\n")?;
    for name in yes.skips.as_slice() {
        add_left_out(&mut text, *name)?;
    }
    Ok(text)
}

/// The output for an answer over the input; want of memory is a fault.
pub(crate) fn say(
    alloc: Global,
    input: &Input,
    answer: &Result<Yes, No>,
) -> Result<CommandOutput, Fault>
    ensures memory { IfErr result (λ e. e ≡ Fault.OutOfMemory) }
    ensures said { IfOk result (IsSaid answer.now) }
    ensures facts { IfOk result (λ said. AreAnswerFacts input.now answer.now said.facts) }
{
    let (text, status, left_out, pairs) = match answer {
        Ok(yes) => (
            yes_text(alloc, yes)?,
            0,
            Some(yes.skips.len() as u64),
            Some(yes.pairs),
        ),
        Err(No::OutOfMemory) => return Err(Fault::OutOfMemory),
        Err(no) => (no_line(alloc, no)?, 1, None, None),
    };
    let (inputs, parts) = (lengths_of(alloc, input)?, Vec::new(alloc));
    let facts = Facts::Job(JobFacts::uncounted(inputs, parts, left_out, pairs));
    Ok(CommandOutput {
        text,
        status,
        facts,
    })
}

/// A word on a result, and what is counted of it.
pub(crate) fn counts_line(
    alloc: Global,
    word: &str,
    files: usize,
    pairs: u64,
    left_out: usize,
) -> Result<String, AllocError>
    ensures { IfOk result (λ text. string_bytes text ≡ counts_line word.now files pairs left_out) }
{
    format!(in alloc; "{word}{files} files, {pairs} pairs, {left_out} left out\n")
}

fn entry_text(
    alloc: Global,
    fault: &str,
    partition: u64,
    group: u64,
    entry: u64,
) -> Result<String, AllocError>
    ensures { IfOk result (λ text. string_bytes text ≡ fault.now ++ place_text partition group entry) }
{
    format!(in alloc; "{fault} partition {partition} group {group} entry {entry}")
}

/// A judge's fault as a line has it.
pub fn fault_text(alloc: Global, no: &No) -> Result<String, AllocError>
    ensures { IfOk result (λ text. string_bytes text ≡ text_of_fault no.now) }
{
    match *no {
        No::OutputCount => String::from_str(alloc, "OutputCount"),
        No::Malformed { at } => format!(in alloc; "Malformed at {at}"),
        No::OtherJob => String::from_str(alloc, "OtherJob"),
        No::OtherInput => String::from_str(alloc, "OtherInput"),
        No::SkipOrder { skip } => format!(in alloc; "SkipOrder skip {skip}"),
        No::NoSuchRecord { skip } => format!(in alloc; "NoSuchRecord skip {skip}"),
        No::TooManySkips { listed } => format!(in alloc; "TooManySkips listed {listed}"),
        No::NoSuchPair {
            partition,
            group,
            entry,
        } => entry_text(alloc, "NoSuchPair", partition, group, entry),
        No::EntryOrder {
            partition,
            group,
            entry,
        } => entry_text(alloc, "EntryOrder", partition, group, entry),
        No::KeyDiffers {
            partition,
            group,
            entry,
        } => entry_text(alloc, "KeyDiffers", partition, group, entry),
        No::WrongPartition {
            partition,
            group,
            entry,
        } => entry_text(alloc, "WrongPartition", partition, group, entry),
        No::KeyOrder {
            partition,
            group,
            entry,
        } => entry_text(alloc, "KeyOrder", partition, group, entry),
        No::OutputDiffers { partition, at } => {
            format!(in alloc; "OutputDiffers partition {partition} at {at}")
        }
        No::Unnamed { emitted, named } => {
            format!(in alloc; "Unnamed emitted {emitted} named {named}")
        }
        No::OutOfMemory => String::from_str(alloc, "OutOfMemory"),
        No::Device(_) => String::from_str(alloc, "Device"),
    }
}

/// The line of a no.
pub fn no_line(alloc: Global, no: &No) -> Result<String, AllocError>
    ensures { IfOk result (λ text. string_bytes text ≡ line_of_no no.now) }
{
    let fault = fault_text(alloc, no)?;
    format!(in alloc; "no: {fault}\n")
}

/// The history: a line for the book's shape, then each event with its reply, in order.
pub fn history_text(alloc: Global, history: &History) -> Result<String, AllocError>
    ensures { IfOk result (λ text. string_bytes text ≡ history_text history.now) }
{
    let mut text = shape_line(alloc, history.shape)?;
    for entry in history.entries.as_slice() {
        add_line(&mut text, entry.event(), entry.reply())?;
    }
    Ok(text)
}
