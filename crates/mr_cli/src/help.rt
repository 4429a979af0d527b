//! The help of the program and of each command, composed from the table in lines of at most 80
//! columns, and what helps against a fault, which is its row's text.

use crate::table::{COMMANDS, CommandRow, FAULTS, HINTS, JOBS, NOTES, OPTIONS, PROGRAM};
use std::alloc::{AllocError, Global};

const WIDTH: usize = 80;

/// The columns in which the texts of commands, of options and of faults begin.
const AFTER_COMMAND: usize = 11;

const AFTER_OPTION: usize = 24;

const AFTER_NAME: usize = 23;

/// The column of a row with that number, from 0; empty where it has fewer.
pub fn column(row: &str, number: usize) -> &str {
    row.split('|').nth(number).unwrap_or("").trim()
}

/// Whether the row is of the command with that letter.
pub fn is_of(row: &str, letter: char) -> bool {
    column(row, 0).contains(letter)
}

/// Adds a name, and the words of its text from column `after` on.
fn add_row(
    out: &mut String,
    indent: &str,
    name: &str,
    after: usize,
    text: &str,
) -> Result<(), AllocError> {
    write!(out, "{indent}{name}")?;
    let mut width = indent.len().saturating_add(name.len());
    if width > 0 && width >= after {
        out.push('\n')?;
        width = 0;
    }
    for word in text.split(' ') {
        if width > after && width.saturating_add(word.len()) >= WIDTH {
            out.push('\n')?;
            width = 0;
        }
        let gap = if width > after { 1 } else { after - width };
        for _ in 0..gap {
            out.push(' ')?;
        }
        out.push_str(word)?;
        width = width.saturating_add(gap).saturating_add(word.len());
    }
    out.push('\n')?;
    Ok(())
}

/// Adds each line of a text, as far to the right as it stands there.
fn add_text(out: &mut String, text: &str) -> Result<(), AllocError> {
    for line in text.split('\n') {
        let words = line.trim_start();
        match line.split_once(" | ") {
            Some((name, meaning)) => add_row(out, "", name, AFTER_NAME, meaning)?,
            None => add_row(out, "", "", line.len().saturating_sub(words.len()), words)?,
        }
    }
    Ok(())
}

fn add_option(out: &mut String, alloc: Global, row: &str) -> Result<(), AllocError> {
    let (shown, limits, default) = (column(row, 1), column(row, 4), column(row, 5));
    let mut text = String::from_str(alloc, column(row, 3))?;
    if !limits.is_empty() {
        write!(&mut text, " [{limits}]")?;
    }
    if !default.is_empty() && default != "needed" {
        write!(&mut text, " [default: {default}]")?;
    }
    for (takes, texts) in [("job", JOBS.as_slice()), ("hints", HINTS.as_slice())] {
        if column(row, 2) == takes {
            let choices = texts.join(alloc, ", ")?;
            write!(&mut text, " [possible values: {choices}]")?;
        }
    }
    let indent = match shown.starts_with("--") {
        true => "      ",
        false => "  ",
    };
    add_row(out, indent, shown, AFTER_OPTION, text.as_str())
}

/// Adds a title and what stands below it, unless that is empty.
fn add_section(out: &mut String, title: &str, below: String) -> Result<(), AllocError> {
    if !below.is_empty() {
        write!(out, "\n{title}:\n{below}")?;
    }
    Ok(())
}

/// The options, or the arguments in front of which no option stands.
fn options(alloc: Global, letter: char, are_options: bool) -> Result<String, AllocError> {
    let mut out = String::new(alloc);
    for row in OPTIONS {
        if is_of(row, letter) && column(row, 1).starts_with('-') == are_options {
            add_option(&mut out, alloc, row)?;
        }
    }
    Ok(out)
}

fn add_usage(out: &mut String, alloc: Global, letter: char, name: &str) -> Result<(), AllocError> {
    let mut usage = format!(in alloc; "mapred {name} [OPTIONS]")?;
    for row in OPTIONS {
        let shown = column(row, 1);
        if is_of(row, letter) && (column(row, 5) == "needed" || shown.starts_with('[')) {
            write!(&mut usage, " {shown}")?;
        }
    }
    out.push('\n')?;
    add_row(out, "Usage:", "", 7, usage.as_str())
}

/// The faults, or the answers that are no success: on standard output, they name what is in front of
/// their colon.
fn faults(alloc: Global, letter: char, are_answers: bool) -> Result<String, AllocError> {
    let mut out = String::new(alloc);
    for row in FAULTS {
        let name = column(row, 1);
        if is_of(row, letter) && name.contains(": ") == are_answers {
            let helps = remedy(alloc, row)?;
            add_row(&mut out, "  ", name, AFTER_NAME, helps.as_str())?;
        }
    }
    Ok(out)
}

fn help_of_command(alloc: Global, row: CommandRow<'_>) -> Result<String, AllocError> {
    let mut out = String::new(alloc);
    add_row(&mut out, "", "", 0, row.about)?;
    add_usage(&mut out, alloc, row.letter, row.name)?;
    add_section(&mut out, "Arguments", options(alloc, row.letter, false)?)?;
    add_section(&mut out, "Options", options(alloc, row.letter, true)?)?;
    out.push('\n')?;
    add_text(&mut out, row.text)?;
    for note in NOTES {
        if is_of(note, row.letter) {
            out.push('\n')?;
            add_row(&mut out, "", "", 0, column(note, 1))?;
        }
    }
    for (title, are_answers) in [
        ("Answers that are no success, and what helps", true),
        ("Faults, each behind `mapred: `, and what helps", false),
    ] {
        add_section(&mut out, title, faults(alloc, row.letter, are_answers)?)?;
    }
    Ok(out)
}

fn help_of_program(alloc: Global) -> Result<String, AllocError> {
    let mut out = String::new(alloc);
    add_row(&mut out, "", "", 0, PROGRAM.about)?;
    out.push_str("\nUsage: mapred <COMMAND>\n\nCommands:\n")?;
    for row in COMMANDS {
        add_row(&mut out, "  ", row.name, AFTER_COMMAND, row.about)?;
    }
    let about = "Prints this, or the help of the command that is named behind it";
    add_row(&mut out, "  ", "help", AFTER_COMMAND, about)?;
    add_section(&mut out, "Options", options(alloc, PROGRAM.letter, true)?)?;
    out.push('\n')?;
    add_text(&mut out, PROGRAM.text)?;
    Ok(out)
}

/// The help of the program, and behind it that of each command; empty where the words don't ask for
/// it.
pub fn help_texts(alloc: Global, words: &[String]) -> Result<Vec<String>, AllocError> {
    let says = |wanted: &str| words.iter().any(|word| word.as_str() == wanted);
    let mut texts = Vec::new(alloc);
    if !says("help") && !says("--help") && !words.iter().any(|word| word.starts_with("-h")) {
        return Ok(texts);
    }
    texts.push(help_of_program(alloc)?)?;
    for row in COMMANDS {
        texts.push(match says(row.name) {
            true => help_of_command(alloc, row)?,
            false => String::new(alloc),
        })?;
    }
    Ok(texts)
}

/// What helps against the fault of the row: its text, or the limits of the option that it names.
fn remedy(alloc: Global, fault: &str) -> Result<String, AllocError> {
    let helps = column(fault, 2);
    for row in OPTIONS {
        if helps.starts_with("--") && !helps.contains(' ') && column(row, 1).starts_with(helps) {
            return format!(in alloc; "{helps} is {}", column(row, 4));
        }
    }
    String::from_str(alloc, helps)
}

/// Whether the line says this fault, up to a value.
fn says(line: &str, name: &str) -> bool {
    let name = name.split(" <").next().unwrap_or("");
    match line.strip_prefix(name) {
        Some(rest) => rest.is_empty() || rest.starts_with([' ', '\n']),
        None => false,
    }
}

/// What helps against the fault that the line of the command with that letter says, or of any
/// command; empty if the table has no such fault.
pub fn hint(alloc: Global, letter: Option<char>, line: &str) -> Result<String, AllocError> {
    let said = line.strip_prefix("mapred: ").unwrap_or(line);
    for row in FAULTS {
        if letter.is_none_or(|letter| is_of(row, letter))
            && column(row, 1).split(", ").any(|name| says(said, name))
        {
            return remedy(alloc, row);
        }
    }
    Ok(String::new(alloc))
}
