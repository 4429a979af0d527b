//! Libraries as a program, for the checks from outside: the first word says which, and the module of that name what is read
//! on standard input and told. With no word an example of a certificate is told, and the texts of faults.
#![tactic(auto)]

mod buffer;
mod certificates;
mod faults;
mod files;
mod index;
mod inputs;
mod jobs;
mod kernels;
mod master;
mod merging;
mod plain;
mod ranges;
mod regions;
mod runs;
mod scripts;
mod spelling;
mod stores;
mod streaming;
mod telling;

use std::alloc::AllocError;
use std::{env, io};
use telling::Teller;

/// Answers by a first word with which nothing is read.
fn answer_unread(teller: &Teller, word: &str, behind: &[String]) -> Result<(), AllocError> {
    match word {
        "buffer" => buffer::answer(teller),
        "files" => files::answer(teller, behind),
        _ => {
            faults::answer(teller);
            Ok(())
        }
    }
}

/// Answers by a first word behind which others say how.
fn answer_by_words(teller: &Teller, word: &str, behind: &[String]) -> io::Result<()> {
    match word {
        "index" => index::answer(teller, behind),
        "inputs" => inputs::answer(teller, behind),
        "runs" => runs::answer(teller, behind),
        "spelling" => spelling::answer(teller, behind),
        _ => certificates::answer(teller, behind),
    }
}

/// Answers by the first word, and those behind it.
fn answer(teller: &Teller, word: &str, behind: &[String]) -> io::Result<()> {
    match word {
        "buffer" | "files" | "faults" => Ok(answer_unread(teller, word, behind)?),
        "kernels" => kernels::answer(teller),
        "master" => master::answer(teller),
        "merging" => merging::answer(teller),
        "merged" => merging::answer_bytes(teller),
        "ranges" => ranges::answer(teller),
        "regions" => regions::answer(teller),
        "scripts" => scripts::answer(teller),
        "stores" => stores::answer(teller),
        _ => answer_by_words(teller, word, behind),
    }
}

/// Answers by the words, of which the first is the program's name.
fn answer_words(teller: &Teller, words: &[String]) -> io::Result<()> {
    match words {
        [_, word, behind @ ..] => answer(teller, word.as_str(), behind),
        _ => answer(teller, "certificates", &[]),
    }
}

fn main(rt: HostRuntime) -> io::Result<()> {
    let words: Vec<String> = env::args(&rt)?.collect(rt.alloc())?;
    let teller = Teller::new(rt);
    answer_words(&teller, &words)?;
    teller.end()
}
