//! What the program is asked to run.
use mr_certform::Version;
use mr_input::Input;
use mr_jobs::{Job, Request};
use mr_script::Script;
use std::alloc::{AllocError, Global};

/// A run that is asked for.
#[derive(Drop)]
pub struct Order {
    pub request: Request,
    pub input: Input,
    pub script: Script,
    pub workers: u32,
    pub attempts: u32,
    /// That of the certificate.
    pub version: Version,
}

/// The number at a place; 0 where there is none.
pub fn number_at(words: &[String], place: usize) -> u32 {
    match words.get(place) {
        Some(word) => word.as_str().parse().unwrap_or(0),
        None => 0,
    }
}

/// The version of a number: 2 is version 2, and all else version 1.
fn version_of(number: u32) -> Version {
    if number == 2 {
        Version::V2
    } else {
        Version::V1
    }
}

/// The job of a word: what is no name of a job is the literal of a search.
fn job_of(alloc: Global, word: &str) -> Option<Job> {
    match word {
        "words" => Some(Job::words(false)),
        "keep" => Some(Job::words(true)),
        "url" => Some(Job::url()),
        literal => Job::grep(alloc, literal.as_bytes(), true).ok(),
    }
}

/// The first bytes of a text, as many as there are of so many, and what is behind them.
fn cut(text: &[u8], length: u32) -> (&[u8], &[u8]) {
    text.split_at(text.len().min(length as usize))
}

/// The files, by their lengths, of which the first word's is the script's.
fn files_of(alloc: Global, words: &[String], text: &[u8]) -> Result<Vec<Vec<u8>>, AllocError> {
    let mut files = Vec::new(alloc);
    let mut rest = text;
    for place in 1..words.len() {
        let (file, behind) = cut(rest, number_at(words, place));
        files.push(Vec::from_slice(alloc, file)?)?;
        rest = behind;
    }
    Ok(files)
}

/// The script and the input, by the lengths of the script and of each file.
fn texts_of(
    alloc: Global,
    words: &[String],
    text: &[u8],
) -> Result<Option<(Script, Input)>, AllocError> {
    let (script, behind) = cut(text, number_at(words, 0));
    let Ok(input) = Input::of(files_of(alloc, words, behind)?) else {
        return Ok(None);
    };
    match Script::read(alloc, script) {
        Ok(script) => Ok(Some((script, input))),
        Err(_) => Ok(None),
    }
}

/// The request that the words tell, if they tell one.
fn request_of(alloc: Global, words: &[String]) -> Option<Request> {
    let job = job_of(alloc, words.first()?.as_str())?;
    let parts = number_at(words, 1);
    let split = number_at(words, 2);
    let skips = number_at(words, 3);
    Request::new(job, parts, split, skips).ok()
}

/// The run that the words ask for, if they ask for one.
pub fn order_of(alloc: Global, words: &[String], text: &[u8]) -> Result<Option<Order>, AllocError> {
    let Some(lengths) = words.get(7..) else {
        return Ok(None);
    };
    let Some((script, input)) = texts_of(alloc, lengths, text)? else {
        return Ok(None);
    };
    match request_of(alloc, words) {
        Some(request) => Ok(Some(Order {
            request,
            input,
            script,
            workers: number_at(words, 4),
            attempts: number_at(words, 5),
            version: version_of(number_at(words, 6)),
        })),
        None => Ok(None),
    }
}
