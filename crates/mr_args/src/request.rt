//! The options of each command, the request that they make, and the parser of skip lists.
ghost use Rattle.std.specs.Prelude.{◌≡◌, ◌↔◌, IfOk, IfErr, OnOk, IsTrue, ◌⊎◌, List, [], ◌∷◌, ◌++◌};
ghost use Rattle.std.specs.Prelude.{MatchOption};
ghost use Rattle.mr_args.specs.Asked.{AsksForOtherJob, IsJobRefusal, IsNumbersRefusal};
ghost use Rattle.mr_args.specs.Asked.{IsRangeRefusal, IsRequestRefusal, LiteralFits, RangeStands};
ghost use Rattle.mr_args.specs.Asked.{WithinLimits, byte_said, request_asked};
ghost use Rattle.mr_bytes.specs.declared.RecordName.{RecordName};
ghost use Rattle.mr_args.specs.SkipList.{Lacks, SpellsName, SpellsNames, OneSkipList};

use crate::fault::Fault;
use mr_bytes::RecordName;
use mr_certform::Version;
use mr_jobs::{Job, Request};
use mr_script::number_of;
use mr_shard_files::VerifyPlan;
use std::alloc::Global;

#[derive(Clone, Copy)]
pub enum JobKind {
    Words,
    Grep,
    Url,
    Index,
    Field,
}

/// What `seq`, `run`, `check` and `explain` share: a job over `files`, with its result in the
/// directory `out`.
#[derive(Drop)]
pub struct Options<'a> {
    pub job: JobKind,
    pub parts: u32,
    pub split: u32,
    pub keep_case: bool,
    pub literal: Option<&'a str>,
    pub fold: bool,
    pub by_host: bool,
    /// Which field of a record is counted, from 1.
    pub field: Option<u32>,
    /// One byte, or `\t` for a tab; without one, spaces and tabs separate fields.
    pub separator: Option<&'a str>,
    pub max_skips: u32,
    /// The byte of the first file from which on it is taken.
    pub from: u64,
    /// The byte of the last file up to before which it is taken; without one, all of it is.
    pub to: Option<u64>,
    pub out: &'a str,
    pub files: Vec<&'a str>,
}

/// Options of `seq`. `skips` is the text of a skip list; `version` is the certificate's.
#[derive(Drop)]
pub struct SeqOptions<'a> {
    pub options: Options<'a>,
    pub skips: &'a str,
    pub version: Version,
    /// A result without a pair is refused.
    pub need_pairs: bool,
}

/// Options of `run`. `version` is the certificate's; `script`, `history` and `picture` name files.
#[derive(Drop)]
pub struct RunOptions<'a> {
    pub options: Options<'a>,
    /// 1 to 64.
    pub workers: u32,
    /// Attempts that a task may have, 1 to 16.
    pub attempts: u32,
    pub version: Version,
    pub script: Option<&'a str>,
    pub history: Option<&'a str>,
    /// The page on which the history is drawn.
    pub picture: Option<&'a str>,
    /// The directory of the regions' files; without one, regions stay in memory.
    pub scratch: Option<&'a str>,
    /// A result without a pair is refused.
    pub need_pairs: bool,
}

/// Options of `check`. 1 to 64 threads judge; a yes writes its verdict to the file `verdict`.
#[derive(Drop)]
pub struct CheckOptions<'a> {
    pub options: Options<'a>,
    pub threads: u32,
    pub verdict: Option<&'a str>,
}

/// Options of `merge`: the result's directory, the name of the list of meant inputs, and the names
/// of the shards' verdicts, in the order of the shards.
#[derive(Drop)]
pub struct MergeOptions<'a> {
    pub out: &'a str,
    pub inputs: Option<&'a str>,
    /// The first input may begin inside its file, and the last one may end inside it.
    pub partial: bool,
    pub verdicts: Vec<&'a str>,
}

/// Options of `explain`. `skips` is the text of a skip list.
#[derive(Drop)]
pub struct ExplainOptions<'a> {
    pub options: Options<'a>,
    pub skips: &'a str,
    /// The key, as an output writes it; without one, records that give nothing are looked for.
    pub key: Option<&'a str>,
    /// How many kept records are printed at most, and how many left-out ones.
    pub limit: u64,
    /// The directory of the result whose lines of the key are compared.
    pub result: Option<&'a str>,
}

/// Options of `picture`: the history that is drawn, and the page.
#[derive(Drop)]
pub struct PictureOptions<'a> {
    pub history: &'a str,
    pub page: &'a str,
}

/// A command with its options.
#[derive(Drop)]
pub enum Subcommand<'a> {
    Seq(SeqOptions<'a>),
    Run(RunOptions<'a>),
    Check(CheckOptions<'a>),
    Merge(MergeOptions<'a>),
    Verify(VerifyPlan<'a>),
    Explain(ExplainOptions<'a>),
    Picture(PictureOptions<'a>),
}

fn asks_for_other_job(options: &Options<'_>) -> bool
    ensures { IsTrue result ↔ AsksForOtherJob options.now }
{
    let of_words = options.keep_case;
    let of_grep = options.fold || options.literal.is_some();
    let of_url = options.by_host;
    let of_field = options.field.is_some() || options.separator.is_some();
    match options.job {
        JobKind::Words | JobKind::Index => of_grep || of_url || of_field,
        JobKind::Grep => of_words || of_url || of_field,
        JobKind::Url => of_words || of_grep || of_field,
        JobKind::Field => of_words || of_grep || of_url,
    }
}

/// The byte that a text says: its own, or a tab for `\t`. Any other text is a line feed's, which
/// separates no fields.
fn byte_of(text: &str) -> u8
    ensures { result ≡ byte_said text.now }
{
    match text.as_bytes() {
        [byte] => *byte,
        b"\\t" => b'\t',
        _ => b'\n',
    }
}

/// The requested job. It reports an option of another job before a fault of the job itself.
fn job_of(alloc: Global, options: &Options<'_>) -> Result<Job, Fault>
    ensures job { IfOk result (λ j. j ≡ (request_asked options.now).job) }
    ensures literal { OnOk result (LiteralFits (request_asked options.now).job) }
    ensures other { (result ≡ Err Fault.OtherJobsOption) ↔ AsksForOtherJob options.now }
    ensures fault { IfErr result (λ e. IsJobRefusal options.now e) }
{
    if asks_for_other_job(options) {
        return Err(Fault::OtherJobsOption);
    }
    match options.job {
        JobKind::Words => Ok(Job::words(options.keep_case)),
        JobKind::Grep => {
            let literal = options.literal.unwrap_or("");
            Ok(Job::grep(alloc, literal.as_bytes(), options.fold)?)
        }
        JobKind::Url => Ok(Job::url()),
        JobKind::Index => Ok(Job::index(options.keep_case)),
        JobKind::Field => {
            let separator = options.separator.map(|text| byte_of(text));
            Ok(Job::field(alloc, separator, options.field.unwrap_or(0))?)
        }
    }
}

/// The request that the job and the numbers make. It reports a fault of the job before one of the
/// numbers.
fn request_by_numbers(alloc: Global, options: &Options<'_>) -> Result<Request, Fault>
    ensures request { IfOk result (λ r. r ≡ request_asked options.now) }
    ensures within { OnOk result (WithinLimits (request_asked options.now)) }
    ensures other { (result ≡ Err Fault.OtherJobsOption) ↔ AsksForOtherJob options.now }
    ensures fault { IfErr result (λ e. IsNumbersRefusal options.now e) }
{
    let job = job_of(alloc, options)?;
    let request = match Request::new(job, options.parts, options.split, options.max_skips) {
        Ok(request) => request,
        Err(fault) => return Err(Fault::Request(fault)),
    };
    if options.by_host {
        return request.by_host().map_err(Fault::Request);
    }
    Ok(request)
}

/// Checks the bytes from which on and up to before which the files are taken, once all else fits.
fn expect_range(options: &Options<'_>) -> Result<(), Fault>
    ensures stands { OnOk result (RangeStands options.now) }
    ensures fault { IfErr result (λ e. IsRangeRefusal options.now e) }
    ensures refused { IfErr result (λ e. ¬ AsksForOtherJob options.now
        → WithinLimits (request_asked options.now) → IsRequestRefusal options.now e) }
{
    let files = options.files.len();
    let to = options.to.unwrap_or(options.from);
    if files == 0 && (options.from > 0 || to > 0) {
        return Err(Fault::NoFileForRange);
    }
    if files == 1 && to < options.from {
        return Err(Fault::BadRange);
    }
    Ok(())
}

/// The request that the options make. It reports a fault of the job before one of the numbers, and
/// one of the range last.
pub fn request_of(alloc: Global, options: &Options<'_>) -> Result<Request, Fault>
    ensures request { IfOk result (λ r. r ≡ request_asked options.now) }
    ensures within { OnOk result (WithinLimits (request_asked options.now)) }
    ensures range { OnOk result (RangeStands options.now) }
    ensures other { (result ≡ Err Fault.OtherJobsOption) ↔ AsksForOtherJob options.now }
    ensures fault { IfErr result (λ e. IsRequestRefusal options.now e) }
{
    let request = request_by_numbers(alloc, options)?;
    expect_range(options)?;
    Ok(request)
}

/// Splits the text at the first `mark`.
fn cut(text: &[u8], mark: u8) -> Option<(&[u8], &[u8])>
    ensures { MatchOption result (Lacks text.now mark) (λ r. (text.now ≡ r.0.now ++ mark ∷ r.1.now) × Lacks r.0.now mark) }
{
    for (at, byte) in text.iter().enumerate() {
        if *byte == mark {
            return Some((&text[..at], &text[at + 1..]));
        }
    }
    None
}

/// Parses `SPLIT:RECORD`.
fn name_of(text: &[u8]) -> Option<RecordName>
    ensures { MatchOption result ((n : RecordName) → ¬ SpellsName text.now n) (λ n. SpellsName text.now n) }
{
    let (front, back) = cut(text, b':')?;
    let split = number_of(front)?;
    let rec = number_of(back)?;
    Some(RecordName { split, rec })
}

fn add_name(names: &mut Vec<RecordName>, text: &[u8]) -> Result<(), Fault>
    ensures ok { OnOk result ((n : RecordName) × SpellsName text.now n × (names.new.items ≡ names.old.items ++ n ∷ [])) }
    ensures bad { IfErr result (λ e. (e ≡ Fault.OutOfMemory)
        ⊎ ((e ≡ Fault.BadSkipList) × ((n : RecordName) → ¬ SpellsName text.now n))) }
{
    match name_of(text) {
        Some(name) => {
            names.push(name).map_err(|_| Fault::OutOfMemory)?;
            Ok(())
        }
        None => Err(Fault::BadSkipList),
    }
}

/// Parses a skip list: pairs `SPLIT:RECORD` joined by single commas. The empty text is the empty
/// list. It refuses any other text, unless memory runs out before it sees the fault.
pub fn skips_of(alloc: Global, text: &str) -> Result<Vec<RecordName>, Fault>
    ensures ok { IfOk result (λ names. SpellsNames text.now names.items) }
    ensures bad { IfErr result (λ e. (e ≡ Fault.OutOfMemory)
        ⊎ ((e ≡ Fault.BadSkipList) × ((names : List RecordName) → ¬ SpellsNames text.now names))) }
{
    let mut names = Vec::new(alloc);
    let mut rest = text.as_bytes();
    if rest.is_empty() {
        return Ok(names);
    }
    while let Some((first, behind)) = cut(rest, b',') {
        add_name(&mut names, first)?;
        rest = behind;
    }
    add_name(&mut names, rest)?;
    Ok(names)
}

/// A text writes at most one list.
pub fn skip_list_law()
    ensures { OneSkipList }
{}
