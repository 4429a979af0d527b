//! What a job does with each record.
ghost use Rattle.std.specs.Prelude.{◌≡◌, ◌↔◌, ℕ, ◌≤◌, ◌<◌, IfOk, IsTrue, OnOk, IsOkUnless, length};
ghost use Rattle.std.specs.Prelude.{[], ◌⊎◌, Contains, MatchOption};
ghost use Rattle.std.specs.Option.{IsSomeAnd};
ghost use Rattle.mr_jobs.specs.JobSpec.{WordCount, LinesWith, Resources, InvertedIndex, NthField};
ghost use Rattle.mr_jobs.specs.JobSpec.{IsNamed, JobFits, JobSpec, LiteralFits, counts, has_lines, job_number, row_of};
ghost use Rattle.mr_jobs.specs.JobSpec.{folds_words, job_literal};
ghost use Rattle.mr_jobs.specs.Emissions.{value_at};
ghost use Rattle.mr_jobs.specs.Fields.{CannotSeparate, FieldFits, NumberFits};
ghost use Rattle.mr_jobs.specs.Laws.{JobsAreNamed};

use crate::field::{Field, cannot_separate, name_parts, number_of};
use mr_bytes::Value;
use std::alloc::{AllocError, Global};
use std::marker::Model;
use thiserror::Error;

/// The most bytes of a literal.
pub const MAX_LITERAL: usize = 4096;

/// The greatest number of a field.
pub const MAX_FIELD: u32 = 65_535;

const _: () = prove!(MAX_LITERAL == 4096 && MAX_FIELD == 65_535);

/// What an output holds for a key with its values.
#[derive(Clone, Copy)]
pub enum GroupText {
    /// A line of the key and the number of its values.
    Count,
    /// A line of the key and a place, for each value that is one.
    Lines,
    /// A line of the key and the files of its values.
    Files,
}

/// A job's row in the table of jobs.
#[derive(Clone, Copy)]
pub struct JobRow {
    /// The job's number in a certificate.
    pub number: u32,
    /// Its flags there: 1 keeps the case of words, 2 folds the case of lines.
    pub flags: u32,
    pub text: GroupText,
}

#[derive(Drop)]
pub(crate) enum Kind {
    Words { keep_case: bool },
    Grep { literal: Vec<u8>, fold: bool },
    Url,
    Index { keep_case: bool },
    Field(Field),
}

/// One of the five jobs of this library, four from OSDI 2004, sections 2.1 and 2.3.
#[derive(Drop)]
pub struct Job {
    pub(crate) kind: Kind,
}

impl Model for Job {
    ghost use Rattle.mr_jobs.specs.JobSpec.{JobSpec};

    ghost Value = { JobSpec };

    ghost use Rattle.mr_jobs.specs.Views.{spec_of};

    ghost view = { λ j. spec_of j.kind };

    ghost use Rattle.mr_jobs.specs.JobSpec.{JobFits};

    ghost invariant = { λ j. JobFits (spec_of j.kind) };
}

/// Why there is no such job: the literal is empty, has over 4,096 bytes, or contains a line feed;
/// the field's number is not 1 to 65,535, or the separator is a line feed or a digit.
#[derive(Clone, Copy, Debug, PartialEq, Eq, Drop, Error)]
pub enum JobFault {
    #[error("EmptyLiteral")]
    EmptyLiteral,
    #[error("LongLiteral")]
    LongLiteral,
    #[error("LineEndInLiteral")]
    LineEndInLiteral,
    #[error("BadField")]
    BadField,
    #[error("BadSeparator")]
    BadSeparator,
    #[error("OutOfMemory")]
    OutOfMemory,
}

impl Job {
    /// Counts each word: by its exact bytes if `keep_case`, and otherwise folded to lower case.
    pub fn words(keep_case: bool) -> Job
        ensures { result ≡ WordCount keep_case }
    {
        Job {
            kind: Kind::Words { keep_case },
        }
    }

    /// Finds the lines that contain `literal`, ASCII letters in lower case if `fold`. A literal has
    /// 1 to 4,096 bytes and no line feed. Of several faults it reports the first of `JobFault`.
    pub fn grep(alloc: Global, literal: &[u8], fold: bool) -> Result<Job, JobFault>
        ensures ok { IfOk result (λ r. r ≡ LinesWith literal.now fold) }
        ensures fits { OnOk result (LiteralFits literal.now) }
        ensures empty { (result ≡ Err JobFault.EmptyLiteral) ↔ (literal.now ≡ []) }
        ensures long { (result ≡ Err JobFault.LongLiteral) ↔ (4096 < length literal.now) }
        ensures line_end { (result ≡ Err JobFault.LineEndInLiteral)
            ↔ ((0 < length literal.now) × (length literal.now ≤ 4096) × Contains literal.now 10) }
        ensures good { LiteralFits literal.now → IsOkUnless result JobFault.OutOfMemory }
    {
        if literal.is_empty() {
            return Err(JobFault::EmptyLiteral);
        }
        if MAX_LITERAL < literal.len() {
            return Err(JobFault::LongLiteral);
        }
        if literal.contains(&b'\n') {
            return Err(JobFault::LineEndInLiteral);
        }
        match Vec::from_slice(alloc, literal) {
            Ok(literal) => Ok(Job {
                kind: Kind::Grep { literal, fold },
            }),
            Err(_) => Err(JobFault::OutOfMemory),
        }
    }

    /// Counts each resource that the lines of a log request.
    pub fn url() -> Job
        ensures { result ≡ Resources }
    {
        Job { kind: Kind::Url }
    }

    /// Lists the files that contain each word; words are those of `words`.
    pub fn index(keep_case: bool) -> Job
        ensures { result ≡ InvertedIndex keep_case }
    {
        Job {
            kind: Kind::Index { keep_case },
        }
    }

    /// Counts the fields of that number, from 1 to 65,535: those between separators of that byte, or
    /// without one those between gaps of spaces and tabs. A separator is neither a line feed nor a
    /// digit. Of several faults it reports the first of `JobFault`.
    pub fn field(alloc: Global, separator: Option<u8>, number: u32) -> Result<Job, JobFault>
        ensures ok { IfOk result (λ r. r ≡ NthField separator number) }
        ensures fits { OnOk result (FieldFits separator number) }
        ensures bad_field { (result ≡ Err JobFault.BadField) ↔ ((number ≡ 0) ⊎ (65535 < number)) }
        ensures bad_separator { (result ≡ Err JobFault.BadSeparator)
            ↔ (NumberFits number × IsSomeAnd separator (λ s. CannotSeparate s)) }
        ensures good { FieldFits separator number → IsOkUnless result JobFault.OutOfMemory }
    {
        if number == 0 || MAX_FIELD < number {
            return Err(JobFault::BadField);
        }
        if let Some(separator) = separator {
            if cannot_separate(separator) {
                return Err(JobFault::BadSeparator);
            }
        }
        let Ok(field) = Field::new(alloc, separator, number) else {
            return Err(JobFault::OutOfMemory);
        };
        Ok(Job {
            kind: Kind::Field(field),
        })
    }

    /// The only job that may have this name.
    fn of_name(alloc: Global, number: u32, flags: u32, literal: &[u8]) -> Result<Job, JobFault>
        ensures only { (job : JobSpec) → IsNamed number flags literal.now job → IfOk result (λ j. j ≡ job) }
        ensures some { (job : JobSpec) → IsNamed number flags literal.now job → IsOkUnless result JobFault.OutOfMemory }
    {
        match number {
            1 => Ok(Job::words(flags == 1)),
            2 => Job::grep(alloc, literal, flags == 2),
            4 => Ok(Job::index(flags == 1)),
            5 => {
                let (separator, digits) = name_parts(literal);
                Job::field(alloc, separator, number_of(digits))
            }
            _ => Ok(Job::url()),
        }
    }

    /// The job that a certificate names by this number, these flags and this literal, if there is one.
    pub fn named(
        alloc: Global,
        number: u32,
        flags: u32,
        literal: &[u8],
    ) -> Result<Option<Job>, AllocError>
        ensures { IfOk result (λ r. MatchOption r ((job : JobSpec) → IsNamed number flags literal.now job → ⊥)
            (λ j. IsNamed number flags literal.now j)) }
    {
        let job = match Job::of_name(alloc, number, flags, literal) {
            Ok(job) => job,
            Err(JobFault::OutOfMemory) => return Err(AllocError),
            Err(_) => return Ok(None),
        };
        let row = job.row();
        if row.number == number && row.flags == flags && job.literal() == literal {
            Ok(Some(job))
        } else {
            Ok(None)
        }
    }

    /// The job's row in the table of jobs.
    #[inline]
    pub fn row(&self) -> JobRow
        ensures row { result ≡ row_of self.now }
        ensures small { result.flags ≤ 2 }
    {
        let (number, flags, text) = match &self.kind {
            Kind::Words { keep_case } => (1, if *keep_case { 1 } else { 0 }, GroupText::Count),
            Kind::Grep { literal: _, fold } => (2, if *fold { 2 } else { 0 }, GroupText::Lines),
            Kind::Url => (3, 0, GroupText::Count),
            Kind::Index { keep_case } => (4, if *keep_case { 1 } else { 0 }, GroupText::Files),
            Kind::Field(_) => (5, 0, GroupText::Count),
        };
        JobRow {
            number,
            flags,
            text,
        }
    }

    /// The job's number in a certificate.
    pub fn number(&self) -> u32
        ensures { result ≡ job_number self.now }
    {
        self.row().number
    }

    /// Whether an output holds only the number of a key's values, whatever they are.
    pub fn counts(&self) -> bool
        ensures { result ≡ counts self.now }
    {
        matches!(self.row().text, GroupText::Count)
    }

    /// Whether an output holds a line for each value that is a place.
    pub fn has_lines(&self) -> bool
        ensures { result ≡ has_lines self.now }
    {
        matches!(self.row().text, GroupText::Lines)
    }

    /// The value of each pair emitted for a record that begins at place `start` of file `file`.
    pub fn value_at(&self, file: u32, start: u32) -> Value
        ensures { result ≡ value_at self.now file start }
    {
        match self.row().text {
            GroupText::Count => Value::One,
            GroupText::Lines | GroupText::Files => Value::At {
                file,
                offset: start as u64,
            },
        }
    }

    pub(crate) fn folds_words(&self) -> bool
        ensures { result ≡ folds_words self.now }
    {
        match &self.kind {
            Kind::Words { keep_case } | Kind::Index { keep_case } => !*keep_case,
            _ => false,
        }
    }

    pub(crate) fn has_hosts(&self) -> bool
        ensures { IsTrue result ↔ (self.now ≡ Resources) }
    {
        matches!(self.kind, Kind::Url)
    }

    /// The bytes of the literal, or those that name the field: at most 4,096. Other jobs have none.
    pub fn literal(&self) -> &[u8]
        ensures bytes { result.now ≡ job_literal self.now }
        ensures short { length result.now ≤ 4096 }
        ensures fits { JobFits self.now }
    {
        match &self.kind {
            Kind::Grep { literal, fold: _ } => literal.as_slice(),
            Kind::Field(field) => field.literal(),
            _ => b"",
        }
    }
}

/// No two jobs have the same number, flags and literal.
pub fn job_law()
    ensures { JobsAreNamed }
{}
