//! What a command knows beside its text: how long its files are, what it counted, or a verdict.
ghost use Rattle.std.specs.Prelude.{◌≡◌, IfOk, None};
ghost use Rattle.mr_input.specs.Files.{contents};
ghost use Rattle.mr_commands.specs.Facts.{sizes};

use mr_explain::Explained;
use mr_shards::Verdict;
use std::alloc::{AllocError, Global};

/// What is known of a job; none of what isn't counted.
#[derive(Drop)]
pub struct JobFacts {
    /// How many bytes are taken of each file of the input.
    pub inputs: Vec<u64>,
    /// How many bytes each part has that is written.
    pub parts: Vec<u64>,
    /// How many records the input has.
    pub records: Option<u64>,
    /// How many of those that aren't left out give nothing.
    pub silent: Option<u64>,
    pub left_out: Option<u64>,
    pub pairs: Option<u64>,
    /// The text of a run's history, if a page is to be made of it.
    pub history: Option<String>,
}

/// What a command knows beside its text.
#[derive(Drop)]
pub enum Facts {
    /// Of `seq`, `run` and `check`.
    Job(JobFacts),
    /// Of `merge` and `verify`: the verdict that was written or read, which lists the files.
    Verdict(Verdict),
    /// Of `explain`: how many bytes are taken of each file of the input, and what was counted.
    Evidence(Vec<u64>, Explained),
    /// Of `picture`.
    Nothing,
}

impl JobFacts {
    /// Of a job whose records aren't counted.
    pub(crate) fn uncounted(
        inputs: Vec<u64>,
        parts: Vec<u64>,
        left_out: Option<u64>,
        pairs: Option<u64>,
    ) -> JobFacts
        ensures { result ≡ record {
          inputs = inputs;
          parts = parts;
          records = None;
          silent = None;
          left_out = left_out;
          pairs = pairs;
          history = None;
        } }
    {
        JobFacts {
            inputs,
            parts,
            records: None,
            silent: None,
            left_out,
            pairs,
            history: None,
        }
    }
}

/// How many bytes each of the outputs has.
pub(crate) fn sizes_of(alloc: Global, outputs: &[Vec<u8>]) -> Result<Vec<u64>, AllocError>
    ensures { IfOk result (λ v. v.items ≡ sizes (contents outputs.now)) }
{
    let mut sizes = Vec::new(alloc);
    for output in outputs {
        sizes.push(output.len() as u64)?;
    }
    Ok(sizes)
}
