//! A request: a job with the numbers of a run.
ghost use Rattle.std.specs.Prelude.{◌≡◌, ◌↔◌, ℕ, ◌≤◌, ◌<◌, ◌^◌, ◌⊎◌, IfOk, IsOk, IsTrue};
ghost use Rattle.mr_bytes.specs.declared.By.{By};
ghost use Rattle.mr_input.specs.Files.{split_total};
ghost use Rattle.mr_jobs.specs.JobSpec.{ByFits, JobFits, PartsFit, RequestSpec, Resources};
ghost use Rattle.mr_jobs.specs.JobSpec.{SplitFits, flags_of};

use crate::job::Job;
use mr_bytes::By;
use mr_input::{Input, MAX_SPLIT_SIZE, MAX_SPLITS};
use std::marker::Model;
use thiserror::Error;

/// The most partitions.
pub const MAX_PARTS: u32 = 1024;
/// The most records that a request may let a run leave out.
pub const MAX_SKIPS: u32 = 1000;

const _: () = prove!(MAX_PARTS == 1024 && MAX_SKIPS == 1000);

/// A job, the part of a key that chooses its partition, the number of partitions, the split size in
/// bytes, and how many records may be left out.
#[derive(Drop)]
pub struct Request {
    job: Job,
    by: By,
    parts: u32,
    size: u32,
    skips: u32,
}

impl Model for Request {
    ghost use Rattle.std.specs.Prelude.{◌≤◌, ◌^◌};
    ghost use Rattle.mr_jobs.specs.JobSpec.{ByFits, RequestSpec};

    ghost Value = { RequestSpec };

    ghost view = { λ r. record { job = r.job; by = r.by; parts = r.parts; split = r.size; skips = r.skips } };

    ghost invariant = { λ r. record {
      some_parts : 1 ≤ r.parts;
      parts : r.parts ≤ 1024;
      some_split : 1 ≤ r.size;
      split : r.size ≤ 2 ^ 26;
      skips : r.skips ≤ 1000;
      by : ByFits r.job r.by;
    } };
}

/// Why a job with these numbers is not a request.
#[derive(Clone, Copy, Debug, PartialEq, Eq, Drop, Error)]
pub enum RequestFault {
    /// No partitions, or more than 1,024.
    #[error("BadParts")]
    BadParts,
    /// A split of no bytes, or of more than 67,108,864.
    #[error("BadSplitSize")]
    BadSplitSize,
    /// More than 1,000 records may be left out.
    #[error("BadSkips")]
    BadSkips,
    /// The host of a key was to choose its partition, but the job's keys have none.
    #[error("HostNeedsUrl")]
    HostNeedsUrl,
}

impl Request {
    /// A job with `parts` partitions, chosen by the whole key, splits of `split` bytes, and at most
    /// `skips` records left out. Of several faults it reports the first of `RequestFault`.
    pub fn new(job: Job, parts: u32, split: u32, skips: u32) -> Result<Request, RequestFault>
        ensures value { IfOk result (λ r. r
            ≡ record { job = job; by = By.Key; parts = parts; split = split; skips = skips }) }
        ensures succeeds { PartsFit parts → SplitFits split → skips ≤ 1000 → IsOk result }
        ensures bad_parts { (result ≡ Err RequestFault.BadParts) ↔ ((parts ≡ 0) ⊎ (1024 < parts)) }
        ensures bad_split { (result ≡ Err RequestFault.BadSplitSize)
            ↔ (PartsFit parts × ((split ≡ 0) ⊎ (2 ^ 26 < split))) }
        ensures bad_skips { (result ≡ Err RequestFault.BadSkips)
            ↔ (PartsFit parts × SplitFits split × (1000 < skips)) }
    {
        if parts == 0 || MAX_PARTS < parts {
            return Err(RequestFault::BadParts);
        }
        if split == 0 || MAX_SPLIT_SIZE < split {
            return Err(RequestFault::BadSplitSize);
        }
        if MAX_SKIPS < skips {
            return Err(RequestFault::BadSkips);
        }
        Ok(Request {
            job,
            by: By::Key,
            parts,
            size: split,
            skips,
        })
    }

    /// The request, its partitions chosen by the host of a key. Its only fault is `HostNeedsUrl`.
    pub fn by_host(self) -> Result<Request, RequestFault>
        ensures value { IfOk result (λ r. r
            ≡ record { job = self.job; by = By.Host; parts = self.parts; split = self.split; skips = self.skips }) }
        ensures succeeds { self.job ≡ Resources → IsOk result }
        ensures needs_url { (result ≡ Err RequestFault.HostNeedsUrl) ↔ (self.job ≡ Resources → ⊥) }
    {
        if !self.job.has_hosts() {
            return Err(RequestFault::HostNeedsUrl);
        }
        Ok(Request {
            by: By::Host,
            ..self
        })
    }

    /// The job.
    pub fn job(&self) -> &Job
        ensures same { result.now ≡ self.now.job }
        ensures fits { JobFits self.now.job }
    {
        // A job's literal fits.
        let _literal = self.job.literal();
        &self.job
    }

    /// The part of a key that chooses its partition.
    pub fn by(&self) -> By
        ensures same { result ≡ self.now.by }
        ensures fits { ByFits self.now.job self.now.by }
    {
        self.by
    }

    /// The request's flags in a certificate: those of its job, plus 4 for partitions by host.
    pub fn flags(&self) -> u32
        ensures { result ≡ flags_of self.now }
    {
        let by = match self.by {
            By::Key => 0,
            By::Host => 4,
        };
        self.job.row().flags + by
    }

    /// The number of partitions.
    pub fn parts(&self) -> u32
        ensures same { result ≡ self.now.parts }
        ensures within { (1 ≤ result) × (result ≤ 1024) }
    {
        self.parts
    }

    /// The bytes of a split; the last split of a file may have fewer.
    pub fn split_size(&self) -> u32
        ensures same { result ≡ self.now.split }
        ensures within { (1 ≤ result) × (result ≤ 2 ^ 26) }
    {
        self.size
    }

    /// How many records may be left out.
    pub fn max_skips(&self) -> u32
        ensures same { result ≡ self.now.skips }
        ensures within { result ≤ 1000 }
    {
        self.skips
    }

    /// Whether the input has at most 1,048,576 splits of this size.
    pub fn fits(&self, input: &Input) -> bool
        ensures { IsTrue result ↔ (split_total self.now.split input.now ≤ 2 ^ 20) }
    {
        input.splits(self.split_size()) <= MAX_SPLITS
    }
}
