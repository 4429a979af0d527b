//! Assembles the result of a done job: the reduce outputs, and the groups of the certificate.
//!
//!     partition            0   1   2
//!     committed            12  7   9           numbers, from the master's state
//!     outputs              text, counts and names of each, from the store
//!     files                part-00000 ...      the texts
//!     certificate          the header with the left-out records; counts and names, flat
//!
//! `spelling.rt` gives the certificate's bytes, without a list of all names; `assemble` reads them
//! as a value. The result is good if each committed output is its attempt's value (`IsFaithful`).
ghost use Rattle.std.specs.Prelude.{◌≡◌, ℕ, List, ◌<◌, ◌++◌, Some, IfOk, OnOk, map, slice_index_or};
ghost use Rattle.mr_input.specs.Files.{contents};
ghost use Rattle.mr_certform.specs.Value.{Spells};
ghost use Rattle.mr_core.specs.declared.event.End.{End};
ghost use Rattle.mr_sequential.specs.Good.{IsGood, IsGoodResult};
ghost use Rattle.mr_book.specs.Assembled.{assembled_certificate, assembled_outputs};
ghost use Rattle.mr_book.specs.Assembled.{committed_values, in_split, nothing, records_from};
ghost use Rattle.mr_book.specs.Faithful.{IsFaithful, IsOpenedFor};
ghost use Rattle.mr_book.specs.Assembling.{reduced_under, sets_of};

use crate::book::Book;
use mr_bytes::RecordName;
use mr_certform::{Certificate, Version, read};
use mr_input::Input;
use mr_jobs::Request;
use mr_task::ReduceOutput;
use std::alloc::{AllocError, Global};
use std::sync::ledger::Ledger;

fn push_records(
    records: &mut Vec<RecordName>,
    split: u32,
    numbers: &[u32],
) -> Result<(), AllocError>
    ensures { OnOk result (records.new.items ≡ records.old.items ++ map (in_split split) numbers.now) }
{
    for number in numbers {
        records.push(RecordName {
            split,
            rec: *number,
        })?;
    }
    Ok(())
}

impl<L: Ledger> Book<L> {
    /// The left-out records of all splits.
    pub(crate) fn records_left_out(&self, alloc: Global) -> Result<Vec<RecordName>, AllocError>
        ensures { IfOk result (λ v. v.items ≡ records_from 0 (sets_of self.now.state)) }
    {
        let core = self.core();
        // This shows that the shape is within a job's limits, so that all splits are there.
        let _limits = core.limits();
        let mut records = Vec::new(alloc);
        for split in 0..core.shape().maps {
            push_records(&mut records, split, core.set(split))?;
        }
        Ok(records)
    }

    /// The committed output of a partition.
    pub(crate) fn committed(&self, partition: u32) -> &ReduceOutput
        requires done { self.now.state.end ≡ Some End.Done }
        requires partition { partition < self.now.shape.parts }
        ensures { result.now ≡ slice_index_or
            (committed_values (reduced_under self.now.reduces) self.now.state) partition nothing }
    {
        let core = self.core();
        // These show that a done job has committed all, and that what is committed is stored.
        let _limits = core.limits();
        let _shape = self.shape();
        let Some(number) = core.committed(partition) else {
            unreachable!()
        };
        self.reduce_output(number)
    }

    /// The files and the certificate that the book's state names, for a done job of this request
    /// and input. Where each committed reduce output is its attempt's value and each accepted
    /// failure names a record of its split, they are good, whichever bytes spell the certificate.
    pub fn assemble(
        &self,
        alloc: Global,
        request: &Request,
        input: &Input,
    ) -> Result<(Vec<Vec<u8>>, Certificate), AllocError>
        requires done { self.now.state.end ≡ Some End.Done }
        requires opened { IsOpenedFor request.now input.now self.now.shape }
        ensures outputs { IfOk result (λ r. contents r.0.items
            ≡ assembled_outputs (reduced_under self.now.reduces) self.now.state) }
        ensures certificate { IfOk result (λ r. r.1 ≡ assembled_certificate request.now input.now
            (reduced_under self.now.reduces) self.now.state) }
        ensures good { IsFaithful request.now input.now self.now.history self.now.state
            (reduced_under self.now.reduces)
            → IfOk result (λ r. IsGood request.now input.now (contents r.0.items) r.1) }
        ensures result { IsFaithful request.now input.now self.now.history self.now.state
            (reduced_under self.now.reduces)
            → IfOk result (λ r. (bytes : List ℕ) → Spells bytes r.1
            → IsGoodResult request.now input.now (contents r.0.items) bytes) }
    {
        let (outputs, bytes) = self.assemble_bytes(alloc, request, input, Version::V1)?;
        match read(alloc, bytes.as_slice()) {
            Ok(certificate) => Ok((outputs, certificate)),
            // The bytes spell a certificate, so that only memory can lack.
            Err(_) => Err(AllocError),
        }
    }
}
