//! Spells the result of a done job from the outputs that its book stores.
ghost use Rattle.std.specs.Prelude.{◌≡◌, ◌↔◌, ◌<◌, ◌≤◌, ◌^◌, Some, IfOk, IsTrue, length};
ghost use Rattle.std.specs.List.{AllByRecursion};
ghost use Rattle.mr_input.specs.Files.{contents};
ghost use Rattle.mr_certform.specs.Value.{CanSpell, Spells, SpellsIn};
ghost use Rattle.mr_core.specs.declared.event.End.{End};
ghost use Rattle.mr_sequential.specs.Good.{IsGoodResult};
ghost use Rattle.mr_book.specs.Assembled.{assembled_certificate, assembled_outputs};
ghost use Rattle.mr_book.specs.Faithful.{IsFaithful, IsOpenedFor};
ghost use Rattle.mr_book.specs.Assembling.{SpellsWhereItCan, committed_groups, reduced_under};

use crate::book::Book;
use mr_certform::{Header, Names, Version, partition_size_hint, write_header, write_partition};
use mr_input::Input;
use mr_jobs::Request;
use mr_sequential::header_of;
use std::alloc::{AllocError, Global};
use std::sync::ledger::Ledger;

impl<L: Ledger> Book<L> {
    /// The files of all partitions.
    fn committed_texts(&self, alloc: Global) -> Result<Vec<Vec<u8>>, AllocError>
        requires { self.now.state.end ≡ Some End.Done }
        ensures { IfOk result (λ v. contents v.items
            ≡ assembled_outputs (reduced_under self.now.reduces) self.now.state) }
    {
        // This shows that there are as many commits as partitions.
        let _limits = self.core().limits();
        let parts = self.shape().parts;
        let mut texts = Vec::with_capacity(alloc, parts as usize)?;
        for partition in 0..parts {
            let output = self.committed(partition);
            texts.push(Vec::from_slice(alloc, output.text())?)?;
        }
        Ok(texts)
    }

    fn can_spell(&self, version: Version) -> bool
        requires { self.now.state.end ≡ Some End.Done }
        ensures { IsTrue result
            ↔ AllByRecursion (CanSpell version) (committed_groups self.now.reduces self.now.state) }
    {
        // As above.
        let _limits = self.core().limits();
        let parts = self.shape().parts;
        for partition in 0..parts {
            let (counts, names) = self.committed(partition).flat_groups();
            if !version.can_spell(counts, Names::plain(names)) {
                return false;
            }
        }
        true
    }

    /// The version asked for, where it can spell all names; else version 1, which spells any. Names
    /// come from workers, so nothing is known of their order.
    fn version_for(&self, asked: Version) -> Version
        requires { self.now.state.end ≡ Some End.Done }
        ensures can { AllByRecursion (CanSpell result) (committed_groups self.now.reduces self.now.state) }
        ensures asked { AllByRecursion (CanSpell asked)
            (committed_groups self.now.reduces self.now.state) → result ≡ asked }
    {
        if self.can_spell(asked) {
            asked
        } else {
            Version::V1
        }
    }

    /// The bytes that the partitions take: a guess in version 2, and no more than a `usize` counts.
    fn size_of_groups(&self, version: Version) -> usize
        requires { self.now.state.end ≡ Some End.Done }
    {
        let mut size = 0usize;
        for partition in 0..self.shape().parts {
            let (counts, names) = self.committed(partition).flat_groups();
            size = size.saturating_add(partition_size_hint(version, counts.len(), names.len()));
        }
        size
    }

    /// The certificate's bytes, in a version that can spell it.
    fn spelled(
        &self,
        alloc: Global,
        header: Header,
        version: Version,
    ) -> Result<Vec<u8>, AllocError>
        requires done { self.now.state.end ≡ Some End.Done }
        requires literal { length header.literal.items ≤ 4096 }
        requires files { length header.lengths.items ≤ 1024 }
        requires skips { length header.skips.items < 2 ^ 32 }
        requires can { AllByRecursion (CanSpell version) (committed_groups self.now.reduces self.now.state) }
        ensures { IfOk result (λ v. SpellsIn version v.items (record {
          job = header.job;
          flags = header.flags;
          literal = header.literal.items;
          parts = self.now.shape.parts;
          split_size = header.split_size;
          lengths = header.lengths.items;
          skips = header.skips.items;
          groups = committed_groups self.now.reduces self.now.state;
        })) }
    {
        let _limits = self.core().limits();
        let parts = self.shape().parts;
        let room = self.size_of_groups(version);
        let mut out = write_header(alloc, version, header, parts, room)?;
        for partition in 0..parts {
            let (counts, names) = self.committed(partition).flat_groups();
            write_partition(&mut out, version, counts, Names::plain(names))?;
        }
        Ok(out)
    }

    /// A done job's files and the bytes of its certificate: what `assemble` returns, and good where
    /// that is, spelled in `version`, or in version 1 where `version` can't spell it. Each name is
    /// spelled from where it is stored: no list of all names is made.
    pub fn assemble_bytes(
        &self,
        alloc: Global,
        request: &Request,
        input: &Input,
        version: Version,
    ) -> Result<(Vec<Vec<u8>>, Vec<u8>), AllocError>
        requires done { self.now.state.end ≡ Some End.Done }
        requires opened { IsOpenedFor request.now input.now self.now.shape }
        ensures outputs { IfOk result (λ r. contents r.0.items
            ≡ assembled_outputs (reduced_under self.now.reduces) self.now.state) }
        ensures certificate { IfOk result
            (λ r. Spells r.1.items (assembled_certificate request.now input.now
            (reduced_under self.now.reduces) self.now.state)) }
        ensures version { IfOk result
            (λ r. SpellsWhereItCan version r.1.items (assembled_certificate request.now input.now
            (reduced_under self.now.reduces) self.now.state)) }
        ensures good { IsFaithful request.now input.now self.now.history self.now.state
            (reduced_under self.now.reduces)
            → IfOk result (λ r. IsGoodResult request.now input.now (contents r.0.items) r.1.items) }
    {
        // These show that all are within their limits, and that the book keeps a run.
        let _limits = self.core().limits();
        let _shape = self.shape();
        let _files = input.files();
        let _size = request.split_size();
        let skips = self.records_left_out(alloc)?;
        let header = header_of(alloc, request, input, skips.as_slice())?;
        let texts = self.committed_texts(alloc)?;
        let certificate = self.spelled(alloc, header, self.version_for(version))?;
        Ok((texts, certificate))
    }
}
