//! Encodes a certificate, number by number, into a list, or into a writer behind a buffer.
ghost use Rattle.std.specs.Prelude.{◌≡◌, ◌↔◌, ◌≤◌, ◌<◌, ◌^◌, ◌++◌, [], false, OnOk, OnErr};
ghost use Rattle.std.specs.Prelude.{IfOk, length, drop};
ghost use Rattle.std.specs.List.{flat_map, AllByRecursion};
ghost use Rattle.mr_store.specs.Devices.{FailsOnly, TookSome, with_bytes};
ghost use Rattle.mr_certform.specs.Places.{first_name};
ghost use Rattle.mr_certform.specs.Spelling.{u32 as four, u64 as eight, magic, name_bytes};
ghost use Rattle.mr_certform.specs.Spelling.{skip_bytes};
ghost use Rattle.mr_certform.specs.Value.{NameFits, SkipFits, CanFollow, CanRow, CanSpell};
ghost use Rattle.mr_certform.specs.Value.{SpellsIn};
ghost use Rattle.mr_certform.specs.Flat.{total, chunks, contents_of, IsWhole, HasNumbers, HasNames};
ghost use Rattle.mr_certform.specs.Pieces.{names_bytes, group_bytes, part_bytes, job_bytes};
ghost use Rattle.mr_certform.specs.Pieces.{all_bytes, versioned_bytes};

use crate::certificate::{Certificate, CertificateColumns};
use crate::names::Names;
use crate::short::short_name;
use crate::version::{Version, VersionedCertificate};
use crate::write_buffer::{Sink, WriteBuffer};
use byteorder::{BigEndian, ByteOrder};
use mr_bytes::{Name, RecordName};
use mr_store::{CountedWrite, Device, Encode};
use std::alloc::{AllocError, Global};
use thiserror::Error;

fn spelled_name(name: Name) -> [u8; 12]
    ensures text { result ≡ name_bytes Version.V1 first_name name }
    ensures fits { NameFits name }
{
    let mut bytes = [0u8; 12];
    BigEndian::write_u32(&mut bytes, name.split);
    BigEndian::write_u32(&mut bytes[4..], name.rec);
    BigEndian::write_u32(&mut bytes[8..], name.place);
    bytes
}

fn spelled_skip(skip: RecordName) -> [u8; 8]
    ensures text { result ≡ skip_bytes skip }
    ensures fits { SkipFits skip }
{
    let mut bytes = [0u8; 8];
    BigEndian::write_u32(&mut bytes, skip.split);
    BigEndian::write_u32(&mut bytes[4..], skip.rec);
    bytes
}

pub(crate) fn put_number<O: Sink>(out: &mut O, n: u32) -> Result<(), O::Fault>
    ensures { OnOk result (O.takes out.old out.new (four n)) }
{
    let mut bytes = [0u8; 4];
    BigEndian::write_u32(&mut bytes, n);
    out.put(&bytes)
}

fn put_long<O: Sink>(out: &mut O, n: u64) -> Result<(), O::Fault>
    ensures { OnOk result (O.takes out.old out.new (eight n)) }
{
    let mut bytes = [0u8; 8];
    BigEndian::write_u64(&mut bytes, n);
    out.put(&bytes)
}

#[inline]
fn put_name<O: Sink>(
    out: &mut O,
    version: Version,
    before: Name,
    name: Name,
) -> Result<(), O::Fault>
    requires { CanFollow version before name }
    ensures text { OnOk result (O.takes out.old out.new (name_bytes version before name)) }
    ensures fits { NameFits name }
{
    match version {
        Version::V1 => out.put(&spelled_name(name)),
        Version::V2 => out.put(short_name(before, name).bytes()),
    }
}

fn put_names<O: Sink>(out: &mut O, version: Version, mut names: Names<'_>) -> Result<(), O::Fault>
    requires { CanRow version first_name names }
    ensures { OnOk result (O.takes out.old out.new (names_bytes version first_name names.entry)
        × AllByRecursion NameFits names.entry) }
{
    let mut before = Name {
        split: 0,
        rec: 0,
        place: 0,
    };
    while let Some(name) = names.next() {
        put_name(out, version, before, name)?;
        before = name;
    }
    Ok(())
}

/// Writes the groups of these counts, from the front of the names; returns the names after them.
pub(crate) fn put_groups<'a, O: Sink>(
    out: &mut O,
    version: Version,
    counts: &[u32],
    names: Names<'a>,
) -> Result<Names<'a>, O::Fault>
    requires room { total counts.now ≤ length names }
    requires can { CanSpell version (chunks counts.now names) }
    ensures { IfOk result (λ rest. O.takes out.old out.new
        (flat_map (group_bytes version) (chunks counts.now names.entry))
        × (rest ≡ drop (total counts.now) names.entry)
        × AllByRecursion (AllByRecursion NameFits) (chunks counts.now names.entry)) }
{
    let mut rest = names;
    for count in counts {
        let (here, more) = rest.split_at(*count as usize);
        put_number(out, *count)?;
        put_names(out, version, here)?;
        rest = more;
    }
    Ok(rest)
}

fn put_parts<O: Sink>(
    out: &mut O,
    version: Version,
    group_counts: &[u32],
    entry_counts: &[u32],
    names: Names<'_>,
) -> Result<(), O::Fault>
    requires groups { total group_counts.now ≡ length entry_counts.now }
    requires room { total entry_counts.now ≤ length names }
    requires can { CanSpell version (chunks entry_counts.now names) }
    ensures { OnOk result (O.takes out.old out.new (flat_map (part_bytes version)
        (chunks group_counts.now (chunks entry_counts.now names.entry)))
        × AllByRecursion (AllByRecursion NameFits) (chunks entry_counts.now names.entry)) }
{
    let mut counts = entry_counts;
    let mut rest = names;
    for groups in group_counts {
        let (here, more) = counts.split_at(*groups as usize);
        put_number(out, *groups)?;
        rest = put_groups(out, version, here, rest)?;
        counts = more;
    }
    Ok(())
}

/// Writes the front, from the magic to the bytes of a split.
pub(crate) fn put_job<O: Sink>(
    out: &mut O,
    version: Version,
    flat: &CertificateColumns,
) -> Result<(), O::Fault>
    requires { length flat.now.literal < 2 ^ 32 }
    ensures { OnOk result (O.takes out.old out.new (job_bytes version (contents_of flat.now))) }
{
    out.put(&version.magic())?;
    put_number(out, flat.header.job)?;
    put_number(out, flat.header.flags)?;
    put_number(out, flat.header.literal.len() as u32)?;
    out.put(&flat.header.literal)?;
    put_number(out, flat.parts)?;
    put_number(out, flat.header.split_size)
}

pub(crate) fn put_input<O: Sink>(out: &mut O, lengths: &[u64]) -> Result<(), O::Fault>
    requires { length lengths.now < 2 ^ 32 }
    ensures { OnOk result
        (O.takes out.old out.new (four (length lengths.now) ++ flat_map eight lengths.now)) }
{
    put_number(out, lengths.len() as u32)?;
    for length in lengths {
        put_long(out, *length)?;
    }
    Ok(())
}

pub(crate) fn put_left_out<O: Sink>(out: &mut O, skips: &[RecordName]) -> Result<(), O::Fault>
    requires { length skips.now < 2 ^ 32 }
    ensures { OnOk result (O.takes out.old out.new (four (length skips.now)
        ++ flat_map skip_bytes skips.now) × AllByRecursion SkipFits skips.now) }
{
    put_number(out, skips.len() as u32)?;
    for skip in skips {
        out.put(&spelled_skip(*skip))?;
    }
    Ok(())
}

/// How many bytes the values take in version 1, saturating.
pub(crate) fn size_of(flat: &CertificateColumns) -> usize {
    let groups = &flat.groups;
    let counts = (groups.entry_counts.len()).saturating_add(groups.group_counts.len());
    let lists = (flat.header.lengths.len()).saturating_add(flat.header.skips.len());
    (groups.names.len().saturating_mul(12))
        .saturating_add(counts.saturating_mul(4))
        .saturating_add(lists.saturating_mul(8))
        .saturating_add(flat.header.literal.len())
        .saturating_add(36)
}

pub(crate) fn put_values<O: Sink>(
    out: &mut O,
    version: Version,
    flat: &CertificateColumns,
) -> Result<(), O::Fault>
    requires whole { IsWhole flat.now }
    requires can { CanSpell version (chunks flat.now.entry_counts flat.now.names) }
    ensures { OnOk result (O.takes out.old out.new (all_bytes version (contents_of flat.now))
        × HasNames flat.now) }
{
    put_job(out, version, flat)?;
    put_input(out, &flat.header.lengths)?;
    put_left_out(out, &flat.header.skips)?;
    put_parts(
        out,
        version,
        &flat.groups.group_counts,
        &flat.groups.entry_counts,
        flat.groups.names.names(),
    )
}

fn bytes_fit(bytes: &[u8])
    ensures { AllByRecursion (λ b. b < 256) bytes.now }
{
    let _ = bytes.len();
}

pub(crate) fn counts_fit(counts: &[u32])
    ensures { AllByRecursion (λ n. n < 2 ^ 32) counts.now }
{
    let _ = counts.len();
}

fn lengths_fit(lengths: &[u64])
    ensures { AllByRecursion (λ n. n < 2 ^ 64) lengths.now }
{
    let _ = lengths.len();
}

/// Each number fits the bytes of its type. Does nothing at run time.
pub(crate) fn numbers_fit(flat: &CertificateColumns)
    ensures { HasNumbers flat.now }
{
    let _job = flat.header.job;
    let _flags = flat.header.flags;
    let _split_size = flat.header.split_size;
    bytes_fit(&flat.header.literal);
    lengths_fit(&flat.header.lengths);
    counts_fit(&flat.groups.group_counts);
    counts_fit(&flat.groups.entry_counts);
}

fn name_fits(name: Name)
    ensures { NameFits name }
{
    let _split = name.split;
    let _rec = name.rec;
    let _place = name.place;
}

fn skip_fits(skip: RecordName)
    ensures { SkipFits skip }
{
    let _split = skip.split;
    let _rec = skip.rec;
}

pub(crate) fn names_fit(mut names: Names<'_>)
    ensures { AllByRecursion NameFits names.entry }
{
    while let Some(name) = names.next() {
        name_fits(name);
    }
}

pub(crate) fn skips_fit(skips: &[RecordName])
    ensures { AllByRecursion SkipFits skips.now }
{
    for skip in skips {
        skip_fits(*skip);
    }
}

/// Why a certificate can't be encoded.
#[derive(Clone, Copy, Debug, PartialEq, Eq, Drop, Error)]
pub enum WriteFault {
    #[error("OutOfMemory")]
    OutOfMemory,
    /// A name is less than the one before it in its group, which version 2 can't encode.
    #[error("NamesFall")]
    NamesFall,
}

impl From<AllocError> for WriteFault {
    ghost use Rattle.mr_certform.specs.declared.writing.WriteFault.TheVariants.{OutOfMemory as told_memory};

    ghost from_gives = { λ _ f. f ≡ told_memory };

    fn from(_fault: AllocError) -> WriteFault {
        WriteFault::OutOfMemory
    }
}

/// The bytes that encode the certificate in this version. In version 1 their list is allocated at
/// once; in version 2 it grows.
pub fn write(
    alloc: Global,
    certificate: &Certificate,
    version: Version,
) -> Result<Vec<u8>, WriteFault>
    ensures spelled { IfOk result (λ v. SpellsIn version v.items certificate.now) }
    ensures fall { (result ≡ Err WriteFault.NamesFall)
        ↔ (AllByRecursion (CanSpell version) certificate.now.groups → ⊥) }
{
    let Some(spelled) = certificate.in_version(version) else {
        return Err(WriteFault::NamesFall);
    };
    let flat = spelled.flat();
    numbers_fit(flat);
    let room = match version {
        Version::V1 => size_of(flat),
        Version::V2 => 0,
    };
    let mut out = Vec::with_capacity(alloc, room)?;
    put_values(&mut out, version, flat)?;
    Ok(out)
}

fn write_values<W: CountedWrite>(
    buffered: &mut WriteBuffer<'_, W>,
    version: Version,
    flat: &CertificateColumns,
) -> Result<(), Device>
    requires whole { IsWhole flat.now }
    requires can { CanSpell version (chunks flat.now.entry_counts flat.now.names) }
    requires empty { buffered.old.piece ≡ [] }
    requires begins { buffered.old.failed ≡ false }
    ensures same_reference { buffered.new.writer.ghost_name ≡ buffered.old.writer.ghost_name }
    ensures whole { OnOk result (W.seen buffered.new.writer.now
        ≡ with_bytes (W.seen buffered.old.writer.now) (all_bytes version (contents_of flat.now))) }
    ensures beginning { OnErr result (TookSome (W.seen buffered.old.writer.now)
        (W.seen buffered.new.writer.now) (all_bytes version (contents_of flat.now))) }
    ensures fails { FailsOnly (W.can_fail buffered.old.writer.now) (W.lacked buffered.new.writer.now) result }
    ensures later { W.can_fail buffered.new.writer.now → W.can_fail buffered.old.writer.now }
{
    match put_values(buffered, version, flat) {
        Ok(()) => buffered.finish(),
        Err(never) => match never {},
    }
}

impl<'a> Encode for VersionedCertificate<'a> {
    ghost text = { versioned_bytes };

    fn encode_to<W: CountedWrite>(&self, writer: &mut W) -> Result<(), Device> {
        let mut buffered = WriteBuffer::new(writer);
        write_values(&mut buffered, self.version(), self.flat())
    }
}
