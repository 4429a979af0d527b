//! Certificates: standard input is the bytes of one, and is answered by the certificate that they spell or by where they
//! are malformed, and by the items that the walk over them gives. With no bytes those of an example are told, which is
//! built, and the text of a fault. With more words, how many bytes a reader gives a call and which call of it fails, if one
//! does, the items are told that the walk over that reader gives.
ghost use Rattle.std.specs.Prelude.{◌≤◌, ◌<◌, ◌^◌, [], ◌∷◌, length};
ghost use Rattle.mr_certform.specs.Flat.{AreCounted};

use crate::streaming;
use crate::telling::Teller;
use mr_bytes::Name;
use mr_certform::{
    Certificate, FlatGroups, GroupIter, Header, Item, NameColumn, Names, ReadFault, Version,
    VersionedCertificate, Walker, WriteFault, read, write,
};
use mr_store::{MemoryWriter, write_encoded};
use std::alloc::{AllocError, Global};
use std::io;

/// As many bytes as a certificate has at most whose names and items are told one by one.
const SHORT: usize = 4096;

fn name(place: u32) -> Name {
    Name {
        split: 0,
        rec: 0,
        place,
    }
}

/// The certificate of words in files of these lengths, splits of 64 bytes, one partition with these groups.
pub fn of_words(
    alloc: Global,
    lengths: Vec<u64>,
    entry_counts: &[u32],
    names: &[Name],
) -> Result<Certificate, AllocError>
    requires files { length lengths.items ≤ 1024 }
    requires groups { length entry_counts.now < 2 ^ 32 }
    requires counted { AreCounted (length entry_counts.now ∷ []) entry_counts.now names.now }
{
    let header = Header {
        job: 1,
        flags: 0,
        literal: Vec::new(alloc),
        split_size: 64,
        lengths,
        skips: Vec::new(alloc),
    };
    let groups = FlatGroups {
        group_counts: Vec::from_slice(alloc, &[entry_counts.len() as u32])?,
        entry_counts: Vec::from_slice(alloc, entry_counts)?,
        names: NameColumn::plain(alloc, Vec::from_slice(alloc, names)?),
    };
    Ok(Certificate::of(header, groups))
}

/// The certificate of the words of `a b a` and a line end, one partition, splits of 64 bytes.
fn example(alloc: Global) -> Result<Certificate, AllocError> {
    let lengths = Vec::from_slice(alloc, &[6])?;
    of_words(alloc, lengths, &[2, 1], &[name(0), name(2), name(1)])
}

/// Tells one step of the walk, and whether another item may stand behind.
fn step(teller: &Teller, walker: &mut Walker<'_>) -> bool {
    match walker.next() {
        Ok(item) => {
            teller.one(&item);
            item != Item::End
        }
        Err(fault) => {
            teller.named("stops at ", &fault.at);
            false
        }
    }
}

/// Tells the items, and once more what ends them.
fn walk(teller: &Teller, bytes: &[u8]) {
    let mut walker = Walker::new(bytes);
    for _ in 0..SHORT {
        if !step(teller, &mut walker) {
            break;
        }
    }
    step(teller, &mut walker);
}

/// Tells the job, its flags and its literal.
fn show_job(teller: &Teller, certificate: &Certificate) {
    teller.behind("job ", &certificate.job());
    teller.behind(" flags ", &certificate.flags());
    teller.named(" literal ", &certificate.literal());
}

/// Tells what a certificate says before its groups.
fn show(teller: &Teller, certificate: &Certificate) {
    show_job(teller, certificate);
    teller.behind("parts ", &certificate.parts());
    teller.named(" split ", &certificate.split_size());
    teller.behind("lengths ", &certificate.lengths());
    teller.named(" skips ", &certificate.skips());
    teller.named("total ", &certificate.total());
}

/// The names, as a list.
fn listed(alloc: Global, names: &Names<'_>) -> Result<Vec<Name>, AllocError> {
    let mut list = Vec::new(alloc);
    for i in 0..names.len() {
        list.push(names.get(i))?;
    }
    Ok(list)
}

/// Tells the names of each group of a partition.
fn show_groups(teller: &Teller, mut groups: GroupIter<'_>) -> Result<(), AllocError> {
    for _ in 0..SHORT {
        match groups.next_group() {
            Some(names) => teller.named("group ", &listed(teller.alloc(), &names)?),
            None => break,
        }
    }
    Ok(())
}

/// Tells the groups of each partition.
fn show_partitions(teller: &Teller, certificate: &Certificate) -> Result<(), AllocError> {
    let mut partitions = certificate.partitions();
    for _ in 0..SHORT {
        match partitions.next_partition() {
            Some(groups) => {
                teller.line(&"partition");
                show_groups(teller, groups)?;
            }
            None => break,
        }
    }
    Ok(())
}

/// Whether the certificate is written as these bytes onto a writer, which is given them piece by piece.
fn is_spelled_again(alloc: Global, spelled: &VersionedCertificate<'_>, bytes: &[u8]) -> bool {
    let mut writer = MemoryWriter::new(alloc, 50_000, None);
    let done = write_encoded(&mut writer, spelled).is_ok();
    done && writer.flushed() == bytes
}

/// The version that the bytes begin with.
fn version_of(bytes: &[u8]) -> Version {
    if bytes.starts_with(b"MRCERT2") {
        Version::V2
    } else {
        Version::V1
    }
}

/// The certificate's bytes in this version; none where the version can't spell it.
fn spelled_in(
    alloc: Global,
    certificate: &Certificate,
    version: Version,
) -> Result<Option<Vec<u8>>, AllocError> {
    match write(alloc, certificate, version) {
        Ok(bytes) => Ok(Some(bytes)),
        Err(WriteFault::NamesFall) => Ok(None),
        Err(WriteFault::OutOfMemory) => Err(AllocError),
    }
}

/// Whether it is written so in a list too, in the version of the bytes.
fn is_written_again(
    alloc: Global,
    certificate: &Certificate,
    bytes: &[u8],
) -> Result<bool, AllocError> {
    let version = version_of(bytes);
    let Some(written) = spelled_in(alloc, certificate, version)? else {
        return Ok(false);
    };
    let Some(spelled) = certificate.in_version(version) else {
        return Ok(false);
    };
    Ok(is_spelled_again(alloc, &spelled, bytes) && written.as_slice() == bytes)
}

/// Tells the certificate that was read of the bytes, and whether it is written as they are.
fn show_read(teller: &Teller, certificate: &Certificate, bytes: &[u8]) -> Result<(), AllocError> {
    show(teller, certificate);
    let again = is_written_again(teller.alloc(), certificate, bytes)?;
    teller.named("written again: ", &again);
    if bytes.len() <= SHORT {
        show_partitions(teller, certificate)?;
    }
    Ok(())
}

/// Tells the certificate that the bytes spell, or where they are malformed.
fn tell(teller: &Teller, bytes: &[u8]) -> Result<(), AllocError> {
    match read(teller.alloc(), bytes) {
        Ok(certificate) => show_read(teller, &certificate, bytes),
        Err(fault) => {
            teller.line(&fault);
            Ok(())
        }
    }
}

/// The bytes of the example that is built.
fn example_bytes(alloc: Global) -> Result<Vec<u8>, AllocError> {
    let certificate = example(alloc)?;
    match spelled_in(alloc, &certificate, Version::V1)? {
        Some(bytes) => Ok(bytes),
        None => Ok(Vec::new(alloc)),
    }
}

/// Tells those bytes, and how want of memory is told.
fn tell_example(teller: &Teller) -> Result<(), AllocError> {
    teller.one(&example_bytes(teller.alloc())?);
    teller.line(&ReadFault::OutOfMemory);
    Ok(())
}

/// Answers these bytes, where no words stand behind the first.
fn answer_bytes(teller: &Teller, bytes: &[u8]) -> Result<(), AllocError> {
    if bytes.is_empty() {
        return tell_example(teller);
    }
    tell(teller, bytes)?;
    if bytes.len() <= SHORT {
        walk(teller, bytes);
    }
    Ok(())
}

/// The number of a word; what is missing or is no number is 0.
fn number_of(words: &[String], i: usize) -> u64 {
    match words.get(i) {
        Some(word) => word.parse().unwrap_or(0),
        None => 0,
    }
}

/// Answers standard input, by these words.
pub fn answer(teller: &Teller, words: &[String]) -> io::Result<()> {
    let bytes = teller.all_bytes()?;
    if words.is_empty() {
        answer_bytes(teller, &bytes)?;
    } else {
        let most = number_of(words, 0) as usize;
        streaming::walk(teller, bytes, most, number_of(words, 1))?;
    }
    Ok(())
}
