//! A certificate of one group of names, spelled onto a writer. The words behind the first are how many names there are, how
//! many bytes the writer takes a call, which call of it fails (0 for none), and the version. Standard input is what should
//! be written.
use crate::certificates::of_words;
use crate::inputs::numbers_of;
use crate::stores::writer;
use crate::telling::Teller;
use mr_bytes::Name;
use mr_certform::{Certificate, Version, VersionedCertificate};
use mr_store::{CountedWrite, MemoryWriter, write_encoded};
use std::alloc::{AllocError, Global};
use std::io;

fn names(alloc: Global, count: u32) -> Result<Vec<Name>, AllocError> {
    let mut names = Vec::new(alloc);
    for place in 0..count {
        names.push(Name {
            split: 0,
            rec: 0,
            place,
        })?;
    }
    Ok(names)
}

/// The certificate of one partition with a group of these names, if there are some and not too many.
fn certificate(alloc: Global, names: &[Name]) -> Result<Option<Certificate>, AllocError> {
    if names.is_empty() || names.len() > 1_000_000 {
        return Ok(None);
    }
    let count = names.len() as u32;
    of_words(alloc, Vec::new(alloc), &[count], names).map(Some)
}

/// How many bytes are written, whether they begin those that should be, how many are handed on, and how many calls failed.
fn show(
    teller: &Teller,
    spelled: &VersionedCertificate<'_>,
    bytes: &[u8],
    mut writer: MemoryWriter,
) {
    teller.part(&write_encoded(&mut writer, spelled));
    teller.four(
        &writer.bytes().len(),
        &bytes.starts_with(writer.bytes()),
        &writer.flushed().len(),
        &writer.failures(),
    );
}

/// Answers these bytes, where so many names are spelled.
fn answer_bytes(teller: &Teller, bytes: &[u8], numbers: [u32; 4]) -> Result<(), AllocError> {
    let [count, most, failing, version] = numbers;
    let names = names(teller.alloc(), count)?;
    let Some(certificate) = certificate(teller.alloc(), &names)? else {
        return Ok(());
    };
    let version = if version == 2 {
        Version::V2
    } else {
        Version::V1
    };
    if let Some(spelled) = certificate.in_version(version) {
        show(
            teller,
            &spelled,
            bytes,
            writer(teller.alloc(), most, failing),
        );
    }
    Ok(())
}

/// Answers standard input, by these words.
pub fn answer(teller: &Teller, words: &[String]) -> io::Result<()> {
    let bytes = teller.all_bytes()?;
    answer_bytes(teller, &bytes, numbers_of(words))?;
    Ok(())
}
