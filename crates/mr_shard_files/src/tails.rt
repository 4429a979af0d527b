//! Takes digests of parts apart from the parts.
ghost use Rattle.std.specs.Prelude.{◌≡◌, ◌≤◌, List, [], ◌∷◌, ◌++◌, drop, length, IfOk, OnOk};
ghost use Rattle.sha2.specs.declared.Sha256.{Sha256 as Digested};
ghost use Rattle.mr_shard_files.specs.Streams.{AllAre, AreNext, AreTailsOf, AreTaken, HasMore};
ghost use Rattle.mr_shard_files.specs.Streams.{IsDigested};

use crate::stream::Part;
use mr_store::CountedRead;
use sha2::{Digest, Sha256};
use std::alloc::{AllocError, Global};

/// A digest, and bytes that it lacks.
#[derive(Clone, Copy)]
pub(crate) struct Tail<'a> {
    pub hasher: &'a Sha256,
    pub bytes: &'a [u8],
}

fn tail_of<'a, R: CountedRead + Drop>(part: &'a Part<R>) -> Tail<'a>
    ensures hasher { result.hasher.now ≡ part.entry.now.hasher }
    ensures bytes { result.bytes.now ≡ drop part.entry.now.digested part.entry.now.held }
{
    Tail {
        hasher: &part.hasher,
        bytes: part.undigested(),
    }
}

pub(crate) fn tails_of<'a, R: CountedRead + Drop>(
    alloc: Global,
    parts: &'a [Part<R>],
) -> Result<Vec<Tail<'a>>, AllocError>
    ensures tails { IfOk result (λ ts. AreTailsOf parts.entry.now ts.items) }
    ensures next { IfOk result (λ ts. (hs : List Digested) → AreTaken ts.items hs → AreNext parts.entry.now hs) }
{
    let mut tails = Vec::new(alloc);
    for shard in 0..parts.len() {
        let part = &parts[shard];
        tails.push(tail_of(part)).map_err(AllocError::from)?;
    }
    Ok(tails)
}

/// The digests with the bytes that they lacked.
pub(crate) fn all_taken(alloc: Global, tails: &[Tail<'_>]) -> Result<Vec<Sha256>, AllocError>
    ensures { IfOk result (λ hs. AreTaken tails.now hs.items) }
{
    let mut hashers = Vec::new(alloc);
    for shard in 0..tails.len() {
        let tail = &tails[shard];
        let mut hasher = tail.hasher.clone()?;
        hasher.update(tail.bytes);
        hashers.push(hasher).map_err(AllocError::from)?;
    }
    Ok(hashers)
}

/// Divides the parts so that the digests on both sides lack about as many bytes; so many more are
/// lacking behind them.
pub(crate) fn middle_of<R: CountedRead + Drop>(parts: &[Part<R>], late: usize) -> usize
    ensures { result ≤ length parts.now }
{
    let (mut low, mut high) = (0, parts.len());
    let (mut before, mut behind) = (0, late);
    while low < high {
        if before <= behind {
            before = before.saturating_add(parts[low].undigested().len());
            low += 1;
        } else {
            high -= 1;
            behind = behind.saturating_add(parts[high].undigested().len());
        }
    }
    low
}

pub(crate) fn keep_all<R: CountedRead + Drop>(
    parts: &mut [Part<R>],
    hashers: &[Sha256],
) -> Result<(), AllocError>
    requires { AreNext parts.old hashers.now }
    ensures { OnOk result (AllAre (λ _ o n. IsDigested o n) hashers.now parts.old parts.new) }
{
    for shard in 0..parts.len() {
        let part = &mut parts[shard];
        part.keep_digest(hashers[shard].clone()?);
    }
    Ok(())
}
