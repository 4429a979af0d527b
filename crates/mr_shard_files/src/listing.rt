//! Reads the shards' verdicts, and compares their inputs with a list.
//!
//!     DIGEST  NAME            a whole file, as `sha256sum` writes it
//!     DIGEST FROM:TO NAME     another range of a file
//!
ghost use Rattle.std.specs.Prelude.{◌≡◌, ◌==◌, [], ◌∷◌, ◌++◌, ◌⊎◌, IfErr, IfOk, MatchOption, OnOk};
ghost use Rattle.std.specs.Prelude.{count_by, option_map, map};
ghost use Rattle.hex.specs.Hex.{encode_lower};
ghost use Rattle.mr_shard_files.specs.Faults.{IsListFault, IsListUnread, IsOtherList, IsUnheard};
ghost use Rattle.mr_shard_files.specs.Faults.{IsUngathered};
ghost use Rattle.mr_shard_files.specs.Listing.{DifferIn, IsListed, escaped as escaped_name};
ghost use Rattle.mr_shard_files.specs.Listing.{escaped_byte, listed_line, listing, mark_of};
ghost use Rattle.mr_shard_files.specs.Listing.{stretch_told};
ghost use Rattle.mr_shard_files.specs.Merging.{AreHeard, IsHeard};
ghost use Rattle.mr_shards.specs.Joined.{IsNearRange};
ghost use Rattle.std.specs.List.{AllByRecursion};

use crate::fault::ShardFault;
use hex::encode_to_slice;
use itoa::Buffer;
use mr_files::{LimitFault, Store, read_file_within};
use mr_lanes::first_difference;
use mr_shards::{FileRange, Verdict, VerdictFault, read_verdict};
use std::alloc::{AllocError, Global};

fn put_byte(byte: u8, out: &mut Vec<u8>) -> Result<(), AllocError>
    ensures { OnOk result (out.new.items ≡ out.old.items ++ escaped_byte byte) }
{
    match byte {
        b'\\' => out.extend_from_slice(b"\\\\"),
        b'\n' => out.extend_from_slice(b"\\n"),
        b'\r' => out.extend_from_slice(b"\\r"),
        _ => out.extend_from_slice(&[byte]),
    }
}

/// The name with `\`, line feed and carriage return as `\\`, `\n` and `\r`.
fn escaped(alloc: Global, name: &[u8]) -> Result<Vec<u8>, AllocError>
    ensures { IfOk result (λ text. text.items ≡ escaped_name name.now) }
{
    let mut text = Vec::new(alloc);
    for byte in name {
        put_byte(*byte, &mut text)?;
    }
    Ok(text)
}

/// Appends hexadecimal digits and a space.
fn put_digest(digest: &[u8; 32], out: &mut Vec<u8>) -> Result<(), AllocError>
    ensures { OnOk result (out.new.items ≡ out.old.items ++ encode_lower digest.now ++ 32 ∷ []) }
{
    let mut text = [0u8; 64];
    let _ = encode_to_slice(digest.as_slice(), &mut text);
    out.extend_from_slice(&text)?;
    out.push(b' ')?;
    Ok(())
}

/// Appends a space if the range is a whole file; else `FROM:TO` and a space.
fn put_stretch(range: &FileRange, out: &mut Vec<u8>) -> Result<(), AllocError>
    requires { IsNearRange range.now }
    ensures { OnOk result (out.new.items ≡ out.old.items ++ stretch_told range.now) }
{
    if range.from == 0 && range.ends {
        return out.push(b' ').map_err(AllocError::from);
    }
    let (mut from, mut to) = (Buffer::new(), Buffer::new());
    out.extend_from_slice(from.format(range.from).as_bytes())?;
    out.push(b':')?;
    out.extend_from_slice(to.format(range.from + range.length).as_bytes())?;
    out.push(b' ')?;
    Ok(())
}

/// Appends `\` if the name has an escape.
fn put_mark(name: &[u8], written: &[u8], out: &mut Vec<u8>) -> Result<(), AllocError>
    requires { written.now ≡ escaped_name name.now }
    ensures { OnOk result (out.new.items ≡ out.old.items ++ mark_of name.now) }
{
    if written == name {
        Ok(())
    } else {
        out.extend_from_slice(b"\\")
    }
}

fn put_line(alloc: Global, range: &FileRange, out: &mut Vec<u8>) -> Result<(), AllocError>
    requires { IsNearRange range.now }
    ensures { OnOk result (out.new.items ≡ out.old.items ++ listed_line range.now) }
{
    let name = escaped(alloc, range.name.as_slice())?;
    put_mark(range.name.as_slice(), name.as_slice(), out)?;
    put_digest(&range.digest, out)?;
    put_stretch(range, out)?;
    out.extend_from_slice(name.as_slice())?;
    out.push(b'\n')?;
    Ok(())
}

fn list_of(alloc: Global, inputs: &[FileRange]) -> Result<Vec<u8>, AllocError>
    requires { AllByRecursion IsNearRange inputs.now }
    ensures { IfOk result (λ text. text.items ≡ listing inputs.now) }
{
    let mut text = Vec::new(alloc);
    for range in inputs {
        put_line(alloc, range, &mut text)?;
    }
    Ok(text)
}

fn line_feeds(bytes: &[u8]) -> u64
    ensures { result ≡ count_by (λ b. b == 10) bytes.now }
{
    bytes.iter().filter(|byte| **byte == b'\n').count() as u64
}

/// Compares the list, if there is one, with the one of these inputs.
pub(crate) fn expect_listed<S: Store>(
    store: &S,
    alloc: Global,
    list: Option<&str>,
    inputs: &[FileRange],
) -> Result<(), ShardFault>
    requires { AllByRecursion IsNearRange inputs.now }
    ensures ok { OnOk result (IsListed (S.holds store.now) (option_map (λ n. n.now) list.entry) inputs.now) }
    ensures err { IfErr result (IsListFault (S.holds store.now) (S.unreadable store.now)
        (option_map (λ n. n.now) list.entry) inputs.now) }
{
    let Some(name) = list else {
        return Ok(());
    };
    let given = match read_file_within(store, alloc, name, MAX_BYTES) {
        Ok(text) => text,
        Err(LimitFault::TooLong) => return Err(ShardFault::LongList),
        Err(LimitFault::File(fault)) => return Err(ShardFault::from(fault)),
    };
    let told = list_of(alloc, inputs)?;
    let Some(at) = first_difference(given.as_slice(), told.as_slice()) else {
        return Ok(());
    };
    // The first line, from 0, in which the lists differ.
    let line = line_feeds(&given[..at]);
    Err(ShardFault::OtherInputs { line })
}

/// The most bytes of a verdict, of a list of inputs, or of a range of the input: 1 GiB.
pub(crate) const MAX_BYTES: u64 = 1_073_741_824;

// The clauses have this number.
const _: () = prove!(MAX_BYTES == 1_073_741_824);

/// The verdict of that name, of the shard of that number.
pub(crate) fn verdict_under<S: Store>(
    store: &S,
    alloc: Global,
    name: &str,
    shard: usize,
) -> Result<Verdict, ShardFault>
    ensures ok { IfOk result (λ v. IsHeard (S.holds store.now) name.now v) }
    ensures err { IfErr result (IsUnheard (S.holds store.now) (S.unreadable store.now) shard name.now) }
{
    let text = match read_file_within(store, alloc, name, MAX_BYTES) {
        Ok(text) => text,
        Err(LimitFault::TooLong) => return Err(ShardFault::LongVerdict { shard }),
        Err(LimitFault::File(fault)) => return Err(ShardFault::from(fault)),
    };
    match read_verdict(alloc, text.as_slice()) {
        Ok(verdict) => Ok(verdict),
        Err(VerdictFault::BadLine { line }) => Err(ShardFault::BadVerdict { shard, line }),
        Err(VerdictFault::OldVerdict) => Err(ShardFault::OldVerdict { shard }),
        Err(VerdictFault::OutOfMemory) => Err(ShardFault::OutOfMemory),
    }
}

/// The verdicts of these names, in order.
pub(crate) fn read_verdicts<S: Store>(
    store: &S,
    alloc: Global,
    names: &[&str],
) -> Result<Vec<Verdict>, ShardFault>
    ensures ok { IfOk result (λ vs. AreHeard (S.holds store.now) (map (λ s. s.now) names.now) vs.items) }
    ensures err { IfErr result
        (IsUngathered (S.holds store.now) (S.unreadable store.now) (map (λ s. s.now) names.now)) }
{
    let mut verdicts = Vec::new(alloc);
    for (shard, name) in names.iter().enumerate() {
        let verdict = verdict_under(store, alloc, name, shard)?;
        verdicts.push(verdict).map_err(AllocError::from)?;
    }
    Ok(verdicts)
}
