//! Encodes a certificate piece by piece: its front, then each partition, onto one list of bytes.
//!
//!     write_header                 [ magic ... left-out records ]
//!     write_partition, each time   [ groups [ entries name* ]* ]
//!
//! A run's certificate is encoded so, from where its reduce tasks left their names: each name is
//! copied once, and there is no list of all names.
//! Invariant: the bytes so far encode the header and the partitions so far (`SpellsSoFar`). After
//! the last partition they are the whole certificate (`pieces_law`).
//! Cost: linear in the bytes, which are all the memory. How much room is reserved is a hint.
ghost use Rattle.std.specs.Prelude.{◌≡◌, ◌≤◌, ◌<◌, ◌^◌, ◌++◌, ◌∷◌, [], OnOk, IfOk, length};
ghost use Rattle.std.specs.List.{AllByRecursion};
ghost use Rattle.mr_certform.specs.Flat.{total, chunks};
ghost use Rattle.mr_certform.specs.Pieces.{SpellsSoFar};
ghost use Rattle.mr_certform.specs.Value.{Contents, CanSpell};

use crate::certificate::{CertificateColumns, Header};
use crate::names::Names;
use crate::version::Version;
use crate::writing::{
    counts_fit, numbers_fit, put_groups, put_input, put_job, put_left_out, put_number, size_of,
};
use std::alloc::{AllocError, Global};

/// Encodes what precedes the `parts` partitions of a certificate, with room for `room` more bytes.
pub fn write_header(
    alloc: Global,
    version: Version,
    header: Header,
    parts: u32,
    room: usize,
) -> Result<Vec<u8>, AllocError>
    requires literal { length header.literal.items ≤ 4096 }
    requires files { length header.lengths.items ≤ 1024 }
    requires skips { length header.skips.items < 2 ^ 32 }
    requires parts { (1 ≤ parts) × (parts ≤ 1024) }
    ensures { IfOk result (λ v. SpellsSoFar version v.items (record {
      job = header.job;
      flags = header.flags;
      literal = header.literal.items;
      parts = parts;
      split_size = header.split_size;
      lengths = header.lengths.items;
      skips = header.skips.items;
      groups = [];
    })) }
{
    let flat = CertificateColumns::begin(alloc, header, parts);
    numbers_fit(&flat);
    let mut out = Vec::with_capacity(alloc, size_of(&flat).saturating_add(room))?;
    put_job(&mut out, version, &flat)?;
    put_input(&mut out, &flat.header.lengths)?;
    put_left_out(&mut out, &flat.header.skips)?;
    Ok(out)
}

/// About how many bytes a partition with these numbers of groups and names takes, saturating. Exact
/// in version 1; in version 2 most names take some 4 bytes.
pub fn partition_size_hint(version: Version, groups: usize, names: usize) -> usize {
    let bytes_of_name = match version {
        Version::V1 => 12,
        Version::V2 => 4,
    };
    (names.saturating_mul(bytes_of_name))
        .saturating_add(groups.saturating_mul(4))
        .saturating_add(4)
}

/// Appends the next partition: `counts` says how many entries each group has, `names` has the names
/// of all. The version must be able to encode them (`Version::can_spell`).
pub fn write_partition(
    out: &mut Vec<u8>,
    version: Version,
    counts: &[u32],
    names: Names<'_>,
) -> Result<(), AllocError>
    requires some { AllByRecursion (λ n. 1 ≤ n) counts.now }
    requires few { length counts.now < 2 ^ 32 }
    requires entries { total counts.now ≡ length names }
    requires can { CanSpell version (chunks counts.now names) }
    ensures { OnOk result ((c : Contents) → SpellsSoFar version out.old.items c
        → SpellsSoFar version out.new.items
        (record c { groups = c.groups ++ chunks counts.now names.entry ∷ [] })) }
{
    counts_fit(counts);
    put_number(out, counts.len() as u32)?;
    put_groups(out, version, counts, names)?;
    Ok(())
}
