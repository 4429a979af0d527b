//! The partition of a key by itself, or by the host of the resource that it names.
//!
//!     http:// Www.Example.org :80/a?b    ->    www.example.org
//! The hash folds byte by byte, so no host is copied and no memory is taken.
ghost use Rattle.std.specs.Prelude.{◌≡◌, ℕ, ◌<◌, ◌++◌, ◌∷◌, [], None, Some, MatchOption, codes};
ghost use Rattle.std.specs.Prelude.{length};
ghost use Rattle.mr_bytes.specs.Bytes.{folded};
ghost use Rattle.mr_bytes.specs.declared.By.{By};
ghost use Rattle.mr_partition.specs.Hosts.{before_end, behind, ends_host, host, host_bytes};
ghost use Rattle.mr_partition.specs.Hosts.{partition_by};
ghost use Rattle.mr_partition.specs.HostLaws.{HostByParts, HostPartitionsAreBelow, OneHost};
ghost use Rattle.mr_partition.specs.Partition.{fnv};

use crate::partition;
use mr_bytes::{By, fold_byte};

/// What follows `front`, given in lower case, if the bytes begin with it in any case.
fn behind<'a>(front: &[u8], bytes: &'a [u8]) -> Option<&'a [u8]>
    ensures { MatchOption result (behind front.now bytes.entry.now ≡ None)
        (λ r. behind front.now bytes.entry.now ≡ Some r.now) }
{
    let mut left = front;
    let mut rest = bytes;
    while let Some((c, later)) = left.split_first() {
        let Some((b, more)) = rest.split_first() else {
            return None;
        };
        if fold_byte(*b) != *c {
            return None;
        }
        left = later;
        rest = more;
    }
    Some(rest)
}

fn ends_host(byte: u8) -> bool
    ensures { result ≡ ends_host byte }
{
    byte == b'/' || byte == b':' || byte == b'?' || byte == b'#'
}

/// What follows `http://` or `https://`: the host and all after it. Nothing without such a scheme.
fn host_bytes(key: &[u8]) -> &[u8]
    ensures { before_end result.now ≡ host_bytes key.entry.now }
{
    if let Some(rest) = behind(b"http://", key) {
        return rest;
    }
    match behind(b"https://", key) {
        Some(rest) => rest,
        None => &[],
    }
}

fn next_host_byte(bytes: &[u8]) -> Option<(u8, &[u8])>
    ensures next { MatchOption result (before_end bytes.entry.now ≡ [])
        (λ r. before_end bytes.entry.now ≡ r.0 ∷ before_end r.1.now) }
    ensures shorter { MatchOption result Unit (λ r. length r.1.now < length bytes.entry.now) }
{
    let (byte, more) = bytes.split_first()?;
    if ends_host(*byte) {
        return None;
    }
    Some((*byte, more))
}

fn host_hash(bytes: &[u8]) -> u64
    ensures { result ≡ fnv (folded (before_end bytes.now)) }
{
    let mut hash = 0xcbf29ce484222325u64;
    let mut rest = bytes;
    while let Some((byte, more)) = next_host_byte(rest) {
        hash = (hash ^ u64::from(fold_byte(byte))).wrapping_mul(0x100000001b3);
        rest = more;
    }
    hash
}

/// The partition of a key among `parts`, from 0: by the whole key, or by its host. Takes no memory.
pub fn partition_by(by: By, key: &[u8], parts: u32) -> u32
    requires { 0 < parts }
    ensures of { result ≡ partition_by by key.now parts }
    ensures within { result < parts }
{
    match by {
        By::Key => partition(key, parts),
        By::Host => (host_hash(host_bytes(key)) % u64::from(parts)) as u32,
    }
}

/// Hosts of example keys, and their partitions.
pub fn worked_hosts()
    ensures plain { host (codes "http://a/x") ≡ codes "a" }
    ensures case { host (codes "HTTPS://Www.Example.ORG:80/y") ≡ codes "www.example.org" }
    ensures query { host (codes "http://h?q") ≡ codes "h" }
    ensures part { host (codes "http://h#p") ≡ codes "h" }
    ensures end { host (codes "http://h") ≡ codes "h" }
    ensures empty { host (codes "http:///x") ≡ [] }
    ensures none { host (codes "/z") ≡ [] }
    ensures short { host (codes "http:/") ≡ [] }
    ensures other { host (codes "ftp://h/x") ≡ [] }
    ensures bare { host (codes "http://") ≡ [] }
    ensures user { host (codes "HTTP://U@H/") ≡ codes "u@h" }
    ensures bracket { host (codes "http://[::1]/") ≡ codes "[" }
    ensures spaced { host (codes " http://h/") ≡ [] }
    ensures high { host (codes "http://" ++ 0xC4 ∷ 0x41 ∷ []) ≡ 0xC4 ∷ 0x61 ∷ [] }
    ensures first { partition_by By.Host (codes "http://A/y") 2 ≡ 0 }
    ensures second { partition_by By.Host (codes "/z") 2 ≡ 1 }
{}

/// What the host of a key is: the folded bytes after its scheme up to the one that ends a host,
/// and none without a scheme. The partition by host, too, is below `parts`.
pub fn host_law()
    ensures parts { HostByParts }
    ensures one { OneHost }
    ensures below { HostPartitionsAreBelow }
{}
