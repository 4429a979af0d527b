//! The versions of a certificate, which differ in the magic and in how they encode a name.
//!
//!     V1   twelve bytes                       any names
//!     V2   3 to 15 bytes (`short.rt`)         no name less than the one before it in its group
//!
//! The version goes beside the state of a walk, and not into it: no item and no state has a
//! version, so what judges items judges both. A certificate has one encoding in version 1, and at
//! most one in version 2. `Certificate::in_version` finds out whether it has one. The names of a
//! good result rise, so it has both. Counts keep four bytes in both: there is one for each group,
//! not for each pair.
//! Source: docs/FORMATS.md, "The certificate".
ghost use Rattle.std.specs.Prelude.{◌≡◌, ◌≤◌, ◌↔◌, IsTrue, MatchOption, length};
ghost use Rattle.std.specs.List.{AllByRecursion};
ghost use Rattle.mr_certform.specs.Flat.{total, chunks, contents_of, IsWhole};
ghost use Rattle.mr_certform.specs.Places.{first_name};
ghost use Rattle.mr_certform.specs.Spelling.{magic, version_of};
ghost use Rattle.mr_certform.specs.Value.{CanRow, CanSpell};

use crate::certificate::{Certificate, CertificateColumns};
use crate::names::Names;
use crate::short::is_at_least;
use mr_bytes::Name;
use std::marker::Model;

/// How a certificate encodes names; all else is the same in both versions.
#[derive(Clone, Copy, Debug, PartialEq, Eq)]
pub enum Version {
    /// `MRCERT1`: each name in twelve bytes.
    V1,
    /// `MRCERT2`: each name as its difference from the one before it in its group, in three to
    /// fifteen bytes. It can't encode a name that is less than the one before it.
    V2,
}

impl Version {
    pub(crate) fn magic(self) -> [u8; 8]
        ensures { result ≡ magic self }
    {
        match self {
            Version::V1 => *b"MRCERT1\n",
            Version::V2 => *b"MRCERT2\n",
        }
    }

    /// Whether the version can encode the groups that `counts` cuts from the names. Version 2 can't
    /// if a name is less than the one before it in its group.
    pub fn can_spell(self, counts: &[u32], names: Names<'_>) -> bool
        requires { total counts.now ≤ length names }
        ensures { IsTrue result ↔ CanSpell self (chunks counts.now names.entry) }
    {
        match self {
            Version::V1 => true,
            Version::V2 => never_fall(counts, names),
        }
    }
}

/// The version that the magic of the bytes gives; version 1 without a magic.
pub(crate) fn version_of(bytes: &[u8]) -> Version
    ensures { result ≡ version_of bytes.now }
{
    if bytes.len() < 8 {
        return Version::V1;
    }
    let magic = Version::V2.magic();
    if bytes[..8] == magic[..] {
        Version::V2
    } else {
        Version::V1
    }
}

/// A certificate in a version that can encode it.
#[derive(Drop)]
pub struct VersionedCertificate<'a> {
    certificate: &'a Certificate,
    version: Version,
}

impl<'a> Model for VersionedCertificate<'a> {
    ghost use Rattle.std.specs.List.{AllByRecursion};
    ghost use Rattle.mr_certform.specs.Value.{Versioned, CanSpell};

    ghost Value = { Versioned };

    ghost view = { λ s. record { version = s.version; certificate = s.certificate.now } };

    ghost invariant = { λ s. AllByRecursion (CanSpell s.version) s.certificate.now.groups };
}

impl<'a> VersionedCertificate<'a> {
    pub fn version(&self) -> Version
        ensures { result ≡ self.now.version }
    {
        self.version
    }

    pub(crate) fn flat(&self) -> &'a CertificateColumns
        ensures whole { IsWhole result.now }
        ensures is { contents_of result.now ≡ self.now.certificate }
        ensures can { CanSpell self.now.version (chunks result.now.entry_counts result.now.names) }
    {
        let certificate = self.certificate;
        &certificate.flat
    }
}

impl Certificate {
    /// The certificate in this version; `None` if that can't encode it (`Version::can_spell`).
    pub fn in_version(&self, version: Version) -> Option<VersionedCertificate<'_>>
        ensures { MatchOption result (AllByRecursion (CanSpell version) self.now.groups → ⊥)
            (λ s. s ≡ record { version = version; certificate = self.now }) }
    {
        let groups = &self.flat.groups;
        if !version.can_spell(&groups.entry_counts, groups.names.names()) {
            return None;
        }
        Some(VersionedCertificate {
            certificate: self,
            version,
        })
    }
}

fn never_fall(counts: &[u32], names: Names<'_>) -> bool
    requires { total counts.now ≤ length names }
    ensures { IsTrue result ↔ CanSpell Version.V2 (chunks counts.now names.entry) }
{
    let mut rest = names;
    for count in counts {
        let (here, more) = rest.split_at(*count as usize);
        if !never_falls(here) {
            return false;
        }
        rest = more;
    }
    true
}

fn never_falls(mut names: Names<'_>) -> bool
    ensures { IsTrue result ↔ CanRow Version.V2 first_name names.entry }
{
    let mut before = Name {
        split: 0,
        rec: 0,
        place: 0,
    };
    while let Some(name) = names.next() {
        if !is_at_least(before, name) {
            return false;
        }
        before = name;
    }
    true
}
