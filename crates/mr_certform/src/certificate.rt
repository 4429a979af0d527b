//! A certificate as flat lists. Reading it takes no memory.
//!
//!     group_counts  [ 2       1 ]        partition 0 has two groups, partition 1 has one
//!     entry_counts  [ 3     1 2 ]        entries per group, over all partitions
//!     names         [ n n n n n n ]      names of the entries, over all groups
ghost use Rattle.std.specs.Prelude.{◌≡◌, ◌≤◌, ◌<◌, ◌^◌, ◌+◌, ◌++◌, ◌∷◌, [], OnOk};
ghost use Rattle.std.specs.Prelude.{MatchOption, length};
ghost use Rattle.mr_certform.specs.Flat.{told, told_first, nothing_told, total, chunks, AreCounted};
ghost use Rattle.mr_certform.specs.Value.{names_of};

use crate::grammar_state::Item;
use crate::names::{NameColumn, Names};
use mr_bytes::RecordName;
use std::alloc::{AllocError, Global};
use std::marker::Model;

/// What precedes the groups of a certificate: the job's number and flags, its literal, the bytes of
/// a split, the length of each file, the left-out records.
#[derive(Drop)]
pub struct Header {
    pub job: u32,
    pub flags: u32,
    pub literal: Vec<u8>,
    pub split_size: u32,
    pub lengths: Vec<u64>,
    pub skips: Vec<RecordName>,
}

/// The groups of all partitions, as flat lists.
#[derive(Drop)]
pub struct FlatGroups {
    pub group_counts: Vec<u32>,
    pub entry_counts: Vec<u32>,
    pub names: NameColumn,
}

/// The values of a certificate's items, in order.
#[derive(Drop)]
pub(crate) struct CertificateColumns {
    pub header: Header,
    pub parts: u32,
    pub groups: FlatGroups,
}

impl Model for CertificateColumns {
    ghost use Rattle.mr_certform.specs.Flat.{Told};

    ghost Value = { Told };

    ghost view = { λ a. record {
      job = a.header.job;
      flags = a.header.flags;
      literal = a.header.literal.items;
      parts = a.parts;
      split_size = a.header.split_size;
      lengths = a.header.lengths.items;
      skips = a.header.skips.items;
      group_counts = a.groups.group_counts.items;
      entry_counts = a.groups.entry_counts.items;
      names = a.groups.names;
    } };
}

impl CertificateColumns {
    pub fn begin(alloc: Global, header: Header, parts: u32) -> CertificateColumns
        ensures { result ≡ told_first header parts }
    {
        let groups = FlatGroups {
            group_counts: Vec::new(alloc),
            entry_counts: Vec::new(alloc),
            names: NameColumn::plain(alloc, Vec::new(alloc)),
        };
        CertificateColumns {
            header,
            parts,
            groups,
        }
    }

    pub fn new(alloc: Global) -> CertificateColumns
        ensures { result ≡ nothing_told }
    {
        let header = Header {
            job: 0,
            flags: 0,
            literal: Vec::new(alloc),
            split_size: 0,
            lengths: Vec::new(alloc),
            skips: Vec::new(alloc),
        };
        CertificateColumns::begin(alloc, header, 0)
    }

    /// Adds the value of an item.
    pub fn take(&mut self, item: Item) -> Result<(), AllocError>
        ensures { OnOk result (self.new ≡ told self.old item) }
    {
        match item {
            Item::Job(n) => self.header.job = n,
            Item::Flags(n) => self.header.flags = n,
            Item::LiteralByte(byte) => self.header.literal.push(byte)?,
            Item::Parts(n) => self.parts = n,
            Item::SplitSize(n) => self.header.split_size = n,
            Item::FileLength(n) => self.header.lengths.push(n)?,
            Item::Skip(skip) => self.header.skips.push(skip)?,
            Item::Groups(n) => self.groups.group_counts.push(n)?,
            Item::Entries(n) => self.groups.entry_counts.push(n)?,
            Item::Entry(name) => self.groups.names.push(name)?,
            Item::Magic | Item::LiteralLength(_) | Item::Files(_) | Item::Skips(_) | Item::End => {}
        }
        Ok(())
    }
}

/// A certificate: its header, and for each partition its groups, each as the names of its entries.
#[derive(Drop)]
pub struct Certificate {
    pub(crate) flat: CertificateColumns,
}

impl Model for Certificate {
    ghost use Rattle.mr_certform.specs.Value.{Contents};
    ghost use Rattle.mr_certform.specs.Flat.{contents_of, IsWhole};

    ghost Value = { Contents };

    ghost view = { λ a. contents_of a.flat };

    ghost invariant = { λ a. IsWhole a.flat };
}

impl Certificate {
    /// The certificate of these groups. Takes no memory.
    pub fn of(header: Header, groups: FlatGroups) -> Certificate
        requires literal { length header.literal.items ≤ 4096 }
        requires files { length header.lengths.items ≤ 1024 }
        requires skips { length header.skips.items < 2 ^ 32 }
        requires parts { (1 ≤ length groups.group_counts.items) × (length groups.group_counts.items ≤ 1024) }
        requires counted { AreCounted groups.group_counts.items groups.entry_counts.items groups.names }
        ensures { result ≡ record {
          job = header.job;
          flags = header.flags;
          literal = header.literal.items;
          parts = length groups.group_counts.items;
          split_size = header.split_size;
          lengths = header.lengths.items;
          skips = header.skips.items;
          groups = chunks groups.group_counts.items (chunks groups.entry_counts.items groups.names);
        } }
    {
        let parts = groups.group_counts.len() as u32;
        let flat = CertificateColumns {
            header,
            parts,
            groups,
        };
        Certificate { flat }
    }

    /// The job's number.
    pub fn job(&self) -> u32
        ensures { result ≡ self.now.job }
    {
        self.flat.header.job
    }

    /// The job's flags.
    pub fn flags(&self) -> u32
        ensures { result ≡ self.now.flags }
    {
        self.flat.header.flags
    }

    /// The bytes of the job's literal.
    pub fn literal(&self) -> &[u8]
        ensures bytes { result.now ≡ self.now.literal }
        ensures short { length result.now ≤ 4096 }
    {
        &self.flat.header.literal
    }

    /// The number of partitions.
    pub fn parts(&self) -> u32
        ensures parts { result ≡ self.now.parts }
        ensures each { result ≡ length self.now.groups }
        ensures some { 1 ≤ result }
        ensures few { result ≤ 1024 }
    {
        self.flat.parts
    }

    /// The bytes of a split.
    pub fn split_size(&self) -> u32
        ensures { result ≡ self.now.split_size }
    {
        self.flat.header.split_size
    }

    /// The bytes of each file.
    pub fn lengths(&self) -> &[u64]
        ensures files { result.now ≡ self.now.lengths }
        ensures few { length result.now ≤ 1024 }
    {
        &self.flat.header.lengths
    }

    /// The left-out records.
    pub fn skips(&self) -> &[RecordName]
        ensures records { result.now ≡ self.now.skips }
        ensures few { length result.now < 2 ^ 32 }
    {
        &self.flat.header.skips
    }

    /// The number of all entries.
    pub fn total(&self) -> u64
        ensures { result ≡ length (names_of self.now) }
    {
        self.names().len() as u64
    }

    /// The names of all entries, in order.
    pub fn names(&self) -> Names<'_>
        ensures { result ≡ names_of self.now }
    {
        self.flat.groups.names.names()
    }

    /// The groups of each partition, to be read in order.
    pub fn partitions(&self) -> PartitionIter<'_>
        ensures { result ≡ self.now.groups }
    {
        PartitionIter {
            group_counts: &self.flat.groups.group_counts,
            entry_counts: &self.flat.groups.entry_counts,
            names: self.flat.groups.names.names(),
        }
    }
}

/// The groups of each partition that is still unread, in order.
#[derive(Drop)]
pub struct PartitionIter<'a> {
    group_counts: &'a [u32],
    entry_counts: &'a [u32],
    names: Names<'a>,
}

impl<'a> Model for PartitionIter<'a> {
    ghost use Rattle.std.specs.Prelude.{List, ◌≡◌, ◌≤◌, length};
    ghost use Rattle.mr_bytes.specs.declared.Name.{Name};
    ghost use Rattle.mr_certform.specs.Flat.{chunks, total};

    ghost Value = { List (List (List Name)) };

    ghost view = { λ a. chunks a.group_counts.now (chunks a.entry_counts.now a.names) };

    ghost invariant = { λ a. record {
      groups : total a.group_counts.now ≤ length a.entry_counts.now;
      entries : total a.entry_counts.now ≤ length a.names;
    } };
}

/// The unread groups of one partition, in order.
#[derive(Drop)]
pub struct GroupIter<'a> {
    entry_counts: &'a [u32],
    names: Names<'a>,
}

impl<'a> Model for GroupIter<'a> {
    ghost use Rattle.std.specs.Prelude.{List, ◌≡◌, ◌≤◌, length};
    ghost use Rattle.mr_bytes.specs.declared.Name.{Name};
    ghost use Rattle.mr_certform.specs.Flat.{chunks, total};

    ghost Value = { List (List Name) };

    ghost view = { λ a. chunks a.entry_counts.now a.names };

    ghost invariant = { λ a. total a.entry_counts.now ≤ length a.names };
}

impl<'a> GroupIter<'a> {
    /// The names of the next group.
    pub fn next_group(&mut self) -> Option<Names<'a>>
        ensures { MatchOption result ((self.old ≡ []) × (self.new ≡ [])) (λ g. self.old ≡ g ∷ self.new) }
    {
        let (count, counts) = self.entry_counts.split_first()?;
        let (group, names) = self.names.split_at(*count as usize);
        self.entry_counts = counts;
        self.names = names;
        Some(group)
    }
}

fn sum_of(counts: &[u32], most: usize) -> usize
    requires { total counts.now ≤ most }
    ensures { result ≡ total counts.now }
{
    let mut sum = 0;
    for count in counts {
        sum += *count as usize;
    }
    sum
}

impl<'a> PartitionIter<'a> {
    /// The groups of the next partition.
    pub fn next_partition(&mut self) -> Option<GroupIter<'a>>
        ensures { MatchOption result ((self.old ≡ []) × (self.new ≡ [])) (λ gs. self.old ≡ gs ∷ self.new) }
    {
        let (count, counts) = self.group_counts.split_first()?;
        let (entry_counts, more_counts) = self.entry_counts.split_at(*count as usize);
        let entries = sum_of(entry_counts, self.names.len());
        let (names, more_names) = self.names.split_at(entries);
        self.group_counts = counts;
        self.entry_counts = more_counts;
        self.names = more_names;
        Some(GroupIter {
            entry_counts,
            names,
        })
    }
}
