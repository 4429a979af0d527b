//! The items of a certificate, one per row of its table, and the grammar of their order as a
//! machine: in a state one kind of item may come next, and that item decides the state after it.
//!
//!     AtMagic  AtJob  AtFlags  AtLiteralLength(n)  n AtLiteralByte  AtParts(p)  AtSplitSize
//!     AtFiles(n)  n AtFileLength  AtSkips(n)  n AtSkip
//!     p times  AtGroups(g)     g times  AtEntries(e)     e times  AtEntry
//!     AtEnd
//!
//! A count that is read becomes the state's number of items to come: 0 goes on to what follows. So
//! a nested loop is three numbers in a state, and needs no stack. A state also has the name before
//! in the group, from which version 2 decodes the next one.
//! Cost: a step per item; a state is a few numbers.
ghost use Rattle.std.specs.Prelude.{◌≡◌};
ghost use Rattle.mr_certform.specs.Places.{behind as place_behind, literal_bytes, file_lengths};
ghost use Rattle.mr_certform.specs.Places.{partitions, skips, groups as groups_from, entries};

use mr_bytes::{Name, RecordName};
use thiserror::Error;

/// The item expected next, and how many of its kind follow it. In a partition, also how many
/// partitions and groups follow, and the name before in the group. A state is a few numbers.
#[derive(Clone, Copy, Debug)]
pub enum GrammarState {
    AtMagic,
    AtJob,
    AtFlags,
    AtLiteralLength,
    AtLiteralByte {
        more: u32,
    },
    AtParts,
    AtSplitSize {
        parts: u32,
    },
    AtFiles {
        parts: u32,
    },
    AtFileLength {
        parts: u32,
        more: u32,
    },
    AtSkips {
        parts: u32,
    },
    AtSkip {
        parts: u32,
        more: u32,
    },
    AtGroups {
        parts: u32,
    },
    AtEntries {
        parts: u32,
        groups: u32,
    },
    AtEntry {
        parts: u32,
        groups: u32,
        more: u32,
        before: Name,
    },
    AtEnd,
    Behind,
}

fn literals_to_come(n: u32) -> GrammarState
    ensures { result ≡ literal_bytes n }
{
    if n == 0 {
        GrammarState::AtParts
    } else {
        GrammarState::AtLiteralByte { more: n - 1 }
    }
}

fn lengths_to_come(parts: u32, n: u32) -> GrammarState
    ensures { result ≡ file_lengths parts n }
{
    if n == 0 {
        GrammarState::AtSkips { parts }
    } else {
        GrammarState::AtFileLength { parts, more: n - 1 }
    }
}

fn parts_to_come(n: u32) -> GrammarState
    ensures { result ≡ partitions n }
{
    if n == 0 {
        GrammarState::AtEnd
    } else {
        GrammarState::AtGroups { parts: n - 1 }
    }
}

fn skips_to_come(parts: u32, n: u32) -> GrammarState
    ensures { result ≡ skips parts n }
{
    if n == 0 {
        parts_to_come(parts)
    } else {
        GrammarState::AtSkip { parts, more: n - 1 }
    }
}

#[inline]
pub(crate) fn groups_to_come(parts: u32, n: u32) -> GrammarState
    ensures { result ≡ groups_from parts n }
{
    if n == 0 {
        parts_to_come(parts)
    } else {
        GrammarState::AtEntries {
            parts,
            groups: n - 1,
        }
    }
}

#[inline]
pub(crate) fn entries_to_come(parts: u32, groups: u32, n: u32, before: Name) -> GrammarState
    ensures { result ≡ entries parts groups n before }
{
    if n == 0 {
        groups_to_come(parts, groups)
    } else {
        GrammarState::AtEntry {
            parts,
            groups,
            more: n - 1,
            before,
        }
    }
}

impl GrammarState {
    /// The state after this item.
    pub fn behind(self, item: Item) -> GrammarState
        ensures { result ≡ place_behind self item }
    {
        match (self, item) {
            (GrammarState::AtMagic, _) => GrammarState::AtJob,
            (GrammarState::AtJob, _) => GrammarState::AtFlags,
            (GrammarState::AtFlags, _) => GrammarState::AtLiteralLength,
            (GrammarState::AtLiteralLength, Item::LiteralLength(n)) => literals_to_come(n),
            (GrammarState::AtLiteralByte { more }, _) => literals_to_come(more),
            (GrammarState::AtParts, Item::Parts(parts)) => GrammarState::AtSplitSize { parts },
            (GrammarState::AtSplitSize { parts }, _) => GrammarState::AtFiles { parts },
            (GrammarState::AtFiles { parts }, Item::Files(n)) => lengths_to_come(parts, n),
            (GrammarState::AtFileLength { parts, more }, _) => lengths_to_come(parts, more),
            (GrammarState::AtSkips { parts }, Item::Skips(n)) => skips_to_come(parts, n),
            (GrammarState::AtSkip { parts, more }, _) => skips_to_come(parts, more),
            (GrammarState::AtGroups { parts }, Item::Groups(n)) => groups_to_come(parts, n),
            (GrammarState::AtEntries { parts, groups }, Item::Entries(n)) => {
                entries_to_come(
                    parts,
                    groups,
                    n,
                    Name {
                        split: 0,
                        rec: 0,
                        place: 0,
                    },
                )
            }
            (
                GrammarState::AtEntry {
                    parts,
                    groups,
                    more,
                    ..
                },
                Item::Entry(name),
            ) => { entries_to_come(parts, groups, more, name) }
            _ => GrammarState::Behind,
        }
    }
}

/// An item of a certificate: a row of its table, with the numbers in it.
#[derive(Clone, Copy, Debug, PartialEq, Eq)]
pub enum Item {
    /// `MRCERT1` or `MRCERT2`, and a line feed.
    Magic,
    /// 1 words, 2 grep, 3 URL, 4 index.
    Job(u32),
    /// Bit 0: keep the case of words. Bit 1: fold the case of lines. Bit 2: partition by host.
    Flags(u32),
    /// How many literal bytes follow, at most 4,096.
    LiteralLength(u32),
    LiteralByte(u8),
    /// The number of partitions, 1 to 1,024.
    Parts(u32),
    /// The bytes of a split.
    SplitSize(u32),
    /// How many file lengths follow, at most 1,024.
    Files(u32),
    /// The bytes of one file.
    FileLength(u64),
    /// How many left-out records follow.
    Skips(u32),
    Skip(RecordName),
    /// How many groups a partition has.
    Groups(u32),
    /// How many entries a group has, at least 1.
    Entries(u32),
    Entry(Name),
    /// No byte is left.
    End,
}

/// No item of the grammar is at this place, in bytes from the front.
#[derive(Clone, Copy, Debug, PartialEq, Eq, Drop, Error)]
#[error("Malformed at {at}")]
pub struct Malformed {
    pub at: u64,
}
