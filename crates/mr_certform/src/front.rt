//! Decodes the item at the front of bytes, in a state of the grammar. Reads a few bytes; no memory.
ghost use Rattle.std.specs.Prelude.{◌≡◌, ◌≤◌, ◌-◌, ◌<◌, Some, None, MatchOption, IfSome, length};
ghost use Rattle.std.specs.Prelude.{take, drop};
ghost use Rattle.std.specs.Int.{w32, w64, from_be_bytes};
ghost use Rattle.mr_certform.specs.Numbers.{numbered};
ghost use Rattle.mr_certform.specs.Places.{onward};
ghost use Rattle.mr_certform.specs.Spelling.{standing, entry_at, name_at};

use crate::grammar_state::{GrammarState, Item, entries_to_come};
use crate::short::short_name_of;
use crate::version::Version;
use byteorder::{BigEndian, ByteOrder};
use mr_bytes::{Name, RecordName};

fn number_of_four(bytes: &[u8]) -> u32
    requires { 4 ≤ length bytes.now }
    ensures { result ≡ from_be_bytes w32 (take 4 bytes.now) }
{
    BigEndian::read_u32(bytes)
}

fn four(bytes: &[u8]) -> Option<(u32, &[u8])>
    ensures { MatchOption result (length bytes.now < 4)
        (λ r. (4 ≤ length bytes.now) × (r.0 ≡ from_be_bytes w32 (take 4 bytes.now))
        × (r.1.now ≡ drop 4 bytes.now)) }
{
    if bytes.len() < 4 {
        None
    } else {
        Some((number_of_four(bytes), &bytes[4..]))
    }
}

fn eight(bytes: &[u8]) -> Option<(u64, &[u8])>
    ensures { MatchOption result (length bytes.now < 8)
        (λ r. (8 ≤ length bytes.now) × (r.0 ≡ from_be_bytes w64 (take 8 bytes.now))
        × (r.1.now ≡ drop 8 bytes.now)) }
{
    if bytes.len() < 8 {
        None
    } else {
        Some((BigEndian::read_u64(bytes), &bytes[8..]))
    }
}

#[inline(always)]
fn twelve(bytes: &[u8]) -> Option<(Name, &[u8])>
    ensures { MatchOption result (length bytes.now < 12)
        (λ r. (12 ≤ length bytes.now) × (r.0 ≡ name_at bytes.now) × (r.1.now ≡ drop 12 bytes.now)) }
{
    if bytes.len() < 12 {
        return None;
    }
    let split = number_of_four(bytes);
    let rec = number_of_four(&bytes[4..]);
    let place = number_of_four(&bytes[8..]);
    Some((Name { split, rec, place }, &bytes[12..]))
}

/// The name of an entry after the name `before`, and the bytes after it.
#[inline(always)]
fn name_of(version: Version, before: Name, bytes: &[u8]) -> Option<(Name, &[u8])>
    ensures read { MatchOption result (entry_at version before bytes.now ≡ None)
        (λ r. entry_at version before bytes.now
        ≡ Some (record { item = Item.Entry r.0; rest = r.1.now })) }
    ensures shorter { IfSome result (λ r. length r.1.now ≤ length bytes.now) }
{
    match version {
        Version::V1 => twelve(bytes),
        Version::V2 => short_name_of(before, bytes),
    }
}

/// The item of a four-byte number, in a state that expects one, if the grammar allows it.
fn number_item(place: GrammarState, n: u32) -> Option<Item>
    ensures { result ≡ numbered place n }
{
    match place {
        GrammarState::AtJob => Some(Item::Job(n)),
        GrammarState::AtFlags => Some(Item::Flags(n)),
        GrammarState::AtLiteralLength => (n <= 4096).then_some(Item::LiteralLength(n)),
        GrammarState::AtParts => (1 <= n && n <= 1024).then_some(Item::Parts(n)),
        GrammarState::AtSplitSize { .. } => Some(Item::SplitSize(n)),
        GrammarState::AtFiles { .. } => (n <= 1024).then_some(Item::Files(n)),
        GrammarState::AtSkips { .. } => Some(Item::Skips(n)),
        GrammarState::AtGroups { .. } => Some(Item::Groups(n)),
        GrammarState::AtEntries { .. } => (1 <= n).then_some(Item::Entries(n)),
        _ => None,
    }
}

/// The item at the front of the bytes, and the bytes after it.
pub fn read_item(version: Version, place: GrammarState, bytes: &[u8]) -> Option<(Item, &[u8])>
    ensures read { MatchOption result (standing version place bytes.now ≡ None)
        (λ r. standing version place bytes.now ≡ Some (record { item = r.0; rest = r.1.now })) }
    ensures shorter { IfSome result (λ r. length r.1.now ≤ length bytes.now) }
{
    match place {
        GrammarState::AtMagic => {
            if bytes.len() < 8 {
                return None;
            }
            let magic = version.magic();
            (bytes[..8] == magic[..]).then_some((Item::Magic, &bytes[8..]))
        }
        GrammarState::AtLiteralByte { .. } => {
            let (byte, rest) = bytes.split_first()?;
            Some((Item::LiteralByte(*byte), rest))
        }
        GrammarState::AtFileLength { .. } => {
            let (n, rest) = eight(bytes)?;
            Some((Item::FileLength(n), rest))
        }
        GrammarState::AtSkip { .. } => {
            let (_, rest) = eight(bytes)?;
            let split = number_of_four(bytes);
            let rec = number_of_four(&bytes[4..]);
            Some((Item::Skip(RecordName { split, rec }), rest))
        }
        GrammarState::AtEntry { before, .. } => {
            let (name, rest) = name_of(version, before, bytes)?;
            Some((Item::Entry(name), rest))
        }
        GrammarState::AtEnd => bytes.is_empty().then_some((Item::End, bytes)),
        GrammarState::Behind => None,
        _ => {
            let (n, rest) = four(bytes)?;
            Some((number_item(place, n)?, rest))
        }
    }
}

/// The item at the front of the bytes, the bytes after it, and the state after it; `End` keeps the
/// state. Nearly all items are entries, so they come first: a walk takes a few steps for each.
#[inline(always)]
pub(crate) fn step_of(
    version: Version,
    place: GrammarState,
    bytes: &[u8],
) -> Option<(Item, &[u8], GrammarState)>
    ensures read { MatchOption result (standing version place bytes.now ≡ None)
        (λ r. standing version place bytes.now ≡ Some (record { item = r.0; rest = r.1.now })) }
    ensures shorter { IfSome result (λ r. length r.1.now ≤ length bytes.now) }
    ensures place { IfSome result (λ r. r.2 ≡ onward place r.0) }
{
    if let GrammarState::AtEntry {
        parts,
        groups,
        more,
        before,
    } = place
    {
        let (name, rest) = name_of(version, before, bytes)?;
        let behind = entries_to_come(parts, groups, more, name);
        return Some((Item::Entry(name), rest, behind));
    }
    let (item, rest) = read_item(version, place, bytes)?;
    let behind = match item {
        Item::End => place,
        _ => place.behind(item),
    };
    Some((item, rest, behind))
}
