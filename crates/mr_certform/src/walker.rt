//! Walks the items of bytes, front to back.
//!
//!     bytes  [ passed | rest ]          place: the state of the grammar at the border
//!
//! Invariant: `rest` follows the items returned so far, so a fault is at `whole` minus its length.
//! Cost: reads the bytes of each item once, in a few steps; takes no memory. To skip the entries of
//! a group is one multiplication in version 1, where a name has twelve bytes. In version 2 each
//! name depends on the one before, so each is decoded.
ghost use Rattle.std.specs.Prelude.{◌≡◌, ◌≤◌, ◌-◌, ◌+◌, ◌∷◌, [], Some, None, MatchResult, length};
ghost use Rattle.std.specs.Prelude.{◌*◌, drop};
ghost use Rattle.mr_certform.specs.Spelling.{items_from, items_of, stop, left_behind};
ghost use Rattle.mr_certform.specs.declared.grammar_state.GrammarState.TheVariants.{AtEntry};
ghost use Rattle.mr_certform.specs.declared.version.Version.TheVariants.{V2};
ghost use Rattle.mr_certform.specs.Rows.{entries_ahead, behind_entries, items_size};

use crate::front::step_of;
use crate::grammar_state::{GrammarState, Item, Malformed, groups_to_come};
use crate::short::short_name_of;
use crate::version::{Version, version_of};
use mr_bytes::Name;

fn behind_row(bytes: &[u8], entries: u64) -> &[u8]
    requires { entries * 12 ≤ length bytes.now }
    ensures { result.now ≡ drop (entries * 12) bytes.now }
{
    &bytes[entries as usize * 12..]
}

/// How many entries of version 2 come next, the bytes after them and the state there; `more` are
/// expected after the first. Each depends on the one before, so each is decoded.
fn behind_names(
    bytes: &[u8],
    parts: u32,
    groups: u32,
    more: u32,
    before: Name,
) -> (u64, &[u8], GrammarState)
    ensures count { result.0
        ≡ entries_ahead (items_from V2 (AtEntry parts groups more before) bytes.entry.now) }
    ensures items { items_from V2 (result.2) (result.1.now)
        ≡ behind_entries (items_from V2 (AtEntry parts groups more before) bytes.entry.now) }
    ensures shorter { length result.1.now ≤ length bytes.entry.now }
    ensures taken { items_size V2 (AtEntry parts groups more before) bytes.entry.now
        ≡ length bytes.entry.now - length result.1.now + items_size V2 (result.2) (result.1.now) }
{
    let mut passed = 0;
    let mut rest = bytes;
    let mut left = more;
    let mut last = before;
    while let Some((name, behind)) = short_name_of(last, rest) {
        passed += 1;
        rest = behind;
        if left == 0 {
            return (passed, rest, groups_to_come(parts, groups));
        }
        left -= 1;
        last = name;
    }
    let place = GrammarState::AtEntry {
        parts,
        groups,
        more: left,
        before: last,
    };
    (passed, rest, place)
}

/// Walks the items of a certificate's bytes, from the front. Takes no memory.
#[derive(Clone, Copy)]
pub struct Walker<'a> {
    version: Version,
    place: GrammarState,
    whole: u64,
    rest: &'a [u8],
    ghost in_range: { length rest.now ≤ whole },
}

impl<'a> Walker<'a> {
    ghost use Rattle.mr_certform.specs.Walking.{items_left, halt};

    /// At the front of the bytes.
    pub fn new(bytes: &'a [u8]) -> Walker<'a>
        ensures items { items_left result ≡ items_of bytes.entry.now }
        ensures stop { halt result ≡ stop bytes.entry.now }
    {
        Walker {
            version: version_of(bytes),
            place: GrammarState::AtMagic,
            whole: bytes.len() as u64,
            rest: bytes,
        }
    }

    /// The next item; after `End`, `End` again. `Malformed` once the grammar allows no item.
    #[inline]
    pub fn next(&mut self) -> Result<Item, Malformed>
        ensures item { MatchResult result
            (λ i. items_left self.old ≡ i ∷ left_behind i (items_left self.new))
            (λ e. (items_left self.old ≡ []) × (items_left self.new ≡ []) × (e.at ≡ halt self.old)) }
        ensures end { result ≡ Ok Item.End → items_left self.new ≡ items_left self.old }
        ensures stop { halt self.new ≡ halt self.old }
    {
        match step_of(self.version, self.place, self.rest) {
            None => Err(Malformed {
                at: self.whole - self.rest.len() as u64,
            }),
            Some((item, rest, place)) => {
                self.rest = rest;
                self.place = place;
                Ok(item)
            }
        }
    }

    /// Skips the entries that come next in their group and returns their number; as many calls of
    /// `next` would end in the same place. In version 1 it reads none of them.
    pub fn skip_entries(&mut self) -> u64
        ensures count { result ≡ entries_ahead (items_left self.old) }
        ensures items { items_left self.new ≡ behind_entries (items_left self.old) }
        ensures stop { halt self.new ≡ halt self.old }
    {
        let GrammarState::AtEntry {
            parts,
            groups,
            more,
            before,
        } = self.place
        else {
            return 0;
        };
        match self.version {
            Version::V1 => {
                let held = self.rest.len() as u64 / 12;
                if held > u64::from(more) {
                    let awaited = u64::from(more) + 1;
                    self.rest = behind_row(self.rest, awaited);
                    self.place = groups_to_come(parts, groups);
                    return awaited;
                }
                self.rest = behind_row(self.rest, held);
                self.place = GrammarState::AtEntry {
                    parts,
                    groups,
                    more: more - held as u32,
                    before,
                };
                held
            }
            Version::V2 => {
                let (passed, rest, place) = behind_names(self.rest, parts, groups, more, before);
                self.rest = rest;
                self.place = place;
                passed
            }
        }
    }
}
