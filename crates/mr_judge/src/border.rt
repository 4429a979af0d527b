//! Where a judgement may begin, and what it takes: borders between the groups of a partition, and
//! items with the pairs of their names.
ghost use Rattle.std.specs.Prelude.{◌≡◌, ◌↔◌, IsTrue};
ghost use Rattle.std.specs.Option.{option_map};
ghost use Rattle.mr_verdict.specs.Verdict.{start};
ghost use Rattle.mr_judge.specs.Borders.{at_border};

use mr_bytes::Value;
use mr_certform::Item;

/// A border between two groups of a partition: the next partition; how many groups of this one are
/// left, and how many came before; the last key; and where the next text begins.
#[derive(Clone, Copy)]
pub struct Border<'a> {
    pub next: u64,
    pub groups: u64,
    pub group: u64,
    pub key_before: Option<&'a [u8]>,
    pub from: u64,
}

impl<'a> Border<'a> {
    /// The border before partition `next`.
    pub fn before(next: u64) -> Border<'a>
        ensures { at_border result ≡ record start { next = next } }
    {
        Border {
            next,
            groups: 0,
            group: 0,
            key_before: None,
            from: 0,
        }
    }

    pub fn is_same(&self, other: &Border<'_>) -> bool
        ensures { IsTrue result ↔ (at_border self.now ≡ at_border other.now) }
    {
        self.next == other.next
            && self.groups == other.groups
            && self.group == other.group
            && self.from == other.from
            && self.key_before == other.key_before
    }
}

/// An item, and its pair's key and value if it is an entry.
#[derive(Drop)]
pub struct FoundItem<'a> {
    pub item: Item,
    pub found: Option<(&'a [u8], Value)>,
}
