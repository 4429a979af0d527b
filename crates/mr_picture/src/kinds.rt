//! The kinds of entries, with one row each: what marks, counts and the table of a page look up.
use crate::entries::{Answer, Entry};
use mr_core::Event;

/// What an entry was, in the order of `KINDS`.
#[derive(Clone, Copy, PartialEq, Eq)]
pub(crate) enum Kind {
    Map,
    Reduce,
    Wait,
    Stop,
    Fetch,
    Gone,
    MapDone,
    MapFailed,
    ReduceDone,
    Lose,
    Damaged,
    Ignored,
}

/// A kind's mark, which is its letter too, its name in a count, and whether it is to be noted.
pub(crate) const KINDS: [(&str, &str, bool); 12] = [
    ("", "map attempts", false),
    ("", "reduce attempts", false),
    ("w", "waits", false),
    ("S", "stops", false),
    ("f", "fetches", false),
    ("g", "gone", true),
    ("D", "maps done", false),
    ("X", "failed", true),
    ("C", "committed", false),
    ("L", "lost", true),
    ("Z", "damaged", true),
    ("i", "ignored", true),
];

impl Kind {
    pub(crate) fn of(entry: &Entry) -> Kind {
        match entry.answer {
            Answer::Map { .. } => Kind::Map,
            Answer::Reduce { .. } => Kind::Reduce,
            Answer::Wait => Kind::Wait,
            Answer::Stop(_) => Kind::Stop,
            Answer::Region { .. } => Kind::Fetch,
            Answer::Gone => Kind::Gone,
            Answer::Ignored => Kind::Ignored,
            Answer::Accepted => match entry.event {
                Event::MapDone(..) => Kind::MapDone,
                Event::MapFailed(..) => Kind::MapFailed,
                Event::ReduceDone(..) => Kind::ReduceDone,
                Event::Lose(_) => Kind::Lose,
                Event::Damaged(..) => Kind::Damaged,
                Event::Ask(_) | Event::Fetch(..) => Kind::Fetch,
            },
        }
    }

    /// The kind's mark.
    pub(crate) fn mark(self) -> &'static str {
        KINDS.get(self as usize).map_or("", |row| row.0)
    }

    pub(crate) fn is_notable(self) -> bool {
        KINDS.get(self as usize).map_or(false, |row| row.2)
    }
}
