//! Cuts a certificate into sections, which threads walk each by itself.
//!
//!     items      groups entries entry entry | entries entry groups | entries entry ... end
//!     sections   0                            1                      2
//!
//! All but the first section begin at a group: where some partition's first one is, or after so
//! many items. One walk over all items finds them; it passes the entries of a group at a time.
//! Beside a section stands what the items before it tell of the border at which it begins.
ghost use Rattle.std.specs.Prelude.{◌≡◌, ◌≤◌, ◌<◌, ◌^◌, ◌∷◌, List, All, IfOk, IfSome, drop, length};
ghost use Rattle.mr_certform.specs.declared.walker.Walker.{Walker as Walks};
ghost use Rattle.mr_certform.specs.Walking.{items_left};
ghost use Rattle.mr_check.specs.Sections.{IsAt, IsSection};

use crate::section::Section;
use mr_certform::{Item, Walker};
use std::alloc::{AllocError, Global};

impl<'a> Section<'a> {
    /// Passes the entries that come next.
    fn pass_entries(&mut self) -> Option<()>
        ensures passed { IfSome result (λ _. (all : Walks)
            → IsAt all self.old → IsAt all self.new) }
        ensures fewer { length (items_left self.new.walker) ≤ length (items_left self.old.walker) }
    {
        let passed = self.walker.skip_entries();
        self.at = self.at.checked_add(passed)?;
        self.entries = self.entries.saturating_add(passed);
        Some(())
    }

    /// Notes that an item is passed.
    fn note(&mut self, item: Item)
        ensures walker { self.new.walker ≡ self.old.walker }
        ensures at { self.new.at ≡ self.old.at }
    {
        match item {
            Item::Groups(groups) => {
                self.next = self.next.saturating_add(1);
                self.groups = u64::from(groups);
                self.group = 0;
                self.entries = 0;
            }
            Item::Entries(_) => {
                self.groups = self.groups.saturating_sub(1);
                self.group = self.group.saturating_add(1);
            }
            _ => {}
        }
    }

    /// Passes an item. `None` at the end, and where no valid item comes next.
    fn pass_item(&mut self) -> Option<Item>
        ensures passed { IfSome result (λ _. (all : Walks)
            → IsAt all self.old → IsAt all self.new) }
        ensures item { IfSome result (λ i. items_left self.old.walker
            ≡ i ∷ items_left self.new.walker) }
    {
        let Ok(item) = self.walker.next() else {
            return None;
        };
        if let Item::End = item {
            return None;
        }
        self.at = self.at.checked_add(1)?;
        self.note(item);
        Some(item)
    }

    /// Passes the next group's first item, and all before it. Returns where the group begins.
    fn pass_to_group(&mut self) -> Option<Section<'a>>
        ensures section { IfSome result (λ s. (all : Walks)
            → IsAt all self.old → IsSection all s) }
        ensures passed { IfSome result (λ _. (all : Walks)
            → IsAt all self.old → IsAt all self.new) }
        ensures fewer { IfSome result (λ _. length (items_left self.new.walker)
            < length (items_left self.old.walker)) }
    {
        loop {
            self.pass_entries()?;
            let group = *self;
            let item = self.pass_item()?;
            if let Item::Entries(_) = item {
                return Some(group);
            }
        }
    }
}

/// How a certificate is cut.
#[derive(Clone, Copy)]
pub(crate) struct Cuts {
    /// The fewest items of a section, except where a partition's first group begins one.
    pub share: u64,
    /// Up to how many sections a partition's first group begins one, however few items come before.
    pub openings: usize,
}

/// Whether a section begins at a group, with so many sections and, since the last one began, so
/// many items before it.
fn begins_section(group: &Section<'_>, sections: usize, items: u64, cuts: Cuts) -> bool {
    let opens = group.group == 0 && group.next > 1;
    (opens && sections < cuts.openings) || items >= cuts.share
}

/// The sections of the items that are left.
pub(crate) fn sections_of<'a>(
    alloc: Global,
    walker: &Walker<'a>,
    cuts: Cuts,
) -> Result<Vec<Section<'a>>, AllocError>
    requires { length (items_left walker.now) < 2 ^ 63 }
    ensures { IfOk result (λ v. All (IsSection walker.now) v.items) }
{
    let mut here = Section {
        walker: *walker,
        at: 0,
        next: 0,
        groups: 0,
        group: 0,
        entries: 0,
    };
    let mut sections = Vec::new(alloc);
    sections.push(here)?;
    let mut begun = 0;
    while let Some(group) = here.pass_to_group() {
        let items = group.at.saturating_sub(begun);
        if begins_section(&group, sections.len(), items, cuts) {
            begun = group.at;
            sections.push(group)?;
        }
    }
    Ok(sections)
}
