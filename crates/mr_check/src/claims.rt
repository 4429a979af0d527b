//! Entries that were taken at their word, in a list for each window of the input.
//!
//!     windows   split 0: records 0..4, 4..6     split 1: records 0..3
//!     lists     [ late late ]  [ ]              [ late ]
//!
//! A late entry takes 8 bytes: the place of its group's line, and the number of its pair, which is
//! the record's number in its window and the place in the record. All windows divide the 32 bits of
//! that number alike. Whoever maps a window has all that its late entries need.
ghost use Rattle.std.specs.Prelude.{◌≡◌, ℕ, ◌+◌, ◌/◌, ◌%◌, ◌^◌, ◌<◌, ◌≤◌, ◌++◌, ◌∷◌, [], length};
ghost use Rattle.std.specs.Prelude.{slice_set, IfOk, IfSome, IsTrue, OnOk};
ghost use Rattle.mr_index.specs.Windows.{Tiles};
ghost use Rattle.mr_check.specs.Claims.{PutsOff, claims_of, name_of, nth_list, nth_window};

use mr_bytes::{Name, RecordName};
use mr_index::{Window, windows};
use mr_splits::Plan;
use std::alloc::{AllocError, Global};
use std::marker::Model;

/// An entry that was taken at its word, in the list of its window.
#[derive(Clone, Copy)]
pub(crate) struct Late {
    /// The place of its group's line in all outputs.
    pub line: u32,
    /// The number of its record in the window, and behind it the place of its pair in the record.
    pub low: u32,
}

/// The record's number in its window.
#[inline(always)]
pub(crate) fn rec_in(low: u32, bits: u32) -> u32
    requires { bits ≤ 32 }
    ensures { result ≡ low / 2 ^ bits }
{
    (u64::from(low) >> bits) as u32
}

/// The pair's place in its record.
#[inline(always)]
pub(crate) fn place_in(low: u32, bits: u32) -> u32
    requires { bits ≤ 32 }
    ensures { result ≡ low % 2 ^ bits }
{
    (u64::from(low) % (1u64 << bits)) as u32
}

/// The number of a pair in its window, or `None` if it takes more than 32 bits.
#[inline(always)]
fn low_of(rec: u32, place: u32, bits: u32) -> Option<u32>
    requires { bits ≤ 32 }
    ensures { IfSome result (λ low. (low / 2 ^ bits ≡ rec) × (low % 2 ^ bits ≡ place)) }
{
    let Ok(low) = u32::try_from((u64::from(rec) << bits) | u64::from(place)) else {
        return None;
    };
    if rec_in(low, bits) != rec || place_in(low, bits) != place {
        return None;
    }
    Some(low)
}

/// The windows of an input, by splits. Threads share them.
#[derive(Drop)]
pub(crate) struct Windows {
    list: Vec<Window>,
    /// The number of the first window of each split.
    first: Vec<u32>,
    /// Record r of a split is in window `r >> shift` from the split's first one.
    shift: u32,
    /// How many bytes of text the records of each window have.
    sizes: Vec<u64>,
}

impl Model for Windows {
    ghost use Rattle.std.specs.Prelude.{◌-◌, ◌≤◌};
    ghost use Rattle.mr_check.specs.Claims.{Division};

    ghost Value = { Division };

    ghost view = { λ w. record { bits = 32 - w.shift; list = w.list.items } };

    ghost invariant = { λ w. w.shift ≤ 32 };
}

/// How many bytes of text a window's records have.
fn size_of(plan: &Plan<'_>, window: Window) -> u64 {
    // As in `Given::value_of`.
    let _size = plan.size();
    let Window { split, from, end } = window;
    let last = end.saturating_sub(1);
    if !plan.has_record(RecordName { split, rec: from })
        || !plan.has_record(RecordName { split, rec: last })
    {
        return 0;
    }
    let (first, last) = (plan.locate(split, from), plan.locate(split, last));
    u64::from(last.start)
        .saturating_add(last.bytes.len() as u64)
        .saturating_sub(u64::from(first.start))
}

impl Windows {
    /// Cuts an input's splits into windows of 2^shift records.
    pub fn cut(alloc: Global, plan: &Plan<'_>, shift: u32) -> Result<Windows, AllocError>
        requires { shift ≤ 20 }
        ensures { IfOk result (λ w. Tiles plan.now 0 0 w.list) }
    {
        let most = 1u32 << shift;
        let mut first = Vec::with_capacity(alloc, plan.splits() as usize)?;
        let mut before = 0u32;
        for split in 0..plan.splits() {
            first.push(before)?;
            before = before.saturating_add(plan.records_in(split).div_ceil(most));
        }
        let list = windows(alloc, plan, most)?;
        let mut sizes = Vec::with_capacity(alloc, list.len())?;
        for window in list.as_slice() {
            sizes.push(size_of(plan, *window))?;
        }
        Ok(Windows {
            list,
            first,
            shift,
            sizes,
        })
    }

    pub fn count(&self) -> usize
        ensures { result ≡ length self.now.list }
    {
        self.list.len()
    }

    /// How many bits of a late entry's number are the place of its pair in the record.
    #[inline(always)]
    pub fn bits(&self) -> u32
        ensures bits { result ≡ self.now.bits }
        ensures few { result ≤ 32 }
    {
        32 - self.shift
    }

    pub fn window(&self, w: usize) -> Window
        requires { w < length self.now.list }
        ensures { result ≡ nth_window self.now.list w }
    {
        self.list[w]
    }

    /// The window of the pair with that name, and its number there. `None` if there is no such
    /// window or the number takes more than 32 bits.
    #[inline]
    fn find(&self, name: Name) -> Option<(usize, u32)>
        ensures { IfSome result (λ r. (r.0 < length self.now.list)
            × (name_of self.now.bits (nth_window self.now.list r.0) r.1 ≡ name)) }
    {
        let Name { split, rec, place } = name;
        if split as usize >= self.first.len() {
            return None;
        }
        let before = u64::from(self.first[split as usize]);
        let w = (before + (u64::from(rec) >> self.shift)) as usize;
        if w >= self.list.len() {
            return None;
        }
        let window = self.list[w];
        if window.split != split || rec < window.from || rec >= window.end {
            return None;
        }
        Some((w, low_of(rec - window.from, place, self.bits())?))
    }
}

/// The late entries of one window.
#[derive(Drop)]
struct LateList {
    late: Vec<Late>,
}

impl Model for LateList {
    ghost use Rattle.std.specs.Prelude.{List};
    ghost use Rattle.mr_check.specs.declared.claims.Late.{Late};

    ghost Value = { List Late };

    ghost view = { λ l. l.late.items };
}

impl LateList {
    #[inline(always)]
    fn push(&mut self, late: Late) -> Result<(), AllocError>
        ensures { OnOk result (self.new ≡ self.old ++ late ∷ []) }
    {
        if self.late.len() == self.late.capacity() {
            self.grow()?;
        }
        self.late.push(late)?;
        Ok(())
    }

    /// Makes room for an eighth more. There are many lists, so twice the room, as a vector takes it,
    /// would be much of the memory of a judgement.
    #[inline(never)]
    fn grow(&mut self) -> Result<(), AllocError>
        ensures { self.new ≡ self.old }
    {
        self.late.reserve_exact(self.late.len() / 8 + 16)
    }

    fn late(&self) -> &[Late]
        ensures { result.now ≡ self.now }
    {
        self.late.as_slice()
    }

    /// Moves the entries into room that they fill. Room cut off behind each list would serve none.
    /// What lists leave one after another is one piece, which the next lists fill.
    fn pack(&mut self, alloc: Global) -> Result<(), AllocError>
        ensures { self.new ≡ self.old }
    {
        let mut late = Vec::with_capacity(alloc, self.late.len())?;
        late.extend_from_slice(self.late())?;
        self.late = late;
        Ok(())
    }
}

/// A list for which there is no memory stays where it is.
fn pack_all(alloc: Global, lists: &mut [LateList])
    ensures { lists.new ≡ lists.old }
{
    for list in lists.iter_mut() {
        let _moved = list.pack(alloc);
    }
}

#[inline(always)]
fn push_late(lists: &mut [LateList], w: usize, late: Late) -> Result<(), AllocError>
    requires { w < length lists.old }
    ensures { OnOk result (lists.new ≡ slice_set lists.old w (nth_list lists.old w ++ late ∷ [])) }
{
    lists[w].push(late)
}

/// What was taken at its word.
#[derive(Drop)]
pub(crate) struct Claims<'a> {
    windows: &'a Windows,
    lists: Vec<LateList>,
    /// How many more bytes of keys may be claimed.
    left: u64,
}

impl<'a> Model for Claims<'a> {
    ghost use Rattle.mr_check.specs.Claims.{Taken};

    ghost Value = { Taken };

    ghost view = { λ c. record { windows = c.windows.now; lists = c.lists.items } };
}

/// Appends an empty list with room for so many.
fn push_empty(alloc: Global, lists: &mut Vec<LateList>, room: usize) -> Result<(), AllocError>
    ensures { OnOk result (lists.new.items ≡ lists.old.items ++ [] ∷ []) }
{
    let late = Vec::with_capacity(alloc, room)?;
    lists.push(LateList { late })?;
    Ok(())
}

impl<'a> Claims<'a> {
    /// Nothing claimed yet, and keys of at most `most` bytes to come. Each window has room for its
    /// share of `expected`.
    pub fn new(
        alloc: Global,
        windows: &'a Windows,
        most: u64,
        expected: usize,
    ) -> Result<Claims<'a>, AllocError>
        ensures windows { IfOk result (λ c. c.windows ≡ windows.entry.now) }
        ensures none { IfOk result (λ c. claims_of c ≡ []) }
    {
        let count = windows.count();
        let mut lists = Vec::with_capacity(alloc, count)?;
        for w in 0..count {
            let size = windows.sizes.get(w).map_or(0, |size| *size);
            let share = (expected as u64).saturating_mul(size) / most.max(1);
            push_empty(alloc, &mut lists, share as usize)?;
        }
        Ok(Claims {
            windows,
            lists,
            left: most,
        })
    }

    /// Takes an entry at its word, under a key of `size` bytes. False if there is no window of its
    /// pair, if the pair's number takes more than 32 bits, or if the keys claimed so far have more
    /// bytes than those of all pairs can have.
    #[inline]
    pub fn take(&mut self, name: Name, line: u32, size: usize) -> Result<bool, AllocError>
        ensures put { IfOk result (λ b. IsTrue b → PutsOff (claims_of self.old)
            (record { name = name; line = line }) (claims_of self.new)) }
        ensures windows { self.new.windows ≡ self.old.windows }
    {
        let cost = (size as u64).max(1);
        if self.left < cost {
            return Ok(false);
        }
        let Some((w, low)) = self.windows.find(name) else {
            return Ok(false);
        };
        if w >= self.lists.len() {
            return Ok(false);
        }
        push_late(self.lists.as_mut_slice(), w, Late { line, low })?;
        self.left -= cost;
        Ok(true)
    }

    /// Gives back the room of lists that isn't filled.
    pub fn pack(&mut self, alloc: Global)
        ensures { self.new ≡ self.old }
    {
        pack_all(alloc, self.lists.as_mut_slice());
    }

    /// The late entries of window `w`.
    pub fn of_window(&self, w: usize) -> &[Late]
        ensures { result.now ≡ nth_list self.now.lists w }
    {
        match self.lists.as_slice().get(w) {
            Some(list) => list.late(),
            None => &[],
        }
    }
}
