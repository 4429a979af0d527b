//! Walks the items of a reader's bytes, front to back, through a buffer.
//!
//!     reader  ->  [ held | room ]       64 KiB; held: bytes that are read and not passed
//!
//! Before it decodes an item it holds 15 bytes, as many as the longest item has, or all that are
//! left. So it decodes each item as from the whole bytes, and no item is cut by the end of a read.
//! What a reader will give may be unknown. So a step's clause (`Told`) goes backwards: whatever
//! items may come after the step came before it too, behind the item that it returned. For known
//! bytes that names the items.
//! Cost: reads each byte once, and moves at most 14 bytes before a read. The buffer is all its
//! memory.
ghost use Rattle.std.specs.Prelude.{◌≡◌, ◌⊎◌, ℕ, ◌≤◌, ◌<◌, ◌+◌, ◌-◌, ◌^◌, List, Some, None, IfOk};
ghost use Rattle.std.specs.Prelude.{OnOk, IfSome, MatchResult, true, length};
ghost use Rattle.mr_store.specs.Devices.{Counts, FailsOnly};
ghost use Rattle.mr_certform.specs.declared.grammar_state.Item.{Item as Read};
ghost use Rattle.mr_certform.specs.declared.grammar_state.GrammarState.TheVariants.{AtMagic};
ghost use Rattle.mr_certform.specs.Places.{onward};
ghost use Rattle.mr_certform.specs.Spelling.{items_of, stop, bytes_at};
ghost use Rattle.mr_certform.specs.Streaming.{stream, MayCome, IsToCome, version_at, Gives, Told};
ghost use Rattle.mr_certform.specs.Streaming.{Counted};

use crate::front::step_of;
use crate::grammar_state::{GrammarState, Item};
use crate::version::{Version, version_of};
use mr_store::{CountedRead, Device, ReadBuffer};
use std::alloc::{AllocError, Global};
use thiserror::Error;

/// Why a walker over a reader returns no item.
#[derive(Clone, Copy, Debug, PartialEq, Eq, Drop, Error)]
pub enum StreamFault {
    /// No item of the grammar is at this place, in bytes from the front.
    #[error("Malformed at {at}")]
    Malformed { at: u64 },
    #[error("Device")]
    Device,
}

impl From<Device> for StreamFault {
    ghost use Rattle.mr_certform.specs.declared.stream.StreamFault.TheVariants.{Device as told_device};

    ghost from_gives = { λ _ f. f ≡ told_device };

    fn from(_fault: Device) -> StreamFault {
        StreamFault::Device
    }
}

/// The most bytes of an item.
const LONGEST: usize = 15;

/// Walks the items of the bytes that a reader gives. It reads at most 65,536 bytes ahead.
#[derive(Drop)]
pub struct StreamWalker<R: CountedRead + Drop> {
    reader: R,
    held: ReadBuffer,
    /// The version, once the magic was read.
    version: Version,
    place: GrammarState,
    passed: u64,
    exhausted: bool,
    fault: Option<StreamFault>,
}

impl<R: CountedRead + Drop> StreamWalker<R> {
    /// At the front of the reader's bytes. Takes all its memory here.
    pub fn new(alloc: Global, reader: R) -> Result<StreamWalker<R>, AllocError>
        ensures items { IfOk result (λ w. (is : List Read) (at : ℕ) → Gives (stream R.remaining w) is at
            → (bytes : List ℕ) × MayCome (R.remaining reader) bytes × (is ≡ items_of bytes)
            × (at ≡ stop bytes)) }
        ensures place { IfOk result (λ w. w.passed ≡ 0) }
        ensures fault { IfOk result (λ w. w.fault ≡ None) }
        ensures reader { IfOk result (λ w. w.reader ≡ reader) }
    {
        let held = ReadBuffer::new(alloc)?;
        Ok(StreamWalker {
            reader,
            held,
            version: Version::V1,
            place: GrammarState::AtMagic,
            passed: 0,
            exhausted: false,
            fault: None,
        })
    }

    /// How many bytes the items returned so far have.
    pub fn place(&self) -> u64
        ensures { result ≡ self.now.passed }
    {
        self.passed
    }

    /// The reader.
    pub fn reader(&self) -> &R
        ensures { result.now ≡ self.now.reader }
    {
        &self.reader
    }

    #[inline]
    fn fill(&mut self) -> Result<(), Device>
        ensures filled { OnOk result ((15 ≤ length self.new.held) ⊎ (self.new.exhausted ≡ true)) }
        ensures bytes { (bytes : List ℕ) → IsToCome (stream R.remaining self.new) bytes
            → IsToCome (stream R.remaining self.old) bytes }
        ensures same { (self.new.version ≡ self.old.version) × (self.new.place ≡ self.old.place)
            × (self.new.passed ≡ self.old.passed) × (self.new.fault ≡ self.old.fault) }
        ensures count { Counts (R.failed self.old.reader) (R.failed self.new.reader) result }
        ensures fails { FailsOnly (R.can_fail self.old.reader) (R.lacked self.new.reader) result }
        ensures later { R.can_fail self.new.reader → R.can_fail self.old.reader }
    {
        if self.exhausted {
            return Ok(());
        }
        while self.held.bytes().len() < LONGEST {
            let count = self.held.read_more(&mut self.reader)?;
            if count == 0 {
                self.exhausted = true;
                return Ok(());
            }
        }
        Ok(())
    }

    /// The version of the item here: at the front, the held bytes give it.
    #[inline]
    fn version_here(&self) -> Version
        ensures { result ≡ version_at self.now.version self.now.place self.now.held }
    {
        match self.place {
            GrammarState::AtMagic => version_of(self.held.bytes()),
            _ => self.version,
        }
    }

    #[inline]
    fn step(&mut self) -> Result<Item, StreamFault>
        requires filled { (15 ≤ length self.old.held) ⊎ (self.old.exhausted ≡ true) }
        requires few { self.old.passed ≤ 2 ^ 63 }
        ensures told { Told (stream R.remaining self.old) (stream R.remaining self.new) result }
        ensures device { result ≡ Err StreamFault.Device → ⊥ }
        ensures place { MatchResult result
            (λ i. (self.new.place ≡ onward self.old.place i) × (self.new.passed
            ≡ self.old.passed + length (bytes_at self.new.version self.old.place i)))
            (λ _. (self.new.place ≡ self.old.place) × (self.new.passed ≡ self.old.passed)) }
        ensures same { (self.new.reader ≡ self.old.reader) × (self.new.fault ≡ self.old.fault) }
    {
        let version = self.version_here();
        let held = self.held.bytes();
        match step_of(version, self.place, held) {
            None => Err(StreamFault::Malformed { at: self.passed }),
            Some((item, rest, place)) => {
                let count = held.len() - rest.len();
                self.held.pass(count);
                self.passed += count as u64;
                self.version = version;
                self.place = place;
                Ok(item)
            }
        }
    }

    #[inline]
    fn read_item(&mut self) -> Result<Item, StreamFault>
        requires few { self.old.passed ≤ 2 ^ 63 }
        ensures told { Told (stream R.remaining self.old) (stream R.remaining self.new) result }
        ensures place { MatchResult result
            (λ i. (self.new.place ≡ onward self.old.place i) × (self.new.passed
            ≡ self.old.passed + length (bytes_at self.new.version self.old.place i)))
            (λ _. (self.new.place ≡ self.old.place) × (self.new.passed ≡ self.old.passed)) }
        ensures fault { self.new.fault ≡ self.old.fault }
        ensures count { Counted (R.failed self.old.reader) (R.failed self.new.reader) result }
        ensures fails { result ≡ Err StreamFault.Device
            → R.can_fail self.old.reader ⊎ (R.lacked self.new.reader ≡ true) }
        ensures later { R.can_fail self.new.reader → R.can_fail self.old.reader }
    {
        self.fill()?;
        self.step()
    }

    /// The next item of the reader's bytes; after `End`, `End` again. `Malformed` if the grammar
    /// allows no item here, `Device` if a read fails, an interrupted one too; a fault is repeated
    /// from then on. Takes no memory. The items before must have at most 2^63 bytes (`place`).
    #[inline]
    pub fn next(&mut self) -> Result<Item, StreamFault>
        requires few { self.old.passed ≤ 2 ^ 63 }
        ensures told { self.old.fault ≡ None
            → Told (stream R.remaining self.old) (stream R.remaining self.new) result }
        ensures place { MatchResult result
            (λ i. (self.new.place ≡ onward self.old.place i) × (self.new.passed
            ≡ self.old.passed + length (bytes_at self.new.version self.old.place i)))
            (λ _. (self.new.place ≡ self.old.place) × (self.new.passed ≡ self.old.passed)) }
        ensures fault { MatchResult result (λ _. self.new.fault ≡ None) (λ e. self.new.fault ≡ Some e) }
        ensures again { IfSome self.old.fault (λ e. (result ≡ Err e) × (self.new ≡ self.old)) }
        ensures count { self.old.fault ≡ None
            → Counted (R.failed self.old.reader) (R.failed self.new.reader) result }
        ensures fails { self.old.fault ≡ None → result ≡ Err StreamFault.Device
            → R.can_fail self.old.reader ⊎ (R.lacked self.new.reader ≡ true) }
        ensures later { R.can_fail self.new.reader → R.can_fail self.old.reader }
    {
        if let Some(fault) = self.fault {
            return Err(fault);
        }
        let answer = self.read_item();
        if let Err(fault) = answer {
            self.fault = Some(fault);
        }
        answer
    }
}
