//! Compact lists of places and of values.
//!
//! A list of places stores their offsets, four bytes each, as long as all are in one file; from the
//! first place in another file on, it stores eight bytes a place. A list of values counts those `One`
//! in front, and stores none of them. Places in the first 4 GiB of their files follow, as a list of
//! places. From the first value on that is neither, it stores values as they are.
ghost use Rattle.std.specs.Prelude.{◌≡◌, ◌+◌, ◌<◌, ◌^◌, ◌++◌, ◌∷◌, [], OnOk, OnErr, IsTrue, ◌↔◌};
ghost use Rattle.std.specs.Prelude.{length, take, slice_index_or, ◌-◌, IsOk, IfSome};
ghost use Rattle.mr_bytes.specs.Places.{nowhere};
ghost use Rattle.mr_bytes.specs.declared.Value.TheVariants.{One, At};
ghost use Rattle.mr_bytes.specs.Values.{AreOnes, at};

use crate::Value;
use std::alloc::{AllocError, Global};
use std::marker::Model;

/// A place in the first 4 GiB of a file.
#[derive(Clone, Copy, Drop)]
pub(crate) struct Place {
    pub file: u32,
    pub offset: u32,
}

#[derive(Drop)]
pub(crate) struct OffsetColumn {
    file: u32,
    offsets: Vec<u32>,
    others: Vec<Place>,
}

impl Model for OffsetColumn {
    ghost use Rattle.std.specs.Prelude.{List, length, ◌+◌, ◌++◌, ◌<◌, ◌^◌};
    ghost use Rattle.mr_bytes.specs.declared.columns.Place.{Place as Spot};

    ghost Value = { List Spot };

    ghost use Rattle.mr_bytes.specs.Places.{in_file};

    ghost view = { λ p. in_file p.file p.offsets.items ++ p.others.items };

    ghost invariant = { λ p. length p.offsets.items + length p.others.items < 2 ^ 64 };
}

impl OffsetColumn {
    pub fn new(alloc: Global) -> OffsetColumn
        ensures { result ≡ [] }
    {
        OffsetColumn {
            file: 0,
            offsets: Vec::new(alloc),
            others: Vec::new(alloc),
        }
    }

    pub fn len(&self) -> usize
        ensures { result ≡ length self.now }
    {
        self.offsets.len() + self.others.len()
    }

    pub fn get(&self, i: usize) -> Place
        requires { i < length self.now }
        ensures { result ≡ slice_index_or self.now i nowhere }
    {
        if i < self.offsets.len() {
            Place {
                file: self.file,
                offset: self.offsets[i],
            }
        } else {
            self.others[i - self.offsets.len()]
        }
    }

    pub fn push(&mut self, place: Place) -> Result<(), AllocError>
        requires { length self.old + 1 < 2 ^ 64 }
        ensures ok { OnOk result (self.new ≡ self.old ++ place ∷ []) }
        ensures err { OnErr result (self.new ≡ self.old) }
    {
        if self.others.is_empty() && (self.offsets.is_empty() || place.file == self.file) {
            self.offsets.push(place.offset)?;
            self.file = place.file;
        } else {
            self.others.push(place)?;
        }
        Ok(())
    }

    pub fn truncate(&mut self, count: usize)
        ensures { self.new ≡ take count self.old }
    {
        if count <= self.offsets.len() {
            self.offsets.truncate(count);
            self.others.clear();
        } else {
            self.others.truncate(count - self.offsets.len());
        }
    }

    /// Empties the list, and keeps its memory for later places.
    pub fn clear(&mut self)
        ensures { self.new ≡ [] }
    {
        self.offsets.clear();
        self.others.clear();
    }
}

/// Values, in order. A job that counts emits only `One`, so its values take no memory.
#[derive(Drop)]
pub struct ValueColumn {
    ones: usize,
    places: OffsetColumn,
    rest: Vec<Value>,
}

impl Model for ValueColumn {
    ghost use Rattle.std.specs.Prelude.{List, length, map, ◌+◌, ◌++◌, ◌<◌, ◌^◌};
    ghost use Rattle.mr_bytes.specs.declared.Value.{Value as Emitted};

    ghost Value = { List Emitted };

    ghost use Rattle.mr_bytes.specs.Values.{BeginsOtherwise, at, column};

    ghost view = { λ v. column v.ones v.places v.rest.items };

    ghost invariant = { λ v. record {
      counted : BeginsOtherwise (map at v.places ++ v.rest.items);
      few : v.ones + (length v.places + length v.rest.items) < 2 ^ 64;
    } };
}

fn near(file: u32, offset: u64) -> Option<Place>
    ensures { IfSome result (λ place. at place ≡ At file offset) }
{
    match u32::try_from(offset) {
        Ok(offset) => Some(Place { file, offset }),
        Err(_) => None,
    }
}

impl ValueColumn {
    /// No values. Takes no memory.
    pub fn new(alloc: Global) -> ValueColumn
        ensures { result ≡ [] }
    {
        ValueColumn {
            ones: 0,
            places: OffsetColumn::new(alloc),
            rest: Vec::new(alloc),
        }
    }

    /// How many values there are.
    pub fn len(&self) -> usize
        ensures { result ≡ length self.now }
    {
        self.ones + (self.places.len() + self.rest.len())
    }

    /// Value `i`, from 0.
    pub fn get(&self, i: usize) -> Value
        requires { i < length self.now }
        ensures { result ≡ slice_index_or self.now i One }
    {
        if i < self.ones {
            return Value::One;
        }
        let behind = i - self.ones;
        if behind < self.places.len() {
            let Place { file, offset } = self.places.get(behind);
            Value::At {
                file,
                offset: u64::from(offset),
            }
        } else {
            self.rest[behind - self.places.len()]
        }
    }

    /// Appends a value. Fails only for want of memory, and then nothing has changed. A `One` after
    /// nothing but `One`s takes neither memory nor a call.
    #[inline(always)]
    pub fn push(&mut self, value: Value) -> Result<(), AllocError>
        requires { length self.old + 1 < 2 ^ 64 }
        ensures ok { OnOk result (self.new ≡ self.old ++ value ∷ []) }
        ensures err { OnErr result (self.new ≡ self.old) }
        ensures none { AreOnes self.old → value ≡ One → IsOk result }
    {
        if matches!(value, Value::One) && self.places.len() == 0 && self.rest.is_empty() {
            self.ones += 1;
            return Ok(());
        }
        self.push_stored(value)
    }

    #[inline(never)]
    fn push_stored(&mut self, value: Value) -> Result<(), AllocError>
        requires { length self.old + 1 < 2 ^ 64 }
        ensures ok { OnOk result (self.new ≡ self.old ++ value ∷ []) }
        ensures err { OnErr result (self.new ≡ self.old) }
        ensures none { AreOnes self.old → value ≡ One → IsOk result }
    {
        if !self.rest.is_empty() {
            self.rest.push(value)?;
            return Ok(());
        }
        match value {
            Value::One if self.places.len() == 0 => self.ones += 1,
            Value::One => self.rest.push(value)?,
            Value::At { file, offset } => match near(file, offset) {
                Some(place) => self.places.push(place)?,
                None => self.rest.push(value)?,
            },
        }
        Ok(())
    }

    /// Keeps only the first `count` values.
    pub fn truncate(&mut self, count: usize)
        ensures { self.new ≡ take count self.old }
    {
        if count <= self.ones {
            self.ones = count;
            self.places.clear();
            self.rest.clear();
            return;
        }
        let behind = count - self.ones;
        if behind <= self.places.len() {
            self.places.truncate(behind);
            self.rest.clear();
        } else {
            self.rest.truncate(behind - self.places.len());
        }
    }

    /// Empties the list, and keeps its memory for later values.
    pub fn clear(&mut self)
        ensures { self.new ≡ [] }
    {
        self.ones = 0;
        self.places.clear();
        self.rest.clear();
    }
}
