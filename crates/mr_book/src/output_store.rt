//! Accepted outputs under their numbers: a store of those of map tasks, another of reduce tasks.
//!
//!     number    [ 3    7    12  ]      how many events the history had before
//!     output    [ Arc  Arc  Arc ]
//!
//! Invariant: numbers rise, since a new one is past all others. So a store only appends, and finds
//! an output by binary search. Nothing leaves it. `reserve` comes first, so that `store` can't
//! fail.
//! Cost: a number and a pointer beside each output, which is not copied.
ghost use Rattle.std.specs.Prelude.{◌≡◌, ℕ, ◌≤◌, ◌∷◌, ◌++◌, [], IfOk, OnOk, IsSome, Some};
ghost use Rattle.std.specs.Arc.{arc_value};
ghost use Rattle.std.specs.Ordering.{nat_cmp};
ghost use Rattle.mr_bytes.specs.Lists.{Rises};
ghost use Rattle.mr_book.specs.Stored.{numbers, stored_at, stored_by};

use mr_core::Reply;
use std::alloc::{AllocError, Global};
use std::marker::Model;
use std::sync::Arc;

/// A shared output with its number.
#[derive(Drop)]
pub struct Kept<T> {
    number: u64,
    output: Arc<T>,
}

impl<T> Model for Kept<T> {
    ghost use Rattle.std.specs.Prelude.{ℕ};
    ghost use Rattle.std.specs.Arc.{arc_value};

    ghost Value = { ℕ × T };

    ghost view = { λ s. (s.number, arc_value s.output) };
}

impl<T> Kept<T> {
    fn of(number: u64, output: Arc<T>) -> Kept<T>
        ensures { result ≡ (number, arc_value output) }
    {
        Kept { number, output }
    }

    /// Its number: how many events the history had before its own.
    pub fn number(&self) -> u64
        ensures { result ≡ self.now.0 }
    {
        self.number
    }

    pub fn output(&self) -> &T
        ensures { result.now ≡ self.now.1 }
    {
        &self.output
    }

    pub(crate) fn share(&self) -> Result<Arc<T>, AllocError>
        ensures { IfOk result (λ a. arc_value a ≡ self.now.1) }
    {
        Arc::try_clone(&self.output)
    }
}

/// Outputs by rising number.
#[derive(Drop)]
pub(crate) struct OutputStore<T> {
    outputs: Vec<Kept<T>>,
}

impl<T> Model for OutputStore<T> {
    ghost use Rattle.std.specs.Prelude.{◌-◌, vec_len, vec_capacity};
    ghost use Rattle.std.specs.Ordering.{nat_cmp};
    ghost use Rattle.mr_bytes.specs.Lists.{Rises};
    ghost use Rattle.mr_book.specs.Stored.{Shelved, numbers};

    ghost Value = { Shelved T };

    ghost view = { λ s. record { outputs = s.outputs.items; room = vec_capacity s.outputs - vec_len s.outputs } };

    ghost invariant = { λ s. Rises nat_cmp (numbers s.outputs.items) };
}

impl<T: Drop> OutputStore<T> {
    pub(crate) fn new(alloc: Global) -> OutputStore<T>
        ensures { result.outputs ≡ [] }
    {
        OutputStore {
            outputs: Vec::new(alloc),
        }
    }

    /// Makes room for one output more.
    pub(crate) fn reserve(&mut self) -> Result<(), AllocError>
        ensures ok { OnOk result (1 ≤ self.new.room) }
        ensures same { self.new.outputs ≡ self.old.outputs }
    {
        self.outputs.reserve(1)
    }

    /// Stores an accepted output under a number past all others. It drops one that wasn't accepted.
    pub(crate) fn store(&mut self, number: u64, output: Arc<T>, reply: &Reply)
        requires room { 1 ≤ self.old.room }
        requires rises { Rises nat_cmp (numbers self.old.outputs ++ number ∷ []) }
        ensures { self.new.outputs ≡ stored_by self.old.outputs number (arc_value output) reply.now }
    {
        if matches!(reply, Reply::Accepted) {
            self.outputs.push_reserved(Kept::of(number, output));
        }
    }

    /// The output of a number that is there, by binary search.
    pub(crate) fn at(&self, number: u64) -> &Kept<T>
        requires { IsSome (stored_at self.now.outputs number) }
        ensures { stored_at self.now.outputs number ≡ Some (result.now.1) }
    {
        let outputs = self.outputs.as_slice();
        match outputs.binary_search_by_key(&number, |s| s.number()) {
            Ok(at) => &outputs[at],
            Err(_) => unreachable!(),
        }
    }

    pub(crate) fn into_vec(self) -> Vec<Kept<T>>
        ensures { result.items ≡ self.outputs }
    {
        let OutputStore { outputs } = self;
        outputs
    }
}
