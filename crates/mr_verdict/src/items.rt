//! Sources of a certificate's items: its bytes, or a reader.
ghost use Rattle.std.specs.Prelude.{◌≡◌, ◌⊎◌, ◌≤◌, ◌<◌, ◌+◌, ◌-◌, ⊤, ◌^◌, ℕ, List, None, IfOk};
ghost use Rattle.std.specs.Prelude.{length};
ghost use Rattle.mr_certform.specs.declared.grammar_state.Item.{Item as Read};
ghost use Rattle.mr_certform.specs.declared.grammar_state.Item.TheVariants.{End};
ghost use Rattle.mr_certform.specs.Walking.{items_left, halt};
ghost use Rattle.mr_certform.specs.Streaming.{stream, Gives};
ghost use Rattle.mr_verdict.specs.Items.{CanCome, Took, Halts};

use crate::answers::No;
use mr_certform::{Item, StreamFault, StreamWalker, Walker};
use mr_store::CountedRead;
use std::alloc::AllocError;

/// Why there is no item.
#[derive(Clone, Copy, Debug, PartialEq, Eq, Drop)]
pub enum ItemError {
    Malformed { at: u64 },
    Device,
    /// The items have 2^63 bytes or more.
    TooLong,
}

/// Why the judge stops: a fault of the result, or items or outputs that it can't read.
#[derive(Clone, Copy, Debug, PartialEq, Eq, Drop)]
pub enum JudgeError {
    Fault(No),
    Device,
    TooLong,
    /// A read of the output of this partition failed.
    Output { partition: u64 },
    /// An output has 2^63 bytes or more.
    LongOutput,
}

impl From<ItemError> for JudgeError {
    ghost from_gives = { λ h s. s ≡ stop_of h };

    ghost use Rattle.mr_verdict.specs.Items.{stop_of};

    fn from(halt: ItemError) -> JudgeError {
        match halt {
            ItemError::Malformed { at } => JudgeError::Fault(No::Malformed { at }),
            ItemError::Device => JudgeError::Device,
            ItemError::TooLong => JudgeError::TooLong,
        }
    }
}

impl From<No> for JudgeError {
    ghost use Rattle.mr_verdict.specs.declared.items.JudgeError.TheVariants.{Fault as at_fault};

    ghost from_gives = { λ n s. s ≡ at_fault n };

    fn from(fault: No) -> JudgeError {
        JudgeError::Fault(fault)
    }
}

impl From<AllocError> for JudgeError {
    ghost use Rattle.mr_verdict.specs.declared.answers.No.TheVariants.{OutOfMemory as no_memory};
    ghost use Rattle.mr_verdict.specs.declared.items.JudgeError.TheVariants.{Fault as at_fault};

    ghost from_gives = { λ _ s. s ≡ at_fault no_memory };

    fn from(_fault: AllocError) -> JudgeError {
        JudgeError::Fault(No::OutOfMemory)
    }
}

pub trait ItemSource {
    // These items may still come, and this is the place after the last of them.
    ghost gives: { Self → List Read → ℕ → Type 0 };

    // How many items may still come.
    ghost most: { Self → ℕ };

    // No fault was returned.
    ghost sound: { Self → Type 0 };

    // How many reads have failed.
    ghost failed: { Self → ℕ };

    // A malformed item is the only cause of an error.
    ghost steady: { Type 0 };

    fn next_item(&mut self) -> Result<Item, ItemError>
        requires sound { sound self.old }
        ensures sound { IfOk result (λ _. sound self.new) }
        ensures fewer { IfOk result (λ i. (i ≡ End → ⊥) → most self.new < most self.old) }
        ensures took { Took (gives self.old) (gives self.new) result }
        ensures some { CanCome (gives self.new) }
        ensures halts { Halts steady (failed self.old) (failed self.new) result };
}

impl<'a> ItemSource for Walker<'a> {
    ghost gives = { λ w is at. (is ≡ items_left w) × (at ≡ halt w) };

    ghost most = { λ w. length (items_left w) };

    ghost sound = { λ _. ⊤ };

    ghost failed = { λ _. 0 };

    ghost steady = { ⊤ };

    #[inline]
    fn next_item(&mut self) -> Result<Item, ItemError> {
        match self.next() {
            Ok(item) => Ok(item),
            Err(fault) => Err(ItemError::Malformed { at: fault.at }),
        }
    }
}

impl<R: CountedRead + Drop> ItemSource for StreamWalker<R> {
    ghost gives = { λ w is at. Gives (stream R.remaining w) is at };

    ghost most = { λ w. 2 ^ 63 - w.passed };

    ghost sound = { λ w. w.fault ≡ None };

    ghost failed = { λ w. R.failed w.reader };

    ghost steady = { ⊥ };

    #[inline]
    fn next_item(&mut self) -> Result<Item, ItemError> {
        if self.place() >= 1 << 63 {
            return Err(ItemError::TooLong);
        }
        match self.next() {
            Ok(item) => Ok(item),
            Err(StreamFault::Malformed { at }) => Err(ItemError::Malformed { at }),
            Err(StreamFault::Device) => Err(ItemError::Device),
        }
    }
}
