//! Values that are written as bytes piece by piece, so that nobody holds all their bytes.
ghost use Rattle.std.specs.Prelude.{◌≡◌, ℕ, List, [], OnOk, OnErr};
ghost use Rattle.mr_store.specs.Devices.{FailsOnly, TookAll, TookSome, with_bytes};

use crate::device::{CountedWrite, Device};
use crate::writing::write_all;

/// A value that is written as bytes. Writing it takes no memory.
pub trait Encode {
    // The bytes of its encoding.
    ghost text: { Self → List ℕ };

    /// Writes all the bytes; the caller flushes. Makes no call for no bytes. After a failure only a
    /// front part is written.
    fn encode_to<W: CountedWrite>(&self, writer: &mut W) -> Result<(), Device>
        ensures whole { OnOk result (W.seen writer.new ≡ with_bytes (W.seen writer.old) (text self.now)) }
        ensures beginning { OnErr result (TookSome (W.seen writer.old) (W.seen writer.new) (text self.now)) }
        ensures none { text self.now ≡ [] → writer.new ≡ writer.old }
        ensures fails { FailsOnly (W.can_fail writer.old) (W.lacked writer.new) result }
        ensures later { W.can_fail writer.new → W.can_fail writer.old };
}

/// Bytes in memory, written as they are.
#[derive(Clone, Copy, Drop)]
pub struct Bytes<'a>(pub &'a [u8]);

impl<'a> Encode for Bytes<'a> {
    ghost text = { λ b. b.0.now };

    fn encode_to<W: CountedWrite>(&self, writer: &mut W) -> Result<(), Device> {
        write_all(writer, self.0)
    }
}

/// Writes all the bytes of a value, and flushes, even for no bytes. After a failure only a front
/// part is written, and not flushed.
pub fn write_encoded<W: CountedWrite, C: Encode>(writer: &mut W, spelled: &C) -> Result<(), Device>
    ensures whole { OnOk result (TookAll (W.seen writer.old) (W.seen writer.new) (C.text spelled.now)) }
    ensures beginning { OnErr result (TookSome (W.seen writer.old) (W.seen writer.new) (C.text spelled.now)) }
    ensures fails { FailsOnly (W.can_fail writer.old) (W.lacked writer.new) result }
{
    spelled.encode_to(writer)?;
    writer.flush()
}
