//! Writes bytes whole, and the files of a result, each with its own writer.
ghost use Rattle.std.specs.Prelude.{◌≡◌, ◌⊎◌, [], OnOk, OnErr, MatchResult, length};
ghost use Rattle.mr_store.specs.Devices.{FailsOnly, TookAll, TookSome, AllTook, StoppedAt, texts};
ghost use Rattle.mr_store.specs.Devices.{with_bytes};

use crate::device::{CountedWrite, Device};

/// Writes all the bytes; the caller flushes. Makes no call for no bytes. After a failure only a
/// front part is written.
pub fn write_all<W: CountedWrite>(writer: &mut W, bytes: &[u8]) -> Result<(), Device>
    ensures whole { OnOk result (W.seen writer.new ≡ with_bytes (W.seen writer.old) bytes.now) }
    ensures beginning { OnErr result (TookSome (W.seen writer.old) (W.seen writer.new) bytes.now) }
    ensures none { bytes.now ≡ [] → writer.new ≡ writer.old }
    ensures fails { FailsOnly (W.can_fail writer.old) (W.lacked writer.new) result }
    ensures later { W.can_fail writer.new → W.can_fail writer.old }
{
    let mut rest = bytes;
    while !rest.is_empty() {
        let count = writer.write(rest)?;
        let (_, more) = rest.split_at(count);
        rest = more;
    }
    Ok(())
}

/// Writes all the bytes, and flushes, even for no bytes. After a failure only a front part is
/// written, and not flushed.
pub fn write_whole<W: CountedWrite>(writer: &mut W, bytes: &[u8]) -> Result<(), Device>
    ensures whole { OnOk result (TookAll (W.seen writer.old) (W.seen writer.new) bytes.now) }
    ensures beginning { OnErr result (TookSome (W.seen writer.old) (W.seen writer.new) bytes.now) }
    ensures fails { FailsOnly (W.can_fail writer.old) (W.lacked writer.new) result }
{
    write_all(writer, bytes)?;
    writer.flush()
}

fn write_parts<W: CountedWrite>(writers: &mut [W], outputs: &[Vec<u8>]) -> Result<(), Device>
    requires { length writers.old ≡ length outputs.now }
    ensures { MatchResult result (λ _. AllTook W.seen writers.old writers.new (texts outputs.now))
        (λ _. StoppedAt W.seen writers.old writers.new (texts outputs.now)) }
{
    for i in 0..outputs.len() {
        let writer = &mut writers[i];
        write_whole(writer, &outputs[i])?;
    }
    Ok(())
}

/// Writes each part with its own writer, in order, and the certificate last; flushes each after its
/// bytes, an empty one too. On `Device` the files before one are written whole, a front part of
/// that one is written, and nothing after it; a call of its writer failed.
pub fn write_result<W: CountedWrite>(
    writers: &mut [W],
    certificate_writer: &mut W,
    outputs: &[Vec<u8>],
    certificate: &[u8],
) -> Result<(), Device>
    requires { length writers.old ≡ length outputs.now }
    ensures parts { OnOk result (AllTook W.seen writers.old writers.new (texts outputs.now)) }
    ensures last { OnOk result
        (TookAll (W.seen certificate_writer.old) (W.seen certificate_writer.new) certificate.now) }
    ensures stopped { OnErr result
        ((StoppedAt W.seen writers.old writers.new (texts outputs.now)
        × (certificate_writer.new ≡ certificate_writer.old))
        ⊎ (AllTook W.seen writers.old writers.new (texts outputs.now)
        × TookSome (W.seen certificate_writer.old) (W.seen certificate_writer.new) certificate.now)) }
{
    write_parts(writers, outputs)?;
    write_whole(certificate_writer, certificate)
}
