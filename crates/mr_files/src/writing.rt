//! Writes a result.
//!
//!     part-00000  part-00001  ...  certificate      each: writer, all bytes, flush, close
//!
//! One file is open at a time, and the certificate is the last. The first fault ends the writing:
//! the files before are whole, that one has a front part of its bytes or is as it was, and those
//! after it are as they were. A fault names its file, unless memory was lacking.
//! Cost: the certificate may be encoded while it is written, so its bytes need not be in memory.
ghost use Rattle.std.specs.Prelude.{◌≡◌, ◌≤◌, ◌<◌, length, ◌∷◌, [], ◌++◌, ℕ};
ghost use Rattle.std.specs.Prelude.{List, OnOk, IfErr, string_bytes};
ghost use Rattle.mr_files.specs.Refusals.{IsUnwritten, IsWriteRefusal};
ghost use Rattle.mr_input.specs.Files.{contents};
ghost use Rattle.mr_files.specs.Holding.{Begins, Holding, ChangesOnly, ChangesAmong};
ghost use Rattle.mr_files.specs.Names.{part_names, name_of_part, name_of_certificate, result_names};

use crate::names::{certificate_name, part_name};
use crate::store::{FileFault, Store, WriteFault};
use mr_store::{Bytes, CountedWrite, Device, Encode, write_encoded};
use std::alloc::Global;

fn write_encoded_file<S: Store, C: Encode>(
    store: &mut S,
    alloc: Global,
    name: String,
    content: &C,
) -> Result<(), FileFault>
    ensures whole { OnOk result (S.holds store.new (string_bytes name) (C.text content.now)) }
    ensures begins { Begins (S.holds store.old) (S.holds store.new) (string_bytes name) (C.text content.now) }
    ensures others { ChangesOnly (S.holds store.old) (S.holds store.new) (string_bytes name) }
    ensures refused { IfErr result (λ e. IsUnwritten (S.unwritable store.old) (string_bytes name) e) }
    ensures still { (n : List ℕ) → S.unwritable store.new n → S.unwritable store.old n }
{
    let mut writer = match store.writer(alloc, name.as_str()) {
        Ok(writer) => writer,
        Err(WriteFault::OutOfMemory) => return Err(FileFault::OutOfMemory),
        Err(WriteFault::Device) => return Err(FileFault::CannotWrite(name)),
    };
    let answer = write_encoded(&mut writer, content);
    let lacked_memory = writer.is_out_of_memory();
    store.close(name.as_str(), writer)?;
    match answer {
        Ok(()) => Ok(()),
        Err(Device) if lacked_memory => Err(FileFault::OutOfMemory),
        Err(Device) => Err(FileFault::CannotWrite(name)),
    }
}

/// Writes the file of that name. A fault carries the name.
pub fn write_file<S: Store>(
    store: &mut S,
    alloc: Global,
    name: &str,
    bytes: &[u8],
) -> Result<(), FileFault>
    ensures whole { OnOk result (S.holds store.new name.now bytes.now) }
    ensures begins { Begins (S.holds store.old) (S.holds store.new) name.now bytes.now }
    ensures others { ChangesOnly (S.holds store.old) (S.holds store.new) name.now }
    ensures refused { IfErr result (λ e. IsUnwritten (S.unwritable store.old) name.now e) }
    ensures still { (n : List ℕ) → S.unwritable store.new n → S.unwritable store.old n }
{
    let name = String::from_str(alloc, name)?;
    write_encoded_file(store, alloc, name, &Bytes(bytes))
}

/// Writes the outputs to `part-00000` and so on, in order, then `certificate`, which may be encoded
/// while it is written. After success all are whole; no other file changes.
pub fn write_files<S: Store, C: Encode>(
    store: &mut S,
    alloc: Global,
    dir: &str,
    outputs: &[Vec<u8>],
    certificate: &C,
) -> Result<(), FileFault>
    ensures outputs { OnOk result (Holding (S.holds store.new)
        (part_names dir.now (length outputs.now)) (contents outputs.now)) }
    ensures certificate { OnOk result
        (S.holds store.new (name_of_certificate dir.now) (C.text certificate.now)) }
    ensures others { ChangesAmong (S.holds store.old) (S.holds store.new)
        (result_names dir.now (length outputs.now)) }
    ensures refused { IfErr result
        (λ e. IsWriteRefusal (S.holds store.old) (S.holds store.new) (S.unwritable store.old)
        (result_names dir.now (length outputs.now))
        (contents outputs.now ++ C.text certificate.now ∷ []) e) }
{
    for part in 0..outputs.len() {
        let name = part_name(alloc, dir, part)?;
        write_encoded_file(store, alloc, name, &Bytes(&outputs[part]))?;
    }
    let name = certificate_name(alloc, dir)?;
    write_encoded_file(store, alloc, name, certificate)
}
