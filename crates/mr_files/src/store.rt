//! A store of files: by name, each with a counted reader or writer.
//!
//!     reader, read ...                     opened at the first read at the latest
//!     writer, write ..., flush, close      created or emptied at the first call at the latest
//!
//! A write that fails leaves a front part of the bytes, or what was there before, and every other
//! file as it was. After `close` the file holds what was written, if all of that was flushed.
ghost use Rattle.std.specs.Prelude.{◌≡◌, ◌≢◌, ◌⊎◌, ℕ, Option, Some, List, [], OnOk, IfOk, false};
ghost use Rattle.std.specs.Prelude.{true, option_map, string_bytes};
ghost use Rattle.mr_files.specs.Holding.{Agrees, ChangesOnly, HoldsFrom, Shrinks};
ghost use Rattle.mr_store.specs.Devices.{Seen};

use mr_store::{CountedRead, CountedWrite, ReadFault};
use std::alloc::{AllocError, Global};

/// Why a file can't be written.
#[derive(Clone, Copy, Debug, PartialEq, Eq, Drop)]
pub enum WriteFault {
    Device,
    OutOfMemory,
}

impl From<AllocError> for WriteFault {
    ghost use Rattle.mr_files.specs.declared.store.WriteFault.TheVariants.{OutOfMemory as told_memory};

    ghost from_gives = { λ _ f. f ≡ told_memory };

    fn from(_fault: AllocError) -> WriteFault {
        WriteFault::OutOfMemory
    }
}

/// Files by name. The clauses speak of the bytes under a name, so code over a store is proved once
/// for every kind of store. A holder of `&` changes no file.
pub trait Store {
    type Reader: CountedRead + Drop;

    type Writer: CountedWrite + Drop;

    // The name holds these bytes.
    ghost holds: { Self → List ℕ → List ℕ → Type 0 };

    // The name's file can't be read, or can't be written.
    ghost unreadable: { Self → List ℕ → Type 0 };

    ghost unwritable: { Self → List ℕ → Type 0 };

    // Two names may lead to one folder.
    ghost alike: { Self → List ℕ → List ℕ → Type 0 };

    // A name may have this identity; pipes, sockets and devices have none.
    ghost known_as: { Self → List ℕ → Option (List ℕ) → Type 0 };

    /// Whether two names lead to one folder, as far as the store can see; equal names do.
    fn is_same_folder(&self, name: &str, other: &str) -> bool
        ensures same { result ≡ true → alike self.now name.now other.now }
        ensures apart { result ≡ false → name.now ≢ other.now };

    /// The identity of the file of that name, existing or not: names of one file have the same one.
    /// Pipes, sockets and devices have none, and may be read and written under any number of names.
    fn identity(&self, alloc: Global, name: &str) -> Result<Option<String>, AllocError>
        ensures known { IfOk result
            (λ i. known_as self.now name.now (option_map (λ text. string_bytes text) i)) };

    /// Whether the file can be opened; it closes the file again.
    fn try_open(&self, name: &str) -> Result<(), ReadFault>
        ensures refused { result ≡ Err ReadFault.Device → unreadable self.now name.now };

    /// A reader of the file. It may open the file as late as its first read.
    fn reader(&self, alloc: Global, name: &str) -> Result<Self::Reader, ReadFault>
        ensures bytes { IfOk result
            (λ r. (b : List ℕ) → Agrees (Self.Reader.remaining r) b → holds self.now name.now b) }
        ensures fails { IfOk result (λ r. Self.Reader.can_fail r → unreadable self.now name.now) }
        ensures refused { result ≡ Err ReadFault.Device → unreadable self.now name.now }
    {
        self.reader_from(alloc, name, 0)
    }

    /// A reader of the file's bytes from byte `at` on. It returns no byte where `at` is the file's
    /// end or lies behind it. It may open the file as late as its first read; where the file has no
    /// such places, as a pipe, that read fails unless `at` is 0.
    fn reader_from(&self, alloc: Global, name: &str, at: u64) -> Result<Self::Reader, ReadFault>
        ensures bytes { IfOk result (λ r. (b : List ℕ) → Agrees (Self.Reader.remaining r) b
            → HoldsFrom (holds self.now) name.now at b) }
        ensures fails { IfOk result (λ r. Self.Reader.can_fail r → unreadable self.now name.now) }
        ensures refused { result ≡ Err ReadFault.Device → unreadable self.now name.now };

    /// A writer, to pass to `close`. It may create or empty the file as late as its first call.
    fn writer(&mut self, alloc: Global, name: &str) -> Result<Self::Writer, WriteFault>
        ensures empty { IfOk result (λ w. Agrees (Self.Writer.seen w).contents []) }
        ensures begins { Shrinks (holds self.old) (holds self.new) name.now }
        ensures others { ChangesOnly (holds self.old) (holds self.new) name.now }
        ensures fails { IfOk result (λ w. Self.Writer.can_fail w → unwritable self.old name.now) }
        ensures refused { result ≡ Err WriteFault.Device → unwritable self.old name.now }
        ensures still { (n : List ℕ) → unwritable self.new n → unwritable self.old n };

    /// Ends the writing. The file holds the writer's contents if the writer delivered all of them.
    fn close(&mut self, name: &str, writer: Self::Writer) -> Result<(), AllocError>
        ensures stands { OnOk result ((Self.Writer.seen writer).handed_on ≡ (Self.Writer.seen writer).contents
            → (b : List ℕ) → Agrees (Self.Writer.seen writer).contents b → holds self.new name.now b) }
        ensures begins { (b : List ℕ) → holds self.new name.now b
            → holds self.old name.now b ⊎ ((Self.Writer.seen writer).contents ≡ Some b) }
        ensures others { ChangesOnly (holds self.old) (holds self.new) name.now }
        ensures still { (n : List ℕ) → unwritable self.new n → unwritable self.old n };
}

/// Why files were not read or written: the first one's name, or want of memory.
#[derive(Drop)]
pub enum FileFault {
    CannotRead(String),
    CannotWrite(String),
    OutOfMemory,
}

impl From<AllocError> for FileFault {
    ghost use Rattle.mr_files.specs.declared.store.FileFault.TheVariants.{OutOfMemory as told_memory};

    ghost from_gives = { λ _ f. f ≡ told_memory };

    fn from(_fault: AllocError) -> FileFault {
        FileFault::OutOfMemory
    }
}
