//! Files in memory, for tests of code over a store. Each may fail on demand. A look-up scans all.
ghost use Rattle.std.specs.Prelude.{◌≡◌, ◌∷◌, [], Some, IfOk, OnOk, OnErr, MatchOption, true, drop};
ghost use Rattle.mr_files.specs.declared.memory.Entry.{Entry};
ghost use Rattle.mr_files.specs.Memory.{Found, Stands, OneContent, IsPut, IsUnreadable};
ghost use Rattle.mr_files.specs.Memory.{IsUnwritable};

use crate::store::{Store, WriteFault};
use mr_store::{MemoryReader, MemoryWriter, ReadFault};
use std::alloc::{AllocError, Global};

/// The most bytes that one call reads or writes, so that larger files take several calls.
const MOST: usize = 1_000;

#[derive(Drop)]
pub(crate) struct Entry {
    name: String,
    bytes: Vec<u8>,
    fails: bool,
}

/// Files in memory. The newest file of a name counts.
#[derive(Drop)]
pub struct MemoryFiles {
    alloc: Global,
    entries: Vec<Entry>,
}

fn find<'a>(entries: &'a [Entry], name: &str) -> Option<&'a Entry>
    ensures { MatchOption result ((e : Entry) → ¬ Found entries.entry.now name.now e)
        (λ e. Found entries.entry.now name.now e.now) }
{
    for entry in entries {
        if entry.name.as_str() == name {
            return Some(entry);
        }
    }
    None
}

/// The bytes of the file of that name, unless it fails.
#[tactic(auto, using(crate::proofs::Entries::found_stands, crate::proofs::Entries::unreadable_none, crate::proofs::Entries::unreadable_failing))]
fn bytes_of<'a>(entries: &'a [Entry], name: &str) -> Option<&'a [u8]>
    ensures { MatchOption result (IsUnreadable entries.entry.now name.now)
        (λ b. Stands entries.entry.now name.now b.now) }
{
    match find(entries, name) {
        Some(entry) => if entry.fails {
            None
        } else {
            Some(&entry.bytes)
        },
        None => None,
    }
}

fn behind(bytes: &[u8], at: u64) -> &[u8]
    ensures { result.now ≡ drop at bytes.now }
{
    if at < bytes.len() as u64 {
        &bytes[at as usize..]
    } else {
        &[]
    }
}

#[tactic(auto, using(crate::proofs::Entries::unwritable_failing))]
fn does_fail(entries: &[Entry], name: &str) -> bool
    ensures { result ≡ true → IsUnwritable entries.now name.now }
{
    match find(entries, name) {
        Some(entry) => entry.fails,
        None => false,
    }
}

impl MemoryFiles {
    pub fn new(alloc: Global) -> MemoryFiles
        ensures { result.entries.items ≡ [] }
    {
        MemoryFiles {
            alloc,
            entries: Vec::new(alloc),
        }
    }

    #[tactic(auto, using(crate::proofs::Entries::is_put))]
    /// Puts a file in place of one of that name. If `fails`, each use of it fails.
    pub fn put(&mut self, name: &str, bytes: &[u8], fails: bool) -> Result<(), AllocError>
        ensures ok { OnOk result
            (IsPut self.old.entries.items self.new.entries.items name.now bytes.now fails) }
        ensures err { OnErr result (self.new.entries.items ≡ self.old.entries.items) }
    {
        let entry = Entry {
            name: String::from_str(self.alloc, name)?,
            bytes: Vec::from_slice(self.alloc, bytes)?,
            fails,
        };
        self.entries.insert(0, entry)?;
        Ok(())
    }
}

impl Store for MemoryFiles {
    type Reader = MemoryReader;

    type Writer = MemoryWriter;

    ghost holds = { λ m name bytes. Stands m.entries.items name bytes };

    ghost unreadable = { λ m name. IsUnreadable m.entries.items name };

    ghost unwritable = { λ m name. IsUnwritable m.entries.items name };

    ghost alike = { λ _ name other. name ≡ other };

    ghost known_as = { λ _ name id. id ≡ Some name };

    fn is_same_folder(&self, name: &str, other: &str) -> bool {
        name == other
    }

    fn identity(&self, alloc: Global, name: &str) -> Result<Option<String>, AllocError> {
        Ok(Some(String::from_str(alloc, name)?))
    }

    fn try_open(&self, name: &str) -> Result<(), ReadFault> {
        match bytes_of(&self.entries, name) {
            Some(_) => Ok(()),
            None => Err(ReadFault::Device),
        }
    }

    fn reader_from(&self, alloc: Global, name: &str, at: u64) -> Result<MemoryReader, ReadFault> {
        match bytes_of(&self.entries, name) {
            Some(bytes) => {
                let bytes = Vec::from_slice(alloc, behind(bytes, at))?;
                Ok(MemoryReader::new(bytes, MOST, None))
            }
            None => Err(ReadFault::Device),
        }
    }

    fn writer(&mut self, alloc: Global, name: &str) -> Result<MemoryWriter, WriteFault> {
        if does_fail(&self.entries, name) {
            return Err(WriteFault::Device);
        }
        Ok(MemoryWriter::new(alloc, MOST, None))
    }

    #[tactic(auto, using(crate::proofs::Entries::put_stands, crate::proofs::Entries::put_only, crate::proofs::Entries::put_others, crate::proofs::Entries::put_still, crate::proofs::Entries::same_others))]
    fn close(&mut self, name: &str, writer: MemoryWriter) -> Result<(), AllocError> {
        self.put(name, writer.bytes(), false)
    }
}

/// A name holds at most one list of bytes, so the clauses of a store in memory name the bytes.
pub fn one_content_law()
    ensures { OneContent }
{}
