//! Reads a shard's part as a stream, and takes its SHA-256.
//!
//!     [ passed | held, in the digest | held only | not read ]
//!
//! Bytes are passed once they are merged. The digest may lack held bytes, so that another thread
//! can add them. Reading stops once the part is longer than its verdict says.
ghost use Rattle.std.specs.Prelude.{◌≡◌, ℕ, ◌≤◌, [], ◌++◌, List, OnOk, length, drop, ◌⊎◌, ◌↔◌, ◌+◌};
ghost use Rattle.std.specs.Prelude.{◌<◌, IfErr, IfOk, IsTrue, true, false, take, string_bytes};
ghost use Rattle.std.specs.Io.KnownBytes.{Consumes, IsAtEnd};
ghost use Rattle.sha2.specs.Sha256.{sha256};
ghost use Rattle.mr_shard_files.specs.Streams.{CountsDown, HasMore, HasRead, IsDigested, Moves};
ghost use Rattle.mr_shard_files.specs.Streams.{ReportsUnread, is_done as no_more, unread};

use crate::fault::ShardFault;
use memchr::memchr;
use mr_store::CountedRead;
use sha2::{Digest, Sha256};
use std::alloc::{AllocError, Global};
use std::marker::Model;

/// Bytes that were read and aren't passed yet.
#[derive(Drop)]
pub(crate) struct Held {
    bytes: Vec<u8>,
    from: usize,
}

impl Model for Held {
    ghost use Rattle.std.specs.Prelude.{ℕ, ◌≤◌, List, length, drop};

    ghost Value = { List ℕ };

    ghost view = { λ h. drop h.from h.bytes.items };

    ghost invariant = { λ h. h.from ≤ length h.bytes.items };
}

impl Held {
    pub fn new(alloc: Global) -> Held
        ensures { result ≡ [] }
    {
        Held {
            bytes: Vec::new(alloc),
            from: 0,
        }
    }

    pub fn bytes(&self) -> &[u8]
        ensures { result.now ≡ self.now }
    {
        &self.bytes[self.from..]
    }

    pub fn pass(&mut self, count: usize)
        requires { count ≤ length self.old }
        ensures { self.new ≡ drop count self.old }
    {
        self.from += count;
    }

    /// Removes passed bytes once they are at least as many as the rest, which is what moves.
    fn make_room(&mut self)
        ensures { self.new ≡ self.old }
    {
        let left = self.bytes.len() - self.from;
        if self.from >= left {
            self.bytes.as_mut_slice().copy_within(self.from.., 0);
            self.bytes.truncate(left);
            self.from = 0;
        }
    }

    pub fn push(&mut self, piece: &[u8]) -> Result<(), AllocError>
        ensures { OnOk result (self.new ≡ self.old ++ piece.now) }
    {
        self.make_room();
        self.bytes.extend_from_slice(piece)
    }
}

/// The most bytes that one read asks for.
const PIECE: usize = 65_536;

/// A part. `left` counts down the bytes in the verdict; `longer` if the part has more.
#[derive(Drop)]
pub(crate) struct Part<R: CountedRead + Drop> {
    name: String,
    reader: R,
    held: Held,
    pub hasher: Sha256,
    /// How many of the held bytes the digest contains.
    digested: usize,
    left: u64,
    longer: bool,
    ended: bool,
}

/// How many lines end from that place on, counted up to two.
fn ends_in(bytes: &[u8], from: usize) -> u8 {
    let behind = &bytes[from.min(bytes.len())..];
    match memchr(b'\n', behind) {
        None => 0,
        Some(at) if memchr(b'\n', &behind[at + 1..]).is_some() => 2,
        Some(_) => 1,
    }
}

/// The name of a file that can't be read or written, unless that lacked memory.
pub(crate) fn blamed(alloc: Global, name: &str, lacked: bool) -> Result<String, AllocError>
    ensures { IfOk result (λ n. (string_bytes n ≡ name.now) × (lacked ≡ false)) }
{
    if lacked {
        return Err(AllocError);
    }
    String::from_str(alloc, name)
}

impl<R: CountedRead + Drop> Part<R> {
    /// A part with `told` bytes in its verdict, none read yet.
    pub fn new(alloc: Global, name: String, reader: R, told: u64) -> Part<R>
        ensures name { result.name ≡ name }
        ensures reader { result.reader ≡ reader }
        ensures held { result.held ≡ [] }
        ensures read { HasRead told result [] }
        ensures ended { result.ended ≡ false }
    {
        Part {
            name,
            reader,
            held: Held::new(alloc),
            hasher: Sha256::new(),
            digested: 0,
            left: told,
            longer: false,
            ended: false,
        }
    }

    pub fn bytes(&self) -> &[u8]
        ensures { result.now ≡ self.now.held }
    {
        self.held.bytes()
    }

    /// Whether it reads no more.
    pub fn is_done(&self) -> bool
        ensures { result ≡ no_more self.now }
    {
        self.ended || self.longer
    }

    /// The held bytes that the digest lacks.
    pub fn undigested(&self) -> &[u8]
        ensures { result.now ≡ drop self.now.digested self.now.held }
    {
        let bytes = self.held.bytes();
        &bytes[self.digested.min(bytes.len())..]
    }

    fn read_piece(&mut self, alloc: Global) -> Result<(), ShardFault>
        requires { no_more self.old ≡ false }
        ensures moves { OnOk result (Moves R.remaining R.can_fail [] self.old self.new) }
        ensures falls { OnOk result (unread self.new < unread self.old) }
        ensures err { IfErr result (ReportsUnread (R.can_fail self.old.reader) (string_bytes self.old.name)) }
    {
        let mut buffer = [0u8; PIECE];
        let Ok(count) = self.reader.read(&mut buffer) else {
            let lacked = self.reader.is_out_of_memory();
            return Err(ShardFault::CannotRead(blamed(alloc, self.name.as_str(), lacked)?));
        };
        if count == 0 {
            self.ended = true;
            return Ok(());
        }
        self.held.push(&buffer[..count])?;
        match self.left.checked_sub(count as u64) {
            Some(left) => self.left = left,
            None => self.longer = true,
        }
        Ok(())
    }

    /// Reads until it holds `size` bytes and the ends of two lines, or can't read more. Of two
    /// lines in each window a merge takes one, so only a long line grows a window. A call
    /// looks at each byte once.
    pub fn fill(&mut self, alloc: Global, size: usize) -> Result<(), ShardFault>
        ensures moves { OnOk result (Moves R.remaining R.can_fail [] self.old self.new) }
        ensures err { IfErr result (ReportsUnread (R.can_fail self.old.reader) (string_bytes self.old.name)) }
    {
        let mut ends = ends_in(self.bytes(), 0);
        while (self.bytes().len() < size || ends < 2) && !self.is_done() {
            let before = self.bytes().len();
            self.read_piece(alloc)?;
            ends = ends.saturating_add(ends_in(self.bytes(), before));
        }
        Ok(())
    }

    fn digest_held(&mut self)
        ensures { IsDigested self.old self.new }
    {
        let bytes = self.held.bytes();
        self.hasher.update(&bytes[self.digested.min(bytes.len())..]);
        self.digested = bytes.len();
    }

    /// Keeps a digest that another thread took.
    pub fn keep_digest(&mut self, hasher: Sha256)
        requires { HasMore self.old.hasher (drop self.old.digested self.old.held) hasher }
        ensures { IsDigested self.old self.new }
    {
        self.hasher = hasher;
        self.digested = self.held.bytes().len();
    }

    pub fn pass(&mut self, count: usize)
        requires { count ≤ length self.old.held }
        ensures { Moves R.remaining R.can_fail (take count self.old.held) self.old self.new }
    {
        self.digest_held();
        self.held.pass(count);
        self.digested = self.held.bytes().len();
    }

    /// Passes all held bytes and frees their memory.
    fn let_go(&mut self, alloc: Global)
        ensures moves { Moves R.remaining R.can_fail self.old.held self.old self.new }
        ensures still { no_more self.new ≡ no_more self.old }
        ensures unread { unread self.new ≡ unread self.old }
    {
        self.digest_held();
        self.held = Held::new(alloc);
        self.digested = 0;
    }

    /// Reads to the end, with at most one piece in memory, and none afterwards.
    pub fn finish(&mut self, alloc: Global) -> Result<(), ShardFault>
        ensures moves { OnOk result ((passed : List ℕ) × Moves R.remaining R.can_fail passed self.old self.new) }
        ensures done { OnOk result (no_more self.new ≡ true) }
        ensures err { IfErr result (ReportsUnread (R.can_fail self.old.reader) (string_bytes self.old.name)) }
    {
        while !self.is_done() {
            self.let_go(alloc);
            self.read_piece(alloc)?;
        }
        self.let_go(alloc);
        Ok(())
    }

    /// Whether the bytes read have the verdict's length and this digest.
    pub fn has_digest(&self, digest: &[u8; 32]) -> Result<bool, AllocError>
        ensures { IfOk result (λ b. (told : ℕ) (bytes : List ℕ) → HasRead told self.now bytes
            → IsTrue b ↔ ((told ≡ length bytes) × (digest.now ≡ sha256 bytes))) }
    {
        if self.longer || self.left != 0 {
            return Ok(false);
        }
        let mut hasher = self.hasher.clone()?;
        hasher.update(self.undigested());
        let read = hasher.finalize();
        Ok(read.as_slice() == digest.as_slice())
    }
}
