//! Names, values and bytes, which all other crates use; and who watches the progress of long work.
#![tactic(auto)]

ghost use Rattle.std.specs.Prelude.{◌≡◌, IfOk, OnOk, OnErr, ◌++◌};
ghost use Rattle.mr_bytes.specs.Bytes.{is_upper, is_word_byte, fold_byte, folded};

use std::alloc::{AllocError, Global};

mod columns;
mod hooks;
mod names;
mod words;

pub use columns::ValueColumn;
pub use hooks::{Gate, OpenGate, Phase, Progress, Throttle, Unwatched};
pub use names::{
    Pair, clone_of_name, clone_of_record, clone_of_span, clone_of_value, compare_keys,
    compare_names, compare_pairs, compare_records, is_same_name, is_same_record, is_same_span,
    is_same_value, order_law, sorted_law,
};
pub use words::{cut, next_word, word_law};

/// A part of a text, from the byte at `start` to before the byte at `end`.
#[derive(Clone, Copy, PartialEq, Eq, Debug)]
pub struct Span {
    pub start: u32,
    pub end: u32,
}

/// The name of an emitted pair: its split, its record's number there, and its place among the
/// record's pairs, each from 0. Names in order are pairs in the order of the input.
#[derive(Clone, Copy, PartialEq, Eq, PartialOrd, Ord, Debug)]
pub struct Name {
    pub split: u32,
    pub rec: u32,
    pub place: u32,
}

/// The name of a record: its split and its number there, both from 0.
#[derive(Clone, Copy, PartialEq, Eq, PartialOrd, Ord, Debug)]
pub struct RecordName {
    pub split: u32,
    pub rec: u32,
}

/// What a pair carries beside its key.
#[derive(Clone, Copy, PartialEq, Eq, Debug)]
pub enum Value {
    /// One occurrence.
    One,
    /// The place of a record: the number of its file, and the byte there at which it starts.
    At { file: u32, offset: u64 },
}

/// The part of a key that chooses its partition.
#[derive(Clone, Copy, PartialEq, Eq, Debug)]
pub enum By {
    /// The whole key.
    Key,
    /// The host of the resource that the key names.
    Host,
}

/// Whether the byte is an upper-case letter of ASCII, 0x41 to 0x5A.
pub fn is_upper(b: u8) -> bool
    ensures { result ≡ is_upper b }
{
    b.is_ascii_uppercase()
}

/// Whether a word may contain the byte: a letter or digit of ASCII, or a byte from 0x80 on.
pub fn is_word_byte(b: u8) -> bool
    ensures { result ≡ is_word_byte b }
{
    if b >= b'a' {
        b <= b'z' || b >= 0x80
    } else if b >= b'A' {
        b <= b'Z'
    } else {
        b.is_ascii_digit()
    }
}

/// The byte, an upper-case letter of ASCII made lower case.
pub fn fold_byte(b: u8) -> u8
    ensures { result ≡ fold_byte b }
{
    if is_upper(b) { b + 32 } else { b }
}

/// A folded copy of the bytes. Fails only for want of memory.
pub fn folded(alloc: Global, bytes: &[u8]) -> Result<Vec<u8>, AllocError>
    ensures { IfOk result (λ v. v.items ≡ folded bytes.now) }
{
    bytes.iter().map(|b| fold_byte(*b)).collect(alloc)
}

/// Folds each byte in place. Takes no memory.
pub fn fold_in_place(bytes: &mut [u8])
    ensures { bytes.new ≡ folded bytes.old }
{
    for b in bytes.iter_mut() {
        *b = fold_byte(*b);
    }
}
