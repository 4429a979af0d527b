//! Reads files and writes results, over readers and writers that may fail at any call.
//!
//!     CountedRead   -> read_all, read_limited          -> a list of all bytes
//!                   -> ReadBuffer                      -> a window of the bytes to come
//!     CountedWrite  <- write_all, write_result         <- bytes in memory
//!                   <- write_encoded                   <- an `Encode` value, piece by piece
//!     Counted       is either, over a reader or a writer of std
//!
//! A read asks for at most 64 KiB. Its buffer is on the stack; only a `ReadBuffer` allocates one,
//! once. Writes are not buffered here: a value of many small pieces brings its own buffer, as a
//! certificate does. Writing allocates nothing, so it can't stop half-way for want of memory of its
//! own. No failed call is repeated. After a failure a list is as it was, and a file has only a
//! front part of its bytes, not flushed.
#![tactic(auto)]

mod device;
mod encode;
mod failures;
mod limited;
mod memory_reader;
mod memory_writer;
mod reading;
mod writing;

pub use crate::device::{CountedRead, CountedWrite, Device};
pub use crate::encode::{Bytes, Encode, write_encoded};
pub use crate::failures::{Counted, Failures, read_some, write_some};
pub use crate::limited::{LimitedFault, PIECE, bytes_asked, read_at_most, read_limited};
pub use crate::memory_reader::MemoryReader;
pub use crate::memory_writer::MemoryWriter;
pub use crate::reading::{ReadBuffer, ReadFault, read_all};
pub use crate::writing::{write_all, write_result, write_whole};
