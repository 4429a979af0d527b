//! Files by name, behind a trait whose contract says what bytes a name holds.
//!
//!     Store    MemoryFiles     clauses name the bytes
//!              DiskFiles       clauses know nothing of bytes: people read `disk.rt` for that
//!     read     read_file, read_file_within, read_range_within, read_stretch_within,
//!              read_result_within, result_readers
//!     write    write_file, write_files
//!
//! All code above is proved for every store, and can't find out which it has. Reading changes no
//! file, and writing no other than the named one. No call removes, renames or lists files, so parts
//! of an earlier run with more partitions stay.
#![tactic(auto)]

mod disk;
mod memory;
mod names;
mod ranges;
mod reading;
mod result;
mod store;
mod stretches;
mod writing;

pub use crate::disk::DiskFiles;
pub use crate::memory::{MemoryFiles, one_content_law};
pub use crate::names::{
    Inspect, PathKind, add_names, certificate_name, first_shared, folder_of, names_of_result,
    part_file, part_name, verdict_name,
};
pub use crate::ranges::{RangeFault, read_range_within};
pub use crate::reading::{LimitFault, read_file, read_file_within, read_result_within};
pub use crate::result::{NamedReader, ReadCause, ResultReaders, result_readers};
pub use crate::store::{FileFault, Store, WriteFault};
pub use crate::stretches::{Stretch, UnreadStretch, read_stretch_within};
pub use crate::writing::{write_file, write_files};
