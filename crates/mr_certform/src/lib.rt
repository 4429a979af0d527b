//! The certificate of a result: it names, for each group of each partition, the pairs that made it.
//!
//!     bytes         -> Walker         -> items, one by one     (front.rt decodes, by a state)
//!     a reader      -> StreamWalker   -> items, one by one
//!     bytes         -> read           -> Certificate           (flat lists)
//!     Certificate   -> write, Encode  -> a list of bytes, or a writer
//!     a header, then partitions       -> write_header, write_partition -> a list of bytes
//!
//! Only the magic and the encoding of names depend on the version, so items and states have none.
//! Cost: a walk takes no memory but a reader's buffer; a `Certificate` takes 4 or 12 bytes a name
//! (`names.rt`) and 4 a group.
//! Source: docs/FORMATS.md, "The certificate".
#![tactic(auto)]

mod certificate;
mod front;
mod grammar_state;
mod laws;
mod names;
mod piecewise;
mod reading;
mod record_names;
mod short;
mod stream;
mod version;
mod walker;
mod write_buffer;
mod writing;

pub use crate::certificate::{Certificate, FlatGroups, GroupIter, Header, PartitionIter};
pub use crate::grammar_state::{GrammarState, Item, Malformed};
pub use crate::laws::{
    certificate_law, chunks_law, item_law, items_law, packed_law, pieces_law, text_law,
};
pub use crate::names::{NameColumn, Names};
pub use crate::piecewise::{partition_size_hint, write_header, write_partition};
pub use crate::reading::{ReadFault, read};
pub use crate::record_names::{NameNumbers, RecordNames};
pub use crate::stream::{StreamFault, StreamWalker};
pub use crate::version::{Version, VersionedCertificate};
pub use crate::walker::Walker;
pub use crate::writing::{WriteFault, write};
