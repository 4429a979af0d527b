//! Decodes bytes in one pass. Memory grows with what was read, never with what a count claims.
ghost use Rattle.std.specs.Prelude.{◌≡◌, MatchResult, IfOk, IfErr, true};
ghost use Rattle.mr_certform.specs.Spelling.{items_of, is_ended};
ghost use Rattle.mr_certform.specs.Value.{Spells};
ghost use Rattle.mr_certform.specs.Flat.{told_by, nothing_told};
ghost use Rattle.mr_certform.specs.Reading.{IsReadFault, IsHalted};

use crate::certificate::{Certificate, CertificateColumns};
use crate::grammar_state::{Item, Malformed};
use crate::walker::Walker;
use std::alloc::{AllocError, Global};
use thiserror::Error;

/// Why bytes are not a certificate.
#[derive(Clone, Copy, Debug, PartialEq, Eq, Drop, Error)]
pub enum ReadFault {
    /// No item of the grammar is at this place, in bytes from the front.
    #[error("Malformed at {at}")]
    Malformed { at: u64 },
    #[error("OutOfMemory")]
    OutOfMemory,
}

impl From<Malformed> for ReadFault {
    ghost use Rattle.mr_certform.specs.declared.reading.ReadFault.TheVariants.{Malformed as told_malformed};

    ghost from_gives = { λ m f. f ≡ told_malformed m.at };

    fn from(fault: Malformed) -> ReadFault {
        ReadFault::Malformed { at: fault.at }
    }
}

impl From<AllocError> for ReadFault {
    ghost use Rattle.mr_certform.specs.declared.reading.ReadFault.TheVariants.{OutOfMemory as told_memory};

    ghost from_gives = { λ _ f. f ≡ told_memory };

    fn from(_fault: AllocError) -> ReadFault {
        ReadFault::OutOfMemory
    }
}

fn told_values(alloc: Global, bytes: &[u8]) -> Result<CertificateColumns, ReadFault>
    ensures { MatchResult result
        (λ t. (is_ended (items_of bytes.now) ≡ true) × (t ≡ told_by nothing_told (items_of bytes.now)))
        (λ e. IsHalted bytes.now e) }
{
    let mut walker = Walker::new(bytes);
    let mut flat = CertificateColumns::new(alloc);
    loop {
        let item = walker.next()?;
        if let Item::End = item {
            return Ok(flat);
        }
        flat.take(item)?;
    }
}

/// The certificate that the bytes encode, or else the place after the last valid item.
pub fn read(alloc: Global, bytes: &[u8]) -> Result<Certificate, ReadFault>
    ensures spelled { IfOk result (λ c. Spells bytes.now c) }
    ensures fault { IfErr result (λ e. IsReadFault bytes.now e) }
{
    let flat = told_values(alloc, bytes)?;
    Ok(Certificate { flat })
}
