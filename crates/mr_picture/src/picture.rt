//! The picture of a history: the text is read, the run is followed, and the page is drawn.
ghost use Rattle.std.specs.Prelude.{◌≡◌, IfErr, IfOk};
ghost use Rattle.mr_picture.specs.Histories.{IsReadable, IsRefused};

use crate::page::page_of;
use crate::reading::read_history;
use crate::tracking::follow;
use std::alloc::{AllocError, Global};
use thiserror::Error;

/// Why there is no picture.
#[derive(Clone, Copy, Debug, PartialEq, Eq, Drop, Error)]
pub enum PictureFault {
    /// The first line, from 1, that isn't one of a history.
    #[error("BadHistory line {line}")]
    BadHistory { line: u64 },
    #[error("OutOfMemory")]
    OutOfMemory,
}

impl From<AllocError> for PictureFault {
    ghost use Rattle.std.specs.Prelude.{◌≡◌};
    ghost use Rattle.mr_picture.specs.declared.picture.PictureFault.TheVariants.{OutOfMemory as told_memory};

    ghost from_gives = { λ _ f. f ≡ told_memory };

    fn from(_fault: AllocError) -> PictureFault {
        PictureFault::OutOfMemory
    }
}

/// A page that shows a run, and how many events it has.
#[derive(Drop)]
pub struct Page {
    pub text: String,
    pub events: u64,
}

/// Draws the page of the history that the text is, under a title.
pub fn draw_page(alloc: Global, title: &str, text: &[u8]) -> Result<Page, PictureFault>
    ensures ok { IfOk result (λ p. IsReadable text.now p.events) }
    ensures err { IfErr result (IsRefused text.now) }
{
    let history = read_history(alloc, text)?;
    let track = follow(alloc, &history)?;
    let text = page_of(alloc, title, &history, &track)?;
    let events = history.entries.len() as u64;
    Ok(Page { text, events })
}
