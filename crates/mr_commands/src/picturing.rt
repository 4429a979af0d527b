//! `picture`: draws the history of a run as a page of HTML, and writes it.
//!
//! What can be refused is refused before the page is written. The line is made before too, so that
//! nothing fails behind it.
ghost use Rattle.std.specs.Prelude.{◌≡◌, ◌⊎◌, ◌∷◌, [], List, ℕ, IfErr, IfOk, OnOk, string_bytes};
ghost use Rattle.mr_files.specs.Holding.{ChangesAmong};
ghost use Rattle.mr_picture.specs.Histories.{IsReadable};
ghost use Rattle.mr_commands.specs.Pictures.{AnswersPicture, HasPage, IsApart};
ghost use Rattle.mr_commands.specs.Pictures.{IsPageRefused, IsPictureRefusal, IsPictureUnanswered};
ghost use Rattle.mr_commands.specs.Pictures.{IsUndrawn, drawn_line};

use crate::counts::Facts;
use crate::input::name_given;
use crate::texts::CommandOutput;
use mr_args::{Fault, PictureOptions};
use mr_files::{Store, first_shared, read_file, write_file};
use mr_picture::{Page, PictureFault, draw_page};
use std::alloc::{AllocError, Global};

/// A page to be written: what it is titled with, and its file.
#[derive(Clone, Copy)]
pub struct PagePlan<'a> {
    pub title: &'a str,
    pub page: &'a str,
}

fn page_of(alloc: Global, title: &str, history: &[u8]) -> Result<Page, Fault>
    ensures counted { IfOk result (λ p. IsReadable history.now p.events) }
    ensures refused { IfErr result (IsUndrawn history.now) }
{
    match draw_page(alloc, title, history) {
        Ok(page) => Ok(page),
        Err(PictureFault::BadHistory { line }) => Err(Fault::BadHistory { line }),
        Err(PictureFault::OutOfMemory) => Err(Fault::OutOfMemory),
    }
}

fn write_page<S: Store>(store: &mut S, alloc: Global, name: &str, page: &Page) -> Result<(), Fault>
    ensures drawn { OnOk result (HasPage (S.holds store.new) name.now) }
    ensures others { ChangesAmong (S.holds store.old) (S.holds store.new) (name.now ∷ []) }
    ensures refused { IfErr result
        (IsPageRefused (S.holds store.old) (S.holds store.new) (S.unwritable store.old) name.now) }
{
    write_file(store, alloc, name, page.text.as_bytes())?;
    Ok(())
}

/// Draws a history, and writes the page. Nothing else is written.
pub fn draw<S: Store>(
    store: &mut S,
    alloc: Global,
    plan: &PagePlan<'_>,
    history: &[u8],
) -> Result<u64, Fault>
    ensures counted { IfOk result (IsReadable history.now) }
    ensures drawn { OnOk result (HasPage (S.holds store.new) plan.now.page.now) }
    ensures others { ChangesAmong (S.holds store.old) (S.holds store.new) (plan.now.page.now ∷ []) }
    ensures refused { IfErr result (λ e. IsUndrawn history.now e
        ⊎ IsPageRefused (S.holds store.old) (S.holds store.new) (S.unwritable store.old)
        plan.now.page.now e) }
{
    let page = page_of(alloc, plan.title, history)?;
    write_page(store, alloc, plan.page, &page)?;
    Ok(page.events)
}

fn line_of(alloc: Global, events: u64) -> Result<String, AllocError>
    ensures { IfOk result (λ text. string_bytes text ≡ drawn_line events) }
{
    format!(in alloc; "drawn: {events} events\n")
}

/// Reads a history, tests that the page is another file, and draws it.
fn draw_asked<S: Store>(store: &S, alloc: Global, asked: &PictureOptions<'_>) -> Result<Page, Fault>
    ensures drawn { IfOk result (λ p. (history : List ℕ) × S.holds store.now asked.now.history.now history
        × IsApart (S.known_as store.now) asked.now × IsReadable history p.events) }
    ensures refused { IfErr result (λ e. (e ≡ Fault.OutOfMemory)
        ⊎ IsPictureRefusal (S.holds store.now) (S.unreadable store.now) (S.known_as store.now) asked.now e) }
{
    let history = read_file(store, alloc, asked.history)?;
    let read = name_given(alloc, Some(asked.history))?;
    let written = name_given(alloc, Some(asked.page))?;
    if let Some(shared) = first_shared(store, alloc, read.as_slice(), written.as_slice())? {
        return Err(Fault::SameFile(shared));
    }
    page_of(alloc, asked.history, history.as_slice())
}

/// Draws the history of that name, and writes the page. It reports the line once the page is written.
pub fn picture<S: Store>(
    store: &mut S,
    alloc: Global,
    asked: &PictureOptions<'_>,
) -> Result<CommandOutput, Fault>
    ensures status { IfOk result (λ said. said.status ≡ 0) }
    ensures done { IfOk result (λ said. AnswersPicture (S.holds store.old) (S.holds store.new)
        (S.known_as store.old) asked.now (string_bytes said.text)) }
    ensures facts { IfOk result (λ said. said.facts ≡ Facts.Nothing) }
    ensures others { ChangesAmong (S.holds store.old) (S.holds store.new) (asked.now.page.now ∷ []) }
    ensures refused { IfErr result (IsPictureUnanswered (S.holds store.old) (S.holds store.new)
        (S.unreadable store.old) (S.unwritable store.old) (S.known_as store.old) asked.now) }
{
    let page = draw_asked(store, alloc, asked)?;
    let text = line_of(alloc, page.events)?;
    write_page(store, alloc, asked.page, &page)?;
    Ok(CommandOutput {
        text,
        status: 0,
        facts: Facts::Nothing,
    })
}
