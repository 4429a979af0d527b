//! Scripts: standard input is one, and is answered by its directives, or by why there are none. With no bytes the text of
//! a fault is told too.
use crate::telling::Teller;
use mr_script::{Script, ScriptFault};
use std::io;

/// Answers standard input.
pub fn answer(teller: &Teller) -> io::Result<()> {
    let text = teller.all_bytes()?;
    if text.is_empty() {
        teller.line(&ScriptFault::OutOfMemory);
    }
    match Script::read(teller.alloc(), &text) {
        Ok(script) => teller.one(&script.directives()),
        Err(fault) => teller.line(&fault),
    }
    Ok(())
}
