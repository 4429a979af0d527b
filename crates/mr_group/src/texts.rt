//! Texts in one buffer, one behind another, each with its place.
ghost use Rattle.std.specs.Prelude.{◌≡◌, ◌+◌, ◌<◌, ◌++◌, ◌∷◌, [], IfOk, IsTrue};
ghost use Rattle.std.specs.Prelude.{OnOk, OnErr, length, slice_range};
ghost use Rattle.mr_group.specs.Interner.{IsKeyAt, key_at};

use mr_bytes::Span;
use std::alloc::{AllocError, Global};
use std::marker::Model;

/// Texts in one buffer, less than 4 GiB.
#[derive(Drop)]
pub struct Texts {
    bytes: Vec<u8>,
    spans: Vec<Span>,
}

impl Model for Texts {
    ghost use Rattle.std.specs.Prelude.{ℕ, List};
    ghost use Rattle.std.specs.List.{AllByRecursion};
    ghost use Rattle.mr_group.specs.Interner.{IsWithin, texts_at};

    ghost Value = { List (List ℕ) };

    ghost view = { λ t. texts_at t.bytes.items t.spans.items };

    ghost invariant = { λ t. AllByRecursion (IsWithin t.bytes.items) t.spans.items };
}

fn span_behind(bytes: usize, text: &[u8]) -> Result<Span, AllocError>
    ensures start { IfOk result (λ s. s.start ≡ bytes) }
    ensures end { IfOk result (λ s. s.end ≡ bytes + length text.now) }
{
    let most = u32::MAX as usize;
    let count = text.len();
    if most < bytes || most - bytes < count {
        return Err(AllocError);
    }
    Ok(Span {
        start: bytes as u32,
        end: (bytes + count) as u32,
    })
}

/// Whether the span begins there, and its bytes are the key. Reads the bytes without the span, so
/// that nothing waits for it.
fn is_key_at(bytes: &[u8], span: Span, start: usize, key: &[u8]) -> bool
    ensures { IsTrue result → slice_range bytes.now span.start span.end ≡ key.now }
{
    let end = start.saturating_add(key.len());
    if bytes.len() < end {
        return false;
    }
    &bytes[start..end] == key && span.start as usize == start && span.end as usize == end
}

impl Texts {
    pub(crate) fn new(alloc: Global) -> Texts
        ensures { result ≡ [] }
    {
        Texts {
            bytes: Vec::new(alloc),
            spans: Vec::new(alloc),
        }
    }

    /// How many texts there are.
    pub fn len(&self) -> usize
        ensures { result ≡ length self.now }
    {
        self.spans.len()
    }

    /// Text `i`, from 0.
    pub fn get(&self, i: usize) -> &[u8]
        requires { i < length self.now }
        ensures { result.now ≡ key_at self.now i }
    {
        let span = self.spans[i];
        &self.bytes[span.start as usize..span.end as usize]
    }

    /// Whether text `i` exists, begins with that byte of all, and is the key.
    pub(crate) fn is_at(&self, i: usize, start: usize, key: &[u8]) -> bool
        ensures { IsTrue result → IsKeyAt self.now i key.now }
    {
        i < self.len() && is_key_at(&self.bytes, self.spans[i], start, key)
    }

    /// How many bytes all texts have.
    pub(crate) fn byte_count(&self) -> usize {
        self.bytes.len()
    }

    pub(crate) fn push(&mut self, text: &[u8]) -> Result<(), AllocError>
        ensures ok { OnOk result (self.new ≡ self.old ++ text.now ∷ []) }
        ensures err { OnErr result (self.new ≡ self.old) }
    {
        let span = span_behind(self.bytes.len(), text)?;
        self.bytes.reserve(text.len())?;
        self.spans.reserve(1)?;
        // There is room for both, so nothing fails after a change.
        self.bytes.extend_from_slice(text)?;
        self.spans.push_reserved(span);
        Ok(())
    }

    pub(crate) fn clear(&mut self)
        ensures { self.new ≡ [] }
    {
        self.bytes.clear();
        self.spans.clear();
    }
}
