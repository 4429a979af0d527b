//! Compares a key's lines in a part of a result with the text of its group.
//!
//! The key of a line is what is before its last tab. The lines that have the key must be those of
//! the text, in turn, and none must be missing. A key without a line, and no text, agree.
//! Cost: one pass over the part, whatever bytes it holds; no memory.
ghost use Rattle.std.specs.Prelude.{◌≡◌, ◌↔◌, ◌≤◌, ◌<◌, ◌+◌, ◌∷◌, [], MatchOption};
ghost use Rattle.std.specs.Prelude.{drop, false, length, map, true};
ghost use Rattle.std.specs.Prelude.{if◌then◌else◌, slice_range};
ghost use Rattle.mr_records.specs.Records.{records_from};
ghost use Rattle.mr_explain.specs.Compared.{answer_of, comparison, is_key, key_of_line};
ghost use Rattle.mr_explain.specs.Compared.{with_feed};

use memchr::memrchr;
use mr_records::record_end;

/// What a part has for a key.
#[derive(Clone, Copy)]
pub enum Comparison<'a> {
    /// Just the lines of the key's text.
    Agrees,
    /// This line, without its line feed, where another or none should be.
    Differs(&'a [u8]),
    /// No line where there should be one.
    NoLine,
}

fn has_key(line: &[u8], key: &[u8]) -> bool
    ensures { result ≡ is_key key.now (key_of_line line.now) }
{
    match memrchr(b'\t', line) {
        Some(at) => &line[..at] == key,
        None => false,
    }
}

/// The line of the text that begins at `from`, with its line feed, if it has one.
fn line_from(text: &[u8], from: usize) -> Option<&[u8]>
    ensures next { MatchOption result (records_from from (drop from text.now) ≡ [])
        (λ l. map (with_feed text.now) (records_from from (drop from text.now))
        ≡ l.now ∷ map (with_feed text.now)
        (records_from (from + length l.now) (drop (from + length l.now) text.now))) }
    ensures within { MatchOption result (length text.now ≤ from)
        (λ l. from + length l.now ≤ length text.now) }
{
    let end = record_end(text, from)?;
    Some(&text[from..text.len().min(end + 1)])
}

/// Where the text goes on behind a line of the part: behind its own line, which must be the same,
/// if the part's line has the key, and else where it was. `None` if the part's line differs.
fn text_behind(line: &[u8], key: &[u8], text: &[u8], from: usize) -> Option<usize>
    requires { from ≤ length text.now }
    ensures within { MatchOption result (0 ≤ 0) (λ next. next ≤ length text.now) }
    ensures other { is_key key.now (key_of_line line.now) ≡ false → result ≡ Some from }
    ensures same { is_key key.now (key_of_line line.now) ≡ true
        → MatchOption result
        (IsNotNext line.now (map (with_feed text.now) (records_from from (drop from text.now))))
        (λ next. map (with_feed text.now) (records_from from (drop from text.now))
        ≡ line.now ∷ map (with_feed text.now) (records_from next (drop next text.now))) }
{
    if !has_key(line, key) {
        return Some(from);
    }
    let expected = line_from(text, from)?;
    if line != expected {
        return None;
    }
    Some(from + expected.len())
}

ghost use Rattle.mr_explain.specs.Compared.{Agrees, IsNotNext, lines_of, lines_with};

/// Compares the lines of a part that have the key with the lines of the text of the key's group,
/// which is empty for a key without values. Reads the part as a stranger's bytes.
pub fn compare<'p>(part: &'p [u8], key: &[u8], text: &[u8]) -> Comparison<'p>
    ensures answer { answer_of result ≡ comparison part.entry.now key.now text.now }
    ensures agrees { (answer_of result ≡ Agrees)
        ↔ (lines_with part.entry.now key.now ≡ lines_of text.now) }
{
    let mut at = 0;
    let mut expected = 0;
    while let Some(end) = record_end(part, at) {
        let line = &part[at..part.len().min(end + 1)];
        let Some(next) = text_behind(line, key, text, expected) else {
            return Comparison::Differs(&part[at..end]);
        };
        expected = next;
        at = end + 1;
    }
    if expected < text.len() {
        Comparison::NoLine
    } else {
        Comparison::Agrees
    }
}
