//! Parses the parts of a history's line, leniently: words that are to be there aren't looked at.
ghost use Rattle.std.specs.Prelude.{◌≡◌, ◌<◌, IfOk, IfSome, List, MatchOption, None, Some, ℕ};
ghost use Rattle.std.specs.Prelude.{length};
ghost use Rattle.std.specs.List.{AllByRecursion};
ghost use Rattle.mr_picture.specs.Histories.{AreSmallIn, IsSmall};
ghost use Rattle.mr_picture.specs.Parsing.{answer_of, end_of, event_by, event_of};
ghost use Rattle.mr_picture.specs.Parsing.{next_number, number_behind, parted};
ghost use Rattle.mr_picture.specs.Parsing.{AreSmallAnswered, parts_of, shape_of, spaced};

use crate::entries::Answer;
use mr_bytes::cut;
use mr_core::{End, Event, JobFault, Limits, Shape};
use mr_script::number_of;
use std::alloc::{AllocError, Global};

/// Splits at the first space.
#[tactic(auto, unfolding(crate::specs::Parsing::parted))]
fn parted(text: &[u8]) -> (&[u8], &[u8])
    ensures value { (result.0.now, result.1.now) ≡ parted text.entry.now }
    ensures shorter { 0 < length text.entry.now → length result.1.now < length text.entry.now }
{
    match cut(text, b' ') {
        Some(parts) => parts,
        None => (text, b""),
    }
}

/// The first word as a number, and what is behind it.
#[tactic(auto, unfolding(crate::specs::Parsing::next_number))]
fn next_number(text: &[u8]) -> Option<(u32, &[u8])>
    ensures value { MatchOption result (next_number text.entry.now ≡ None)
        (λ r. next_number text.entry.now ≡ Some (r.0, r.1.now)) }
    ensures shorter { IfSome result (λ r. length r.1.now < length text.entry.now) }
    ensures small { IfSome result (λ r. IsSmall r.0) }
{
    if text.is_empty() {
        return None;
    }
    let (word, rest) = parted(text);
    let number = number_of(word)?;
    Some((number, rest))
}

/// The second word as a number, and what is behind it.
#[tactic(auto, unfolding(crate::specs::Parsing::number_behind))]
fn number_behind(text: &[u8]) -> Option<(u32, &[u8])>
    ensures value { MatchOption result (number_behind text.entry.now ≡ None)
        (λ r. number_behind text.entry.now ≡ Some (r.0, r.1.now)) }
    ensures small { IfSome result (λ r. IsSmall r.0) }
{
    let (_, rest) = parted(text);
    next_number(rest)
}

#[tactic(auto, unfolding(crate::specs::Parsing::event_by))]
fn event_by(word: &[u8], attempt: u32, number: u32) -> Option<Event>
    ensures value { result ≡ event_by word.now attempt number }
    ensures small { IfSome result AreSmallIn }
{
    if word == b"fetch".as_slice() {
        return Some(Event::Fetch(attempt, number));
    }
    if word == b"map-done".as_slice() {
        return Some(Event::MapDone(attempt, u64::from(number)));
    }
    if word == b"map-failed".as_slice() {
        return Some(Event::MapFailed(attempt, number));
    }
    if word == b"reduce-done".as_slice() {
        return Some(Event::ReduceDone(attempt, u64::from(number)));
    }
    if word == b"damaged".as_slice() {
        return Some(Event::Damaged(attempt, number));
    }
    None
}

#[tactic(auto, unfolding(crate::specs::Parsing::event_of, crate::specs::Parsing::event_with))]
fn event_of(text: &[u8]) -> Option<Event>
    ensures value { result ≡ event_of text.now }
    ensures small { IfSome result AreSmallIn }
{
    let (word, rest) = parted(text);
    if word == b"ask".as_slice() {
        return Some(Event::Ask(number_of(rest)?));
    }
    if word == b"lose".as_slice() {
        return Some(Event::Lose(number_of(rest)?));
    }
    let (attempt, rest) = number_behind(rest)?;
    let (number, _) = number_behind(rest)?;
    event_by(word, attempt, number)
}

#[tactic(auto, unfolding(crate::specs::Parsing::end_of))]
fn end_of(text: &[u8]) -> Option<End>
    ensures { result ≡ end_of text.now }
{
    if text == b"done".as_slice() {
        return Some(End::Done);
    }
    if text == b"dismissed".as_slice() {
        return Some(End::Dismissed);
    }
    if text == b"failed TooManyAttempts".as_slice() {
        return Some(End::Failed(JobFault::TooManyAttempts));
    }
    if text == b"failed TooManySkips".as_slice() {
        return Some(End::Failed(JobFault::TooManySkips));
    }
    if text == b"failed NoWorkers".as_slice() {
        return Some(End::Failed(JobFault::NoWorkers));
    }
    None
}

/// An answer, and the text of the records that it leaves out.
#[tactic(auto, unfolding(crate::specs::Parsing::answer_of, crate::specs::Parsing::answer_with))]
fn answer_of(text: &[u8]) -> Option<(Answer, &[u8])>
    ensures value { MatchOption result (answer_of text.entry.now ≡ None)
        (λ r. answer_of text.entry.now ≡ Some (r.0, r.1.now)) }
    ensures small { IfSome result (λ r. AreSmallAnswered r.0) }
{
    let (word, rest) = parted(text);
    if word == b"map".as_slice() {
        let (attempt, rest) = number_behind(rest)?;
        let (split, rest) = number_behind(rest)?;
        return Some((Answer::Map { attempt, split }, rest));
    }
    if word == b"reduce".as_slice() {
        let (attempt, rest) = number_behind(rest)?;
        let (partition, rest) = number_behind(rest)?;
        return Some((Answer::Reduce { attempt, partition }, rest));
    }
    if word == b"stop".as_slice() {
        return Some((Answer::Stop(end_of(rest)?), b""));
    }
    if word == b"output".as_slice() {
        let output = u64::from(number_of(rest)?);
        return Some((Answer::Region { output }, b""));
    }
    if word == b"wait".as_slice() {
        return Some((Answer::Wait, b""));
    }
    if word == b"gone".as_slice() {
        return Some((Answer::Gone, b""));
    }
    if word == b"accepted".as_slice() {
        return Some((Answer::Accepted, b""));
    }
    if word == b"ignored".as_slice() {
        return Some((Answer::Ignored, b""));
    }
    None
}

/// The numbers at the front, with single spaces between them.
pub(crate) fn numbers_in(alloc: Global, text: &[u8]) -> Result<Vec<u32>, AllocError>
    ensures small { IfOk result (λ v. AllByRecursion IsSmall v.items) }
    ensures only { IfOk result (λ v. (ns : List ℕ) → AllByRecursion IsSmall ns
        → text.now ≡ spaced ns → v.items ≡ ns) }
{
    let mut numbers = Vec::new(alloc);
    let mut rest = text;
    while let Some((number, more)) = next_number(rest) {
        numbers.push(number)?;
        rest = more;
    }
    Ok(numbers)
}

/// The event, the answer and the text of the records to leave out that the first line may have.
#[tactic(auto, unfolding(crate::specs::Parsing::parts_of))]
pub(crate) fn parts_of(text: &[u8]) -> Option<(Event, Answer, &[u8])>
    ensures value { MatchOption result (parts_of text.entry.now ≡ None)
        (λ r. parts_of text.entry.now ≡ Some (r.0, r.1, r.2.now)) }
    ensures small { IfSome result (λ r. AreSmallIn r.0 × AreSmallAnswered r.1) }
{
    let (told, behind) = cut(text, b':')?;
    let (reply, _) = cut(behind, b'\n')?;
    let event = event_of(told)?;
    let (_, reply) = parted(reply);
    let (answer, left_out) = answer_of(reply)?;
    let (_, left_out) = parted(left_out);
    Some((event, answer, left_out))
}

/// The shape that the first line may have.
#[tactic(auto, unfolding(crate::specs::Parsing::shape_of, crate::specs::Parsing::shape_in))]
pub(crate) fn shape_of(text: &[u8]) -> Option<Shape>
    ensures { result ≡ shape_of text.now }
{
    let (line, _) = cut(text, b'\n')?;
    let (_, rest) = parted(line);
    let (_, rest) = parted(rest);
    let (maps, rest) = number_behind(rest)?;
    let (parts, rest) = number_behind(rest)?;
    let (workers, rest) = number_behind(rest)?;
    let (attempts, rest) = number_behind(rest)?;
    let (skips, _) = number_behind(rest)?;
    Some(Shape {
        maps,
        parts,
        workers,
        limits: Limits { attempts, skips },
    })
}
