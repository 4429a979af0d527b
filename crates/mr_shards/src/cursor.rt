//! Where a merge is in the shards' outputs, and which line comes next: a scan over the shards.
//!
//!     shard 0    head  cat 2 | rest
//!     shard 1    head  ant 5 | rest       next: `ant` of shard 1, then of shard 2
//!     shard 2    head  ant 1 | rest
//!
//! The next line has the least key, and of equal keys the first shard's. Each head has the first
//! eight bytes of its key as a number: where two numbers differ, they decide without a look at
//! keys.
//! Invariant: the keys of a shard's lines rise, and those of places do not fall. Where they do
//! not, the line is a `BadLine`, numbered from 0.
//! Cost: a look at each shard's head a line. Many shards are better merged in groups first.
ghost use Rattle.std.specs.Prelude.{◌≡◌, ℕ, ◌++◌, List, IfOk, IfSome, IsTrue, Some};
ghost use Rattle.std.specs.Prelude.{None, ◌↔◌, IfErr, false};
ghost use Rattle.std.specs.List.{AllByRecursion};
ghost use Rattle.std.specs.Ordering.{is_lt};
ghost use Rattle.mr_bytes.specs.Cut.{Lacks};
ghost use Rattle.mr_bytes.specs.Order.{key_order};
ghost use Rattle.mr_shards.specs.Cursors.{AreBeyond, AreBehind, BlamesNext, DoesNotFall};
ghost use Rattle.mr_shards.specs.Cursors.{HasFront, IsAdvanced, IsFound, IsFronted, IsOpen, MayGoOn};
ghost use Rattle.mr_shards.specs.Cursors.{least_from, lesser, line_at, on, passed};
ghost use Rattle.mr_shards.specs.Refused.{BlamesOnly, MayFollow, last_key};

use crate::cutting::{cut_first, find_first};
use crate::line::{Line, Tally, moved, parse_line};
use crate::merger::MergeFault;
use crate::shift::Shift;
use mr_bytes::compare_keys;
use mr_jobs::Job;
use std::cmp::Ordering;

/// What was taken of a shard's output. `before` is how far its places move, and `count` how many
/// files it has; `lines` counts modulo 2^64, and there are no `pairs` if 64 bits don't hold them.
#[derive(Clone, Copy)]
pub(crate) struct Held {
    pub before: Shift,
    pub count: u32,
    pub lines: u64,
    pub pairs: Option<u64>,
}

/// A shard's output, partly merged. `text` begins with the head's line, `rest` is behind it; both
/// end where the window does. What is held is what was taken before the head.
#[derive(Clone, Copy)]
pub(crate) struct Cursor<'a> {
    pub head: Option<Line<'a>>,
    pub text: &'a [u8],
    pub rest: &'a [u8],
    pub held: Held,
    pub is_last: bool,
}

/// What is held once the head is taken.
fn held_behind(cursor: &Cursor<'_>) -> Held
    ensures { result ≡ passed cursor.now }
{
    let held = cursor.held;
    let Some(line) = cursor.head else {
        return held;
    };
    // The pairs that the line states; an index has none.
    let stated = match line.tally {
        Tally::Total(total) => total,
        Tally::Place { .. } => 1,
        Tally::Files { .. } => 0,
    };
    let pairs = match held.pairs {
        Some(pairs) => pairs.checked_add(stated),
        None => None,
    };
    Held {
        lines: held.lines.wrapping_add(1),
        pairs,
        ..held
    }
}

/// Reads the line at the front of a window that begins behind what is held, and returns what is
/// behind it too. None if it isn't whole yet; no line at the end of the last window. Tests no order.
#[inline(always)]
pub(crate) fn read_line<'a>(
    job: &Job,
    shard: usize,
    held: Held,
    text: &'a [u8],
    is_last: bool,
) -> Result<Option<(Option<Line<'a>>, &'a [u8])>, MergeFault>
    ensures some { IfOk result (λ o. IfSome o (λ r. IsOpen job.now held text.entry.now is_last
        (record { head = r.0; text = text.entry; rest = r.1; held = held; is_last = is_last }))) }
    ensures none { IfOk result (λ o. o ≡ None → Lacks 10 text.entry.now × (is_last ≡ false)) }
    ensures err { IfErr result (λ e. (more : List ℕ) → MayGoOn is_last more
        → BlamesOnly job.now shard held.count held.before None (text.entry.now ++ more) held.lines e) }
{
    if is_last && text.is_empty() {
        return Ok(Some((None, text)));
    }
    let bad = MergeFault::BadLine {
        shard,
        line: held.lines,
    };
    let Some((line, rest)) = cut_first(text, b'\n') else {
        return if is_last { Err(bad) } else { Ok(None) };
    };
    let tab = find_first(b'\t', text).unwrap_or(0);
    let Some(line) = parse_line(job, line, tab) else {
        return Err(bad);
    };
    let line = moved(line, shard, held.count, held.before)?;
    Ok(Some((Some(line), rest)))
}

/// Keys rise strictly; those of places don't fall. `front` decides where it differs.
fn may_follow(job: &Job, last: Option<Line<'_>>, line: Line<'_>) -> bool
    requires last { IsFronted last }
    requires line { HasFront line }
    ensures order { IsTrue result → DoesNotFall last.entry line.entry }
    ensures turn { IsTrue result ↔ MayFollow job.now (last_key last.entry) line.entry.key.now }
{
    let Some(last) = last else {
        return true;
    };
    if line.front != last.front {
        return last.front < line.front;
    }
    match compare_keys(line.key, last.key) {
        Ordering::Less => false,
        Ordering::Equal => job.has_lines(),
        Ordering::Greater => true,
    }
}

/// Moves to the line behind the head. If that isn't whole yet, returns false and stays.
pub(crate) fn advance(job: &Job, shard: usize, cursor: &mut Cursor<'_>) -> Result<bool, MergeFault>
    requires { IsFronted cursor.old.head }
    ensures moves { IfOk result (λ b. IsTrue b → IsAdvanced job.now cursor.old cursor.new) }
    ensures stays { IfOk result (λ b. b ≡ false → (cursor.new ≡ cursor.old) × Lacks 10 cursor.old.rest.now
        × (cursor.old.is_last ≡ false)) }
    ensures err { IfErr result (λ e. (more : List ℕ) → MayGoOn cursor.old.is_last more
        → BlamesNext job.now shard (on cursor.old more) e) }
{
    let held = held_behind(cursor);
    let Some((head, rest)) = read_line(job, shard, held, cursor.rest, cursor.is_last)? else {
        return Ok(false);
    };
    if let Some(line) = head {
        if !may_follow(job, cursor.head, line) {
            return Err(MergeFault::BadLine {
                shard,
                line: held.lines,
            });
        }
    }
    cursor.head = head;
    cursor.text = cursor.rest;
    cursor.rest = rest;
    cursor.held = held;
    Ok(true)
}

/// Whether both lines have one key. `front` has all bytes of a key of no more than eight.
#[inline(always)]
fn have_one_key(line: Line<'_>, other: Line<'_>) -> bool
    requires line { HasFront line }
    requires other { HasFront other }
    ensures { IsTrue result ↔ (line.entry.key.now ≡ other.entry.key.now) }
{
    if line.front != other.front || line.key.len() != other.key.len() {
        return false;
    }
    if line.key.len() <= 8 {
        return true;
    }
    line.key == other.key
}

/// Whether a line's key is less. `front` decides where it differs; else most keys are equal.
fn is_before(line: Line<'_>, other: Line<'_>) -> bool
    requires line { HasFront line }
    requires other { HasFront other }
    ensures { result ≡ is_lt (key_order line.entry.key.now other.entry.key.now) }
{
    if line.front != other.front {
        return line.front < other.front;
    }
    if have_one_key(line, other) {
        return false;
    }
    compare_keys(line.key, other.key).is_lt()
}

/// The line of the lesser key, with its shard; `least` wins a tie.
fn lesser<'c, 'a>(
    least: Option<(usize, &'c Line<'a>)>,
    at: usize,
    head: &'c Option<Line<'a>>,
) -> Option<(usize, &'c Line<'a>)>
    requires least { IsFound (line_at least) }
    requires head { IsFronted head.now }
    ensures { line_at result ≡ lesser (line_at least.entry) at head.entry.now }
{
    let Some(line) = head else {
        return least;
    };
    match least {
        Some((_, best)) if !is_before(*line, *best) => least,
        _ => Some((at, line)),
    }
}

fn first_least<'a>(cursors: &[Cursor<'a>]) -> Option<(usize, Line<'a>)>
    requires { AllByRecursion (λ c. IsFronted c.head) cursors.now }
    ensures { result ≡ least_from None 0 cursors.entry.now }
{
    let mut least = None;
    for at in 0..cursors.len() {
        least = lesser(least, at, &cursors[at].head);
    }
    match least {
        Some((at, line)) => Some((at, *line)),
        None => None,
    }
}

fn first_alike<'a>(cursors: &[Cursor<'a>], from: usize, last: Line<'_>) -> Option<(usize, Line<'a>)>
    requires heads { AllByRecursion (λ c. IsFronted c.head) cursors.now }
    requires last { HasFront last }
    requires beyond { AreBeyond from last cursors.now }
    ensures { IfSome result (λ r. Some r ≡ least_from None 0 cursors.entry.now) }
{
    for at in from..cursors.len() {
        if let Some(line) = cursors[at].head {
            if have_one_key(line, last) {
                return Some((at, line));
            }
        }
    }
    None
}

/// The first shard whose next line has the least key, and that line. After `last` no shard before
/// its own has its key, so the search for that key starts there.
pub(crate) fn next_line<'a>(
    cursors: &[Cursor<'a>],
    last: Option<(usize, Line<'_>)>,
) -> Option<(usize, Line<'a>)>
    requires heads { AllByRecursion (λ c. IsFronted c.head) cursors.now }
    requires behind { AreBehind last cursors.now }
    ensures { result ≡ least_from None 0 cursors.entry.now }
{
    if let Some((from, line)) = last {
        if let Some(found) = first_alike(cursors, from, line) {
            return Some(found);
        }
    }
    first_least(cursors)
}
