//! The text of a key's group, made from the records that give the key.
//!
//! A walk over the kept records, which maps only those that contain the key's bytes. Values come in
//! the order of the input, as a result has them, and are not stored.
//! Invariant: the text is that of the values so far, except for its end.
ghost use Rattle.std.specs.Prelude.{◌≡◌, ℕ, ◌+◌, ◌≤◌, ◌<◌, ◌^◌, ◌++◌, ◌∷◌, [], IfOk, List, OnOk};
ghost use Rattle.std.specs.Prelude.{if◌then◌else◌, length};
ghost use Rattle.std.specs.Str.{bytes_eq};
ghost use Rattle.mr_bytes.specs.declared.Value.{Value as Emitted};
ghost use Rattle.mr_jobs.specs.Hits.{IsLine};
ghost use Rattle.mr_jobs.specs.JobSpec.{JobSpec};
ghost use Rattle.mr_jobs.specs.Emissions.{emissions};
ghost use Rattle.mr_jobs.specs.Pairs.{pairs_of};
ghost use Rattle.mr_sequential.specs.Names.{triples_of};
ghost use Rattle.mr_sequential.specs.Sequential.{values_of};
ghost use Rattle.mr_explain.specs.Group.{expected_text, group_values, values_with};
ghost use Rattle.mr_explain.specs.Texts.{HasText};

use crate::needle::needle_of;
use crate::query::{Query, Wanted};
use mr_bytes::Value;
use mr_jobs::LinePairs;
use mr_reduce::TextWriter;
use std::alloc::{AllocError, Global};

/// The text of a key for some of its values, and how many these are.
#[derive(Drop)]
struct KeyText<'k> {
    key: &'k [u8],
    writer: TextWriter<'k>,
    count: u64,
    text: Vec<u8>,
}

/// Adds the values of the pairs that have the key.
fn add_values(pairs: LinePairs<'_>, to: &mut KeyText<'_>) -> Result<(), AllocError>
    requires pairs { length (pairs_of pairs) ≤ 2 ^ 31 }
    requires few { to.old.count < 2 ^ 63 }
    ensures key { to.new.key ≡ to.old.key }
    ensures few { OnOk result (to.new.count ≤ to.old.count + 2 ^ 31) }
    ensures text { OnOk result ((job : JobSpec) (of : List ℕ) (values : List Emitted)
        → HasText job of values to.old
        → HasText job of (values ++ values_with to.old.key.now (pairs_of pairs.entry)) to.new) }
{
    let mut left = pairs.emitter();
    while let Some((found, value)) = left.next() {
        if found != to.key {
            continue;
        }
        to.writer.add(value, &mut to.text)?;
        to.count += 1;
    }
    Ok(())
}

/// The text that a result has for the key, whatever the query looks for; nothing if no kept record
/// gives it. It is what `compare` takes. Fails only for want of memory.
pub fn group_text(alloc: Global, query: &Query<'_>, key: &[u8]) -> Result<Vec<u8>, AllocError>
    ensures { IfOk result (λ v. v.items
        ≡ expected_text query.now.job.now key.now (group_values query.now key.now)) }
{
    // A split has at least one byte, and an input far fewer records than a count can tell.
    let (_size, _few) = (query.plan.size(), query.plan.count());
    let kept = query.plan.without(alloc, query.skips)?;
    let needle = needle_of(query.job, Wanted::Key(key));
    let mut mapper = query.job.mapper(alloc, query.plan.input());
    let mut text = Vec::new(alloc);
    let writer = TextWriter::begin(query.job, key, &mut text)?;
    let mut to = KeyText {
        key,
        writer,
        count: 0,
        text,
    };
    let mut left = kept.records();
    while let Some((_, line)) = left.next() {
        if !needle.is_in(line.bytes) {
            continue;
        }
        add_values(mapper.emit(line.file, line.start, line.bytes)?, &mut to)?;
    }
    let KeyText {
        key: _,
        writer,
        count,
        mut text,
    } = to;
    if count == 0 {
        return Ok(Vec::new(alloc));
    }
    writer.finish(&mut text)?;
    Ok(text)
}
