//! How many values a record has for a key.
ghost use Rattle.std.specs.Prelude.{◌≡◌, ◌↔◌, ◌≤◌, ◌<◌, ◌^◌, [], IfOk, IsTrue, MatchOption};
ghost use Rattle.std.specs.Prelude.{length, true, false};
ghost use Rattle.mr_jobs.specs.Emissions.{emissions};
ghost use Rattle.mr_jobs.specs.Hits.{IsLine};
ghost use Rattle.mr_jobs.specs.Pairs.{pairs_of};
ghost use Rattle.mr_explain.specs.Explained.{is_wanted, pairs_with, value_count};
ghost use Rattle.mr_explain.specs.Needles.{IsNeedle};

use crate::needle::Needle;
use crate::query::Wanted;
use mr_jobs::{LinePairs, Mapper};
use mr_splits::RecordAt;
use std::alloc::AllocError;

fn count_key(pairs: LinePairs<'_>, key: &[u8]) -> u64
    requires { length (pairs_of pairs) < 2 ^ 32 }
    ensures { result ≡ length (pairs_with key.now (pairs_of pairs.entry)) }
{
    let mut left = pairs.emitter();
    let mut count = 0;
    while let Some((found, _)) = left.next() {
        if found == key {
            count += 1;
        }
    }
    count
}

/// Whether there are no pairs.
pub(crate) fn has_none(pairs: LinePairs<'_>) -> bool
    ensures { IsTrue result ↔ (pairs_of pairs.entry ≡ []) }
{
    let mut left = pairs.emitter();
    left.next().is_none()
}

/// How many of a record's pairs have the key that is looked for, if the record is one of those.
pub(crate) fn count_wanted(
    mapper: &mut Mapper<'_, '_>,
    needle: &Needle<'_>,
    wanted: Wanted<'_>,
    line: RecordAt<'_>,
) -> Result<Option<u64>, AllocError>
    requires small { length line.bytes.now ≤ 2 ^ 30 }
    requires line { IsLine mapper.old.files line.file line.start line.bytes.now }
    requires needle { IsNeedle mapper.old.job wanted needle.now.fold needle.now.literal.now }
    ensures same { mapper.new ≡ mapper.old }
    ensures count { IfOk result (λ found.
        let es = emissions mapper.old.job line.entry.file line.entry.start line.entry.bytes.now in
        MatchOption found (is_wanted wanted.entry es ≡ false)
        (λ n. (is_wanted wanted.entry es ≡ true) × (n ≡ value_count wanted.entry es))) }
    ensures few { IfOk result (λ found. MatchOption found (0 ≤ 0) (λ n. n < 2 ^ 31)) }
{
    if !needle.is_in(line.bytes) {
        return Ok(None);
    }
    let pairs = mapper.emit(line.file, line.start, line.bytes)?;
    match wanted {
        Wanted::Key(key) => {
            let count = count_key(pairs, key);
            Ok(if count == 0 { None } else { Some(count) })
        }
        Wanted::Nothing => Ok(if has_none(pairs) { Some(0) } else { None }),
    }
}
