//! Reads a stretch of files: files one behind another, of which the first may begin and the last
//! may end at a line inside it.
//!
//!     files   [ .. \n | from .. ]  [ .. ]  ..  [ .. \n | to .. ]
//!                     taken        taken       taken
//!
//! One limit holds for all: each file is read within what those before it leave of the limit. Files
//! behind the first fault stay closed.
//! Cost: the bytes that are taken, all held.
ghost use Rattle.std.specs.Prelude.{◌≡◌, ◌≤◌, ◌<◌, IfOk, IfErr, length};
ghost use Rattle.std.specs.Option.{ForSome};
ghost use Rattle.mr_input.specs.Files.{contents, total_size};
ghost use Rattle.mr_files.specs.Stretches.{AreTaken, IsUntaken, begin_in, end_in};

use crate::ranges::{RangeFault, read_range_within};
use crate::store::{FileFault, Store};
use std::alloc::Global;
use std::marker::Model;

/// Files one behind another: the first is read from byte `from` on, the last up to before byte
/// `to`, or to its end.
#[derive(Drop)]
pub struct Stretch<'a> {
    pub names: &'a [&'a str],
    pub from: u64,
    pub to: Option<u64>,
}

impl<'a> Model for Stretch<'a> {
    ghost use Rattle.std.specs.Prelude.{map};
    ghost use Rattle.mr_files.specs.Stretches.{Stretch};

    ghost Value = { Stretch };

    ghost view = { λ s. record { names = map (λ n. n.now) s.names.now; from = s.from; to = s.to } };
}

/// Why a stretch was not read: its file of that number, from 0, was not.
#[derive(Drop)]
pub struct UnreadStretch {
    pub file: usize,
    pub fault: RangeFault,
}

/// From which byte on the stretch takes the file of that number, and up to before which.
fn range_in(stretch: &Stretch<'_>, file: usize) -> (u64, Option<u64>)
    requires inside { file < length stretch.now.names }
    requires order { length stretch.now.names ≡ 1 → ForSome stretch.now.to (λ t. stretch.now.from ≤ t) }
    ensures from { result.0 ≡ begin_in stretch.now file }
    ensures to { result.1 ≡ end_in stretch.now file }
    ensures order { ForSome result.1 (λ t. result.0 ≤ t) }
{
    let from = if file == 0 { stretch.from } else { 0 };
    let to = if file + 1 == stretch.names.len() {
        stretch.to
    } else {
        None
    };
    (from, to)
}

/// The bytes that the stretch takes of each file, in order, together at most `limit`, and whether
/// the last file ends with it, which is so if there are no files.
pub fn read_stretch_within<S: Store>(
    store: &S,
    alloc: Global,
    stretch: &Stretch<'_>,
    limit: u64,
) -> Result<(Vec<Vec<u8>>, bool), UnreadStretch>
    requires { length stretch.now.names ≡ 1 → ForSome stretch.now.to (λ t. stretch.now.from ≤ t) }
    ensures taken { IfOk result
        (λ r. AreTaken (S.holds store.now) stretch.now (contents r.0.items) r.1) }
    ensures within { IfOk result (λ r. total_size (contents r.0.items) ≤ limit) }
    ensures refused { IfErr result (λ e. IsUntaken (S.holds store.now) (S.unreadable store.now)
        stretch.now limit e.file e.fault) }
{
    let mut files = Vec::new(alloc);
    let mut left = limit;
    let mut ends = true;
    for (file, name) in stretch.names.iter().enumerate() {
        let (from, to) = range_in(stretch, file);
        let (bytes, whole) = match read_range_within(store, alloc, name, from, to, left) {
            Ok(taken) => taken,
            Err(fault) => return Err(UnreadStretch { file, fault }),
        };
        left -= bytes.len() as u64;
        ends = whole;
        if files.push(bytes).is_err() {
            let fault = RangeFault::File(FileFault::OutOfMemory);
            return Err(UnreadStretch { file, fault });
        }
    }
    Ok((files, ends))
}
