//! Asks the fast judge for a yes. It holds the parts and reads the certificate in pieces.
//!
//!     parts          read whole   }
//!     certificate    in pieces    }  ->  yes, or nothing
//!
//! There is no answer if a file can't be read, the parts are too long, memory is wanting, or the
//! fast judge doesn't accept the result. Then the caller opens all files again. A pipe, a socket or a
//! device gives its bytes only once: a result with one isn't for the fast judge (`can_reread`).
//! Cost: each file is read once; the parts' bytes are held.
ghost use Rattle.std.specs.Prelude.{◌≤◌, IfSome, Ok, length};
ghost use Rattle.mr_input.specs.Files.{contents};
ghost use Rattle.mr_files.specs.Holding.{Holding};
ghost use Rattle.mr_files.specs.Names.{name_of_part, part_names};
ghost use Rattle.mr_commands.specs.Judgements.{AnswersResult};

use crate::check_job::CheckJob;
use mr_bytes::Progress;
use mr_check::{Computation, Yes, accept_read};
use mr_files::{Store, certificate_name, names_of_result, part_name, read_file_within};
use mr_store::CountedRead;
use std::alloc::Global;

/// The fast judge accepts only parts of less than 4 GiB in all.
const MOST_BYTES: u64 = 4_294_967_295;

/// Whether each file of the result can be read again. A pipe, a socket or a device can't, and has no
/// identity.
pub(crate) fn can_reread<S: Store>(job: &CheckJob<'_>, store: &S, alloc: Global) -> bool {
    let options = &job.asked.options;
    let Ok(names) = names_of_result(alloc, options.out, options.parts as usize) else {
        return false;
    };
    for name in names.as_slice() {
        let Ok(Some(_)) = store.identity(alloc, name.as_str()) else {
            return false;
        };
    }
    true
}

/// The bytes of a part, if there are at most `most`.
fn read_part<S: Store>(
    store: &S,
    alloc: Global,
    dir: &str,
    part: usize,
    most: u64,
) -> Option<Vec<u8>>
    ensures bytes { IfSome result (λ v. S.holds store.now (name_of_part dir.now part) v.items) }
    ensures within { IfSome result (λ v. length v.items ≤ most) }
{
    let name = part_name(alloc, dir, part).ok()?;
    read_file_within(store, alloc, name.as_str(), most).ok()
}

/// The bytes of the parts, in order, if there are at most `most` in all.
fn read_parts<S: Store>(
    store: &S,
    alloc: Global,
    dir: &str,
    parts: usize,
    most: u64,
) -> Option<Vec<Vec<u8>>>
    ensures { IfSome result
        (λ v. Holding (S.holds store.now) (part_names dir.now parts) (contents v.items)) }
{
    let mut outputs = Vec::new(alloc);
    let mut left = most;
    for part in 0..parts {
        let bytes = read_part(store, alloc, dir, part, left)?;
        left -= bytes.len() as u64;
        outputs.push(bytes).ok()?;
    }
    Some(outputs)
}

/// The fast judge's yes to the result, if it accepts it and the parts have at most `most` bytes in
/// all.
pub(crate) fn accept_files<S: Store>(
    job: &CheckJob<'_>,
    store: &S,
    alloc: Global,
    most: u64,
    watch: &dyn Progress,
) -> Option<Yes>
    ensures { IfSome result (λ y. AnswersResult (S.holds store.now) job.now (Ok y)) }
{
    let options = &job.asked.options;
    let Ok(name) = certificate_name(alloc, options.out) else {
        return None;
    };
    let most = most.min(MOST_BYTES);
    let outputs = read_parts(store, alloc, options.out, options.parts as usize, most)?;
    let Ok(mut certificate) = store.reader(alloc, name.as_str()) else {
        return None;
    };
    // What is left to read are bytes.
    let _known = certificate.failures();
    let (request, input) = (job.request, job.input);
    let computation = Computation { request, input };
    let outputs = outputs.as_slice();
    accept_read(alloc, &computation, outputs, &mut certificate, watch)
}
