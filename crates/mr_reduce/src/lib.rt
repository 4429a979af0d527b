//! The text that reduce makes of a key and its values, for the output of the key's partition.
#![tactic(auto)]

ghost use Rattle.std.specs.Prelude.{◌≡◌, ◌+◌, ◌<◌, ◌≤◌, ◌++◌, OnOk, OnErr, length, take};
ghost use Rattle.std.specs.Prelude.{vec_capacity, vec_len};
ghost use Rattle.std.specs.List.{flat_map};
ghost use Rattle.mr_reduce.specs.Appending.{Appends};
ghost use Rattle.mr_reduce.specs.Files.{listed};
ghost use Rattle.mr_reduce.specs.Text.{text_of, total_line, place_line};
ghost use Rattle.mr_reduce.specs.Writing.{file_text};
ghost use Rattle.mr_reduce.specs.Laws.{CountersTellTheNumber, FilesAreTold, FilesRise};

mod files;
mod writer;

use crate::files::{Listed, put_behind, put_files};
use itoa::Buffer;
use mr_bytes::{Value, ValueColumn};
use mr_jobs::{GroupText, Job};
use std::alloc::AllocError;
pub use writer::TextWriter;

/// Appends the text of a key with all its values, in input order. A job that counts writes the key
/// with the number of values, `grep` a line per value that is a place, an index the key with the
/// files of those places. Fails only for want of memory, and then leaves `out` as it was.
///
/// An index takes time linear in the values if their files never fall, as in the order of the
/// input. Otherwise it looks at all values for each file that it writes.
pub fn group_text(
    job: &Job,
    key: &[u8],
    values: &[Value],
    out: &mut Vec<u8>,
) -> Result<(), AllocError>
    ensures ok { OnOk result (out.new.items ≡ out.old.items ++ text_of job.now key.now values.now) }
    ensures err { OnErr result (out.new.items ≡ out.old.items) }
    ensures full { OnErr result (vec_capacity out.old
        < vec_len out.old + length (text_of job.now key.now values.now)) }
{
    append_listed(job, key, Listed::Slice(values), out)
}

/// Appends what `group_text` appends, for the values of a column. Fails only for want of memory,
/// and then leaves `out` as it was.
pub fn append_text(
    job: &Job,
    key: &[u8],
    values: &ValueColumn,
    out: &mut Vec<u8>,
) -> Result<(), AllocError>
    ensures ok { OnOk result (out.new.items ≡ out.old.items ++ text_of job.now key.now values.now) }
    ensures err { OnErr result (out.new.items ≡ out.old.items) }
    ensures full { OnErr result (vec_capacity out.old
        < vec_len out.old + length (text_of job.now key.now values.now)) }
{
    append_listed(job, key, Listed::Column(values), out)
}

fn append_listed(
    job: &Job,
    key: &[u8],
    values: Listed<'_>,
    out: &mut Vec<u8>,
) -> Result<(), AllocError>
    ensures ok { OnOk result (out.new.items
        ≡ out.old.items ++ text_of job.now key.now (listed values.entry)) }
    ensures err { OnErr result (out.new.items ≡ out.old.items) }
    ensures full { OnErr result (vec_capacity out.old
        < vec_len out.old + length (text_of job.now key.now (listed values.entry))) }
{
    let before = out.len();
    let done = match job.row().text {
        GroupText::Count => put_total(key, values.len() as u64, out),
        GroupText::Lines => put_places(key, values, out),
        GroupText::Files => put_files(key, values, out),
    };
    if done.is_err() {
        out.truncate(before);
    }
    done
}

/// Appends the line of a key with a number: what `group_text` appends for a job that counts `total`
/// values. Fails only for want of memory, and then leaves `out` as it was.
pub fn append_total(key: &[u8], total: u64, out: &mut Vec<u8>) -> Result<(), AllocError>
    ensures ok { OnOk result (out.new.items ≡ out.old.items ++ total_line key.now total) }
    ensures err { OnErr result (out.new.items ≡ out.old.items) }
    ensures full { OnErr result
        (vec_capacity out.old < vec_len out.old + length (total_line key.now total)) }
{
    let before = out.len();
    let done = put_total(key, total, out);
    if done.is_err() {
        out.truncate(before);
    }
    done
}

fn put_total(key: &[u8], total: u64, out: &mut Vec<u8>) -> Result<(), AllocError>
    ensures { Appends result out.old out.new (total_line key.now total) }
{
    let mut digits = Buffer::new();
    out.extend_from_slice(key)?;
    out.push(b'\t')?;
    out.extend_from_slice(digits.format(total).as_bytes())?;
    out.push(b'\n')?;
    Ok(())
}

/// Appends the line of a key with a place, or nothing if the value is no place.
fn put_place(key: &[u8], value: Value, out: &mut Vec<u8>) -> Result<(), AllocError>
    ensures { Appends result out.old out.new (place_line key.now value) }
{
    let Value::At { file, offset } = value else {
        return Ok(());
    };
    let mut digits = Buffer::new();
    out.extend_from_slice(key)?;
    out.push(b'\t')?;
    out.extend_from_slice(digits.format(file).as_bytes())?;
    out.push(b':')?;
    out.extend_from_slice(digits.format(offset).as_bytes())?;
    out.push(b'\n')?;
    Ok(())
}

fn put_places(key: &[u8], values: Listed<'_>, out: &mut Vec<u8>) -> Result<(), AllocError>
    ensures { Appends result out.old out.new (flat_map (place_line key.now) (listed values.entry)) }
{
    for i in 0..values.len() {
        put_place(key, values.get(i), out)?;
    }
    Ok(())
}

/// Appends a file to the list of a group's files: behind a comma unless it is the first, and nothing
/// if it is the last one again. Fails only for want of memory. Then part of it may be written.
#[inline(always)]
pub fn append_file(last: Option<u32>, file: u32, out: &mut Vec<u8>) -> Result<(), AllocError>
    ensures ok { OnOk result (out.new.items ≡ out.old.items ++ file_text last file) }
    ensures kept { take (vec_len out.old) out.new.items ≡ out.old.items }
    ensures full { OnErr result
        (vec_capacity out.old < vec_len out.old + length (file_text last file)) }
{
    put_behind(last, file, out)
}

/// For a job that counts, the number of values alone determines the text, so `append_total` is
/// enough. The files in an index rise, and are exactly those of the values.
pub fn text_law()
    ensures number { CountersTellTheNumber }
    ensures rise { FilesRise }
    ensures told { FilesAreTold }
{}
