//! The outputs: for each partition the texts of its groups, by rising key.
//!
//!     rows     r0      r1   r2            each goes to the text of its partition
//!     counts   2       1    3
//!     names    a a     a    a b c         of record a, then b, then c
//!
//! A job that counts needs only the counts. For any other a row takes its names from the front of
//! those left, and a writer puts what each name tells behind the text of the row's partition. The
//! names of a row come record by record, so their files never fall, and an index tells each once.
//!
//! Invariant: each text is that of its partition's rows so far. Takes constant time for each name
//! beside the texts, and no memory but theirs.
ghost use Rattle.std.specs.Prelude.{◌≡◌, ℕ, ◌<◌, [], ◌++◌, IfOk, OnOk, All, false};
ghost use Rattle.std.specs.Prelude.{length, map};
ghost use Rattle.mr_input.specs.Files.{contents, nth_file};
ghost use Rattle.mr_jobs.specs.JobSpec.{counts as is_counter};
ghost use Rattle.mr_reduce.specs.Files.{NeverFalls};
ghost use Rattle.mr_reduce.specs.Text.{text_of, total_line};
ghost use Rattle.mr_splits.specs.Cut.{records_of};
ghost use Rattle.mr_sequential.specs.Names.{IsOfRecord, value_under};
ghost use Rattle.mr_sequential.specs.Rows.{HaveNames, add_to, count_line, names_text, row_texts};

use mr_certform::{FlatGroups, Names};
use mr_group::Row;
use mr_jobs::Job;
use mr_reduce::{TextWriter, append_total};
use mr_splits::Plan;
use std::alloc::{AllocError, Global};

fn empty_texts(alloc: Global, parts: usize) -> Result<Vec<Vec<u8>>, AllocError>
    ensures count { IfOk result (λ r. length r.items ≡ parts) }
    ensures empty { IfOk result (λ r. (p : ℕ) → nth_file (contents r.items) p ≡ []) }
{
    let mut texts = Vec::new(alloc);
    for _ in 0..parts {
        texts.push(Vec::new(alloc))?;
    }
    Ok(texts)
}

fn add_total(texts: &mut Vec<Vec<u8>>, row: Row<'_>, total: u32) -> Result<(), AllocError>
    requires { row.part < length texts.old.items }
    ensures count { length texts.new.items ≡ length texts.old.items }
    ensures ok { OnOk result (contents texts.new.items
        ≡ add_to (contents texts.old.items) row.entry.part (total_line row.entry.key.now total)) }
{
    let text = &mut texts[row.part as usize];
    append_total(row.key, total as u64, text)
}

/// Appends the text of a key, name by name. A group may be all of the input: no list holds its
/// values.
fn add_text(
    job: &Job,
    plan: &Plan<'_>,
    key: &[u8],
    names: Names<'_>,
    text: &mut Vec<u8>,
) -> Result<(), AllocError>
    requires counts { is_counter job.now ≡ false }
    requires named { All (IsOfRecord plan.now) names }
    requires rising { NeverFalls (map (value_under job.now (records_of plan.now)) names) }
    ensures { OnOk result (text.new.items ≡ text.old.items
        ++ text_of job.now key.now (map (value_under job.now (records_of plan.now)) names.entry)) }
{
    let mut left = names;
    let mut writer = TextWriter::begin(job, key, text)?;
    while let Some(name) = left.next() {
        let record = plan.locate(name.split, name.rec);
        writer.add(job.value_at(record.file, record.start), text)?;
    }
    writer.finish(text)
}

fn add_names(
    job: &Job,
    plan: &Plan<'_>,
    texts: &mut Vec<Vec<u8>>,
    row: Row<'_>,
    names: Names<'_>,
) -> Result<(), AllocError>
    requires counts { is_counter job.now ≡ false }
    requires named { All (IsOfRecord plan.now) names }
    requires rising { NeverFalls (map (value_under job.now (records_of plan.now)) names) }
    requires part { row.part < length texts.old.items }
    ensures count { length texts.new.items ≡ length texts.old.items }
    ensures ok { OnOk result (contents texts.new.items
        ≡ add_to (contents texts.old.items) row.entry.part (text_of job.now row.entry.key.now
        (map (value_under job.now (records_of plan.now)) names.entry))) }
{
    let text = &mut texts[row.part as usize];
    add_text(job, plan, row.key, names, text)
}

fn count_texts(rows: &[Row<'_>], sizes: &[u32], texts: &mut Vec<Vec<u8>>) -> Result<(), AllocError>
    requires parts { All (λ r. r.part < length texts.old.items) rows.now }
    requires sizes { length sizes.now ≡ length rows.now }
    ensures count { length texts.new.items ≡ length texts.old.items }
    ensures ok { OnOk result ((p : ℕ) → p < length texts.old.items
        → nth_file (contents texts.new.items) p ≡ nth_file (contents texts.old.items) p
        ++ row_texts (count_line sizes.now) p 0 rows.now) }
{
    for (rank, row) in rows.iter().enumerate() {
        add_total(texts, *row, sizes[rank])?;
    }
    Ok(())
}

fn name_texts(
    job: &Job,
    plan: &Plan<'_>,
    rows: &[Row<'_>],
    groups: &FlatGroups,
    texts: &mut Vec<Vec<u8>>,
) -> Result<(), AllocError>
    requires counting { is_counter job.now ≡ false }
    requires parts { All (λ r. r.part < length texts.old.items) rows.now }
    requires names { HaveNames job.now plan.now (length rows.now) groups.now }
    ensures count { length texts.new.items ≡ length texts.old.items }
    ensures ok { OnOk result ((p : ℕ) → p < length texts.old.items
        → nth_file (contents texts.new.items) p ≡ nth_file (contents texts.old.items) p
        ++ row_texts (names_text job.now (records_of plan.now) groups.now) p 0 rows.now) }
{
    let mut left = groups.names.names();
    for (rank, row) in rows.iter().enumerate() {
        let (here, behind) = left.split_at(groups.entry_counts[rank] as usize);
        add_names(job, plan, texts, *row, here)?;
        left = behind;
    }
    Ok(())
}

/// The texts of all partitions. A job that counts needs only the size of each row, another the
/// values, which follow from names.
pub(crate) fn texts_of(
    alloc: Global,
    job: &Job,
    plan: &Plan<'_>,
    rows: &[Row<'_>],
    groups: &FlatGroups,
) -> Result<Vec<Vec<u8>>, AllocError>
    requires parts { All (λ r. r.part < length groups.now.group_counts.items) rows.now }
    requires names { HaveNames job.now plan.now (length rows.now) groups.now }
    ensures count { IfOk result (λ v. length v.items ≡ length groups.now.group_counts.items) }
    ensures texts { IfOk result (λ v. (p : ℕ) → p < length groups.now.group_counts.items
        → nth_file (contents v.items) p
        ≡ row_texts (names_text job.now (records_of plan.now) groups.now) p 0 rows.now) }
{
    let mut texts = empty_texts(alloc, groups.group_counts.len())?;
    if job.counts() {
        count_texts(rows, groups.entry_counts.as_slice(), &mut texts)?;
        return Ok(texts);
    }
    name_texts(job, plan, rows, groups, &mut texts)?;
    Ok(texts)
}
