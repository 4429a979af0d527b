//! Walks over the records that a job reads, then over those that it leaves out, and prints.
//!
//! Invariant of a walk: the totals are those of the records so far, and their lines are printed.
ghost use Rattle.std.specs.Prelude.{◌≡◌, ◌≤◌, ◌<◌, ◌+◌, ◌^◌, ◌++◌, IfErr, IfOk, OnOk, length};
ghost use Rattle.mr_jobs.specs.Emissions.{emissions};
ghost use Rattle.mr_jobs.specs.Hits.{IsLine};
ghost use Rattle.mr_store.specs.Devices.{with_bytes};
ghost use Rattle.mr_explain.specs.Explained.{IsCutOff, explanation, kept_of, kept_text, left_out_of};
ghost use Rattle.mr_explain.specs.Explained.{label_of as the_label};
ghost use Rattle.mr_explain.specs.Explained.{left_out_text, line_at, summary_line};
ghost use Rattle.mr_explain.specs.Group.{ForKey, group_values};
ghost use Rattle.mr_explain.specs.Walking.{AreCounts, AreReady, Counts, IsCounted};
ghost use Rattle.mr_explain.specs.Walking.{printed};

use crate::counting::count_wanted;
use crate::lines::{LineCount, put_head, put_number};
use crate::needle::{Needle, needle_of};
use crate::query::{ExplainFault, Explained, Query, Totals, Wanted};
use mr_jobs::Mapper;
use mr_splits::{KeptPlan, RecordAt};
use mr_store::{CountedWrite, write_all};
use std::alloc::Global;

/// What a walk over records maps them by, and has counted.
#[derive(Drop)]
struct Walk<'j, 'k, 'i> {
    mapper: Mapper<'j, 'i>,
    needle: Needle<'k>,
    totals: Totals,
    lines: LineCount,
}

fn print_record<W: CountedWrite>(
    query: &Query<'_>,
    prefix: &[u8],
    lines: &mut LineCount,
    line: RecordAt<'_>,
    writer: &mut W,
) -> Result<(), ExplainFault>
    requires line { IsLine query.now.plan.now.files line.file line.start line.bytes.now }
    requires one_each { length query.now.sources.now ≡ length query.now.plan.now.files }
    requires counted { IsCounted query.now.plan.now.files lines.old }
    ensures counted { OnOk result (IsCounted query.now.plan.now.files lines.new) }
    ensures put { OnOk result (W.seen writer.new ≡ with_bytes (W.seen writer.old)
        (prefix.now ++ line_at query.now.sources.now query.now.plan.now.files
        line.entry.file line.entry.start line.entry.bytes.now)) }
    ensures cut { IfErr result (IsCutOff (W.seen writer.old) (W.seen writer.new)) }
{
    let feeds = lines.before(query.plan.input(), line.file, line.start as usize);
    write_all(writer, prefix)?;
    put_head(query.sources[line.file as usize], feeds, line.start, writer)?;
    write_all(writer, line.bytes)?;
    write_all(writer, b"\n")?;
    Ok(())
}

/// Counts the record, and prints it, if it is looked for.
fn take_record<W: CountedWrite>(
    query: &Query<'_>,
    prefix: &[u8],
    walk: &mut Walk<'_, '_, '_>,
    line: RecordAt<'_>,
    writer: &mut W,
) -> Result<(), ExplainFault>
    requires small { length line.bytes.now ≤ 2 ^ 30 }
    requires line { IsLine query.now.plan.now.files line.file line.start line.bytes.now }
    requires one_each { length query.now.sources.now ≡ length query.now.plan.now.files }
    requires ready { AreReady query.now walk.old.mapper walk.old.needle }
    requires counted { IsCounted query.now.plan.now.files walk.old.lines }
    requires few { (walk.old.totals.pairs < 2 ^ 63) × (walk.old.totals.records < 2 ^ 63) }
    ensures mappers { OnOk result ((walk.new.mapper ≡ walk.old.mapper)
        × (walk.new.needle ≡ walk.old.needle)) }
    ensures counted { OnOk result (IsCounted query.now.plan.now.files walk.new.lines) }
    ensures counts { OnOk result (Counts query.now.wanted
        (emissions query.now.job.now line.entry.file line.entry.start line.entry.bytes.now)
        walk.old.totals walk.new.totals) }
    ensures few { OnOk result ((walk.new.totals.pairs ≤ walk.old.totals.pairs + 2 ^ 31)
        × (walk.new.totals.records ≤ walk.old.totals.records + 1)) }
    ensures put { OnOk result (W.seen writer.new ≡ with_bytes (W.seen writer.old)
        (printed query.now prefix.now walk.old.totals.records
        line.entry.file line.entry.start line.entry.bytes.now)) }
    ensures cut { IfErr result (IsCutOff (W.seen writer.old) (W.seen writer.new)) }
{
    let Some(pairs) = count_wanted(&mut walk.mapper, &walk.needle, query.wanted, line)? else {
        return Ok(());
    };
    let Totals {
        pairs: before,
        records,
    } = walk.totals;
    walk.totals = Totals {
        pairs: before + pairs,
        records: records + 1,
    };
    if records < query.limit {
        return print_record(query, prefix, &mut walk.lines, line, writer);
    }
    Ok(())
}

/// Walks over the records that the job reads, and prints their summary.
fn walk_kept<W: CountedWrite>(
    query: &Query<'_>,
    kept: &KeptPlan<'_>,
    walk: &mut Walk<'_, '_, '_>,
    writer: &mut W,
) -> Result<(), ExplainFault>
    requires kept { kept.now ≡ record { cut = query.now.plan.now; skips = query.now.skips.now } }
    requires one_each { length query.now.sources.now ≡ length query.now.plan.now.files }
    requires ready { AreReady query.now walk.old.mapper walk.old.needle }
    requires counted { IsCounted query.now.plan.now.files walk.old.lines }
    requires none { walk.old.totals ≡ record { pairs = 0; records = 0 } }
    ensures mappers { OnOk result ((walk.new.mapper ≡ walk.old.mapper)
        × (walk.new.needle ≡ walk.old.needle)) }
    ensures counted { OnOk result (IsCounted query.now.plan.now.files walk.new.lines) }
    ensures counts { OnOk result
        (AreCounts query.now.job.now query.now.wanted (kept_of query.now) walk.new.totals) }
    ensures put { OnOk result
        (W.seen writer.new ≡ with_bytes (W.seen writer.old) (kept_text query.now)) }
    ensures cut { IfErr result (IsCutOff (W.seen writer.old) (W.seen writer.new)) }
{
    // An input has far fewer records than a count can tell.
    let _few = kept.plan().count();
    let mut left = kept.records();
    while let Some((_, line)) = left.next() {
        take_record(query, b"", walk, line, writer)?;
    }
    put_summary(label_of(query.wanted), walk.totals, writer)
}

/// Walks over the records that are left out, in the order of their names, and prints their summary,
/// unless none of them is looked for.
fn walk_left_out<W: CountedWrite>(
    query: &Query<'_>,
    walk: &mut Walk<'_, '_, '_>,
    writer: &mut W,
) -> Result<(), ExplainFault>
    requires few { length query.now.skips.now < 2 ^ 32 }
    requires one_each { length query.now.sources.now ≡ length query.now.plan.now.files }
    requires ready { AreReady query.now walk.old.mapper walk.old.needle }
    requires counted { IsCounted query.now.plan.now.files walk.old.lines }
    requires none { walk.old.totals ≡ record { pairs = 0; records = 0 } }
    ensures counts { OnOk result
        (AreCounts query.now.job.now query.now.wanted (left_out_of query.now) walk.new.totals) }
    ensures put { OnOk result
        (W.seen writer.new ≡ with_bytes (W.seen writer.old) (left_out_text query.now)) }
    ensures cut { IfErr result (IsCutOff (W.seen writer.old) (W.seen writer.new)) }
{
    for name in query.skips {
        if !query.plan.has_record(*name) {
            continue;
        }
        let line = query.plan.locate(name.split, name.rec);
        take_record(query, b"left out:", walk, line, writer)?;
    }
    if walk.totals.records == 0 {
        return Ok(());
    }
    put_summary(b"left out", walk.totals, writer)
}

fn put_summary<W: CountedWrite>(
    label: &[u8],
    totals: Totals,
    writer: &mut W,
) -> Result<(), ExplainFault>
    ensures put { OnOk result (W.seen writer.new ≡ with_bytes (W.seen writer.old)
        (summary_line label.now totals.pairs totals.records)) }
    ensures cut { IfErr result (IsCutOff (W.seen writer.old) (W.seen writer.new)) }
{
    write_all(writer, label)?;
    write_all(writer, b": ")?;
    put_number(totals.pairs as u128, writer)?;
    write_all(writer, b" pairs in ")?;
    put_number(totals.records as u128, writer)?;
    write_all(writer, b" records\n")?;
    Ok(())
}

fn label_of(wanted: Wanted<'_>) -> &[u8]
    ensures { result.now ≡ the_label wanted.entry }
{
    match wanted {
        Wanted::Key(key) => key,
        Wanted::Nothing => b"nothing",
    }
}

const NONE: Totals = Totals {
    pairs: 0,
    records: 0,
};

/// Writes the kept records that are looked for, in the order of the input, each once, up to the
/// limit, as `FILE:LINE:OFFSET:record` and LF; then `KEY: N pairs in M records` and LF, with
/// `nothing` as the key of those that give nothing. The left-out records that are looked for follow
/// likewise, each line behind `left out:`, with `left out` as the key; nothing if there are none.
/// The limit bounds neither N nor M. The caller flushes. Fails if a call of the writer failed, or
/// for want of memory.
pub fn explain<W: CountedWrite>(
    alloc: Global,
    query: &Query<'_>,
    writer: &mut W,
) -> Result<Explained, ExplainFault>
    requires few { length query.now.skips.now < 2 ^ 32 }
    requires one_each { length query.now.sources.now ≡ length query.now.plan.now.files }
    ensures kept { IfOk result
        (λ r. AreCounts query.now.job.now query.now.wanted (kept_of query.now) r.kept) }
    ensures left_out { IfOk result
        (λ r. AreCounts query.now.job.now query.now.wanted (left_out_of query.now) r.left_out) }
    ensures count { IfOk result (λ r. ForKey query.now.wanted
        (λ key. r.kept.pairs ≡ length (group_values query.now key))) }
    ensures written { OnOk result
        (W.seen writer.new ≡ with_bytes (W.seen writer.old) (explanation query.now)) }
    ensures cut { IfErr result (IsCutOff (W.seen writer.old) (W.seen writer.new)) }
{
    let kept = query.plan.without(alloc, query.skips)?;
    let mut walk = Walk {
        mapper: query.job.mapper(alloc, query.plan.input()),
        needle: needle_of(query.job, query.wanted),
        totals: NONE,
        lines: LineCount {
            file: 0,
            at: 0,
            feeds: 0,
        },
    };
    walk_kept(query, &kept, &mut walk, writer)?;
    let kept = walk.totals;
    walk.totals = NONE;
    walk_left_out(query, &mut walk, writer)?;
    Ok(Explained {
        kept,
        left_out: walk.totals,
    })
}
