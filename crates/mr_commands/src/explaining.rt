//! `explain`: prints the records that give a key, or that give nothing, and compares the key's lines
//! in a result with the text of its group.
//!
//! What can be refused is tested before the first byte is printed, the part of the key too. The files
//! are sifted as they are read (`sifted.rt`) where a key's evidence is all that is asked for: over
//! whole files, without left-out records and without a part to compare. Else they are held whole.
ghost use Rattle.std.specs.Prelude.{◌≡◌, ◌<◌, ◌^◌, ◌++◌, None, [], true, IfErr, IfOk, OnOk, List, ℕ};
ghost use Rattle.std.specs.Prelude.{length, map, option_map, string_bytes};
ghost use Rattle.mr_explain.specs.Compared.{answer_of};
ghost use Rattle.mr_explain.specs.Explained.{explanation};
ghost use Rattle.mr_sequential.specs.Skips.{skip_fault};
ghost use Rattle.mr_store.specs.Devices.{flushed, with_bytes};
ghost use Rattle.mr_commands.specs.Answers.{IsRunRefusal};
ghost use Rattle.mr_commands.specs.Explains.{AnswersExplain, Compares, IsComparedPart};
ghost use Rattle.mr_commands.specs.Explains.{IsExplainUnanswered, IsPartUnread, IsPrintFault};
ghost use Rattle.mr_commands.specs.Explains.{IsSought, line_said, source_told, sources_from};
ghost use Rattle.mr_commands.specs.Explains.{status_said};
ghost use Rattle.mr_commands.specs.Facts.{AreExplainFacts, IsCounted};
ghost use Rattle.mr_commands.specs.Sifted.{AsksAlone};

use crate::counts::Facts;
use crate::feeds::lines_before;
use crate::input::run_input_of;
use crate::sifted::sift_input;
use crate::texts::CommandOutput;
use mr_args::{ExplainOptions, Fault};
use mr_bytes::RecordName;
use mr_explain::{
    Comparison, ExplainFault, Query, SourceFile, Wanted, compare, group_text, plan_excerpts,
};
use mr_files::{Store, part_name, read_file};
use mr_jobs::Request;
use mr_partition::partition_by;
use mr_sequential::{RunFault, lengths_of};
use mr_splits::{Plan, SkipFault};
use mr_store::{CountedWrite, write_all};
use std::alloc::{AllocError, Global};

/// Tests the list of left-out records: their number, then each in turn.
fn expect_skips(request: &Request, plan: &Plan<'_>, skips: &[RecordName]) -> Result<(), Fault>
    requires { plan.now.size ≡ request.now.split }
    ensures good { OnOk result (skip_fault request.now plan.now.files skips.now ≡ None) }
    ensures refused { IfErr result (IsRunRefusal request.now plan.now.files skips.now) }
{
    match plan.list_fault(request.max_skips(), skips) {
        None => Ok(()),
        Some(SkipFault::TooMany) => Err(Fault::Run(RunFault::TooManySkips)),
        Some(SkipFault::Order) => Err(Fault::Run(RunFault::SkipOrder)),
        Some(SkipFault::NoSuchRecord) => Err(Fault::Run(RunFault::NoSuchRecord)),
    }
}

/// How files are printed of which the first has so many lines and bytes before what is taken of it.
fn sources_of<'a>(
    alloc: Global,
    names: &[&'a str],
    lines: u64,
    bytes: u64,
) -> Result<Vec<SourceFile<'a>>, AllocError>
    ensures { IfOk result (λ v. map source_told v.items
        ≡ sources_from lines bytes (map (λ s. s.now) names.now)) }
{
    let mut sources = Vec::new(alloc);
    let (mut lines_before, mut bytes_before) = (lines, bytes);
    for name in names {
        sources.push(SourceFile {
            name: name.as_bytes(),
            lines_before,
            bytes_before,
        })?;
        lines_before = 0;
        bytes_before = 0;
    }
    Ok(sources)
}

/// The part in which a result has the key's lines, if they are compared.
fn compared_part<S: Store>(
    store: &S,
    alloc: Global,
    request: &Request,
    asked: &ExplainOptions<'_>,
) -> Result<Option<Vec<u8>>, Fault>
    ensures part { IfOk result (λ p. IsComparedPart (S.holds store.now) request.now
        (option_map (λ s. s.now) asked.now.result) (option_map (λ s. s.now) asked.now.key)
        (option_map (λ v. v.items) p)) }
    ensures refused { IfErr result (IsPartUnread (S.unreadable store.now) request.now
        (option_map (λ s. s.now) asked.now.result) (option_map (λ s. s.now) asked.now.key)) }
{
    let (Some(dir), Some(key)) = (asked.result, asked.key) else {
        return Ok(None);
    };
    let number = partition_by(request.by(), key.as_bytes(), request.parts());
    let name = part_name(alloc, dir, number as usize)?;
    Ok(Some(read_file(store, alloc, name.as_str())?))
}

fn wanted_of<'a>(key: Option<&'a str>) -> Wanted<'a>
    ensures { IsSought (option_map (λ s. s.now) key.entry) result }
{
    match key {
        Some(key) => Wanted::Key(key.as_bytes()),
        None => Wanted::Nothing,
    }
}

/// The line of an answer, and its status.
fn said_of(alloc: Global, answer: Comparison<'_>) -> Result<(Vec<u8>, u8), AllocError>
    ensures line { IfOk result (λ r. r.0.items ≡ line_said (answer_of answer.entry)) }
    ensures status { IfOk result (λ r. r.1 ≡ status_said (answer_of answer.entry)) }
{
    match answer {
        Comparison::Agrees => Ok((Vec::from_slice(alloc, b"agrees\n")?, 0)),
        Comparison::NoLine => Ok((Vec::from_slice(alloc, b"differs: no line\n")?, 1)),
        Comparison::Differs(line) => {
            let mut text = Vec::from_slice(alloc, b"differs: ")?;
            text.extend_from_slice(line)?;
            text.push(b'\n')?;
            Ok((text, 1))
        }
    }
}

/// Compares the key's lines in the part with the text of its group, and puts the answer. Returns the
/// status.
fn put_answer<W: CountedWrite>(
    alloc: Global,
    query: &Query<'_>,
    part: Option<&[u8]>,
    out: &mut W,
) -> Result<u8, Fault>
    ensures said { IfOk result (λ status. (text : List ℕ)
        × Compares query.now query.now.wanted (option_map (λ p. p.now) part.entry) text status
        × (W.seen out.new ≡ with_bytes (W.seen out.old) text)) }
    ensures refused { IfErr result (IsPrintFault (W.seen out.old) (W.seen out.new)) }
{
    let (Some(part), Wanted::Key(key)) = (part, query.wanted) else {
        return Ok(0);
    };
    let text = group_text(alloc, query, key)?;
    let (line, status) = said_of(alloc, compare(part, key, text.as_slice()))?;
    match write_all(out, line.as_slice()) {
        Ok(()) => Ok(status),
        Err(_) => Err(Fault::CannotPrint),
    }
}

/// Prints the evidence and the answer on the part, and flushes.
fn print_all<W: CountedWrite>(
    alloc: Global,
    query: &Query<'_>,
    part: Option<&[u8]>,
    inputs: Vec<u64>,
    out: &mut W,
) -> Result<CommandOutput, Fault>
    requires few { length query.now.skips.now < 2 ^ 32 }
    requires one_each { length query.now.sources.now ≡ length query.now.plan.now.files }
    ensures text { IfOk result (λ said. string_bytes said.text ≡ []) }
    ensures printed { IfOk result (λ said. (text : List ℕ)
        × Compares query.now query.now.wanted (option_map (λ p. p.now) part.entry) text said.status
        × (W.seen out.new ≡ flushed (with_bytes (W.seen out.old) (explanation query.now ++ text)))) }
    ensures counted { IfOk result (λ said. IsCounted query.now inputs.items said.facts) }
    ensures refused { IfErr result (IsPrintFault (W.seen out.old) (W.seen out.new)) }
{
    let explained = match mr_explain::explain(alloc, query, out) {
        Ok(explained) => explained,
        Err(ExplainFault::Device) => return Err(Fault::CannotPrint),
        Err(ExplainFault::OutOfMemory) => return Err(Fault::OutOfMemory),
    };
    let status = put_answer(alloc, query, part, out)?;
    match out.flush() {
        Ok(()) => Ok(CommandOutput {
            text: String::new(alloc),
            status,
            facts: Facts::Evidence(inputs, explained),
        }),
        Err(_) => Err(Fault::CannotPrint),
    }
}

/// Explains over files that are held whole.
fn explain_whole<S: Store, W: CountedWrite>(
    store: &S,
    alloc: Global,
    asked: &ExplainOptions<'_>,
    out: &mut W,
) -> Result<CommandOutput, Fault>
    ensures text { IfOk result (λ said. string_bytes said.text ≡ []) }
    ensures answers { IfOk result (λ said. AnswersExplain (S.holds store.now) asked.now
        (W.seen out.old) (W.seen out.new) said.status) }
    ensures facts { IfOk result (λ said. AreExplainFacts (S.holds store.now) asked.now said.facts) }
    ensures refused { IfErr result (IsExplainUnanswered (S.holds store.now)
        (S.unreadable store.now) (S.known_as store.now) asked.now (W.seen out.old) (W.seen out.new)) }
{
    let options = &asked.options;
    let run = run_input_of(store, alloc, options, asked.skips, None)?;
    let request = &run.request;
    let skips = run.skips.as_slice();
    let plan = Plan::new_fitting(alloc, &run.input, request.split_size())?;
    expect_skips(request, &plan, skips)?;
    let lines = lines_before(store, alloc, options)?;
    let sources = sources_of(alloc, options.files.as_slice(), lines, options.from)?;
    let part = compared_part(store, alloc, request, asked)?;
    let inputs = lengths_of(alloc, &run.input)?;
    let query = Query {
        job: request.job(),
        plan: &plan,
        skips,
        sources: sources.as_slice(),
        wanted: wanted_of(asked.key),
        limit: asked.limit,
    };
    print_all(alloc, &query, part.as_deref(), inputs, out)
}

/// Whether a key's evidence is all that is asked for, over whole files and all of their records.
fn sifts(asked: &ExplainOptions<'_>) -> bool
    ensures { result ≡ true → AsksAlone asked.now }
{
    let all = asked.options.from == 0 && asked.options.to.is_none();
    all && asked.key.is_some() && asked.result.is_none() && asked.skips.is_empty()
}

/// Prints the evidence on `out`, and then how a result's lines of the key compare, if it is asked
/// for. It writes no file.
pub fn explain<S: Store, W: CountedWrite>(
    store: &S,
    alloc: Global,
    asked: &ExplainOptions<'_>,
    out: &mut W,
) -> Result<CommandOutput, Fault>
    ensures text { IfOk result (λ said. string_bytes said.text ≡ []) }
    ensures answers { IfOk result (λ said. AnswersExplain (S.holds store.now) asked.now
        (W.seen out.old) (W.seen out.new) said.status) }
    ensures facts { IfOk result (λ said. AreExplainFacts (S.holds store.now) asked.now said.facts) }
    ensures refused { IfErr result (IsExplainUnanswered (S.holds store.now)
        (S.unreadable store.now) (S.known_as store.now) asked.now (W.seen out.old) (W.seen out.new)) }
{
    if !sifts(asked) {
        return explain_whole(store, alloc, asked, out);
    }
    let wanted = wanted_of(asked.key);
    let run = sift_input(store, alloc, &asked.options, wanted)?;
    let inputs = run.lengths;
    let plan = plan_excerpts(alloc, &run.input)?;
    let query = Query {
        job: run.request.job(),
        plan: &plan,
        skips: &[],
        sources: run.sources.as_slice(),
        wanted,
        limit: asked.limit,
    };
    print_all(alloc, &query, None, inputs, out)
}
