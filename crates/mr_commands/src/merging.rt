//! `merge`: merges shards, and writes the line about the result.
ghost use Rattle.std.specs.Prelude.{◌≡◌, ◌+◌, ◌≤◌, ◌++◌, [], IfErr, IfOk, length, string_bytes};
ghost use Rattle.std.specs.Prelude.{string_capacity, string_len};
ghost use Rattle.mr_shard_files.specs.Merging.{ChangesResult};
ghost use Rattle.mr_commands.specs.Facts.{AreMergeFacts};
ghost use Rattle.mr_commands.specs.Merges.{AnswersMerge, IsMergeUnanswered};
ghost use Rattle.mr_commands.specs.Merges.{result_line as line_of_result};

use crate::counts::Facts;
use crate::texts::CommandOutput;
use itoa::Buffer;
use mr_args::{Fault, MergeOptions};
use mr_files::Store;
use mr_shard_files::{MergePlan, merge_shards};
use mr_shards::Verdict;
use std::alloc::Global;
use std::thread::Threads;

/// The most bytes of a line on a result: a word of 10 bytes, and numbers of 20 digits each.
pub(crate) const LINE_ROOM: usize = 96;

// The clauses have this number.
const _: () = prove!(LINE_ROOM == 96);

/// Appends a text for which there is room, so that it needs no memory.
fn add_within(line: &mut String, text: &str)
    requires { string_len line.old + length text.now ≤ string_capacity line.old }
    ensures bytes { string_bytes line.new ≡ string_bytes line.old ++ text.now }
    ensures len { string_len line.new ≡ string_len line.old + length text.now }
    ensures room { string_capacity line.old ≤ string_capacity line.new }
{
    let _ = line.push_str(text);
}

/// A word on a result, and what its verdict counts. It needs no memory but the room.
pub(crate) fn result_line(room: String, word: &str, verdict: &Verdict) -> String
    requires empty { string_len room ≡ 0 }
    requires nothing { string_bytes room ≡ [] }
    requires room { 96 ≤ string_capacity room }
    requires word { length word.now ≤ 10 }
    ensures { string_bytes result ≡ line_of_result word.now verdict.now }
{
    let mut line = room;
    let mut digits = Buffer::new();
    add_within(&mut line, word);
    add_within(&mut line, digits.format(verdict.outputs.len()));
    add_within(&mut line, " files, ");
    add_within(&mut line, digits.format(verdict.pairs));
    add_within(&mut line, " pairs, ");
    add_within(&mut line, digits.format(verdict.left_out.len()));
    add_within(&mut line, " left out\n");
    line
}

/// Merges the shards of the named verdicts and writes the result. It makes room for its line before
/// it writes a file, so that nothing can fail after the last one.
pub fn merge<S: Store, T: Threads>(
    rt: &T,
    store: &mut S,
    alloc: Global,
    asked: &MergeOptions<'_>,
) -> Result<CommandOutput, Fault>
    ensures status { IfOk result (λ said. said.status ≡ 0) }
    ensures done { IfOk result (λ said. AnswersMerge (S.holds store.old) (S.holds store.new)
        (S.known_as store.old) asked.now (string_bytes said.text)) }
    ensures facts { IfOk result (λ said. AreMergeFacts (S.holds store.old) (S.holds store.new)
        (S.known_as store.old) asked.now said.facts) }
    ensures others { ChangesResult (S.holds store.old) (S.holds store.new) asked.now.out.now }
    ensures refused { IfErr result (λ e. IsMergeUnanswered (S.holds store.old)
        (S.holds store.new) (S.unreadable store.old) (S.unwritable store.old)
        (S.alike store.old) (S.known_as store.old) asked.now e) }
{
    let room = String::with_capacity(alloc, LINE_ROOM)?;
    let plan = MergePlan {
        names: asked.verdicts.as_slice(),
        list: asked.inputs,
        out: asked.out,
        partial: asked.partial,
    };
    let joined = merge_shards(rt, store, alloc, &plan)?;
    let text = result_line(room, "merged: ", &joined);
    Ok(CommandOutput {
        text,
        status: 0,
        facts: Facts::Verdict(joined),
    })
}
