//! `verify`: tests a result against its verdict again, and writes the line about it.
ghost use Rattle.std.specs.Prelude.{◌≡◌, IfErr, IfOk, string_bytes};
ghost use Rattle.mr_commands.specs.Facts.{AreVerifyFacts};
ghost use Rattle.mr_commands.specs.Verifies.{AnswersVerify, IsVerifyUnanswered};

use crate::counts::Facts;
use crate::merging::{LINE_ROOM, result_line};
use crate::texts::CommandOutput;
use mr_args::Fault;
use mr_files::Store;
use mr_shard_files::{VerifyPlan, verify_result};
use std::alloc::Global;

/// Tests the files of a result against its verdict. It writes nothing.
pub fn verify<S: Store>(
    store: &S,
    alloc: Global,
    asked: &VerifyPlan<'_>,
) -> Result<CommandOutput, Fault>
    ensures status { IfOk result (λ said. said.status ≡ 0) }
    ensures done { IfOk result
        (λ said. AnswersVerify (S.holds store.now) asked.now (string_bytes said.text)) }
    ensures facts { IfOk result (λ said. AreVerifyFacts (S.holds store.now) asked.now said.facts) }
    ensures refused { IfErr result
        (IsVerifyUnanswered (S.holds store.now) (S.unreadable store.now) asked.now) }
{
    let room = String::with_capacity(alloc, LINE_ROOM)?;
    let verdict = match verify_result(store, alloc, asked) {
        Ok(verdict) => verdict,
        Err(fault) => return Err(Fault::of_verify(fault)),
    };
    let text = result_line(room, "verified: ", &verdict);
    Ok(CommandOutput {
        text,
        status: 0,
        facts: Facts::Verdict(verdict),
    })
}
