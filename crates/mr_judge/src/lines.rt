//! Compares the text of a group with the output as it is made: line by line where it has a line
//! for each value. The fast yes takes a group's key from an output, and steps before it tests the
//! pairs: n entries under a line of L bytes would make a text of n times L bytes, which no input bounds.
//!
//! Most keys are counted once. Their lines are compared without being made.
ghost use Rattle.std.specs.Prelude.{◌≡◌, ◌+◌, ◌∷◌, [], OnOk, true, length};
ghost use Rattle.mr_jobs.specs.JobSpec.{has_lines};
ghost use Rattle.mr_reduce.specs.Text.{text_of, total_line};
ghost use Rattle.mr_judge.specs.Outputs.{CanCome, TextTold, Halts};

use crate::outputs::{Outputs, test_text};
use mr_bytes::ValueColumn;
use mr_jobs::Request;
use mr_reduce::{append_text, group_text};
use mr_verdict::JudgeError;

/// Whether a group's text comes next in the open output. The buffer `line` is for one line.
pub(crate) fn test_group<O: Outputs>(
    outputs: &mut O,
    request: &Request,
    p: u64,
    key: &[u8],
    values: &ValueColumn,
    line: &mut Vec<u8>,
) -> Result<(), JudgeError>
    requires begun { O.begun outputs.old }
    requires some { CanCome (O.gives outputs.old) }
    ensures told { TextTold (O.gives outputs.old) (O.gives outputs.new) p
        (O.place outputs.old) (text_of request.now.job key.now values.now) result }
    ensures some { CanCome (O.gives outputs.new) }
    ensures place { OnOk result (O.place outputs.new
        ≡ O.place outputs.old + length (text_of request.now.job key.now values.now)) }
    ensures begun { O.begun outputs.new }
    ensures halts { Halts O.steady (O.failed outputs.old) (O.failed outputs.new) result }
{
    let job = request.job();
    if job.has_lines() {
        for i in 0..values.len() {
            line.clear();
            group_text(job, key, &[values.get(i)], line)?;
            test_text(outputs, p, line.as_slice())?;
        }
        return Ok(());
    }
    if job.counts() && values.len() == 1 {
        test_text(outputs, p, key)?;
        test_text(outputs, p, b"\t1\n")?;
        return Ok(());
    }
    line.clear();
    append_text(job, key, values, line)?;
    test_text(outputs, p, line.as_slice())
}
