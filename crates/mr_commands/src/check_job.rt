//! Judges a result against an input.
//!
//!     one thread and no verdict to write    asks the fast judge (`accepting.rt`): yes, or nothing
//!     several, or one, or if nothing        reads the result whole and judges what it read
//!     a file longer than a good result's    judges while it reads (`judging.rt`)
//!
//! The fast judge holds the parts, and reads the certificate in pieces. A judge of what was read whole
//! finds a no in little more than the time of a yes. The judge that reads opens all files again and
//! holds none. It judges a result with a pipe on one thread, and where memory was wanting before. It
//! reports a file that can't be read.
ghost use Rattle.std.specs.Prelude.{◌≤◌, ◌^◌};
ghost use Rattle.mr_input.specs.Files.{split_total};

use crate::accepting::{accept_files, can_reread};
use crate::judging::judge_as_read;
use crate::texts::{CommandOutput, say};
use mr_args::{CheckOptions, Fault};
use mr_bytes::{OpenGate, Progress};
use mr_check::{Case, JudgeOptions, No, Yes, judge};
use mr_files::{LimitFault, Store, read_result_within};
use mr_input::Input;
use mr_jobs::Request;
use mr_shard_files::part_notes;
use mr_shards::{Verdict, ranges_for, spots_for, verdict_for, write_verdict};
use std::alloc::{AllocError, Global};
use std::marker::Brand;
use std::thread::Threads;

/// The answer on a result, and the verdict's text if it is kept.
#[derive(Drop)]
pub(crate) struct Judgement {
    pub said: CommandOutput,
    pub verdict: Option<Vec<u8>>,
}

/// A judgement with tested options and an input that fits the request.
#[derive(Clone, Copy)]
pub(crate) struct CheckJob<'a> {
    pub asked: &'a CheckOptions<'a>,
    pub request: &'a Request,
    pub input: &'a Input,
    /// Whether the last file of the input ends with it.
    pub ends: bool,
    pub ghost fits: { split_total request.now.split input.now ≤ 2 ^ 20 },
    pub ghost few: { (1 ≤ asked.now.threads) × (asked.now.threads ≤ 64) },
}

/// The most bytes of all parts of a good result over this input, or of its certificate. A pair
/// takes at least two bytes of input: one of its key, and the end of its word or line. It takes at
/// most 16 bytes of a part besides its key, if its value is a line's place, and at most 17 of the
/// certificate, as a group of its own: four for the count of entries, and three, five and five for
/// its name in version 2, since an input has at most 2^20 splits. The rest is for what precedes the
/// partitions. No clause states this bound: a longer result is judged all the same.
fn most_bytes(input: &Input) -> u64 {
    let mut bytes = 0u64;
    for file in 0..input.files() {
        bytes = bytes.saturating_add(input.len(file) as u64);
    }
    bytes.saturating_mul(9).saturating_add(65_536)
}

impl<'a> CheckJob<'a> {
    ghost use Rattle.std.specs.Prelude.{◌≡◌, ℕ, IfErr, IfOk, IfSome, IsTrue, List, None, Ok};
    ghost use Rattle.std.specs.Prelude.{option_map};
    ghost use Rattle.mr_input.specs.Files.{contents};
    ghost use Rattle.mr_bytes.specs.Lists.{Rises};
    ghost use Rattle.mr_bytes.specs.Order.{record_order};
    ghost use Rattle.mr_shards.specs.Spots.{SkipsExist};
    ghost use Rattle.mr_commands.specs.Judgements.{AnswersResult, IsAnswer, IsUnreadResult};
    ghost use Rattle.mr_commands.specs.Judgements.{JudgesResult, text_kept};

    fn verdict<R: Threads + Sync>(
        &self,
        rt: &R,
        alloc: Global,
        outputs: &[Vec<u8>],
        certificate: &[u8],
        watch: &dyn Progress,
    ) -> Result<Yes, No>
        ensures { IsAnswer self.now.request.now self.now.input.now (contents outputs.now)
            certificate.now result }
    {
        let (request, input) = (self.request, self.input);
        let case = Case {
            request,
            input,
            outputs,
            certificate,
        };
        let options = JudgeOptions::of(self.asked.threads, &OpenGate, &watch);
        judge(rt, alloc, &case, &options)
    }

    /// The text of a yes's verdict, if it has a name.
    fn verdict_text(
        &self,
        alloc: Global,
        outputs: &[Vec<u8>],
        answer: &Result<Yes, No>,
    ) -> Result<Option<Vec<u8>>, AllocError>
        requires { IfOk answer.now (λ y. (Rises record_order y.skips.items)
            × SkipsExist self.now.request.now.split self.now.input.now y.skips.items) }
        ensures { IfOk result (λ text. option_map (λ v. v.items) text
            ≡ text_kept self.now.request.now self.now.asked.now self.now.input.now self.now.ends
            (contents outputs.now) answer.now) }
    {
        let (Ok(yes), Some(_)) = (answer, self.asked.verdict) else {
            return Ok(None);
        };
        let options = &self.asked.options;
        let names = options.files.as_slice();
        let inputs = ranges_for(alloc, names, options.from, self.input, self.ends)?;
        let outputs = part_notes(alloc, outputs)?;
        let left_out = spots_for(alloc, self.request, self.input, yes.skips.as_slice())?;
        let verdict = verdict_for(alloc, self.request, yes.pairs)?;
        let verdict = Verdict {
            inputs,
            outputs,
            left_out,
            ..verdict
        };
        Ok(Some(write_verdict(alloc, &verdict)?))
    }

    /// Whether no verdict of this answer is kept.
    fn keeps_nothing(&self, answer: &Result<Yes, No>) -> bool
        ensures { IsTrue result → (outputs : List (List ℕ)) → text_kept self.now.request.now
            self.now.asked.now self.now.input.now self.now.ends outputs answer.now ≡ None }
    {
        match answer {
            Ok(_) => self.asked.verdict.is_none(),
            Err(_) => true,
        }
    }

    /// Reads the result and judges it, if no file has more than `most` bytes.
    fn judge_whole<S: Store, R: Threads + Sync>(
        &self,
        rt: &R,
        store: &S,
        alloc: Global,
        most: u64,
        watch: &dyn Progress,
    ) -> Result<Option<Judgement>, Fault>
        ensures judged { IfOk result (λ j. IfSome j (JudgesResult (S.holds store.now) self.now)) }
        ensures refused { IfErr result (IsUnreadResult (S.unreadable store.now) self.now) }
    {
        let options = &self.asked.options;
        let (dir, parts) = (options.out, options.parts as usize);
        let (outputs, certificate) = match read_result_within(store, alloc, dir, parts, most) {
            Ok(held) => held,
            Err(LimitFault::TooLong) => return Ok(None),
            Err(LimitFault::File(fault)) => return Err(Fault::from(fault)),
        };
        let answer = self.verdict(rt, alloc, outputs.as_slice(), certificate.as_slice(), watch);
        let said = say(alloc, self.input, &answer)?;
        let verdict = self.verdict_text(alloc, outputs.as_slice(), &answer)?;
        Ok(Some(Judgement { said, verdict }))
    }

    /// The answer on the result: the fast judge's yes, or what is found while the result is read.
    fn answer<S: Store>(
        &self,
        store: &S,
        alloc: Global,
        accepted: Option<Yes>,
        watch: &dyn Progress,
    ) -> Result<Result<Yes, No>, Fault>
        requires { IfSome accepted (λ y. AnswersResult (S.holds store.now) self.now (Ok y)) }
        ensures answer { IfOk result (AnswersResult (S.holds store.now) self.now) }
        ensures refused { IfErr result (IsUnreadResult (S.unreadable store.now) self.now) }
    {
        match accepted {
            Some(yes) => Ok(Ok(yes)),
            None => judge_as_read::<S, Brand>(self, store, alloc, watch),
        }
    }

    /// Judges the result. If several threads judge or a verdict is kept, it reads the result whole.
    /// Otherwise it asks the fast judge for a yes, and reads it whole if that says nothing. Where it
    /// isn't judged so, it judges while it reads. If that gives a yes whose verdict is kept, it reads
    /// the result whole after all.
    pub(crate) fn judge_result<S: Store, R: Threads + Sync>(
        &self,
        rt: &R,
        store: &S,
        alloc: Global,
        watch: &dyn Progress,
    ) -> Result<Judgement, Fault>
        ensures judged { IfOk result (JudgesResult (S.holds store.now) self.now) }
        ensures refused { IfErr result (IsUnreadResult (S.unreadable store.now) self.now) }
    {
        let whole = self.asked.threads > 1 || self.asked.verdict.is_some();
        let again = !whole && can_reread(self, store, alloc);
        let accepted = if again {
            accept_files(self, store, alloc, most_bytes(self.input), watch)
        } else {
            None
        };
        if whole || (again && accepted.is_none()) {
            match self.judge_whole(rt, store, alloc, most_bytes(self.input), watch) {
                Ok(Some(judgement)) => return Ok(judgement),
                Err(fault) if whole => return Err(fault),
                _ => {}
            }
        }
        let answer = self.answer(store, alloc, accepted, watch)?;
        if self.keeps_nothing(&answer) {
            let said = say(alloc, self.input, &answer)?;
            return Ok(Judgement {
                said,
                verdict: None,
            });
        }
        match self.judge_whole(rt, store, alloc, u64::MAX, watch)? {
            Some(judgement) => Ok(judgement),
            // More than a machine holds.
            None => Err(Fault::OutOfMemory),
        }
    }
}
