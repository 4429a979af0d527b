//! Handles all events but `Ask`. One on an attempt that is not live, or of the other kind, is
//! ignored.
//!
//!     Fetch        a complete split: Region, and the fetch is noted; else Gone, the attempt ends
//!     MapDone      the split lacks an output, and its set is not fixed or is that of the attempt:
//!                  Accepted, and the split has the output and the set; else Ignored
//!     MapFailed    Accepted; a record that failed before is left out, unless the set is fixed
//!     ReduceDone   not committed, and each split fetched: Accepted, and committed; else Ignored
//!     Damaged      Accepted, and the split's output is gone if it is the one fetched last
//!     Lose         Accepted; the worker's attempt ends, and its map outputs are gone
//!
//! All but a good Fetch end the attempt. A task whose output is gone is idle again: the cursors
//! move back, and the next asks give it. What a lost worker committed stays.
//! Source: OSDI 2004, sections 3.3 and 4.6.
ghost use Rattle.std.specs.Prelude.{◌≡◌, ◌<◌, true, false, Some, None, ◌&&◌, OnOk, OnErr, IfOk, slice_get};
ghost use Rattle.mr_core.specs.declared.event.Shape.{Shape};
ghost use Rattle.mr_core.specs.declared.event.Task.{Task};
ghost use Rattle.mr_core.specs.declared.event.Event.{Event};
ghost use Rattle.mr_core.specs.Queries.{IsLive};
ghost use Rattle.mr_core.specs.Master.{Attempt, finish, fetch, commit, complete, damage, lose, live_attempt, outcome, replies, takes, may_leave_out, failed_before, leave_out, note_failure};

use super::MasterState;
use crate::entries::{Attempt, put};
use crate::event::{Reply, Shape, Task};
use crate::splits::{longer_list, put_longer};
use std::alloc::AllocError;

impl MasterState {
    /// Ends the live attempt, and moves the cursor back to its task.
    fn finish(&mut self, attempt: u32, task: Task)
        requires { IsLive self.old attempt task }
        ensures { self.new ≡ finish attempt self.old }
    {
        self.attempts.end(attempt);
        match task {
            Task::Map(split) => self.next_map = self.next_map.min(split),
            Task::Reduce(partition) => self.next_part = self.next_part.min(partition),
        }
    }

    /// Ends the live attempt of the partition, and commits its output.
    fn commit(&mut self, attempt: u32, partition: u32, output: u64)
        requires { IsLive self.old attempt (Task.Reduce partition) }
        ensures { self.new ≡ commit partition output (finish attempt self.old) }
    {
        self.attempts.end(attempt);
        self.committed.commit(partition, output);
    }

    /// A reduce attempt fetches the output of a split.
    pub(crate) fn fetch(&mut self, attempt: u32, map: u32) -> Reply
        ensures { (sh : Shape) → outcome sh self.old (Event.Fetch attempt map) ≡ replies result self.new }
    {
        let Some(at) = self.live(attempt) else {
            return Reply::Ignored;
        };
        let task = at.task();
        let Task::Reduce(_) = task else {
            return Reply::Ignored;
        };
        let Some(split) = self.splits.as_slice().get(map as usize) else {
            return Reply::Ignored;
        };
        let Some((output, _)) = split.output else {
            self.finish(attempt, task);
            return Reply::Gone;
        };
        self.attempts.note_fetch(attempt, map, output);
        Reply::Region { output }
    }

    /// A reduce attempt is done.
    pub(crate) fn reduce_done(&mut self, attempt: u32, output: u64) -> Reply
        ensures { (sh : Shape)
            → outcome sh self.old (Event.ReduceDone attempt output) ≡ replies result self.new }
    {
        let Some(at) = self.live(attempt) else {
            return Reply::Ignored;
        };
        let task = at.task();
        let Task::Reduce(partition) = task else {
            return Reply::Ignored;
        };
        let wanted = !self.is_complete(task) && at.has_all();
        if !wanted {
            self.finish(attempt, task);
            return Reply::Ignored;
        }
        self.commit(attempt, partition, output);
        Reply::Accepted
    }

    /// Whether the split has no output, and accepts one without the attempt's left-out records.
    fn takes(&self, attempt: &Attempt, split: u32) -> bool
        ensures { result ≡ takes attempt.now.skips (slice_get self.now.splits split) }
    {
        match self.splits.as_slice().get(split as usize) {
            Some(split) => split.output.is_none()
                && (!split.fixed || split.skips.is_same(attempt.skips())),
            None => false,
        }
    }

    fn complete(&mut self, attempt: u32, split: u32, output: u64)
        requires { IsLive self.old attempt (Task.Map split) }
        ensures { (at : Attempt) → live_attempt self.old attempt ≡ Some at
            → self.new ≡ complete split at.skips output at.worker (finish attempt self.old) }
    {
        self.attempts
            .complete(attempt, &mut self.splits, split, output);
    }

    /// A map attempt is done.
    pub(crate) fn map_done(&mut self, attempt: u32, output: u64) -> Reply
        ensures { (sh : Shape)
            → outcome sh self.old (Event.MapDone attempt output) ≡ replies result self.new }
    {
        let Some(at) = self.live(attempt) else {
            return Reply::Ignored;
        };
        let task = at.task();
        let Task::Map(split) = task else {
            return Reply::Ignored;
        };
        if !self.takes(at, split) {
            self.finish(attempt, task);
            return Reply::Ignored;
        }
        self.complete(attempt, split, output);
        Reply::Accepted
    }

    /// A worker is lost. What it committed stays.
    pub(crate) fn lose(&mut self, worker: u32) -> Reply
        ensures { (sh : Shape) → outcome sh self.old (Event.Lose worker) ≡ replies result self.new }
    {
        if !self.is_active(worker) {
            return Reply::Ignored;
        }
        put(self.lost.as_mut_slice(), worker, true);
        self.attempts.lose(worker);
        self.splits.leave(worker);
        self.next_map = 0;
        self.next_part = 0;
        Reply::Accepted
    }

    /// Removes the split's output, where it has this number, and moves the cursor back.
    fn empty(&mut self, map: u32, output: u64)
        ensures { self.new ≡ damage map output self.old }
    {
        self.next_map = self.next_map.min(map);
        self.splits.damage(map, output);
    }

    /// A reduce attempt can't read what it fetched from a split.
    pub(crate) fn damaged(&mut self, attempt: u32, map: u32) -> Reply
        ensures { (sh : Shape) → outcome sh self.old (Event.Damaged attempt map) ≡ replies result self.new }
    {
        let Some(at) = self.live(attempt) else {
            return Reply::Ignored;
        };
        let task = at.task();
        let Task::Reduce(_) = task else {
            return Reply::Ignored;
        };
        let Some(output) = at.latest(map) else {
            self.finish(attempt, task);
            return Reply::Ignored;
        };
        self.finish(attempt, task);
        self.empty(map, output);
        Reply::Accepted
    }

    /// Whether the record failed before, and may yet be left out.
    fn may_leave_out(&self, split: u32, number: u32) -> bool
        ensures { result ≡ (failed_before self.now split number && may_leave_out number
            (slice_get self.now.splits split)) }
    {
        let Some(failed) = self.failures.as_slice().get(split as usize) else {
            return false;
        };
        let Some(split) = self.splits.as_slice().get(split as usize) else {
            return false;
        };
        failed.has(number) && (!split.fixed && !split.skips.has(number))
    }

    /// Records a failure and ends its attempt. Where `adds` holds, the record is left out.
    fn note_failure(
        &mut self,
        attempt: u32,
        split: u32,
        number: u32,
        adds: bool,
    ) -> Result<(), AllocError>
        requires { IsLive self.old attempt (Task.Map split) }
        ensures noted { OnOk result (adds ≡ false
            → self.new ≡ note_failure split number (finish attempt self.old)) }
        ensures added { OnOk result (adds ≡ true → self.new
            ≡ leave_out split number (note_failure split number (finish attempt self.old))) }
        ensures err { OnErr result (self.new ≡ self.old) }
    {
        let longer = longer_list(self.failures.as_slice(), split, number)?;
        self.splits.leave_out(split, number, adds)?;
        put_longer(self.failures.as_mut_slice(), split, number, longer);
        self.next_map = self.next_map.min(split);
        self.attempts.end(attempt);
        Ok(())
    }

    /// The flag of the reply says that one record too many would be left out.
    #[tactic(auto, using(crate::proofs::Outcomes::failed_noted, crate::proofs::Outcomes::failed_over, crate::proofs::Outcomes::failed_left_out, crate::proofs::Outcomes::failed_dead, crate::proofs::Outcomes::failed_of_reduce))]
    pub(crate) fn map_failed(
        &mut self,
        shape: Shape,
        attempt: u32,
        number: u32,
    ) -> Result<(Reply, bool), AllocError>
        ensures ok { IfOk result (λ r. outcome shape self.old (Event.MapFailed attempt number)
            ≡ record { reply = r.0; state = self.new; over = r.1 }) }
        ensures err { OnErr result (self.new ≡ self.old) }
    {
        let Some(at) = self.live(attempt) else {
            return Ok((Reply::Ignored, false));
        };
        let Task::Map(split) = at.task() else {
            return Ok((Reply::Ignored, false));
        };
        let again = self.may_leave_out(split, number);
        let room = again && self.splits.has_room(shape.limits.skips);
        self.note_failure(attempt, split, number, room)?;
        Ok((Reply::Accepted, again && !room))
    }
}
