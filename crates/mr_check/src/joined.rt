//! Outputs as if they were one, without a copy: a place in all of them takes four bytes.
//!
//!     outputs   [ a \t 1 \n ]  [ ]  [ b \t 2 \n ]
//!     starts      0             4     4
//!
//! Place 6 in all of them is place 2 of the last one.
ghost use Rattle.std.specs.Prelude.{◌≡◌, ◌<◌, ◌≤◌, ◌+◌, drop, length, IfOk, IfSome};
ghost use Rattle.mr_input.specs.Files.{contents, nth_file};
ghost use Rattle.mr_lanes.specs.Bits.{Extends};
ghost use Rattle.mr_check.specs.Joined.{joined};

use std::alloc::{AllocError, Global};
use std::marker::Model;

/// Outputs of less than 4 GiB in all.
#[derive(Drop)]
pub(crate) struct JoinedOutputs<'a> {
    outputs: &'a [Vec<u8>],
    starts: Vec<u32>,
}

impl<'a> Model for JoinedOutputs<'a> {
    ghost use Rattle.std.specs.Prelude.{List, ℕ};
    ghost use Rattle.mr_input.specs.Files.{contents};
    ghost use Rattle.mr_check.specs.Joined.{AreStarts};

    ghost Value = { List (List ℕ) };

    ghost view = { λ j. contents j.outputs.now };

    ghost invariant = { λ j. AreStarts (contents j.outputs.now) j.starts.items };
}

/// `None` if the sum is 4 GiB or more.
#[inline(always)]
fn place_behind(start: u32, count: usize) -> Option<u32>
    ensures { IfSome result (λ place. place ≡ start + count) }
{
    match u32::try_from(count) {
        Ok(count) => start.checked_add(count),
        Err(_) => None,
    }
}

/// The number of the last output that begins at the place or before it, searched from `hint` on.
#[inline(always)]
fn output_at(starts: &[u32], place: u32, hint: usize) -> usize
    requires { 0 < length starts.now }
    ensures { result < length starts.now }
{
    let mut p = hint.min(starts.len() - 1);
    while p > 0 && starts[p] > place {
        p -= 1;
    }
    while p + 1 < starts.len() && starts[p + 1] <= place {
        p += 1;
    }
    p
}

impl<'a> JoinedOutputs<'a> {
    /// `None` if they have 4 GiB or more in all.
    pub fn of(
        alloc: Global,
        outputs: &'a [Vec<u8>],
    ) -> Result<Option<JoinedOutputs<'a>>, AllocError>
        ensures { IfOk result (λ o. IfSome o (λ j. j ≡ contents outputs.entry.now)) }
    {
        let mut starts = Vec::with_capacity(alloc, outputs.len())?;
        let mut start = 0;
        for output in outputs {
            starts.push(start)?;
            match place_behind(start, output.len()) {
                Some(end) => start = end,
                None => return Ok(None),
            }
        }
        Ok(Some(JoinedOutputs { outputs, starts }))
    }

    pub fn outputs(&self) -> &'a [Vec<u8>]
        ensures { contents result.now ≡ self.now }
    {
        self.outputs
    }

    /// How many bytes they have in all.
    pub fn len(&self) -> u64 {
        let mut bytes = 0u64;
        for output in self.outputs {
            bytes = bytes.saturating_add(output.len() as u64);
        }
        bytes
    }

    /// The place in all outputs of a place of output `p`. `None` if there is no such place.
    #[inline]
    pub fn line(&self, p: u64, from: u64) -> Option<u32>
        ensures { IfSome result
            (λ line. Extends (drop from (nth_file self.now p)) (drop line (joined self.now))) }
    {
        if p >= self.outputs.len() as u64 {
            return None;
        }
        let p = p as usize;
        let output = self.outputs[p].as_slice();
        if from > output.len() as u64 {
            return None;
        }
        place_behind(self.starts[p], from as usize)
    }

    /// What is left of its output from a place in all of them on. `p` is the number of the output
    /// found by the last call: where places mostly rise, no call searches.
    #[inline]
    pub fn rest_at(&self, line: u32, p: &mut usize) -> &'a [u8]
        ensures { Extends result.now (drop line (joined self.now)) }
    {
        if self.outputs.is_empty() {
            return b"";
        }
        *p = output_at(self.starts.as_slice(), line, *p);
        let start = self.starts[*p];
        if start > line {
            return b"";
        }
        match self.outputs[*p].as_slice().get((line - start) as usize..) {
            Some(rest) => rest,
            None => b"",
        }
    }
}
