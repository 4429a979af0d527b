//! A reader over bytes in memory, for tests of code that reads.
ghost use Rattle.std.specs.Prelude.{◌≡◌, ◌≤◌, Option, Some, IsSome, IfSome, IfOk, IsErr, OnErr};
ghost use Rattle.std.specs.Prelude.{length, take, drop, min, true, false};
ghost use Rattle.std.specs.Io.KnownBytes.{ReadConsumes};
ghost use Rattle.mr_store.specs.Devices.{AreBytes, Counts, FailsOnly};
ghost use Rattle.mr_store.specs.Memory.{fails_now as does_fail, behind_call as what_is_behind};

use crate::device::{CountedRead, Device};
use std::marker::Model;

/// Whether this call fails; `failing` counts from 1 which of the calls to come does.
pub(crate) fn fails_now(failing: Option<u64>) -> bool
    ensures { result ≡ does_fail failing }
{
    failing == Some(1)
}

pub(crate) fn behind_call(failing: Option<u64>) -> Option<u64>
    requires { IfSome failing (λ n. 1 ≤ n) }
    ensures behind { result ≡ what_is_behind failing }
    ensures later { IfSome result (λ n. 1 ≤ n) }
{
    match failing {
        Some(n) if n > 1 => Some(n - 1),
        _ => None,
    }
}

fn give(buffer: &mut [u8], bytes: &[u8], most: usize) -> usize
    ensures count { result ≡ min most (min (length buffer.old) (length bytes.now)) }
    ensures given { take result buffer.new ≡ take result bytes.now }
{
    let count = most.min(buffer.len().min(bytes.len()));
    let (piece, _) = buffer.split_at_mut(count);
    let (given, _) = bytes.split_at(count);
    piece.copy_from_slice(given);
    count
}

fn are_none(bytes: &[u8]) -> bool
    ensures { AreBytes bytes.now }
{
    bytes.is_empty()
}

/// Gives at most a set number of bytes per call, and can fail once.
#[derive(Drop)]
pub struct MemoryReader {
    bytes: Vec<u8>,
    at: usize,
    most: usize,
    failing: Option<u64>,
    failed: u64,
}

impl Model for MemoryReader {
    ghost use Rattle.std.specs.Prelude.{ℕ, ◌≤◌, IfSome, drop, length};
    ghost use Rattle.mr_store.specs.Memory.{Memory};

    ghost Value = { Memory };

    ghost view = { λ a. record { bytes = drop a.at a.bytes.items; most = a.most; failing = a.failing; failed = a.failed } };

    ghost invariant = { λ a. record {
      within : a.at ≤ length a.bytes.items;
      some : 1 ≤ a.most;
      later : IfSome a.failing (λ n. 1 ≤ n);
    } };
}

impl MemoryReader {
    /// Gives these bytes, at most `most` per call; call `failing`, from 1, fails if there is one.
    pub fn new(bytes: Vec<u8>, most: usize, failing: Option<u64>) -> MemoryReader
        requires some { 1 ≤ most }
        requires later { IfSome failing (λ n. 1 ≤ n) }
        ensures { result ≡ record { bytes = bytes.items; most = most; failing = failing; failed = 0 } }
    {
        MemoryReader {
            bytes,
            at: 0,
            most,
            failing,
            failed: 0,
        }
    }

    /// The bytes that are left.
    pub fn rest(&self) -> &[u8]
        ensures { result.now ≡ self.now.bytes }
    {
        &self.bytes[self.at..]
    }
}

impl CountedRead for MemoryReader {
    ghost remaining = { λ r. Some r.bytes };

    ghost failed = { λ r. r.failed };

    ghost can_fail = { λ r. IsSome r.failing };

    ghost lacked = { λ _. false };

    fn read(&mut self, buffer: &mut [u8]) -> Result<usize, Device>
        ensures bound { IfOk result (λ n. n ≤ length buffer.new) }
        ensures bytes { ReadConsumes (Some self.old.bytes) (Some self.new.bytes) result buffer.new }
        ensures known { AreBytes self.new.bytes }
        ensures count { Counts self.old.failed self.new.failed result }
        ensures fails { FailsOnly (IsSome self.old.failing) false result }
        ensures later { IsSome self.new.failing → IsSome self.old.failing }
        ensures untouched { OnErr result (buffer.new ≡ buffer.old) }
        ensures gives { does_fail self.old.failing ≡ false
            → result ≡ Ok (min self.old.most (min (length buffer.old) (length self.old.bytes))) }
        ensures fails_now { does_fail self.old.failing ≡ true → IsErr result }
        ensures behind { (self.new.failing ≡ what_is_behind self.old.failing)
            × (self.new.most ≡ self.old.most) }
    {
        let _known = are_none(&self.bytes);
        let fails = fails_now(self.failing);
        self.failing = behind_call(self.failing);
        if fails {
            self.failed = self.failed.wrapping_add(1);
            return Err(Device);
        }
        let count = give(buffer, &self.bytes[self.at..], self.most);
        self.at += count;
        Ok(count)
    }

    fn failures(&self) -> u64 {
        let _known = are_none(&self.bytes);
        self.failed
    }

    fn is_out_of_memory(&self) -> bool {
        false
    }
}
