//! The files that a job reads, and the limits of an input and of its splits.
#![tactic(auto)]

ghost use Rattle.std.specs.Prelude.{◌≡◌, ◌≤◌, ◌<◌, ◌^◌, ◌↔◌, IfOk, IsOk, length, IsTrue};
ghost use Rattle.mr_input.specs.Files.{contents, total_size, nth_file, split_total};

use std::marker::Model;
use thiserror::Error;

/// The most files of an input.
pub const MAX_FILES: usize = 1024;
/// The most bytes of an input, all files together: 1 GiB.
pub const MAX_BYTES: usize = 0x4000_0000;
/// The most bytes of a split: 64 MiB.
pub const MAX_SPLIT_SIZE: u32 = 0x400_0000;
/// The most splits of an input.
pub const MAX_SPLITS: usize = 0x10_0000;

const _: () = prove!(MAX_FILES == 1024 && MAX_BYTES == 1_073_741_824);

const _: () = prove!(MAX_SPLIT_SIZE == 67_108_864 && MAX_SPLITS == 1_048_576);

/// Files in order, each as its bytes.
#[derive(Drop)]
pub struct Input {
    files: Vec<Vec<u8>>,
}

impl Model for Input {
    ghost use Rattle.std.specs.Prelude.{ℕ, List, length, ◌≤◌, ◌^◌};
    ghost use Rattle.mr_input.specs.Files.{contents, total_size};

    ghost Value = { List (List ℕ) };

    ghost view = { λ i. contents i.files.items };

    ghost invariant = { λ i. record {
      few : length (contents i.files.items) ≤ 1024;
      small : total_size (contents i.files.items) ≤ 2 ^ 30;
    } };
}

/// Why files are not an input.
#[derive(Clone, Copy, Debug, PartialEq, Eq, Drop, Error)]
pub enum InputFault {
    /// More than 1,024 files.
    #[error("TooManyFiles")]
    TooManyFiles,
    /// More than 1,073,741,824 bytes in all.
    #[error("TooLarge")]
    TooLarge,
}

fn is_small(files: &[Vec<u8>]) -> bool
    ensures { IsTrue result ↔ (total_size (contents files.now) ≤ 2 ^ 30) }
{
    let mut room = MAX_BYTES;
    for file in files {
        if room < file.len() {
            return false;
        }
        room -= file.len();
    }
    true
}

impl Input {
    /// Takes the files, whatever bytes they hold. Of two faults it reports `TooManyFiles`.
    pub fn of(files: Vec<Vec<u8>>) -> Result<Input, InputFault>
        ensures files { IfOk result (λ r. r ≡ contents files.items) }
        ensures succeeds { length files.items ≤ 1024 → total_size (contents files.items) ≤ 2 ^ 30
            → IsOk result }
        ensures too_many { (result ≡ Err InputFault.TooManyFiles) ↔ (1024 < length files.items) }
        ensures too_large { (result ≡ Err InputFault.TooLarge)
            ↔ ((length files.items ≤ 1024) × (2 ^ 30 < total_size (contents files.items))) }
    {
        if MAX_FILES < files.len() {
            return Err(InputFault::TooManyFiles);
        }
        if !is_small(&files) {
            return Err(InputFault::TooLarge);
        }
        Ok(Input { files })
    }

    pub fn files(&self) -> usize
        ensures count { result ≡ length self.now }
        ensures few { result ≤ 1024 }
        ensures small { total_size self.now ≤ 2 ^ 30 }
    {
        self.files.len()
    }

    /// The bytes of file `i`, from 0.
    pub fn file(&self, i: usize) -> &[u8]
        requires { i < length self.now }
        ensures bytes { result.now ≡ nth_file self.now i }
        ensures small { length result.now ≤ 2 ^ 30 }
    {
        &self.files[i]
    }

    pub fn len(&self, i: usize) -> usize
        requires { i < length self.now }
        ensures bytes { result ≡ length (nth_file self.now i) }
        ensures small { result ≤ 2 ^ 30 }
    {
        self.file(i).len()
    }

    /// How many splits of `size` bytes the files have. A split lies in one file, never in two.
    pub fn splits(&self, size: u32) -> usize
        requires { 0 < size }
        ensures { result ≡ split_total size self.now }
    {
        splits_of(self, size)
    }
}

fn splits_of(input: &Input, size: u32) -> usize
    requires { 0 < size }
    ensures { result ≡ split_total size input.now }
{
    let size = size as usize;
    let mut splits = 0;
    for i in 0..input.files() {
        splits += (input.len(i) + size - 1) / size;
    }
    splits
}
