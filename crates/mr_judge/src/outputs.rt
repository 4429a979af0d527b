//! The outputs under judgement, one after another: at hand, or from readers.
ghost use Rattle.std.specs.Prelude.{◌≡◌, ◌⊎◌, ◌≤◌, ◌<◌, ◌+◌, ◌-◌, ⊤, ◌^◌, ℕ, List, [], length};
ghost use Rattle.std.specs.Prelude.{drop, OnOk, nat_eq};
ghost use Rattle.std.specs.List.{common_prefix_len};
ghost use Rattle.mr_input.specs.Files.{contents, nth_file};
ghost use Rattle.mr_judge.specs.Outputs.{CanCome, Opens, Compares, Ends, Lacks};
ghost use Rattle.mr_judge.specs.Outputs.{EndTold, TextTold, Halts};

use mr_lanes::first_difference;
use mr_verdict::{JudgeError, No};

/// Why an output can't be compared.
#[derive(Clone, Copy, Debug, PartialEq, Eq, Drop)]
pub enum OutputError {
    /// A read of the output of this partition failed.
    Device { partition: u64 },
    /// It has 2^63 bytes or more.
    TooLong,
}

impl From<OutputError> for JudgeError {
    ghost from_gives = { λ l s. s ≡ stop_of l };

    ghost use Rattle.mr_judge.specs.Outputs.{stop_of};

    fn from(lack: OutputError) -> JudgeError {
        match lack {
            OutputError::Device { partition } => JudgeError::Output { partition },
            OutputError::TooLong => JudgeError::LongOutput,
        }
    }
}

/// Outputs that are opened in turn. Each is read from its front, and no byte twice.
pub trait Outputs {
    // This may still come of the open output, and then these outputs.
    ghost gives: { Self → List ℕ → List (List ℕ) → Type 0 };

    // How many bytes of the open output were passed.
    ghost place: { Self → ℕ };

    // An output is open.
    ghost begun: { Self → Type 0 };

    // How many reads of each have failed.
    ghost failed: { Self → List ℕ };

    // Nothing can fail but the outputs themselves.
    ghost steady: { Type 0 };

    /// Opens the next output. Past the last they are empty.
    fn open_next(&mut self)
        ensures opens { Opens (gives self.old) (gives self.new) }
        ensures place { place self.new ≡ 0 }
        ensures begun { begun self.new }
        ensures some { CanCome (gives self.old) → CanCome (gives self.new) }
        ensures failed { failed self.new ≡ failed self.old };

    /// Whether the text comes next. It passes the common prefix.
    fn pass_text(&mut self, text: &[u8]) -> Result<bool, OutputError>
        requires begun { begun self.old }
        ensures compares { Compares (gives self.old) (gives self.new) (place self.old)
            (place self.new) text.now result }
        ensures begun { begun self.new }
        ensures some { CanCome (gives self.old) → CanCome (gives self.new) }
        ensures lacks { Lacks steady (failed self.old) (failed self.new) result };

    /// Whether nothing of the open output is left.
    fn is_passed(&mut self) -> Result<bool, OutputError>
        requires begun { begun self.old }
        ensures ends { Ends (gives self.old) (gives self.new) result }
        ensures place { place self.new ≡ place self.old }
        ensures begun { begun self.new }
        ensures some { CanCome (gives self.old) → CanCome (gives self.new) }
        ensures lacks { Lacks steady (failed self.old) (failed self.new) result };

    fn place(&self) -> u64
        ensures { result ≡ place self.now };
}

/// Outputs at hand: what is left of the open one, and those after it.
#[derive(Drop)]
pub struct MemoryOutputs<'a> {
    pub rest: &'a [u8],
    pub later: &'a [Vec<u8>],
    pub passed: u64,
    ghost few: { passed + length rest.now < 2 ^ 64 },
}

impl<'a> MemoryOutputs<'a> {
    pub fn new(outputs: &'a [Vec<u8>]) -> MemoryOutputs<'a>
        ensures rest { result.rest.now ≡ nth_file (contents outputs.entry.now) 0 }
        ensures later { result.later.now ≡ outputs.entry.now }
        ensures passed { result.passed ≡ 0 }
    {
        MemoryOutputs::at(outputs, 0, 0)
    }

    /// The output before partition `next` is open, and `from` of its bytes were passed.
    pub fn at(outputs: &'a [Vec<u8>], next: u64, from: u64) -> MemoryOutputs<'a>
        ensures rest { result.rest.now
            ≡ drop from (nth_file (contents outputs.entry.now) (next - 1)) }
        ensures later { result.later.now ≡ drop next outputs.entry.now }
        ensures passed { result.passed ≡ from }
    {
        let rest = match outputs.get(next.saturating_sub(1) as usize) {
            Some(output) => behind(output.as_slice(), from),
            None => b"",
        };
        MemoryOutputs {
            rest,
            later: outputs.get(next as usize..).unwrap_or(&[]),
            passed: from,
        }
    }
}

pub(crate) fn behind<'a>(bytes: &'a [u8], count: u64) -> &'a [u8]
    ensures { result.now ≡ drop count bytes.entry.now }
{
    bytes.get(count as usize..).unwrap_or(b"")
}

impl<'a> Outputs for MemoryOutputs<'a> {
    ghost gives = { λ o rest later. (rest ≡ o.rest.now) × (later ≡ contents o.later.now) };

    ghost place = { λ o. o.passed };

    ghost begun = { λ _. ⊤ };

    ghost failed = { λ _. [] };

    ghost steady = { ⊤ };

    fn open_next(&mut self) {
        self.passed = 0;
        match self.later.split_first() {
            Some((output, later)) => {
                self.rest = output.as_slice();
                self.later = later;
            }
            None => self.rest = b"",
        }
    }

    fn pass_text(&mut self, text: &[u8]) -> Result<bool, OutputError> {
        if self.rest.starts_with(text) {
            self.rest = behind(self.rest, text.len() as u64);
            self.passed += text.len() as u64;
            return Ok(true);
        }
        let same = agreement(text, self.rest);
        self.rest = behind(self.rest, same);
        self.passed += same;
        Ok(false)
    }

    fn is_passed(&mut self) -> Result<bool, OutputError> {
        Ok(self.rest.is_empty())
    }

    fn place(&self) -> u64 {
        self.passed
    }
}

/// The length of the common prefix.
pub(crate) fn agreement(text: &[u8], output: &[u8]) -> u64
    ensures { result ≡ common_prefix_len nat_eq text.now output.now }
{
    first_difference(text, output).unwrap_or(text.len()) as u64
}

/// Whether the output ends where its partition has no more groups.
pub(crate) fn test_end<O: Outputs>(outputs: &mut O, p: u64, groups: u64) -> Result<(), JudgeError>
    requires begun { O.begun outputs.old }
    requires some { CanCome (O.gives outputs.old) }
    ensures told { EndTold (O.gives outputs.old) (O.gives outputs.new) p groups
        (O.place outputs.old) result }
    ensures some { CanCome (O.gives outputs.new) }
    ensures place { OnOk result (O.place outputs.new ≡ O.place outputs.old) }
    ensures begun { O.begun outputs.new }
    ensures halts { Halts O.steady (O.failed outputs.old) (O.failed outputs.new) result }
{
    if groups == 0 && !outputs.is_passed()? {
        return Err(JudgeError::Fault(No::OutputDiffers {
            partition: p,
            at: outputs.place(),
        }));
    }
    Ok(())
}

/// Whether `text` comes next in the open output.
pub(crate) fn test_text<O: Outputs>(outputs: &mut O, p: u64, text: &[u8]) -> Result<(), JudgeError>
    requires begun { O.begun outputs.old }
    requires some { CanCome (O.gives outputs.old) }
    ensures told { TextTold (O.gives outputs.old) (O.gives outputs.new) p
        (O.place outputs.old) text.now result }
    ensures some { CanCome (O.gives outputs.new) }
    ensures place { OnOk result (O.place outputs.new ≡ O.place outputs.old + length text.now) }
    ensures begun { O.begun outputs.new }
    ensures halts { Halts O.steady (O.failed outputs.old) (O.failed outputs.new) result }
{
    if outputs.pass_text(text)? {
        return Ok(());
    }
    Err(JudgeError::Fault(No::OutputDiffers {
        partition: p,
        at: outputs.place(),
    }))
}
