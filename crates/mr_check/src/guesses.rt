//! Guesses the borders at which sections begin, from the outputs.
//!
//!     section    3 groups, 40 entries before it     output    a \t 1 \n b \t 9 \n c \t 7 \n | d ...
//!     guess      the output from the fourth line on, behind the key c
//!
//! Guesses are right where no section before has a fault: each entry gives a line if texts have one
//! for each value, else each group does, and a line is a key, a tab, and more without a tab. Where
//! a guess is wrong, the walk before comes to another border, and the result is not accepted.
ghost use Rattle.std.specs.Prelude.{◌≡◌, ◌≤◌, ◌+◌, All, IfOk, IfSome, length};
ghost use Rattle.mr_judge.specs.Borders.{IsSmall};

use crate::section::Section;
use memchr::memrchr;
use mr_judge::Border;
use std::alloc::{AllocError, Global};
use std::simd::prelude::*;

/// More partitions than a request has, and more groups and entries than a certificate.
pub(crate) const MOST: u64 = 1 << 32;

/// A walk over the lines of an output: how many bytes and lines it has passed.
#[derive(Drop)]
struct Lines<'a> {
    output: &'a [u8],
    place: usize,
    passed: u64,
    ghost within: { (place ≤ length output.now) × (passed ≤ place) },
}

impl<'a> Lines<'a> {
    fn new(output: &'a [u8]) -> Lines<'a> {
        Lines {
            output,
            place: 0,
            passed: 0,
        }
    }

    /// The number of line feeds in the next 64 bytes, where there are so many.
    fn feeds_ahead(&self) -> Option<u64>
        ensures { IfSome result (λ n. (self.now.place + 64 ≤ length self.now.output.now)
            × (n ≤ 64)) }
    {
        let block = self.output[self.place..].get(..64)?;
        let feeds = u8x64::from_slice(block).simd_eq(u8x64::splat(b'\n'));
        Some(u64::from(feeds.to_bitmask().count_ones()))
    }

    /// Passes `lines` lines from the front, or all, by 64 bytes while the last line ends later.
    fn pass_to(&mut self, lines: u64) {
        while self.passed < lines {
            match self.feeds_ahead() {
                Some(feeds) if feeds < lines - self.passed => {
                    self.passed += feeds;
                    self.place += 64;
                }
                _ => {
                    let Some(byte) = self.output.get(self.place) else {
                        return;
                    };
                    if *byte == b'\n' {
                        self.passed += 1;
                    }
                    self.place += 1;
                }
            }
        }
    }

    /// The key of the line before.
    fn key_before(&self) -> Option<&'a [u8]> {
        let (_, before) = self.output[..self.place].split_last()?;
        let start = match memrchr(b'\n', before) {
            Some(feed) => feed + 1,
            None => 0,
        };
        let line = &before[start..];
        Some(&line[..memrchr(b'\t', line)?])
    }
}

/// Guesses by the lines before a section in its partition's output. Where lines are missing, or
/// counts are those of no request, the guess is the border before the first partition.
fn guess_at<'a>(lines: &mut Lines<'a>, section: &Section<'_>, has_lines: bool) -> Border<'a>
    ensures { IsSmall result }
{
    let start = Border::before(0);
    if section.at == 0 || section.next > MOST || section.group > MOST {
        return start;
    }
    let wanted = if has_lines {
        section.entries
    } else {
        section.group
    };
    lines.pass_to(wanted);
    // Where lines are missing, the look back for the key would read all of the last line for each
    // section anew, and a stranger may have made it long. Other sections have a line each.
    if lines.passed < wanted {
        return start;
    }
    Border {
        next: section.next,
        groups: section.groups,
        group: section.group,
        key_before: lines.key_before(),
        from: lines.place as u64,
    }
}

/// A guess for each section. It reads each output at most once.
pub(crate) fn guesses_of<'a>(
    alloc: Global,
    outputs: &'a [Vec<u8>],
    has_lines: bool,
    sections: &[Section<'_>],
) -> Result<Vec<Border<'a>>, AllocError>
    ensures { IfOk result (λ v. All IsSmall v.items) }
{
    let mut guesses = Vec::new(alloc);
    let mut lines = Lines::new(b"");
    let mut next = 0;
    for section in sections {
        if section.next != next {
            next = section.next;
            lines = Lines::new(match outputs.get(next.saturating_sub(1) as usize) {
                Some(output) => output.as_slice(),
                None => b"",
            });
        }
        let guess = guess_at(&mut lines, section, has_lines);
        guesses.push(guess)?;
    }
    Ok(guesses)
}
