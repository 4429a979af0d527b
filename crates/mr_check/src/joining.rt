//! Joins walks over sections, as far as each came to the border at which the next one began.
//!
//!     walks     a -> b    b -> c    d -> e     from border to border, a section each
//!     joined    a -----------> c               the third one began elsewhere
//!
//! If what the joined walks put off is right, all items before the border to which they came pass.
//! So they are accepted if the last one came to the end, and else a judgement may go on from there.
ghost use Rattle.std.specs.Prelude.{◌≡◌, ◌≤◌, ◌+◌, ◌^◌, List, All, IfSome, IsTrue, length};
ghost use Rattle.mr_certform.specs.declared.walker.Walker.{Walker as Walks};
ghost use Rattle.mr_certform.specs.Walking.{items_left};
ghost use Rattle.mr_verdict.specs.Steps.{Known, subject};
ghost use Rattle.mr_check.specs.declared.section.Section.{Section as Begins};
ghost use Rattle.mr_check.specs.Sections.{AllPass, AreJoined, AreWalked, CameToSection, GoesOn, HoldTo};
ghost use Rattle.mr_judge.specs.Borders.{IsSmall};
ghost use Rattle.mr_check.specs.Sections.{IsSection};

use crate::guesses::MOST;
use crate::section::Section;
use crate::walk::{Came, Walked};
use mr_judge::Border;

/// Where walks that fit together came to: how many they are, the section behind them, the border at
/// which it begins, and how many entries were named. If the walk over that section goes on from this
/// border to the end, `all` is how many entries there are.
#[derive(Clone, Copy)]
pub(crate) struct Joined<'a, 'i> {
    pub walks: usize,
    pub section: Section<'i>,
    pub border: Border<'a>,
    pub named: u64,
    pub all: Option<u64>,
}

impl<'a, 'i> Joined<'a, 'i> {
    /// The walk over the section, if it began at the border; and how many entries were named behind
    /// it.
    fn go_on<'w>(&self, walked: &'w [Walked<'a>]) -> Option<(&'w Walked<'a>, u64)>
        ensures { IfSome result (λ w. GoesOn walked.entry.now self.now w.0.now w.1) }
    {
        let walk = walked.get(self.walks)?;
        if !walk.began.is_same(&self.border) {
            return None;
        }
        let named = self.named.checked_add(walk.named)?;
        Some((walk, named))
    }

    /// Joins the walk over the section too, if it came to where the next section begins.
    fn join_next(&self, sections: &[Section<'i>], walked: &[Walked<'a>]) -> Option<Joined<'a, 'i>>
        requires { length walked.now ≡ length sections.now }
        ensures walks { IfSome result (λ j. j.walks ≡ self.now.walks + 1) }
        ensures small { IfSome result (λ j. IsSmall j.border × (j.named ≤ 2 ^ 32)) }
        ensures came { IfSome result (λ j. (k : Known) (all : Walks)
            → All (IsSection all) sections.now → AreWalked k sections.now walked.now
            → CameToSection k all sections.now walked.now self.now
            → CameToSection k all sections.now walked.now j) }
    {
        let (walk, named) = self.go_on(walked)?;
        let Came::To(border) = walk.came else {
            return None;
        };
        let next = sections.get(self.walks + 1)?;
        let at = self.section.at.checked_add(walk.most)?;
        if next.at == 0 || next.at != at {
            return None;
        }
        // No request has more.
        if border.next > MOST || border.group > MOST || named > MOST {
            return None;
        }
        Some(Joined {
            walks: self.walks + 1,
            section: *next,
            border,
            named,
            all: None,
        })
    }

    /// How many entries there are, if the walk over the section came to the end.
    fn end(&self, walked: &[Walked<'a>]) -> Option<u64>
        ensures { IfSome result (λ n. (k : Known) (all : Walks) (ss : List Begins)
            → AreWalked k ss walked.now → CameToSection k all ss walked.now self.now
            → HoldTo k (self.now.walks + 1) walked.now → AllPass (subject k) (items_left all) n) }
    {
        let (walk, named) = self.go_on(walked)?;
        match walk.came {
            Came::ToEnd => Some(named),
            _ => None,
        }
    }
}

/// Joins at most `most` walks, from the first section on. `None` if that one doesn't begin in front.
pub(crate) fn join<'a, 'i>(
    sections: &[Section<'i>],
    walked: &[Walked<'a>],
    most: usize,
) -> Option<Joined<'a, 'i>>
    requires { length walked.now ≡ length sections.now }
    ensures most { IfSome result (λ j. j.walks ≤ most) }
    ensures small { IfSome result (λ j. IsSmall j.border × (j.named ≤ 2 ^ 32)) }
    ensures joined { IfSome result (λ j. (k : Known) (all : Walks)
        → All (IsSection all) sections.now → AreWalked k sections.now walked.now
        → AreJoined k all sections.now walked.now j) }
{
    let first = sections.first()?;
    if first.at != 0 {
        return None;
    }
    let mut here = Joined {
        walks: 0,
        section: *first,
        border: Border::before(0),
        named: 0,
        all: None,
    };
    while here.walks < most {
        match here.join_next(sections, walked) {
            Some(next) => here = next,
            None => break,
        }
    }
    here.all = here.end(walked);
    Some(here)
}
