//! Answers for one line of a text after another whether it contains a literal.
//!
//!     text    ... from |  no match begins here  | clear ...      found: a match begins at `clear`
//!
//! What a search finds out about later bytes serves the next lines, so all lines in order cost one
//! pass over the text. A search covers at least `reach` bytes: 4,096 after a match, doubled by each
//! search without one, up to 65,536. So searches are few, and never go far past the line. A line
//! outside of what is known, in any order, starts a new search.
//! That a literal contains no line feed is not needed: a match that runs past a line is not in it.
ghost use Rattle.std.specs.Prelude.{◌≡◌, ◌≤◌, ◌<◌, ◌+◌, ◌⊎◌, IfSome, IsTrue, false, length};
ghost use Rattle.std.specs.Prelude.{slice_range};
ghost use Rattle.mr_jobs.specs.Hits.{AreSo, IsFirstPlace, Sought};
ghost use Rattle.mr_jobs.specs.Literal.{holds};

use memchr::memmem::Finder;
use mr_lanes::find_folded;
use std::marker::Model;

const SHORT_REACH: usize = 4096;

const LONG_REACH: usize = 65_536;

#[derive(Clone, Copy)]
pub(crate) struct Known {
    /// No match begins from here to before `clear`.
    pub from: usize,
    pub clear: usize,
    /// A match begins at `clear`; otherwise nothing is known of that place.
    pub found: bool,
    /// The least number of bytes that the next search covers.
    pub reach: usize,
}

#[derive(Drop)]
pub(crate) struct LiteralSearch<'t, 'l> {
    text: &'t [u8],
    literal: &'l [u8],
    fold: bool,
    known: Known,
    /// The search for exact bytes, made at its first use.
    finder: Option<Finder<'l>>,
}

impl<'t, 'l> Model for LiteralSearch<'t, 'l> {
    ghost use Rattle.std.specs.Prelude.{◌≡◌, IfSome};
    ghost use Rattle.mr_jobs.specs.Hits.{Sought, AreSo};

    ghost Value = { Sought };

    ghost view = { λ h. record { text = h.text.now; literal = h.literal.now; fold = h.fold } };

    ghost invariant = { λ h. record {
      known : AreSo (record { text = h.text.now; literal = h.literal.now; fold = h.fold }) h.known;
      finder : IfSome h.finder (λ f. f ≡ h.literal.now);
    } };
}

fn find_exactly<'l>(
    text: &[u8],
    literal: &'l [u8],
    finder: &mut Option<Finder<'l>>,
) -> Option<usize>
    requires { IfSome finder.old (λ f. f ≡ literal.now) }
    ensures finder { IfSome finder.new (λ f. f ≡ literal.now) }
    ensures place { IsFirstPlace (record { text = text.now; literal = literal.now; fold = false }) result }
{
    match finder {
        Some(made) => made.find(text),
        None => {
            let made = Finder::new(literal);
            let place = made.find(text);
            *finder = Some(made);
            place
        }
    }
}

fn find<'l>(
    text: &[u8],
    literal: &'l [u8],
    fold: bool,
    finder: &mut Option<Finder<'l>>,
) -> Option<usize>
    requires { IfSome finder.old (λ f. f ≡ literal.now) }
    ensures finder { IfSome finder.new (λ f. f ≡ literal.now) }
    ensures place { IsFirstPlace (record { text = text.now; literal = literal.now; fold = fold }) result }
{
    if fold {
        find_folded(text, literal)
    } else {
        find_exactly(text, literal, finder)
    }
}

impl Known {
    /// What is known from `start` on: nothing, if what is known begins later or ends earlier.
    fn from_line(self, start: usize) -> Known
        ensures so { (s : Sought) → AreSo s self → AreSo s result }
        ensures here { (result.from ≤ start) × (start ≤ result.clear) }
    {
        if self.from <= start && start <= self.clear {
            return self;
        }
        Known {
            from: start,
            clear: start,
            found: false,
            reach: self.reach,
        }
    }
}

impl<'t, 'l> LiteralSearch<'t, 'l> {
    pub(crate) fn new(text: &'t [u8], literal: &'l [u8], fold: bool) -> LiteralSearch<'t, 'l>
        ensures { result ≡ record { text = text.entry.now; literal = literal.entry.now; fold = fold } }
    {
        LiteralSearch {
            text,
            literal,
            fold,
            known: Known {
                from: 0,
                clear: 0,
                found: false,
                reach: SHORT_REACH,
            },
            finder: None,
        }
    }

    /// Searches on until there is a match, or none can begin at `last` or before.
    fn look_on(&mut self, known: Known, last: usize) -> Known
        requires last { last + length self.old.literal ≤ length self.old.text }
        requires so { AreSo self.old known }
        ensures same { self.new ≡ self.old }
        ensures so { AreSo self.old result }
        ensures rises { (result.from ≡ known.from) × (known.clear ≤ result.clear) }
        ensures settled { IsTrue result.found ⊎ (last < result.clear) }
    {
        if known.found || last < known.clear {
            return known;
        }
        let literal = self.literal;
        let goal = (last + literal.len())
            .max(known.clear.saturating_add(known.reach))
            .min(self.text.len());
        let searched = &self.text[known.clear..goal];
        let Some(skipped) = find(searched, literal, self.fold, &mut self.finder) else {
            return Known {
                from: known.from,
                clear: goal + 1 - literal.len(),
                found: false,
                reach: known.reach.saturating_mul(2).min(LONG_REACH),
            };
        };
        Known {
            from: known.from,
            clear: known.clear + skipped,
            found: true,
            reach: SHORT_REACH,
        }
    }

    /// Whether the line from `start` to before `end` contains the literal. Lines may come in any
    /// order; all lines of a text in order take time linear in its length.
    #[inline(never)]
    pub(crate) fn hold(&mut self, start: usize, end: usize) -> bool
        requires order { start ≤ end }
        requires within { end ≤ length self.old.text }
        ensures same { self.new ≡ self.old }
        ensures line { result ≡ holds self.old.fold (slice_range self.old.text start end) self.old.literal }
    {
        // The last place at which a match within the line begins.
        let Some(last) = end.checked_sub(self.literal.len()) else {
            return false;
        };
        if last < start {
            return false;
        }
        let known = self.known.from_line(start);
        self.known = self.look_on(known, last);
        self.known.clear <= last
    }
}
