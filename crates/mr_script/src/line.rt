//! Parses one line of a script: a keyword, then its numbers, separated by single spaces.
ghost use Rattle.std.specs.Prelude.{◌≡◌, ◌≤◌, ◌↔◌, ℕ, IsTrue, Some, None, MatchOption, length};
ghost use Rattle.std.specs.Str.Parse.{AllDigits, digits_value};
ghost use Rattle.mr_script.specs.Lines.{SaysNothing, SpellsNumber};
ghost use Rattle.mr_script.specs.Meaning.{number_of, number_and_rest, number_and_number};
ghost use Rattle.mr_script.specs.Meaning.{number_after_number, three_numbers, keyword_of};
ghost use Rattle.mr_script.specs.Meaning.{directive_of};

use crate::script::Directive;
use mr_bytes::cut;

#[derive(Clone, Copy)]
enum Keyword {
    Lose,
    Zombie,
    Bad,
    Flaky,
    Hold,
    Spoil,
    Damage,
}

pub(crate) fn says_nothing(line: &[u8]) -> bool
    ensures { IsTrue result ↔ SaysNothing line.now }
{
    line.is_empty() || line[0] == b'#'
}

fn value_of(digits: &[u8]) -> Option<u64>
    requires { length digits.now ≤ 10 }
    ensures { MatchOption result (AllDigits 10 digits.now → ⊥)
        (λ n. AllDigits 10 digits.now × (n ≡ digits_value 10 digits.now)) }
{
    let mut value = 0u64;
    for digit in digits {
        if !digit.is_ascii_digit() {
            return None;
        }
        value = value * 10 + u64::from(*digit - b'0');
    }
    Some(value)
}

/// The number that 1 to 10 decimal digits spell, leading zeros allowed, if it fits in 32 bits.
#[tactic(auto, using(crate::proofs::Numbers::number_short), unfolding(crate::specs::Meaning::number_of))]
pub fn number_of(word: &[u8]) -> Option<u32>
    ensures meaning { result ≡ number_of word.now }
    ensures spelled { MatchOption result ((n : ℕ) → ¬ SpellsNumber word.now n)
        (λ n. SpellsNumber word.now n) }
{
    if word.is_empty() || 10 < word.len() {
        return None;
    }
    let value = value_of(word)?;
    u32::try_from(value).ok()
}

/// The number before the first space, and the bytes after that space.
#[tactic(auto, unfolding(crate::specs::Meaning::number_and_rest))]
fn number_and_rest(text: &[u8]) -> Option<(u32, &[u8])>
    ensures { MatchOption result (number_and_rest text.now ≡ None)
        (λ r. number_and_rest text.now ≡ Some (r.0, r.1.now)) }
{
    let (word, rest) = cut(text, b' ')?;
    let number = number_of(word)?;
    Some((number, rest))
}

#[tactic(auto, unfolding(crate::specs::Meaning::number_and_number))]
fn number_and_number(text: &[u8]) -> Option<(u32, u32)>
    ensures { result ≡ number_and_number text.now }
{
    let (first, rest) = number_and_rest(text)?;
    let second = number_of(rest)?;
    Some((first, second))
}

/// Two numbers with the word `after` between them.
#[tactic(auto, unfolding(crate::specs::Meaning::number_after_number))]
fn number_after_number(text: &[u8]) -> Option<(u32, u32)>
    ensures { result ≡ number_after_number text.now }
{
    let (first, rest) = number_and_rest(text)?;
    let (word, rest) = cut(rest, b' ')?;
    if word != b"after".as_slice() {
        return None;
    }
    let second = number_of(rest)?;
    Some((first, second))
}

#[tactic(auto, unfolding(crate::specs::Meaning::three_numbers))]
fn three_numbers(text: &[u8]) -> Option<(u32, u32, u32)>
    ensures { result ≡ three_numbers text.now }
{
    let (first, rest) = number_and_rest(text)?;
    let (second, third) = number_and_number(rest)?;
    Some((first, second, third))
}

#[tactic(auto, unfolding(crate::specs::Meaning::keyword_of))]
fn keyword_of(word: &[u8]) -> Option<Keyword>
    ensures { result ≡ keyword_of word.now }
{
    if word == b"lose".as_slice() {
        return Some(Keyword::Lose);
    }
    if word == b"zombie".as_slice() {
        return Some(Keyword::Zombie);
    }
    if word == b"bad".as_slice() {
        return Some(Keyword::Bad);
    }
    if word == b"flaky".as_slice() {
        return Some(Keyword::Flaky);
    }
    if word == b"hold".as_slice() {
        return Some(Keyword::Hold);
    }
    if word == b"spoil".as_slice() {
        return Some(Keyword::Spoil);
    }
    if word == b"damage".as_slice() {
        return Some(Keyword::Damage);
    }
    None
}

#[tactic(auto, unfolding(crate::specs::Meaning::directive_of, crate::specs::Meaning::directive_with))]
pub(crate) fn directive_of(line: &[u8]) -> Option<Directive>
    ensures { result ≡ directive_of line.now }
{
    let (word, rest) = cut(line, b' ')?;
    match keyword_of(word)? {
        Keyword::Lose => {
            let (worker, after) = number_after_number(rest)?;
            Some(Directive::Lose { worker, after })
        }
        Keyword::Zombie => {
            let (worker, after) = number_after_number(rest)?;
            Some(Directive::Zombie { worker, after })
        }
        Keyword::Bad => {
            let (split, rec) = number_and_number(rest)?;
            Some(Directive::Bad { split, rec })
        }
        Keyword::Flaky => {
            let (split, rec, attempts) = three_numbers(rest)?;
            Some(Directive::Flaky {
                split,
                rec,
                attempts,
            })
        }
        Keyword::Hold => {
            let worker = number_of(rest)?;
            Some(Directive::Hold { worker })
        }
        Keyword::Spoil => {
            let (partition, place) = number_and_number(rest)?;
            Some(Directive::Spoil { partition, place })
        }
        Keyword::Damage => {
            let (split, partition, place) = three_numbers(rest)?;
            Some(Directive::Damage {
                split,
                partition,
                place,
            })
        }
    }
}
