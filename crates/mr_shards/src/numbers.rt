//! Numbers at the front of a text, as outputs write them: without leading zeros, below 2^64.
//!
//!     417,5    is 417, and ",5" is behind it      0417    begins with none
//!
//! Cost: one pass over the digits.
ghost use Rattle.std.specs.Prelude.{◌≡◌, ◌<◌, ◌^◌, ℕ, IfSome, List, MatchOption, None, decimal, drop};
ghost use Rattle.mr_shards.specs.Numbers.{BeginsWith, IsCutBehind, IsWithDigit, NoDigitFits};

/// The number with the digit at that place; none if there is no digit, or 64 bits don't hold it.
#[inline(always)]
pub(crate) fn with_digit(value: u64, text: &[u8], at: usize) -> Option<u64>
    ensures { MatchOption result (NoDigitFits value (drop at text.now)) (IsWithDigit value (drop at text.now)) }
{
    if at >= text.len() {
        return None;
    }
    let digit = text[at];
    if digit < b'0' || digit > b'9' || value > u64::MAX / 10 {
        return None;
    }
    (value * 10).checked_add(u64::from(digit - b'0'))
}

/// Cuts off a number of one or two digits, if one is at the front.
#[inline(always)]
fn cut_short(text: &[u8]) -> Option<(u64, &[u8])>
    ensures { IfSome result (λ r. IsCutBehind text.entry.now r.0 r.1.now) }
{
    let first = with_digit(0, text, 0)?;
    let Some(both) = with_digit(first, text, 1) else {
        return Some((first, &text[1..]));
    };
    if text[0] == b'0' {
        return None;
    }
    match with_digit(both, text, 2) {
        None => Some((both, &text[2..])),
        Some(_) => None,
    }
}

/// Like `cut_number`, digit by digit.
fn cut_long(text: &[u8]) -> Option<(u64, &[u8])>
    ensures some { IfSome result (λ r. IsCutBehind text.entry.now r.0 r.1.now) }
    ensures none { result ≡ None → (n : ℕ) (rest : List ℕ) → BeginsWith text.entry.now n rest → ⊥ }
{
    let mut value = 0;
    let mut at = 0;
    while let Some(next) = with_digit(value, text, at) {
        value = next;
        at += 1;
    }
    if at == 0 {
        return None;
    }
    if at > 1 && text[0] == b'0' {
        return None;
    }
    Some((value, &text[at..]))
}

/// Parses the number at the front, and returns what is behind it too. Most have few digits.
#[inline(always)]
pub(crate) fn cut_number(text: &[u8]) -> Option<(u64, &[u8])>
    ensures some { IfSome result (λ r. IsCutBehind text.entry.now r.0 r.1.now) }
    ensures none { result ≡ None → (n : ℕ) (rest : List ℕ) → BeginsWith text.entry.now n rest → ⊥ }
{
    match cut_short(text) {
        Some(cut) => Some(cut),
        None => cut_long(text),
    }
}

/// Parses a text that is a number.
pub fn number_of(digits: &[u8]) -> Option<u64>
    ensures { MatchOption result ((n : ℕ) → n < 2 ^ 64 → digits.now ≡ decimal n → ⊥) (λ n. digits.now ≡ decimal n) }
{
    let (number, rest) = cut_number(digits)?;
    if rest.is_empty() { Some(number) } else { None }
}
