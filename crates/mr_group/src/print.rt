//! What sixteen bytes say about a key, and where a table begins to look for it.
//!
//!     key of at most 16 bytes    first and last bytes:  "mapred" -> mapr, pred
//!     longer key                 a hash of all of it; in a table, where its text begins
//!
//! First and last bytes may overlap. With its length they determine a key of at most 16 bytes. Of a
//! longer key a print only tells most others, so its bytes are compared too.
//! Cost: two reads for a short key, one pass for a long one.
ghost use Rattle.std.specs.Prelude.{◌≡◌, ◌<◌, length, take, MatchOption};
ghost use Rattle.std.specs.Int.{w32, w64, to_le_bytes};
ghost use Rattle.mr_group.specs.Print.{IsPrint};

/// A print and the length determine a key of at most this many bytes.
pub(crate) const MOST_TOLD: usize = 16;

/// The first and the last bytes of a key as numbers: eight of each, or four of a key under eight.
/// Of a key over 16 bytes `first` is a hash.
#[derive(Clone, Copy)]
pub(crate) struct Print {
    pub first: u64,
    pub last: u64,
}

#[inline(always)]
fn number_of_eight(bytes: &[u8; 8]) -> u64
    ensures { to_le_bytes w64 result ≡ bytes.now }
{
    u64::from_le_bytes(*bytes)
}

#[inline(always)]
fn number_of_four(bytes: &[u8; 4]) -> u64
    ensures { to_le_bytes w32 result ≡ bytes.now }
{
    u64::from(u32::from_le_bytes(*bytes))
}

/// The bytes of a key under four, then others: three reads serve each length.
#[inline(always)]
fn at_most_three(key: &[u8]) -> [u8; 4]
    requires { length key.now < 4 }
    ensures { take (length key.now) result ≡ key.now }
{
    let count = key.len();
    if count == 0 {
        return [0; 4];
    }
    [key[0], key[count / 2], key[count - 1], 0]
}

#[inline(always)]
fn long_print(key: &[u8]) -> Option<Print>
    ensures { MatchOption result (length key.now < 8) (λ p. IsPrint p key.now) }
{
    let first = key.first_chunk::<8>()?;
    let last = key.last_chunk::<8>()?;
    Some(Print {
        first: number_of_eight(first),
        last: number_of_eight(last),
    })
}

#[inline(always)]
fn short_print(key: &[u8]) -> Option<Print>
    requires { length key.now < 8 }
    ensures { MatchOption result (length key.now < 4) (λ p. IsPrint p key.now) }
{
    let first = key.first_chunk::<4>()?;
    let last = key.last_chunk::<4>()?;
    Some(Print {
        first: number_of_four(first),
        last: number_of_four(last),
    })
}

/// The print of a key over 16 bytes. The last bytes that fill no word are among `print.last`.
#[inline(never)]
fn hashed_print(print: Print, key: &[u8]) -> Print
    requires { MOST_TOLD < length key.now }
    ensures { IsPrint result key.now }
{
    let mut first = key.len() as u64;
    for word in key.as_chunks::<8>().0 {
        first = mixed(first, u64::from_le_bytes(*word));
    }
    Print {
        first: mixed(first, print.last),
        last: print.last,
    }
}

/// The print as a table has it, of a key whose text begins there.
pub(crate) fn placed(print: Print, key: &[u8], start: usize) -> Print
    requires { IsPrint print key.now }
    ensures { IsPrint result key.now }
{
    if key.len() <= MOST_TOLD {
        return print;
    }
    Print {
        first: print.first,
        last: start as u64,
    }
}

/// What tells this key from others.
#[inline(always)]
pub(crate) fn print_of(key: &[u8]) -> Print
    ensures { IsPrint result key.now }
{
    if let Some(print) = long_print(key) {
        if MOST_TOLD < key.len() {
            return hashed_print(print, key);
        }
        return print;
    }
    if let Some(print) = short_print(key) {
        return print;
    }
    Print {
        first: number_of_four(&at_most_three(key)),
        last: 0,
    }
}

/// Odd numbers with as many bits set as not.
const FIRST_FACTOR: u64 = 0x9E37_79B9_7F4A_7C15;

const LAST_FACTOR: u64 = 0xC2B2_AE3D_27D4_EB4F;

/// One number from two; close inputs give results that differ in many bits.
#[inline(always)]
fn mixed(hash: u64, word: u64) -> u64 {
    let product = (hash ^ word).wrapping_mul(FIRST_FACTOR);
    product ^ (product >> 32)
}

/// A hash of the print and the length: where the table begins to look. Only time depends on it.
#[inline(always)]
pub(crate) fn hash_of(print: Print, length: u32) -> u64 {
    if MOST_TOLD < length as usize {
        return print.first;
    }
    let last = print.last ^ (u64::from(length) << 56);
    let sum = print
        .first
        .wrapping_mul(FIRST_FACTOR)
        .wrapping_add(last.wrapping_mul(LAST_FACTOR));
    sum ^ (sum >> 32)
}
