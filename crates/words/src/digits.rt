ghost use Rattle.std.specs.Prelude.{◌≡◌, ◌^◌, if◌then◌else◌, Some, None, nat_lt};
ghost use Rattle.words.specs.Numerals.{read_on, plainly, decimal_of, number_of, short_of};

use crate::Problem;
use crate::class::{Decimal, all};

/// The number that digits write, if it fits 64 bits. (The library's `parse` takes a `str` and any base, and three times as
/// long.)
fn value(word: &[u8]) -> Option<u64>
    ensures { result ≡ (if nat_lt (read_on 0 word.now) (2 ^ 64) then Some (read_on 0 word.now) else None) }
{
    let mut n: u64 = 0;
    for c in word {
        n = n
            .checked_mul(10)?
            .checked_add(u64::from(c.saturating_sub(b'0')))?;
    }
    Some(n)
}

/// Whether a word is digits alone, with a zero in front only if nothing follows it.
fn plain(word: &[u8]) -> bool
    ensures { result ≡ plainly word.now }
{
    match word {
        [] | [b'0', _, ..] => false,
        _ => all(&Decimal, word),
    }
}

/// The number that a word writes in decimal, without sign or leading zeros.
pub fn decimal(word: &[u8]) -> Result<u64, Problem>
    ensures { result ≡ decimal_of word.now }
{
    if !plain(word) {
        return Err(Problem::NotANumber);
    }
    value(word).ok_or(Problem::OutOfRange)
}

/// The number that a word of a line writes.
#[tactic(auto, unfolding(crate::specs::Numerals::number_of))]
pub fn number(word: &[u8]) -> Result<u64, Problem>
    ensures { result ≡ number_of word.now }
{
    if word.is_empty() {
        return Err(Problem::MissingWord);
    }
    decimal(word)
}

/// The number below 2^32 that a word of a line writes.
pub fn short_number(word: &[u8]) -> Result<u32, Problem>
    ensures { result ≡ short_of word.now }
{
    let n = number(word)?;
    u32::try_from(n).map_err(|_| Problem::OutOfRange)
}
