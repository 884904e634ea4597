ghost use Rattle.std.specs.Prelude.{◌≡◌, IfOk, vec_items};
ghost use Rattle.words.specs.Hex.{nibble_of, decoded, hex_of};
ghost use Rattle.words.specs.Problems.{Told};

use crate::Problem;
use crate::class::{Hex, all};
use std::alloc::{AllocError, Global};

/// The value of a hex digit.
fn nibble(c: u8) -> u8
    ensures { result ≡ nibble_of c }
{
    if c < b'a' {
        c.saturating_sub(b'0') % 16
    } else {
        c.saturating_sub(b'a' - 10) % 16
    }
}

/// The bytes that pairs of hex digits write.
fn decode(heap: Global, word: &[u8]) -> Result<Vec<u8>, AllocError>
    ensures { IfOk result (λ v. v.items ≡ decoded word.now) }
{
    let (pairs, _) = word.as_chunks::<2>();
    pairs
        .iter()
        .map(|[high, low]| nibble(*high) * 16 + nibble(*low))
        .collect(heap)
}

/// The bytes that a word writes in hex, where a lone hyphen writes none.
#[tactic(auto, unfolding(crate::specs::Hex::hex_of))]
pub fn hex(heap: Global, word: &[u8]) -> Result<Vec<u8>, Problem>
    ensures { Told result vec_items (hex_of word.now) }
{
    if word.is_empty() {
        return Err(Problem::MissingWord);
    }
    if word == b"-".as_slice() {
        return Ok(Vec::new(heap));
    }
    if !all(&Hex, word) {
        return Err(Problem::NotHex);
    }
    if word.len() % 2 == 1 {
        return Err(Problem::OddHex);
    }
    Ok(decode(heap, word)?)
}
