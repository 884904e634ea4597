ghost use Rattle.std.specs.Prelude.{◌≡◌, ◌+◌, [], ◌∷◌, ◌++◌, length, vec_items, MatchResult};
ghost use Rattle.orders.specs.Asks.{ask_named, asks_in, asks_of};
ghost use Rattle.words.specs.Problems.{Told};
ghost use Rattle.words.specs.declared.problem.Problem.TheVariants.{OutOfMemory};

use board::Ask;
use effects::Kind;
use std::alloc::{AllocError, Global};
use words::{Problem, up_to};

/// The ask that a word names.
fn ask_named(word: &[u8]) -> Result<Ask, Problem>
    ensures { result ≡ ask_named word.now }
{
    match word {
        b"background" => Ok(Ask::Background),
        b"nullification" => Ok(Ask::Ancestry(Kind::Nullification)),
        b"notarization" => Ok(Ask::Ancestry(Kind::Notarization)),
        _ => Err(Problem::NotAsks),
    }
}

/// Puts an ask behind others.
fn push(asks: &mut Vec<Ask>, ask: Ask) -> Result<(), Problem>
    ensures { MatchResult result (λ _. vec_items asks.new ≡ vec_items asks.old ++ ask ∷ []) (λ p. p ≡ OutOfMemory) }
{
    asks.push(ask).map_err(AllocError::from)?;
    Ok(())
}

/// The asks that a word names, with a comma between each two.
#[tactic(auto, using(crate::proofs::Listing::last_ask, crate::proofs::Listing::no_ask))]
fn listed(heap: Global, word: &[u8]) -> Result<Vec<Ask>, Problem>
    ensures { Told result vec_items (asks_in (length word.now + 1) word.now) }
{
    let mut asks = Vec::new(heap);
    let mut rest = word;
    loop {
        let end = up_to(rest, b',');
        let ask = ask_named(&rest[..end])?;
        push(&mut asks, ask)?;
        if end == rest.len() {
            return Ok(asks);
        }
        rest = &rest[end + 1..];
    }
}

/// The asks that a word lists, or none where it is a hyphen.
pub fn read_asks(heap: Global, word: &[u8]) -> Result<Vec<Ask>, Problem>
    ensures { Told result vec_items (asks_of word.now) }
{
    match word {
        b"" => Err(Problem::MissingWord),
        b"-" => Ok(Vec::new(heap)),
        _ => listed(heap, word),
    }
}
