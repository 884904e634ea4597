ghost use Rattle.std.specs.Prelude.{◌≡◌, ◌≤◌, take, MatchResult};
ghost use Rattle.driven.specs.Members.{Sound};
ghost use Rattle.embedded.specs.Answers.{answered, done, unsound};
ghost use Rattle.embedded.specs.Calls.{Same};
ghost use Rattle.embedded.specs.Delivering.{asks_in, outcome_number, delivery_told, Delivered as DeliveredAs};

use crate::Answer;
use crate::calls::write;
use board::{Ask, PLACES};
use driven::{Driven, Listed, Member, list, resume};
use effects::{Effect, Effects, Kind};
use kept::KeptSeats;
use refusals::Refusal;
use resolver::Outcome;
use row_board::Row;
use state::EFFECTS;
use verifier::SeatVerifier;

const BACKGROUND: Ask = Ask::Background;

const NULLIFICATION: Ask = Ask::Ancestry(Kind::Nullification);

const NOTARIZATION: Ask = Ask::Ancestry(Kind::Notarization);

/// The asks of some bits, and how many of them count: 1 background, 2 nullification, 4 notarization.
fn asks(bits: u32) -> ([Ask; 3], usize)
    ensures few { result.1 ≤ 3 }
    ensures asks { take result.1 result.0 ≡ asks_in bits }
{
    match bits {
        1 => ([BACKGROUND; 3], 1),
        2 => ([NULLIFICATION; 3], 1),
        3 => ([BACKGROUND, NULLIFICATION, NULLIFICATION], 2),
        4 => ([NOTARIZATION; 3], 1),
        5 => ([BACKGROUND, NOTARIZATION, NOTARIZATION], 2),
        6 => ([NULLIFICATION, NOTARIZATION, NOTARIZATION], 2),
        7 => ([BACKGROUND, NULLIFICATION, NOTARIZATION], 3),
        _ => ([BACKGROUND; 3], 0),
    }
}

/// The number of an outcome.
fn outcome_number(outcome: Outcome) -> u32
    ensures { result ≡ outcome_number outcome }
{
    match outcome {
        Outcome::Ignored => 1,
        Outcome::Invalid => 2,
        Outcome::Unresolved => 3,
        Outcome::Partial => 4,
        Outcome::Complete => 5,
        Outcome::LetGo => 6,
    }
}

/// Judges what a peer delivered for a view and the asks that it may settle, and records what is new.
#[unsafe(no_mangle)]
pub extern "C" fn resolver_deliver(
    member: &mut Member,
    view: u64,
    bits: u32,
    bytes: &[u8],
    listed: &mut Listed,
) -> Answer
    ensures unsound { (Sound member.old → ⊥) → (result ≡ unsound) × Same member.old member.new listed.old listed.new }
    ensures answer { Sound member.old → result ≡ answered (λ d. done (outcome_number d.outcome) d.taken) (delivery_told member.old view bits bytes.now) }
    ensures outcome { Sound member.old → MatchResult (delivery_told member.old view bits bytes.now) (λ d. DeliveredAs d.taken view bytes.now member.old member.new listed.old listed.new) (λ _. Same member.old member.new listed.old listed.new) }
    ensures sound { Sound member.old → Sound member.new }
{
    let mut work = *member;
    let mut places = [Row::new(0); PLACES];
    let Driven {
        mut resolver,
        mut board,
        sound,
    } = resume(&mut work, &mut places);
    if !sound {
        return Answer::unsound();
    }
    let seats = u64::from(member.head.seats);
    let quorum = u64::from(member.head.quorum);
    let Ok(verifier) = SeatVerifier::new(seats, quorum) else {
        return Answer::unsound();
    };
    let (asks, count) = asks(bits);
    let mut places = [Effect::Raised(0); EFFECTS];
    let mut effects = Effects::new(places.as_mut_slice());
    match resolver.deliver(
        &mut board,
        &KeptSeats(verifier),
        view,
        bytes,
        &asks[..count],
        &mut effects,
    ) {
        Err(fault) => Answer::refused(Refusal::from(fault)),
        Ok(delivered) => {
            let answer = Answer::done(outcome_number(delivered.outcome), delivered.taken);
            if !delivered.taken {
                list(effects.as_slice(), listed);
                return answer;
            }
            write(&resolver, &board, &effects, member, listed);
            answer
        }
    }
}
