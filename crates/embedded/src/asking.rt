ghost use Rattle.std.specs.Prelude.{◌≡◌, false, cond, is_some, Some as Found, None as Missing, MatchResult};
ghost use Rattle.effects.specs.declared.effect.Kind.{Kind as Ask};
ghost use Rattle.state.specs.Serving.{served, copied};
ghost use Rattle.hosted.specs.Members.{Sound as StateSound};
ghost use Rattle.driven.specs.Members.{Sound, values_of};
ghost use Rattle.embedded.specs.Answers.{answered, done, unsound, unknown};
ghost use Rattle.embedded.specs.Asking.{kind_of, request_told, Requested, settled_told, target_of};

use crate::Answer;
use board::PLACES;
use driven::{Driven, Member, keep, resume};
use effects::Kind;
use hosted::open;
use kept::Kept;
use refusals::Refusal;
use row_board::Row;

/// The kind of a number: 1 nullification, 2 notarization.
fn kind(number: u32) -> Option<Kind>
    ensures { result ≡ kind_of number }
{
    match number {
        1 => Some(Kind::Nullification),
        2 => Some(Kind::Notarization),
        _ => None,
    }
}

/// Whether an ask for a kind at a view is settled. It goes by the state alone.
#[unsafe(no_mangle)]
pub extern "C" fn resolver_settled(member: &Member, view: u64, number: u32) -> Answer
    ensures unsound { (StateSound member.now.head member.now.rows → ⊥) → result ≡ unsound }
    ensures answer { StateSound member.now.head member.now.rows → result ≡ settled_told member.now view (kind_of number) }
{
    let mut rows = member.rows;
    let state = open(&member.head, &mut rows);
    if !state.is_fit() {
        return Answer::unsound();
    }
    let Some(kind) = kind(number) else {
        return Answer::unknown();
    };
    Answer::done(u32::from(state.settled(view, kind)), false)
}

/// Copies the record that is served for a view into a place, and answers whether there is one. It goes by the state
/// alone.
#[unsafe(no_mangle)]
pub extern "C" fn resolver_produce(member: &Member, view: u64, place: &mut Kept) -> Answer
    ensures unsound { (StateSound member.now.head member.now.rows → ⊥) → (result ≡ unsound) × (place.new ≡ place.old) }
    ensures answer { StateSound member.now.head member.now.rows → result ≡ done (cond (is_some (served member.now.head.term_length view (values_of member.now))) 1 0) false }
    ensures copied { StateSound member.now.head member.now.rows → place.new ≡ copied (served member.now.head.term_length view (values_of member.now)) place.old }
{
    let mut rows = member.rows;
    let state = open(&member.head, &mut rows);
    if !state.is_fit() {
        return Answer::unsound();
    }
    Answer::done(u32::from(state.produce(view, place)), false)
}

/// Asks for what a proposal names below it, unless it is settled, and answers whether it did. Where `targeted` is not 0
/// only the seat `target` is asked.
#[unsafe(no_mangle)]
pub extern "C" fn resolver_resolve(
    member: &mut Member,
    proposal: u64,
    view: u64,
    number: u32,
    targeted: u32,
    target: u32,
) -> Answer
    ensures unsound { (Sound member.old → ⊥) → (result ≡ unsound) × (member.new ≡ member.old) }
    ensures unknown { Sound member.old → kind_of number ≡ Missing → (result ≡ unknown) × (member.new ≡ member.old) }
    ensures answer { (k : Ask) → Sound member.old → kind_of number ≡ Found k → result ≡ answered (λ b. done (cond b 1 0) false) (request_told member.old proposal view k) }
    ensures outcome { (k : Ask) → Sound member.old → kind_of number ≡ Found k → MatchResult (request_told member.old proposal view k) (λ asked. Requested asked view k (target_of targeted target) member.old member.new) (λ _. member.new ≡ member.old) }
    ensures sound { Sound member.old → Sound member.new }
{
    let mut work = *member;
    let mut places = [Row::new(0); PLACES];
    let Driven {
        resolver,
        mut board,
        sound,
    } = resume(&mut work, &mut places);
    if !sound {
        return Answer::unsound();
    }
    let Some(kind) = kind(number) else {
        return Answer::unknown();
    };
    let target = if targeted == 0 { None } else { Some(target) };
    match resolver.resolve(&mut board, proposal, view, kind, target) {
        Err(fault) => Answer::refused(Refusal::from(fault)),
        Ok(asked) => {
            if asked {
                keep(resolver.state(), &board, member);
            }
            Answer::done(u32::from(asked), false)
        }
    }
}
