ghost use Rattle.std.specs.Prelude.{◌≡◌, ◌≤◌, false, MatchResult};
ghost use Rattle.board.specs.Left.{shown};
ghost use Rattle.effects.specs.Lists.{entries, places as places_of};
ghost use Rattle.row_board.specs.Boards.{open_asks};
ghost use Rattle.state.specs.States.{held, term};
ghost use Rattle.driven.specs.Lists.{listed_as};
ghost use Rattle.driven.specs.Members.{Sound, asks_of, kept_as, values_of};
ghost use Rattle.embedded.specs.Answers.{answered, done, unsound};
ghost use Rattle.embedded.specs.Calls.{Same, is_set, update_answer, Updated, verdict_told, Certified, marker_told, Replayed};

use crate::Answer;
use board::PLACES;
use driven::{Driven, Listed, Member, keep, list, resume};
use effects::{Effect, Effects};
use kept::Kept;
use refusals::Refusal;
use resolver::Resolver;
use row_board::{Row, RowBoard};
use state::EFFECTS;

/// Writes what a call left into the memory of a member, and its effects into a list.
pub(crate) fn write(
    resolver: &Resolver<Kept>,
    board: &RowBoard,
    effects: &Effects,
    member: &mut Member,
    listed: &mut Listed,
)
    ensures member { member.new ≡ kept_as (held resolver.now.state) (shown (open_asks board.now)) member.old }
    ensures values { values_of member.new ≡ held resolver.now.state }
    ensures asks { asks_of member.new ≡ shown (open_asks board.now) }
    ensures sound { Sound member.old → term resolver.now.state ≡ member.old.head.term_length → Sound member.new }
    ensures effects { places_of effects.now ≤ 256 → listed.new ≡ listed_as (entries effects.now) listed.old }
{
    keep(resolver.state(), board, member);
    list(effects.as_slice(), listed);
}

/// Records evidence.
#[unsafe(no_mangle)]
pub extern "C" fn resolver_updated(member: &mut Member, bytes: &[u8], listed: &mut Listed) -> Answer
    ensures unsound { (Sound member.old → ⊥) → (result ≡ unsound) × Same member.old member.new listed.old listed.new }
    ensures answer { Sound member.old → result ≡ answered (λ _. done 0 false) (update_answer member.old bytes.now) }
    ensures outcome { Sound member.old → MatchResult (update_answer member.old bytes.now) (λ _. Updated bytes.now member.old member.new listed.old listed.new) (λ _. Same member.old member.new listed.old listed.new) }
    ensures sound { Sound member.old → Sound member.new }
{
    let mut work = *member;
    let mut places = [Row::new(0); PLACES];
    let Driven {
        mut resolver,
        mut board,
        sound,
    } = resume(&mut work, &mut places);
    if !sound {
        return Answer::unsound();
    }
    let mut places = [Effect::Raised(0); EFFECTS];
    let mut effects = Effects::new(places.as_mut_slice());
    if let Err(fault) = resolver.updated(&mut board, bytes, &mut effects) {
        return Answer::refused(Refusal::from(fault));
    }
    write(&resolver, &board, &effects, member, listed);
    Answer::done(0, false)
}

/// Records a verdict on a notarization: it passed, unless `success` is 0.
#[unsafe(no_mangle)]
pub extern "C" fn resolver_certified(
    member: &mut Member,
    bytes: &[u8],
    success: u32,
    listed: &mut Listed,
) -> Answer
    ensures unsound { (Sound member.old → ⊥) → (result ≡ unsound) × Same member.old member.new listed.old listed.new }
    ensures answer { Sound member.old → result ≡ answered (λ _. done 0 false) (verdict_told member.old bytes.now (is_set success)) }
    ensures outcome { Sound member.old → MatchResult (verdict_told member.old bytes.now (is_set success)) (λ _. Certified bytes.now (is_set success) member.old member.new listed.old listed.new) (λ _. Same member.old member.new listed.old listed.new) }
    ensures sound { Sound member.old → Sound member.new }
{
    let mut work = *member;
    let mut places = [Row::new(0); PLACES];
    let Driven {
        mut resolver,
        mut board,
        sound,
    } = resume(&mut work, &mut places);
    if !sound {
        return Answer::unsound();
    }
    let mut places = [Effect::Raised(0); EFFECTS];
    let mut effects = Effects::new(places.as_mut_slice());
    let pass = success != 0;
    if let Err(fault) = resolver.certified(&mut board, bytes, pass, &mut effects) {
        return Answer::refused(Refusal::from(fault));
    }
    write(&resolver, &board, &effects, member, listed);
    Answer::done(0, false)
}

/// Records the end of replay.
#[unsafe(no_mangle)]
pub extern "C" fn resolver_replayed(member: &mut Member, listed: &mut Listed) -> Answer
    ensures unsound { (Sound member.old → ⊥) → (result ≡ unsound) × Same member.old member.new listed.old listed.new }
    ensures answer { Sound member.old → result ≡ answered (λ _. done 0 false) (marker_told member.old) }
    ensures outcome { Sound member.old → MatchResult (marker_told member.old) (λ _. Replayed member.old member.new listed.old listed.new) (λ _. Same member.old member.new listed.old listed.new) }
    ensures sound { Sound member.old → Sound member.new }
{
    let mut work = *member;
    let mut places = [Row::new(0); PLACES];
    let Driven {
        mut resolver,
        mut board,
        sound,
    } = resume(&mut work, &mut places);
    if !sound {
        return Answer::unsound();
    }
    let mut places = [Effect::Raised(0); EFFECTS];
    let mut effects = Effects::new(places.as_mut_slice());
    if let Err(fault) = resolver.replayed(&mut board, &mut effects) {
        return Answer::refused(Refusal::from(fault));
    }
    write(&resolver, &board, &effects, member, listed);
    Answer::done(0, false)
}
