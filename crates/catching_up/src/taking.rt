ghost use Rattle.std.specs.Prelude.{◌≡◌};
ghost use Rattle.answers.specs.Answered.{done_of};
ghost use Rattle.catching_up.specs.Entries.{entered, defaults_of, one_if_refused, TakenIn};
ghost use Rattle.peer_rounds.specs.Lives.{Lived};
ghost use Rattle.one_member.specs.Carried.{Called};

use crate::Entry;
use crate::entry::record_bytes;
use board::Board;
use one_member::Member;
use record::Kind;
use resolver::Fault;

/// Has a member record an entry.
pub fn take_in<B: Board>(member: &mut Member<B>, entry: Entry) -> Result<(), Fault>
    ensures called { Called B.asks (done_of result) member.old member.new (entered (defaults_of member.old) entry) }
    ensures lives { Lived B.asks member.old → Lived B.asks member.new }
{
    let defaults = member.defaults();
    match entry {
        Entry::Evidence(kind, view) => {
            let bytes = record_bytes(defaults, kind, view);
            member
                .resolver
                .updated(&mut member.board, &bytes, &mut member.effects)
        }
        Entry::Verdict(view, passes) => {
            let bytes = record_bytes(defaults, Kind::Notarization, view);
            member
                .resolver
                .certified(&mut member.board, &bytes, passes, &mut member.effects)
        }
        Entry::EndOfReplay => member
            .resolver
            .replayed(&mut member.board, &mut member.effects),
    }
}

fn one_if_refused(answer: Result<(), Fault>) -> u64
    ensures { result ≡ one_if_refused answer }
{
    match answer {
        Ok(()) => 0,
        Err(_) => 1,
    }
}

/// Has a member record one entry after the other, and counts those that it refuses.
pub fn take_in_all<B: Board>(member: &mut Member<B>, entries: &[Entry]) -> u64
    ensures taken_in { TakenIn B.asks member.old entries.now member.new result }
    ensures lives { Lived B.asks member.old → Lived B.asks member.new }
{
    let mut refused = 0;
    for entry in entries {
        let answer = take_in(member, *entry);
        refused += one_if_refused(answer);
    }
    refused
}
