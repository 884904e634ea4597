ghost use Rattle.std.specs.Prelude.{◌≡◌, false, []};
ghost use Rattle.store.specs.Fresh.{fresh};
ghost use Rattle.driven.specs.Members.{Sound, asks_of, values_of};
ghost use Rattle.embedded.specs.Answers.{done};
ghost use Rattle.embedded.specs.Beginning.{begin_told, began};

use crate::Answer;
use driven::Member;
use hosted::Head;
use refusals::Refusal;
use terms::TermLength;
use verifier::SeatVerifier;

/// Makes a member with nothing recorded, at the start of a replay. What stood in its memory does not matter.
#[unsafe(no_mangle)]
pub extern "C" fn resolver_begin(
    member: &mut Member,
    term_length: u32,
    epoch: u64,
    seats: u32,
    quorum: u32,
) -> Answer
    ensures answer { result ≡ begin_told term_length seats quorum }
    ensures member { member.new ≡ began term_length epoch seats quorum member.old }
    ensures begun { result ≡ done 0 false → Sound member.new × (values_of member.new ≡ fresh) × (asks_of member.new ≡ []) }
{
    if let Err(fault) = TermLength::new(term_length) {
        return Answer::refused(Refusal::from(fault));
    }
    if let Err(fault) = SeatVerifier::new(u64::from(seats), u64::from(quorum)) {
        return Answer::refused(Refusal::from(fault));
    }
    member.head = Head {
        term_length,
        seats,
        quorum,
        replaying: 1,
        epoch,
        current_view: 0,
        floor: 0,
        cursor: 0,
        finalization_count: 0,
        nullification_count: 0,
        pending_count: 0,
        certified_count: 0,
        failed_count: 0,
        ask_count: 0,
    };
    Answer::done(0, false)
}
