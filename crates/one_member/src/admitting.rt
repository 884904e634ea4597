ghost use Rattle.std.specs.Prelude.{◌≡◌, ◌+◌, ◌^◌, ◌<◌, ◌≤◌, false, ◌⊎◌, MatchResult};
ghost use Rattle.one_member.specs.Making.{Made};
ghost use Rattle.terms.specs.Faults.{refusal_of};
ghost use Rattle.terms.specs.declared.fault.Fault.TheVariants.{ZeroLength};
ghost use Rattle.verifier.specs.Faults.{refusal_of as refused_by};
ghost use Rattle.verifier.specs.Seats.{allowed};
ghost use Rattle.verifier.specs.declared.fault.Fault.TheVariants.{NoQuorum};

use crate::admitted::Admitted;
use orders::Setup;
use refusals::Refusal;
use terms::TermLength;
use verifier::SeatVerifier;

/// The mask of the first `quorum` seats.
#[tactic(auto, using(crate::proofs::Masks::lowest))]
fn quorum_mask(quorum: u64) -> u64
    requires some { 1 ≤ quorum }
    requires fits { quorum ≤ 64 }
    ensures { result + 1 ≡ 2 ^ quorum }
{
    u64::MAX >> (64 - quorum)
}

/// Tests what a member is to be made of: the term length first, then the seats.
pub fn admit(setup: Setup) -> Result<Admitted, Refusal>
    ensures { MatchResult result (Made setup) (λ f. ((setup.term_length ≡ 0) × (f ≡ refusal_of ZeroLength)) ⊎ ((0 < setup.term_length) × (allowed setup.seats setup.quorum ≡ false) × (f ≡ refused_by NoQuorum))) }
{
    let term_length = TermLength::new(setup.term_length)?;
    let verifier = SeatVerifier::new(setup.seats, setup.quorum)?;
    Ok(Admitted {
        term_length,
        epoch: setup.epoch,
        verifier,
        seats: quorum_mask(setup.quorum),
        board: setup.board,
    })
}
