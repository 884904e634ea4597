ghost use Rattle.std.specs.Prelude.{◌≡◌};
ghost use Rattle.steps.specs.Records.{quorum_proof, record_of, message_of};

use crate::Call;
use queue::Message;
use record::{Digest, Kind, LENGTH, Proof, Proposal, Round, frame};
use views::View;

/// The proof that names three of the four seats.
fn quorum_proof() -> Proof
    ensures { result ≡ quorum_proof }
{
    let mut mask = [0; 32];
    mask[7] = 7;
    Proof(mask)
}

/// The bytes of the record of a kind and a view.
pub fn record_bytes(epoch: u64, kind: Kind, view: View) -> [u8; LENGTH]
    ensures { result ≡ record_of epoch kind view }
{
    let proposal = Proposal {
        round: Round { epoch, view },
        parent: 0,
        payload: Digest([0; 32]),
    };
    frame(kind, &proposal, &quorum_proof())
}

/// The message that a call makes.
pub fn message(epoch: u64, call: &Call) -> Message<[u8; LENGTH]>
    ensures { result ≡ message_of epoch call.now }
{
    match *call {
        Call::Updated { kind, view } => Message::Updated {
            kind,
            view,
            payload: record_bytes(epoch, kind, view),
        },
        Call::Certified {
            success,
            kind,
            view,
        } => Message::Certified {
            kind,
            view,
            success,
            payload: record_bytes(epoch, kind, view),
        },
        Call::Replayed => Message::Replayed,
        Call::Resolve {
            proposal,
            view,
            kind,
            target,
        } => Message::Resolve {
            proposal,
            view,
            kind,
            target,
        },
    }
}
