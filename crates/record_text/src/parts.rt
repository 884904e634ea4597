ghost use Rattle.std.specs.Prelude.{◌≡◌};
ghost use Rattle.record.specs.Certificates.{framed};
ghost use Rattle.record_text.specs.Parts.{proposal_by, seats_proof, proof_by, parts_of};

use crate::options::{Options, kind_named, read_options};
use record::{Digest, Kind, LENGTH, Proof, Proposal, Round, frame};
use words::{Problem, after, number, word};

/// What a record has where its text does not say.
#[derive(Clone, Copy, Debug)]
pub struct Defaults {
    pub epoch: u64,
    /// The mask of the seats that stand behind it.
    pub seats: u64,
}

/// The proof of a mask of seats: its eight bytes, and zeros.
#[tactic(auto, using(record::proofs::Numbers::bytes_eight), unfolding(crate::specs::Parts::seats_proof))]
pub fn seats_proof(mask: u64) -> Proof
    ensures { result ≡ seats_proof mask }
{
    let mut bytes = [0; 32];
    bytes[0..8].copy_from_slice(&mask.to_be_bytes());
    Proof(bytes)
}

/// The bytes of a record of a kind, a view and options.
pub fn frame_by(kind: Kind, view: u64, options: Options, defaults: Defaults) -> [u8; LENGTH]
    ensures { result ≡ framed kind (proposal_by view options defaults) (proof_by options defaults) }
{
    let epoch = options.epoch.unwrap_or(defaults.epoch);
    let proposal = Proposal {
        round: Round { epoch, view },
        parent: options.parent.unwrap_or(0),
        payload: Digest([0; 32]),
    };
    let mask = options.seats.unwrap_or(defaults.seats);
    frame(kind, &proposal, &seats_proof(mask))
}

/// The bytes of a record that a text writes by its parts.
#[tactic(auto, unfolding(crate::specs::Parts::parts_of, words::specs::Problems::bind))]
pub fn parts(text: &[u8], defaults: Defaults) -> Result<[u8; LENGTH], Problem>
    ensures { result ≡ parts_of defaults text.now }
{
    let kind = kind_named(word(text, 0))?;
    let view = number(word(text, 1))?;
    let options = read_options(after(text, 2))?;
    Ok(frame_by(kind, view, options, defaults))
}
