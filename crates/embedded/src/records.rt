ghost use Rattle.std.specs.Prelude.{◌≡◌};
ghost use Rattle.record.specs.Format.{reading};
ghost use Rattle.embedded.specs.Records.{said as says, read_as, frame_told, framed_as, proposed, proof_of};

use crate::{Read, Told};
use kept::Kept;
use record::{Certificate, Digest, Kind, Proof, Proposal, Round, frame};
use refusals::Refusal;

/// What a certificate says.
fn said(certificate: &Certificate) -> Read
    ensures { result ≡ says certificate.now }
{
    let header = certificate.header();
    Read {
        refusal: 0,
        layer: 0,
        kind: u64::from(u8::from(header.kind)),
        epoch: header.epoch,
        view: header.view,
        parent: certificate.parent(),
    }
}

/// What the bytes of a record say, or the first test that they fail.
#[unsafe(no_mangle)]
pub extern "C" fn resolver_read(bytes: &[u8]) -> Read
    ensures { result ≡ read_as (reading bytes.now) }
{
    match Certificate::read(bytes) {
        Ok(certificate) => said(&certificate),
        Err(fault) => Read::refused(Refusal::from(fault)),
    }
}

/// Writes the bytes of a record with these fields, whether they are one or not. An unknown kind leaves them as they
/// were.
#[unsafe(no_mangle)]
pub extern "C" fn resolver_frame(
    kind: u32,
    epoch: u64,
    view: u64,
    parent: u64,
    payload: &[u8; 32],
    proof: &[u8; 32],
    place: &mut Kept,
) -> Told
    ensures answer { result ≡ frame_told kind }
    ensures place { place.new ≡ framed_as kind (proposed epoch view parent payload.now) (proof_of proof.now) place.old }
{
    let kind = match kind {
        1 => Kind::Notarization,
        2 => Kind::Nullification,
        3 => Kind::Finalization,
        _ => return Told::refused(Refusal::from(record::Fault::UnknownKind)),
    };
    let proposal = Proposal {
        round: Round { epoch, view },
        parent,
        payload: Digest(*payload),
    };
    place.bytes = frame(kind, &proposal, &Proof(*proof));
    Told::value(0)
}
