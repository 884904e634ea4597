ghost use Rattle.std.specs.Prelude.{◌≡◌, Decides};
ghost use Rattle.std.specs.Str.{bytes_eq};

use crate::numbers::refusal_number;
use record::{Certificate, Digest, Fault, LENGTH, Proof, Proposal, Round};
use std::test::Fail;

/// A notarization whose fields all differ.
fn notarization() -> Certificate {
    Certificate::Notarization {
        proposal: Proposal {
            round: Round {
                epoch: 0x0102030405060708,
                view: u64::MAX,
            },
            parent: 9,
            payload: Digest([10; 32]),
        },
        proof: Proof([11; 32]),
    }
}

#[test]
fn written_at_their_places(rt: HostRuntime) -> Result<(), Fail> {
    let bytes = notarization().write();
    assert_eq!(rt; bytes[0], 1);
    assert_eq!(rt; bytes[7], 0);
    assert_eq!(rt; bytes[8], 1);
    assert_eq!(rt; bytes[15], 8);
    assert_eq!(rt; bytes[16], 255);
    assert_eq!(rt; bytes[31], 9);
    assert_eq!(rt; bytes[32], 10);
    assert_eq!(rt; bytes[95], 11);
    assert!(rt; Certificate::read(&bytes)? == notarization());
    Ok(())
}

/// The bytes of a nullification with one byte changed.
fn changed(at: usize, byte: u8) -> u8 {
    let round = Round { epoch: 1, view: 2 };
    let proof = Proof([0; 32]);
    let mut bytes = Certificate::Nullification { round, proof }.write();
    if at < LENGTH {
        bytes[at] = byte;
    }
    refusal_number(Certificate::read(&bytes))
}

#[test]
fn each_test_at_its_edge(rt: HostRuntime) {
    let rows = [
        (96usize, 0u8, 0u8),
        (0, 0, 2),
        (0, 3, 0),
        (0, 4, 2),
        (1, 1, 3),
        (7, 1, 3),
        (8, 1, 0),
        (23, 1, 0),
        (24, 1, 4),
        (63, 1, 4),
        (64, 1, 0),
        (95, 1, 0),
    ];
    for (at, byte, number) in rows {
        assert_eq!(rt; changed(at, byte), number);
    }
}

#[test]
fn lengths_and_the_order_of_tests(rt: HostRuntime) {
    assert_eq!(rt; refusal_number(Certificate::read(b"")), 1);
    assert_eq!(rt; refusal_number(Certificate::read(&[9; 95])), 1);
    assert_eq!(rt; refusal_number(Certificate::read(&[9; 97])), 1);
    assert_eq!(rt; refusal_number(Certificate::read(&[9; 96])), 2);
    assert_eq!(rt; refusal_number(Certificate::read(&[2; 96])), 3);
}

/// `==` on digests, with both promises: which bytes are compared, and that it tells whether they are equal.
fn same_digest(one: &Digest, other: &Digest) -> bool
    ensures value { result ≡ bytes_eq one.now.0 other.now.0 }
    ensures decides { Decides result (one.now ≡ other.now) }
{
    *one == *other
}

/// The same, on proofs.
fn same_proof(one: &Proof, other: &Proof) -> bool
    ensures value { result ≡ bytes_eq one.now.0 other.now.0 }
    ensures decides { Decides result (one.now ≡ other.now) }
{
    *one == *other
}

#[test]
fn equal_exactly_if_the_bytes_are(rt: HostRuntime) {
    let mut last = [5; 32];
    last[31] = 6;
    assert!(rt; same_digest(&Digest([5; 32]), &Digest([5; 32])));
    assert!(rt; !same_digest(&Digest([5; 32]), &Digest(last)));
    assert!(rt; same_proof(&Proof(last), &Proof(last)));
    assert!(rt; !same_proof(&Proof([5; 32]), &Proof(last)));
}
