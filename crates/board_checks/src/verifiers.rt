use own_parts::Both;
use record::{Certificate, Proof, Round};
use std::test::Fail;
use verifier::{Fault, RollVerifier, SeatVerifier, Verifier};

fn with_proof(view: u64, proof: [u8; 32]) -> Certificate {
    Certificate::Nullification {
        round: Round { epoch: 7, view },
        proof: Proof(proof),
    }
}

/// A nullification at view 5 with these seats, and with its last byte.
fn signed(seats: u64, last: u8) -> Certificate {
    let mut proof = [0; 32];
    proof[..8].copy_from_slice(&seats.to_be_bytes());
    proof[31] = last;
    with_proof(5, proof)
}

#[test]
fn numbers_of_seats(rt: HostRuntime) -> Result<(), Fail> {
    let most = 18446744073709551615;
    let rows = [
        (1, 1, true),
        (64, 64, true),
        (64, 1, true),
        (0, 0, false),
        (1, 0, false),
        (1, 2, false),
        (65, 1, false),
        (4294967296, 1, false),
        (4294967297, 4294967297, false),
        (most, most, false),
    ];
    for (seats, quorum, made) in rows {
        assert_eq!(rt; SeatVerifier::new(seats, quorum).is_ok(), made);
    }
    Ok(())
}

#[test]
fn seats_are_counted(rt: HostRuntime) -> Result<(), Fail> {
    let all = 18446744073709551615;
    let rows = [
        (4, 3, 7, 0, true),
        (4, 3, 15, 0, true),
        (4, 3, 14, 0, true),
        (4, 3, 3, 0, false),
        (4, 3, 0, 0, false),
        (4, 3, 23, 0, false),
        (4, 3, 7, 1, false),
        (64, 64, all, 0, true),
        (64, 64, all - 1, 0, false),
        (64, 1, 9223372036854775808, 0, true),
        (63, 1, 9223372036854775808, 0, false),
        (1, 1, 1, 0, true),
        (1, 1, 2, 0, false),
    ];
    for (seats, quorum, mask, last, accepted) in rows {
        let verifier = SeatVerifier::new(seats, quorum)?;
        assert_eq!(rt; verifier.accepts(&signed(mask, last)), accepted);
    }
    Ok(())
}

#[test]
fn a_roll_is_searched(rt: HostRuntime) -> Result<(), Fail> {
    let (one, two, three) = (
        with_proof(1, [9; 32]),
        with_proof(2, [9; 32]),
        with_proof(1, [8; 32]),
    );
    let mut roll = [0; 192];
    roll[..96].copy_from_slice(&one.write());
    roll[96..].copy_from_slice(&two.write());
    let verifier = RollVerifier::new(&roll)?;
    assert!(rt; verifier.accepts(&one) && verifier.accepts(&two) && !verifier.accepts(&three));
    let verifier = RollVerifier::new(&roll[96..])?;
    assert!(rt; !verifier.accepts(&one) && verifier.accepts(&two));
    assert!(rt; !RollVerifier::new(&roll[..0])?.accepts(&one));
    for broken in [&roll[..1], &roll[..95], &roll[..97], &roll[..191]] {
        assert!(rt; RollVerifier::new(broken).err() == Some(Fault::BrokenRoll));
    }
    Ok(())
}

/// A quorum of seats, or a place on the roll: neither alone is enough.
#[test]
fn both_must_accept(rt: HostRuntime) -> Result<(), Fail> {
    let (good, few) = (signed(7, 0), signed(3, 0));
    let rows = [
        (good, good, true),
        (good, few, false),
        (few, few, false),
        (few, good, false),
    ];
    for (offered, enrolled, accepted) in rows {
        let roll = enrolled.write();
        let both = Both {
            one: SeatVerifier::new(4, 3)?,
            other: RollVerifier::new(&roll)?,
        };
        assert_eq!(&rt; both.accepts(&offered), accepted);
    }
    Ok(())
}
