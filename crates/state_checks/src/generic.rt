use crate::tagged::Tagged;
use effects::{Effect, Effects};
use record::{Certificate, Proof, Round};
use state::State;
use std::test::Fail;
use store::Memory;
use table::Mark;
use terms::TermLength;

#[test]
fn keeps_a_longer_record(rt: HostRuntime) -> Result<(), Fail> {
    let round = Round { epoch: 7, view: 6 };
    let certificate = Certificate::Nullification {
        round,
        proof: Proof([0; 32]),
    };
    let none = Tagged {
        tag: 0,
        certificate,
    };
    let (mut one, mut nulled, mut passed) = ([none; 1], [none; 128], [none; 128]);
    let (mut waiting, mut failed) = ([Mark { view: 0 }; 128], [Mark { view: 0 }; 128]);
    let memory = Memory {
        finalization: &mut one,
        nullifications: &mut nulled,
        pending_notarizations: &mut waiting,
        certified_notarizations: &mut passed,
        uncertifiable_notarizations: &mut failed,
    };
    let mut list = [Effect::Raised(99); 256];
    let mut effects = Effects::new(&mut list);
    let mut state = State::new(TermLength::new(4)?, 7, memory);
    let mut bytes = [9; 97];
    bytes[1..].copy_from_slice(&certificate.write());
    state.updated(&bytes, &mut effects)?;
    let mut place = none;
    assert!(rt; state.produce(8, &mut place));
    assert_eq!(rt;
        place,
        Tagged {
            tag: 9,
            certificate
        }
    );
    assert!(rt; !state.produce(9, &mut place));
    Ok(())
}
