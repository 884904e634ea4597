use effects::{Effect, Effects};
use record::{Certificate, Proof, Round};
use state::{Fault, State};
use std::alloc::{AllocError, Global};
use std::test::Fail;
use store::Memory;
use table::Mark;
use terms::TermLength;

/// The places that a host lends.
#[derive(Drop)]
struct Places {
    finalization: Vec<Certificate>,
    nullifications: Vec<Certificate>,
    pending: Vec<Mark>,
    certified: Vec<Certificate>,
    failed: Vec<Mark>,
}

impl Places {
    /// So many of them: in order for the finalization and the four tables.
    fn new(heap: Global, places: [usize; 5]) -> Result<Places, AllocError> {
        let [finalization, nullifications, pending, certified, failed] = places;
        Ok(Places {
            finalization: vec![in heap; nullification(0); finalization]?,
            nullifications: vec![in heap; nullification(0); nullifications]?,
            pending: vec![in heap; Mark { view: 0 }; pending]?,
            certified: vec![in heap; nullification(0); certified]?,
            failed: vec![in heap; Mark { view: 0 }; failed]?,
        })
    }

    fn lend(&mut self) -> Memory<'_, Certificate> {
        Memory {
            finalization: self.finalization.as_mut_slice(),
            nullifications: self.nullifications.as_mut_slice(),
            pending_notarizations: self.pending.as_mut_slice(),
            certified_notarizations: self.certified.as_mut_slice(),
            uncertifiable_notarizations: self.failed.as_mut_slice(),
        }
    }
}

const ENOUGH: [usize; 5] = [1, 128, 128, 128, 128];

fn nullification(view: u64) -> Certificate {
    Certificate::Nullification {
        round: Round { epoch: 7, view },
        proof: Proof([0; 32]),
    }
}

#[test]
fn each_place_is_tested(rt: HostRuntime) -> Result<(), Fail> {
    let too_few = Some(Fault::TooFewPlaces);
    let rows = [
        (ENOUGH, None),
        ([2, 129, 129, 129, 129], None),
        ([0, 128, 128, 128, 128], too_few),
        ([1, 127, 128, 128, 128], too_few),
        ([1, 128, 127, 128, 128], too_few),
        ([1, 128, 128, 127, 128], too_few),
        ([1, 128, 128, 128, 127], too_few),
    ];
    for (places, fault) in rows {
        let mut lent = Places::new(rt.alloc(), places)?;
        let memory = lent.lend();
        let no_length = Some(Fault::Terms(terms::Fault::ZeroLength));
        assert_eq!(rt; State::fits(0, &memory).err(), no_length);
        assert_eq!(rt; State::fits(4, &memory).err(), fault);
        let mut list = [Effect::Raised(99); 256];
        let mut effects = Effects::new(&mut list);
        let mut state = State::new(TermLength::new(4)?, 7, memory);
        assert_eq!(rt; state.is_fit(), fault.is_none());
        assert_eq!(rt; state.update(nullification(1), &mut effects).err(), fault);
        assert_eq!(rt; state.nullifications().len(), usize::from(fault.is_none()));
    }
    Ok(())
}

#[test]
fn a_short_list_is_refused_first(rt: HostRuntime) -> Result<(), Fail> {
    let mut lent = Places::new(rt.alloc(), ENOUGH)?;
    let mut list = [Effect::Raised(99); 255];
    let mut effects = Effects::new(&mut list);
    let mut state = State::new(TermLength::new(4)?, 7, lent.lend());
    let refused = Err(Fault::TooFewPlaces);
    assert_eq!(rt; state.updated(b"", &mut effects), refused);
    assert_eq!(rt; state.certified(b"", true, &mut effects), refused);
    assert_eq!(rt; state.replayed(&mut effects), refused);
    assert!(rt; state.is_replaying());
    Ok(())
}

#[test]
fn places_past_the_effects_stay(rt: HostRuntime) -> Result<(), Fail> {
    let mut lent = Places::new(rt.alloc(), ENOUGH)?;
    let mut list = [Effect::Raised(99); 256];
    let mut effects = Effects::new(&mut list);
    let mut state = State::new(TermLength::new(4)?, 7, lent.lend());
    state.replayed(&mut effects)?;
    state.update(nullification(10), &mut effects)?;
    assert_eq!(rt; effects.len(), 4);
    assert_eq!(rt;
        state.updated(b"", &mut effects),
        Err(Fault::Record(record::Fault::WrongLength))
    );
    assert_eq!(rt; effects.len(), 4);
    let mut place = nullification(3);
    assert!(rt; !state.produce(9, &mut place) && place == nullification(3));
    assert!(rt; state.produce(12, &mut place) && place == nullification(10));
    let untouched = list
        .iter()
        .filter(|effect| **effect == Effect::Raised(99))
        .count();
    assert_eq!(rt; untouched, 252);
    Ok(())
}
