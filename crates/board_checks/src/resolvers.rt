use board::{Ask, Board, Lent, Open};
use effects::{Effect, Effects};
use list_board::ListBoard;
use own_parts::Chosen;
use record::{Certificate, Proof, Round};
use resolver::{Delivered, Fault, Outcome, Resolver};
use row_board::{Row, RowBoard};
use std::process::Abort;
use std::test::Fail;
use store::Memory;
use table::Mark;
use verifier::RollVerifier;

fn nullification(view: u64) -> Certificate {
    Certificate::Nullification {
        round: Round { epoch: 7, view },
        proof: Proof([5; 32]),
    }
}

/// What making a resolver over a board with an open ask or none, and over so many places, is refused for.
fn tested<B: Board>(term_length: u32, places: usize, board: &B) -> Option<Fault> {
    let none = nullification(0);
    let (mut one, mut nulled, mut passed) = ([none; 1], [none; 128], [none; 128]);
    let (mut waiting, mut failed) = ([Mark { view: 0 }; 128], [Mark { view: 0 }; 128]);
    let memory = Memory {
        finalization: &mut one,
        nullifications: &mut nulled[..places.min(128)],
        pending_notarizations: &mut waiting,
        certified_notarizations: &mut passed,
        uncertifiable_notarizations: &mut failed,
    };
    Resolver::fits(term_length, &memory, board).err()
}

/// The tests of a making, in their order.
fn makes<B: Board>(rt: &impl Abort, board: &mut B) -> Result<(), Fail> {
    let no_length = Some(Fault::State(state::Fault::Terms(terms::Fault::ZeroLength)));
    let cramped = Some(Fault::State(state::Fault::TooFewPlaces));
    assert_eq!(rt; tested(1, 128, board), None);
    board.fetch(3);
    assert_eq!(rt; tested(0, 127, board), no_length);
    assert_eq!(rt; tested(1, 127, board), cramped);
    assert_eq!(rt; tested(1, 128, board), Some(Fault::BoardNotEmpty));
    board.retire(board::Retire::Raised(3));
    board.request(3, effects::Kind::Notarization, None)?;
    assert_eq!(rt; tested(1, 128, board), Some(Fault::BoardNotEmpty));
    board.retire(board::Retire::Finalized(3));
    Ok(())
}

/// Deliveries that a roll judges, and the tests before them.
fn delivers<B: Board>(rt: &impl Abort, board: &mut B) -> Result<(), Fail> {
    let none = nullification(0);
    let (mut one, mut nulled, mut passed) = ([none; 1], [none; 128], [none; 128]);
    let (mut waiting, mut failed) = ([Mark { view: 0 }; 128], [Mark { view: 0 }; 128]);
    let memory = Memory {
        finalization: &mut one,
        nullifications: &mut nulled,
        pending_notarizations: &mut waiting,
        certified_notarizations: &mut passed,
        uncertifiable_notarizations: &mut failed,
    };
    let roll = nullification(6).write();
    let verifier = RollVerifier::new(&roll)?;
    let mut list = [Effect::Raised(99); 256];
    let mut short = [Effect::Raised(99); 255];
    let mut resolver = Resolver::new(Resolver::fits(4, &memory, board)?, 7, memory);
    let asks = [Ask::Background; 17];
    let other = nullification(5).write();
    let mut effects = Effects::new(&mut short);
    let cramped = Fault::State(state::Fault::TooFewPlaces);
    assert_eq!(rt;
        resolver.deliver(board, &verifier, 6, &roll, &asks, &mut effects),
        Err(cramped)
    );
    let mut effects = Effects::new(&mut list);
    assert_eq!(rt;
        resolver.deliver(board, &verifier, 6, &roll, &asks, &mut effects),
        Err(Fault::WrongAsks)
    );
    assert_eq!(rt;
        resolver.deliver(board, &verifier, 6, &roll, &[], &mut effects),
        Err(Fault::WrongAsks)
    );
    let asks = [Ask::Background; 16];
    let invalid = Delivered {
        outcome: Outcome::Invalid,
        taken: false,
    };
    assert_eq!(rt;
        resolver.deliver(board, &verifier, 6, &other, &asks, &mut effects),
        Ok(invalid)
    );
    assert!(rt; effects.as_slice().is_empty());
    let complete = Delivered {
        outcome: Outcome::Complete,
        taken: true,
    };
    assert_eq!(rt;
        resolver.deliver(board, &verifier, 8, &roll, &asks, &mut effects),
        Ok(complete)
    );
    Ok(())
}

fn each<B: Board>(rt: &impl Abort, board: &mut B) -> Result<(), Fail> {
    makes(rt, board)?;
    delivers(rt, board)
}

#[test]
fn list(rt: HostRuntime) -> Result<(), Fail> {
    let mut places = [Open::new(0, Ask::Background, None); 320];
    each(&rt, &mut ListBoard::new(Lent::test(&mut places)?))
}

#[test]
fn rows(rt: HostRuntime) -> Result<(), Fail> {
    let mut places = [Row::new(0); 320];
    each(&rt, &mut RowBoard::new(Lent::test(&mut places)?))
}

#[test]
fn chosen(rt: HostRuntime) -> Result<(), Fail> {
    let mut places = [Row::new(0); 320];
    let mut board: Chosen<RowBoard, ListBoard> = Chosen::One(RowBoard::new(Lent::test(
        &mut places,
    )?));
    each(&rt, &mut board)
}
