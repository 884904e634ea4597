use board::{Ask, Asks, Lent as Room, Open};
use both_ways::{Begun, Fault, begin, both_ways};
use effects::{Effect, Effects, Kind as AskKind};
use list_board::ListBoard;
use queue::{Lent, Message};
use record::{Certificate, Digest, Kind, LENGTH, Proof, Proposal, Round, frame};
use row_board::{Row, RowBoard};
use std::process::Abort;
use std::test::Fail;
use store::Memory;
use table::Mark;
use terms::TermLength;

/// The bytes of a record of this kind and view.
fn bytes(kind: Kind, view: u64) -> [u8; LENGTH] {
    let proposal = Proposal {
        round: Round { epoch: 7, view },
        parent: 0,
        payload: Digest([0; 32]),
    };
    frame(kind, &proposal, &Proof([5; 32]))
}

fn updated(kind: Kind, view: u64) -> Message<[u8; LENGTH]> {
    Message::Updated {
        kind,
        view,
        payload: bytes(kind, view),
    }
}

fn certified(view: u64, success: bool) -> Message<[u8; LENGTH]> {
    Message::Certified {
        kind: Kind::Notarization,
        view,
        success,
        payload: bytes(Kind::Notarization, view),
    }
}

fn requested(proposal: u64, view: u64, target: Option<u32>) -> Message<[u8; LENGTH]> {
    Message::Resolve {
        proposal,
        view,
        kind: AskKind::Notarization,
        target,
    }
}

/// Calls messages directly over a row board, and through a queue over a list board; tells whether both end alike.
fn alike(
    rt: &impl Abort,
    length: u32,
    messages: &[Message<[u8; LENGTH]>],
    cuts: &[usize],
) -> Result<Result<bool, Fault>, Fail> {
    let none = Certificate::Nullification {
        round: Round { epoch: 0, view: 0 },
        proof: Proof([0; 32]),
    };
    let (mut one, mut nulled, mut passed) = ([none; 1], [none; 128], [none; 128]);
    let (mut waiting, mut failed) = ([Mark { view: 0 }; 128], [Mark { view: 0 }; 128]);
    let direct = Memory {
        finalization: &mut one,
        nullifications: &mut nulled,
        pending_notarizations: &mut waiting,
        certified_notarizations: &mut passed,
        uncertifiable_notarizations: &mut failed,
    };
    let (mut one, mut nulled, mut passed) = ([none; 1], [none; 128], [none; 128]);
    let (mut waiting, mut failed) = ([Mark { view: 0 }; 128], [Mark { view: 0 }; 128]);
    let behind = Memory {
        finalization: &mut one,
        nullifications: &mut nulled,
        pending_notarizations: &mut waiting,
        certified_notarizations: &mut passed,
        uncertifiable_notarizations: &mut failed,
    };
    let (mut rows, mut asks) = (
        [Row::new(0); 320],
        [Open::new(0, Ask::Background, None); 320],
    );
    let mut row_board = RowBoard::new(Room::test(&mut rows)?);
    let mut list_board = ListBoard::new(Room::test(&mut asks)?);
    let (mut held, mut others) = ([Message::Replayed; 1], [Message::Replayed; 64]);
    let length = TermLength::new(length)?;
    let mut direct = history::Resolver::new(length, 7, direct);
    let Begun {
        mut resolver,
        mut queue,
    } = begin(length, 7, behind, Lent::test(&mut held, &mut others)?);
    let (mut list, mut effects) = ([Message::Replayed; 3], [Effect::Raised(0); 256]);
    let mut effects = Effects::new(&mut effects);
    if let Err(fault) = both_ways(
        &mut direct,
        &mut row_board,
        &mut resolver,
        &mut list_board,
        &mut queue,
        messages,
        cuts,
        &mut list,
        &mut effects,
    ) {
        return Ok(Err(fault));
    }
    assert!(rt; queue.is_empty());
    let mut same = true;
    let mut open = Asks::new(&row_board);
    let mut too = Asks::new(&list_board);
    for view in 0..20 {
        let (mut here, mut there) = (none, none);
        same = same && open.next() == too.next();
        same = same
            && direct.settled(view, AskKind::Nullification)
                == resolver.settled(view, AskKind::Nullification);
        same = same
            && direct.settled(view, AskKind::Notarization)
                == resolver.settled(view, AskKind::Notarization);
        same = same && direct.produce(view, &mut here) == resolver.produce(view, &mut there);
    }
    Ok(Ok(same))
}

#[test]
fn run(rt: HostRuntime) -> Result<(), Fail> {
    let messages = [
        requested(9, 5, Some(3)),
        Message::Replayed,
        updated(Kind::Nullification, 10),
        requested(9, 5, None),
        updated(Kind::Nullification, 10),
        updated(Kind::Notarization, 3),
        updated(Kind::Finalization, 2),
        updated(Kind::Nullification, 7),
        certified(14, false),
        certified(9, true),
        updated(Kind::Finalization, 1),
        requested(16, 13, Some(1)),
    ];
    assert_eq!(&rt; alike(&rt, 4, &messages, &[])?, Ok(true));
    assert_eq!(&rt;
        alike(&rt, 4, &messages, &[0, 1, 0, 0, 3, 2, 0, 0, 1, 9])?,
        Ok(true)
    );
    Ok(())
}

/// Where a condition of the promise does not hold, both may end differently.
#[test]
fn conditions(rt: HostRuntime) -> Result<(), Fail> {
    let covered = [
        updated(Kind::Nullification, 1),
        updated(Kind::Finalization, 1),
    ];
    assert_eq!(&rt; alike(&rt, 2, &covered, &[])?, Ok(false));
    assert_eq!(&rt; alike(&rt, 2, &covered, &[1, 1])?, Ok(true));
    let verdicts = [certified(1, true), certified(1, false)];
    assert_eq!(&rt; alike(&rt, 1, &verdicts, &[])?, Ok(false));
    let gaps = [
        Message::Replayed,
        updated(Kind::Notarization, 131),
        updated(Kind::Finalization, 2),
    ];
    let refused = Fault::Resolver(resolver::Fault::State(state::Fault::TooManyGaps));
    assert_eq!(&rt; alike(&rt, 1, &gaps, &[])?, Err(refused));
    Ok(())
}
