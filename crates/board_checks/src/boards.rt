use Step::{End, Fetch, Request};
use board::{Ask, Asks, Board, Counts, Fault, Lent, Open, Retire};
use effects::Kind;
use effects::Kind::{Notarization, Nullification};
use list_board::ListBoard;
use row_board::{Row, RowBoard};
use std::process::Abort;
use std::test::Fail;
use views::View;

const MAX: View = 18446744073709551615;

/// What is done to a board.
#[derive(Clone, Copy)]
enum Step {
    Fetch(View),
    Request(View, Kind, Option<u32>),
    End(Retire),
}

fn background(view: View) -> Open {
    Open::new(view, Ask::Background, None)
}

fn ancestry(view: View, kind: Kind, target: Option<u32>) -> Open {
    Open::new(view, Ask::Ancestry(kind), target)
}

/// Does the steps on a board with no open ask, compares what is open then, and ends it all.
fn case<B: Board>(
    rt: &impl Abort,
    board: &mut B,
    steps: &[Step],
    expected: &[Open],
) -> Result<(), Fail> {
    for step in steps {
        match *step {
            Fetch(view) => board.fetch(view),
            Request(view, kind, target) => board.request(view, kind, target)?,
            End(retire) => board.retire(retire),
        }
    }
    let mut count = 0;
    for asked in Asks::new(board) {
        assert!(rt; count < expected.len());
        assert_eq!(rt; asked, expected[count]);
        count += 1;
    }
    assert_eq!(rt; count, expected.len());
    board.retire(Retire::Finalized(MAX));
    Ok(())
}

/// What is opened: in which order it stands, and whose target stays.
fn opens<B: Board>(rt: &impl Abort, board: &mut B) -> Result<(), Fail> {
    let rows: [(&[Step], &[Open]); 6] = [
        (&[], &[]),
        (
            &[
                Fetch(MAX),
                Request(5, Notarization, None),
                Request(5, Nullification, Some(3)),
                Fetch(5),
                Fetch(0),
            ],
            &[
                background(0),
                background(5),
                ancestry(5, Nullification, Some(3)),
                ancestry(5, Notarization, None),
                background(MAX),
            ],
        ),
        (&[Fetch(5), Fetch(5)], &[background(5)]),
        (
            &[
                Request(MAX, Nullification, Some(4294967295)),
                Request(MAX, Nullification, Some(2)),
                Request(MAX, Notarization, Some(2)),
                Fetch(MAX),
            ],
            &[
                background(MAX),
                ancestry(MAX, Nullification, Some(4294967295)),
                ancestry(MAX, Notarization, Some(2)),
            ],
        ),
        (
            &[
                Request(0, Notarization, Some(1)),
                Request(0, Nullification, Some(1)),
                Request(0, Notarization, None),
            ],
            &[
                ancestry(0, Nullification, Some(1)),
                ancestry(0, Notarization, None),
            ],
        ),
        (
            &[
                Request(5, Notarization, Some(1)),
                Request(5, Notarization, None),
                Request(5, Notarization, Some(2)),
            ],
            &[ancestry(5, Notarization, None)],
        ),
    ];
    for (steps, expected) in rows {
        case(rt, board, steps, expected)?;
    }
    Ok(())
}

/// What is left of the asks at the views 4, 5, 8, 9 and at the highest one.
fn left<B: Board>(
    rt: &impl Abort,
    board: &mut B,
    retire: Retire,
    expected: &[Open],
) -> Result<(), Fail> {
    let steps = [
        Fetch(4),
        Fetch(5),
        Request(5, Nullification, None),
        Request(5, Notarization, Some(2)),
        Request(8, Nullification, Some(1)),
        Fetch(9),
        Request(MAX, Notarization, None),
        End(retire),
    ];
    case(rt, board, &steps, expected)
}

/// What ends, and what stays.
fn ends<B: Board>(rt: &impl Abort, board: &mut B) -> Result<(), Fail> {
    let (four, five, nine) = (background(4), background(5), background(9));
    let skipped = ancestry(5, Nullification, None);
    let noted = ancestry(5, Notarization, Some(2));
    let eight = ancestry(8, Nullification, Some(1));
    let last = ancestry(MAX, Notarization, None);
    let settled = |kind, start, end| Retire::Settled { kind, start, end };
    left(
        rt,
        board,
        settled(Nullification, 5, 8),
        &[four, noted, nine, last],
    )?;
    left(
        rt,
        board,
        settled(Notarization, 5, 5),
        &[four, five, skipped, eight, nine, last],
    )?;
    left(
        rt,
        board,
        settled(Nullification, 8, 5),
        &[four, five, skipped, noted, eight, nine, last],
    )?;
    left(
        rt,
        board,
        settled(Notarization, 0, MAX),
        &[four, five, skipped, eight, nine],
    )?;
    left(rt, board, Retire::Finalized(5), &[eight, nine, last])?;
    left(
        rt,
        board,
        Retire::Raised(5),
        &[skipped, noted, eight, nine, last],
    )?;
    left(
        rt,
        board,
        Retire::Raised(0),
        &[four, five, skipped, noted, eight, nine, last],
    )?;
    left(
        rt,
        board,
        Retire::Raised(MAX),
        &[skipped, noted, eight, last],
    )?;
    left(rt, board, Retire::Finalized(MAX), &[])
}

/// The first ask at or after a place.
fn asked<B: Board>(rt: &impl Abort, board: &mut B) -> Result<(), Fail> {
    board.fetch(0);
    board.request(5, Nullification, Some(3))?;
    board.request(5, Notarization, None)?;
    let skipped = Some(ancestry(5, Nullification, Some(3)));
    let noted = Some(ancestry(5, Notarization, None));
    let rows = [
        (0, Ask::Background, Some(background(0))),
        (0, Ask::Ancestry(Nullification), skipped),
        (5, Ask::Background, skipped),
        (5, Ask::Ancestry(Nullification), skipped),
        (5, Ask::Ancestry(Notarization), noted),
        (6, Ask::Background, None),
        (MAX, Ask::Ancestry(Notarization), None),
    ];
    for (view, ask, expected) in rows {
        assert_eq!(rt; board.first_from(view, ask), expected);
    }
    board.retire(Retire::Finalized(MAX));
    Ok(())
}

/// As many asks as may be open, and one more, on 320 places.
fn limits<B: Board>(rt: &impl Abort, board: &mut B) -> Result<(), Fail> {
    for view in 0..255 {
        board.fetch(view);
    }
    for view in 0..63 {
        board.request(view, Notarization, Some(1))?;
    }
    assert_eq!(rt;
        board.counts(),
        Counts {
            background: 255,
            ancestry: 63
        }
    );
    board.fetch(255);
    board.request(63, Nullification, Some(1))?;
    assert_eq!(rt;
        board.counts(),
        Counts {
            background: 256,
            ancestry: 64
        }
    );
    board.fetch(256);
    assert_eq!(rt;
        board.request(64, Nullification, None),
        Err(Fault::TooManyAsks)
    );
    assert_eq!(rt;
        board.request(62, Nullification, Some(1)),
        Err(Fault::TooManyAsks)
    );
    board.fetch(255);
    board.request(62, Notarization, None)?;
    assert_eq!(rt;
        board.counts(),
        Counts {
            background: 256,
            ancestry: 64
        }
    );
    assert_eq!(rt; board.first_from(255, Ask::Ancestry(Nullification)), None);
    assert_eq!(rt;
        board.first_from(62, Ask::Ancestry(Nullification)),
        Some(ancestry(62, Notarization, None))
    );
    board.retire(Retire::Finalized(0));
    board.fetch(256);
    board.request(64, Nullification, None)?;
    assert_eq!(rt;
        board.counts(),
        Counts {
            background: 256,
            ancestry: 64
        }
    );
    board.retire(Retire::Finalized(MAX));
    assert_eq!(rt;
        board.counts(),
        Counts {
            background: 0,
            ancestry: 0
        }
    );
    Ok(())
}

fn each<B: Board>(rt: &impl Abort, board: &mut B) -> Result<(), Fail> {
    opens(rt, board)?;
    ends(rt, board)?;
    asked(rt, board)?;
    limits(rt, board)
}

#[test]
fn list(rt: HostRuntime) -> Result<(), Fail> {
    let mut places = [background(7); 320];
    each(&rt, &mut ListBoard::new(Lent::test(&mut places)?))
}

#[test]
fn rows(rt: HostRuntime) -> Result<(), Fail> {
    let mut places = [Row::new(7); 320];
    each(&rt, &mut RowBoard::new(Lent::test(&mut places)?))
}

#[test]
fn places_are_counted(rt: HostRuntime) -> Result<(), Fail> {
    let mut places = [background(7); 320];
    assert!(rt; Lent::test(&mut places[..319]).err() == Some(Fault::TooFewPlaces));
    assert!(rt; Lent::test(&mut places[..0]).err() == Some(Fault::TooFewPlaces));
    assert!(rt; Lent::test(&mut places[..320]).is_ok());
    Ok(())
}
