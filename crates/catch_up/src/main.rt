//! A member that was away rejoins: over each board with a peer that holds all, and once with a peer that lacks something.
#![tactic(auto)]

ghost use Rattle.std.specs.Prelude.{IfOk};
ghost use Rattle.catch_up.specs.Stories.{here, Story, StoryOn, Shown};
ghost use Rattle.list_board.specs.Lists.{asks_of};
ghost use Rattle.one_member.specs.Making.{Made};
ghost use Rattle.peer_rounds.specs.Rounds.{Wrote};
ghost use Rattle.row_board.specs.Boards.{open_asks};

use board::{Ask, Board, Lent, Open, PLACES};
use catching_up::{Entry, catch_up, fresh, replay, tell};
use list_board::ListBoard;
use one_member::{Admitted, admit};
use orders::{BoardKind, Setup};
use places::Places;
use record::Kind;
use row_board::{Row, RowBoard};
use std::alloc::Global;
use std::io;
use std::io::{BufWriter, Write};

/// What the member wrote down before it was away: a view that passed, the end of a term, and a view that failed.
const JOURNAL: [Entry; 5] = [
    Entry::Evidence(Kind::Notarization, 1),
    Entry::Verdict(1, true),
    Entry::Evidence(Kind::Nullification, 2),
    Entry::Evidence(Kind::Notarization, 5),
    Entry::Verdict(5, false),
];

/// What a peer holds: a finalization in the middle of a term, a view that passed, and nullifications. One lacks the last.
const RECORD: [Entry; 12] = [
    Entry::Evidence(Kind::Finalization, 10),
    Entry::Evidence(Kind::Nullification, 11),
    Entry::Evidence(Kind::Nullification, 13),
    Entry::Evidence(Kind::Notarization, 18),
    Entry::Verdict(18, true),
    Entry::Evidence(Kind::Nullification, 19),
    Entry::Evidence(Kind::Nullification, 21),
    Entry::Evidence(Kind::Nullification, 29),
    Entry::Evidence(Kind::Nullification, 33),
    Entry::Evidence(Kind::Nullification, 37),
    Entry::Evidence(Kind::Notarization, 41),
    Entry::Evidence(Kind::Nullification, 25),
];

/// The evidence by which the member learns how far the others have come.
const NEWS: Entry = Entry::Evidence(Kind::Notarization, 41);

/// Terms of four views, epoch 7, and four seats of which three are a quorum.
fn admitted() -> Admitted
    ensures { Made here result }
{
    let setup = Setup {
        term_length: 4,
        epoch: 7,
        seats: 4,
        quorum: 3,
        board: BoardKind::Rows,
    };
    admit(setup).unwrap()
}

/// A member rejoins over one board, and asks a peer over another, which holds this record.
fn story<W: Write, B: Board + Drop, C: Board + Drop>(
    out: &mut W,
    heap: Global,
    own: B,
    others: C,
    entries: &[Entry],
) -> io::Result<()>
    ensures { IfOk result (λ _. Wrote (W.Write.contents out.old) (W.Write.contents out.new) (Story B.asks C.asks own others entries.now)) }
{
    let admitted = admitted();
    let (mut places, mut lent) = (Places::new(), Places::new());
    let mut member = fresh(&mut places, admitted, own);
    let mut peer = fresh(&mut lent, admitted, others);
    writeln!(out, "the peer")?;
    replay(out, &mut peer, entries)?;
    tell(out, &peer)?;
    writeln!(out, "the member")?;
    catch_up(out, heap, &mut member, &peer, &JOURNAL, NEWS)?;
    Ok(())
}

/// The story over boards of rows.
fn on_rows<W: Write>(out: &mut W, heap: Global, entries: &[Entry]) -> io::Result<()>
    ensures { IfOk result (λ _. Wrote (W.Write.contents out.old) (W.Write.contents out.new) (StoryOn open_asks entries.now)) }
{
    let mut own = [Row::new(0); PLACES];
    let mut others = [Row::new(0); PLACES];
    let lent = Lent::test(&mut own).unwrap();
    let places = Lent::test(&mut others).unwrap();
    story(
        out,
        heap,
        RowBoard::new(lent),
        RowBoard::new(places),
        entries,
    )
}

/// The story over boards in order of arrival.
fn on_list<W: Write>(out: &mut W, heap: Global, entries: &[Entry]) -> io::Result<()>
    ensures { IfOk result (λ _. Wrote (W.Write.contents out.old) (W.Write.contents out.new) (StoryOn asks_of entries.now)) }
{
    let unused = Open::new(0, Ask::Background, None);
    let mut own = [unused; PLACES];
    let mut others = [unused; PLACES];
    let lent = Lent::test(&mut own).unwrap();
    let places = Lent::test(&mut others).unwrap();
    story(
        out,
        heap,
        ListBoard::new(lent),
        ListBoard::new(places),
        entries,
    )
}

/// Tells it three times.
fn run<W: Write>(out: &mut W, heap: Global) -> io::Result<()>
    ensures { IfOk result (λ _. Wrote (W.Write.contents out.old) (W.Write.contents out.new) Shown) }
{
    writeln!(out, "== a board of rows, and a peer that holds all")?;
    on_rows(out, heap, &RECORD)?;
    writeln!(
        out,
        "\n== a board in order of arrival, and a peer that holds all"
    )?;
    on_list(out, heap, &RECORD)?;
    writeln!(out, "\n== a peer that lacks the nullification of view 25")?;
    on_rows(out, heap, &RECORD[..RECORD.len() - 1])
}

fn main(rt: HostRuntime) -> anyhow::Result<()> {
    let heap = rt.alloc();
    let mut out = BufWriter::new(heap, rt.stdout())?;
    run(&mut out, heap)?;
    out.flush()?;
    Ok(())
}
