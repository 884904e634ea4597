//! Runs the stream of steps on standard input on one member, and prints what was counted.
#![tactic(auto)]

ghost use Rattle.bench.specs.Boards.{WholeOn};

use board::{Ask, Lent, Open, PLACES};
use list_board::ListBoard;
use row_board::{Row, RowBoard};
use std::io::Read;
use stepping::{Line, run};
use steps::{BoardKind, Stream};

/// Runs a stream on a fresh member with the board that it names.
fn run_with_board(stream: &Stream) -> Line
    ensures { WholeOn stream.now.header.board stream.now.header stream.now.steps.now result }
{
    match stream.header.board {
        BoardKind::Rows => {
            let mut rows = [Row::new(0); PLACES];
            let lent = Lent::test(&mut rows).unwrap();
            run(stream, RowBoard::new(lent))
        }
        BoardKind::List => {
            let mut list = [Open::new(0, Ask::Background, None); PLACES];
            let lent = Lent::test(&mut list).unwrap();
            run(stream, ListBoard::new(lent))
        }
    }
}

fn main(rt: HostRuntime) -> anyhow::Result<()> {
    let heap = rt.alloc();
    let mut bytes = Vec::new(heap);
    rt.stdin().read_to_end(&mut bytes)?;
    let stream = Stream::read(bytes.as_slice())?;
    println!(&rt; "{}", run_with_board(&stream))?;
    Ok(())
}
