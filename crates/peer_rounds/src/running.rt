ghost use Rattle.std.specs.Prelude.{Some, IfOk};
ghost use Rattle.peer_rounds.specs.Laws.{NothingMissed};
ghost use Rattle.peer_rounds.specs.Lives.{Lived};
ghost use Rattle.peer_rounds.specs.Rounds.{Wrote};
ghost use Rattle.peer_rounds.specs.Runs.{Rounds};
ghost use Rattle.peer_rounds.specs.Texts.{end_text, summary_text};

use crate::{Tally, next_open, round};
use board::Board;
use one_member::Member;
use std::alloc::Global;
use std::io::Write;
use std::{fmt, io};

/// How many rounds there are at most.
pub const MOST: u64 = 64;

/// Why there is no further round.
#[derive(Clone, Copy, Debug, PartialEq, Eq)]
pub enum End {
    NothingOpen,
    /// Nothing that was served in the last round settled an ask.
    NothingSettled,
    /// There were as many rounds as there may be.
    TooMany,
}

/// What came of all rounds.
#[derive(Clone, Copy, Debug, PartialEq, Eq)]
pub struct Summary {
    pub rounds: u64,
    pub tally: Tally,
    pub end: End,
}

/// Goes on in rounds until nothing is open, or a round settled nothing.
pub fn run_rounds<W: Write, B: Board, C>(
    out: &mut W,
    heap: Global,
    member: &mut Member<B>,
    peer: &Member<C>,
) -> io::Result<Summary>
    ensures rounds { IfOk result (λ s. Wrote (W.Write.contents out.old) (W.Write.contents out.new) (Rounds B.asks peer.now member.old member.new s)) }
    ensures nothing_missed { IfOk result (λ s. NothingMissed B.asks member.old member.new s.end) }
    ensures lives { Lived B.asks member.old → Lived B.asks member.new }
{
    let mut tally = Tally::default();
    for before in 0..MOST {
        if next_open(&member.board, Some(0)).is_none() {
            return Ok(Summary {
                rounds: before,
                tally,
                end: End::NothingOpen,
            });
        }
        let number = before + 1;
        writeln!(out, "round {number}")?;
        let one = round(out, heap, member, peer)?;
        tally = tally.with(one);
        if one.settling == 0 {
            return Ok(Summary {
                rounds: number,
                tally,
                end: End::NothingSettled,
            });
        }
    }
    Ok(Summary {
        rounds: MOST,
        tally,
        end: End::TooMany,
    })
}

impl fmt::Display for End {
    ghost output = { λ e. Some (end_text e) };

    fn fmt<W: fmt::Write>(&self, f: &mut fmt::Formatter<W>) -> fmt::Result {
        f.write_str(match self {
            End::NothingOpen => "nothing is left to ask for",
            End::NothingSettled => "the peer has nothing that settles what is still open",
            End::TooMany => "there were as many rounds as there may be",
        })
    }
}

impl fmt::Display for Summary {
    ghost output = { λ s. Some (summary_text s) };

    fn fmt<W: fmt::Write>(&self, f: &mut fmt::Formatter<W>) -> fmt::Result {
        let Tally {
            asks,
            records,
            settling,
        } = self.tally;
        write!(
            f,
            "rounds {}, asks put {asks}, records delivered {records}, of which {settling} settled an ask: {}",
            self.rounds, self.end
        )
    }
}
