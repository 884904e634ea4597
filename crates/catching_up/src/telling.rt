ghost use Rattle.std.specs.Prelude.{Some, OnOk};
ghost use Rattle.std.specs.Io.KnownBytes.{Appends};
ghost use Rattle.peer_rounds.specs.Lives.{Lived};
ghost use Rattle.peer_rounds.specs.Rounds.{Wrote};
ghost use Rattle.catching_up.specs.Telling.{recorded_text, told_text, closing_text, Learned, Replayed, Rejoined};

use crate::{Entry, how_far, take_in, take_in_all};
use answers::{Numbers, OpenAsks, Tables};
use board::Board;
use one_member::Member;
use peer_rounds::Summary;
use refusals::Refusal;
use resolver::Fault;
use std::io::Write;
use std::{fmt, io};

/// What a call that records something is answered.
#[derive(Clone, Copy)]
struct Recorded(Result<(), Fault>);

impl fmt::Display for Recorded {
    ghost output = { λ r. Some (recorded_text r.0) };

    fn fmt<W: fmt::Write>(&self, f: &mut fmt::Formatter<W>) -> fmt::Result {
        match self.0 {
            Ok(()) => f.write_str("recorded"),
            Err(fault) => write!(f, "{}", Refusal::from(fault)),
        }
    }
}

/// Writes what a member holds, and what it asks for.
pub fn tell<W: Write, B: Board>(out: &mut W, member: &Member<B>) -> io::Result<()>
    ensures { OnOk result (Appends (W.Write.contents out.old) (W.Write.contents out.new) (told_text B.asks member.now)) }
{
    let (numbers, tables) = (Numbers(&member.resolver), Tables(&member.resolver));
    let open = OpenAsks(&member.board);
    writeln!(out, "state: {numbers}{tables}\nopen asks: {open}")
}

/// Has a member record an entry, and writes both.
pub fn learn<W: Write, B: Board>(
    out: &mut W,
    member: &mut Member<B>,
    entry: Entry,
) -> io::Result<()>
    ensures learned { OnOk result (Wrote (W.Write.contents out.old) (W.Write.contents out.new) (Learned B.asks entry member.old member.new)) }
    ensures lives { Lived B.asks member.old → Lived B.asks member.new }
{
    let answer = take_in(member, entry);
    writeln!(out, "{entry}: {}", Recorded(answer))
}

/// Has a member replay its journal.
pub fn replay<W: Write, B: Board>(
    out: &mut W,
    member: &mut Member<B>,
    journal: &[Entry],
) -> io::Result<()>
    ensures replayed { OnOk result (Wrote (W.Write.contents out.old) (W.Write.contents out.new) (Replayed B.asks journal.now member.old member.new)) }
    ensures lives { Lived B.asks member.old → Lived B.asks member.new }
{
    let refused = take_in_all(member, journal);
    let entries = journal.len();
    writeln!(out, "journal: entries {entries}, refused {refused}")?;
    learn(out, member, Entry::EndOfReplay)
}

/// Has a member replay its journal, and then learn of what the others have come to.
pub fn rejoin<W: Write, B: Board>(
    out: &mut W,
    member: &mut Member<B>,
    journal: &[Entry],
    news: Entry,
) -> io::Result<()>
    ensures rejoined { OnOk result (Wrote (W.Write.contents out.old) (W.Write.contents out.new) (Rejoined B.asks journal.now news member.old member.new)) }
    ensures lives { Lived B.asks member.old → Lived B.asks member.new }
{
    replay(out, member, journal)?;
    tell(out, member)?;
    learn(out, member, news)?;
    tell(out, member)
}

/// Writes what came of all rounds, and how far a member has come by them.
pub fn close<W: Write, B: Board>(
    out: &mut W,
    summary: Summary,
    member: &Member<B>,
) -> io::Result<()>
    ensures { OnOk result (Appends (W.Write.contents out.old) (W.Write.contents out.new) (closing_text B.asks summary member.now)) }
{
    let standing = how_far(member);
    writeln!(out, "{summary}\n{standing}")?;
    tell(out, member)
}
