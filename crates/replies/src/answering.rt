ghost use Rattle.std.specs.Prelude.{IfOk};
ghost use Rattle.replies.specs.Replies.{Mistaken, Making, AnsweredAlone, AnsweredBy, Wrote};

use crate::Turn;
use board::Board;
use one_member::{Member, admit};
use orders::Setup;
use record_text::Defaults;
use script::{Asked, Mistake, ask};
use std::alloc::Global;
use std::io;
use std::io::Write;
use words::Problem;

/// Tells what is wrong with a line.
fn complain<W: Write>(out: &mut W, line: u64, problem: Problem) -> io::Result<Turn>
    ensures { IfOk result (λ t. Wrote (W.Write.contents out.old) (W.Write.contents out.new) (Mistaken line problem t)) }
{
    writeln!(out, "{}", Mistake { line, problem })?;
    Ok(Turn::NoCommand)
}

/// Tells whether a member can be made of this.
fn make<W: Write>(out: &mut W, setup: Setup) -> io::Result<Turn>
    ensures { IfOk result (λ t. Wrote (W.Write.contents out.old) (W.Write.contents out.new) (Making setup t)) }
{
    match admit(setup) {
        Ok(admitted) => {
            writeln!(out, "member")?;
            Ok(Turn::Member(admitted))
        }
        Err(refusal) => {
            writeln!(out, "{refusal}")?;
            Ok(Turn::Answered)
        }
    }
}

/// Answers a line where there is no member yet.
pub fn answer_alone<W: Write>(out: &mut W, heap: Global, line: u64, text: &[u8]) -> io::Result<Turn>
    ensures { IfOk result (λ t. Wrote (W.Write.contents out.old) (W.Write.contents out.new) (AnsweredAlone line text.now t)) }
{
    match ask(heap, text, Defaults { epoch: 0, seats: 0 }) {
        Ok(Asked::Nothing) => Ok(Turn::Answered),
        Ok(Asked::Answer(answer)) => {
            writeln!(out, "{answer}")?;
            Ok(Turn::Answered)
        }
        Ok(Asked::Member(setup)) => make(out, setup),
        Ok(Asked::Order(_)) => complain(out, line, Problem::NoMember),
        Ok(Asked::Drain(_)) => complain(out, line, Problem::NoMember),
        Err(problem) => complain(out, line, problem),
    }
}

/// Has the member answer a line. One that makes another member leaves this one as it is.
pub fn answer<W: Write, B: Board>(
    out: &mut W,
    heap: Global,
    line: u64,
    text: &[u8],
    member: &mut Member<B>,
) -> io::Result<Turn>
    ensures { IfOk result (λ t. Wrote (W.Write.contents out.old) (W.Write.contents out.new) (AnsweredBy B.asks line text.now t member.old member.new)) }
{
    match ask(heap, text, member.defaults()) {
        Ok(Asked::Nothing) => Ok(Turn::Answered),
        Ok(Asked::Answer(answer)) => {
            writeln!(out, "{answer}")?;
            Ok(Turn::Answered)
        }
        Ok(Asked::Member(setup)) => make(out, setup),
        Ok(Asked::Order(order)) => {
            let answered = member.carry_out(&order);
            writeln!(out, "{}", member.shows(answered))?;
            Ok(Turn::Answered)
        }
        Ok(Asked::Drain(count)) => {
            member.drain(out, count)?;
            Ok(Turn::Answered)
        }
        Err(problem) => complain(out, line, problem),
    }
}
