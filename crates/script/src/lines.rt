ghost use Rattle.std.specs.Prelude.{◌≡◌};
ghost use Rattle.script.specs.Lines.{term_run, covers_run, read_by, drain_run, same, asked_run, sense};
ghost use Rattle.words.specs.Problems.{Told};

use crate::answer;
use crate::answer::Answer;
use crate::command::Command;
use orders::{Order, Setup, read_order, read_setup};
use record_text::{Defaults, record};
use std::alloc::Global;
use words::{Problem, after, end, number, short_number, uncommented, word};

/// What a line asks.
#[derive(Drop)]
pub enum Asked {
    /// Nothing: it has no word.
    Nothing,
    /// What is answered already, since it needs no member.
    Answer(Answer),
    /// A fresh member.
    Member(Setup),
    /// What only the member can answer.
    Order(Order),
    /// To take as many messages as this out of the member's queue, and to make their calls.
    Drain(u64),
}

/// Runs `term L VIEW`, by the words behind its name.
#[tactic(auto, unfolding(crate::specs::Lines::term_run, words::specs::Problems::bind))]
fn run_term(text: &[u8]) -> Result<Answer, Problem>
    ensures { result ≡ term_run text.now }
{
    let length = short_number(word(text, 0))?;
    let view = number(word(text, 1))?;
    end(after(text, 2))?;
    Ok(answer::term(length, view))
}

/// Runs `covers L U V`.
#[tactic(auto, unfolding(crate::specs::Lines::covers_run, words::specs::Problems::bind))]
fn run_covers(text: &[u8]) -> Result<Answer, Problem>
    ensures { result ≡ covers_run text.now }
{
    let length = short_number(word(text, 0))?;
    let nullified = number(word(text, 1))?;
    let view = number(word(text, 2))?;
    end(after(text, 3))?;
    Ok(answer::covers(length, nullified, view))
}

/// Runs `read RECORD`.
#[tactic(auto, unfolding(crate::specs::Lines::read_by, words::specs::Problems::bind))]
fn run_read(heap: Global, text: &[u8], defaults: Defaults) -> Result<Answer, Problem>
    ensures { Told result same (read_by defaults text.now) }
{
    let bytes = record(heap, text, defaults)?;
    Ok(answer::read(bytes.as_slice()))
}

/// Reads `drain K`, by the words behind its name.
#[tactic(auto, unfolding(crate::specs::Lines::drain_run, words::specs::Problems::bind))]
fn read_drain(text: &[u8]) -> Result<u64, Problem>
    ensures { result ≡ drain_run text.now }
{
    let count = number(word(text, 0))?;
    end(after(text, 1))?;
    Ok(count)
}

/// What a line asks. Records that do not say otherwise have the defaults.
#[tactic(auto, unfolding(crate::specs::Lines::text_asked, words::specs::Problems::bind))]
pub fn ask(heap: Global, line: &[u8], defaults: Defaults) -> Result<Asked, Problem>
    ensures { Told result sense (asked_run defaults line.now) }
{
    let text = uncommented(line);
    let rest = after(text, 1);
    match Command::from(word(text, 0)) {
        Command::Nothing => Ok(Asked::Nothing),
        Command::Term => run_term(rest).map(Asked::Answer),
        Command::Covers => run_covers(rest).map(Asked::Answer),
        Command::Read => run_read(heap, rest, defaults).map(Asked::Answer),
        Command::Member => read_setup(rest).map(Asked::Member),
        Command::Drain => read_drain(rest).map(Asked::Drain),
        Command::Order => read_order(heap, text, defaults).map(Asked::Order),
    }
}
