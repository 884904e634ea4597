ghost use Rattle.std.specs.Prelude.{◌≡◌, Some, MatchResult};
ghost use Rattle.script.specs.declared.answer.Answer.TheVariants.{Refused};
ghost use Rattle.script.specs.Answers.{text_of, term_answer, covers_answer, read_answer};

use record::{Certificate, Header};
use refusals::Refusal;
use std::fmt;
use terms::TermLength;

/// What a command answers.
#[derive(Clone, Copy)]
pub enum Answer {
    /// The numbers of a view's term.
    Term { start: u64, end: u64, next: u64 },
    Yes,
    No,
    /// What a record says.
    Says { header: Header, parent: u64 },
    Refused(Refusal),
}

impl fmt::Display for Answer {
    ghost output = { λ a. Some (text_of a) };

    fn fmt<W: fmt::Write>(&self, f: &mut fmt::Formatter<W>) -> fmt::Result {
        match self {
            Answer::Term { start, end, next } => write!(f, "start {start} end {end} next {next}"),
            Answer::Yes => f.write_str("yes"),
            Answer::No => f.write_str("no"),
            Answer::Says { header, parent } => {
                let Header { kind, epoch, view } = *header;
                write!(f, "{kind} epoch {epoch} view {view} parent {parent}")
            }
            Answer::Refused(refusal) => write!(f, "{refusal}"),
        }
    }
}

/// The start and the end of a view's term, and the start of the next.
fn numbers(length: u32, view: u64) -> Result<Answer, Refusal>
    ensures { MatchResult result (λ a. a ≡ term_answer length view) (λ f. Refused f ≡ term_answer length view) }
{
    let length = TermLength::new(length)?;
    let start = length.term_start(view);
    let end = length.term_end(view)?;
    let next = length.next_term_start(view)?;
    Ok(Answer::Term { start, end, next })
}

/// Answers `term L VIEW`.
pub fn term(length: u32, view: u64) -> Answer
    ensures { result ≡ term_answer length view }
{
    numbers(length, view).unwrap_or_else(Answer::Refused)
}

/// Answers `covers L U V`.
pub fn covers(length: u32, nullified: u64, view: u64) -> Answer
    ensures { result ≡ covers_answer length nullified view }
{
    TermLength::new(length)
        .map(|length| {
            if length.covers(nullified, view) {
                Answer::Yes
            } else {
                Answer::No
            }
        })
        .map_err(Refusal::from)
        .unwrap_or_else(Answer::Refused)
}

/// Answers `read RECORD`, by the record's bytes.
pub fn read(bytes: &[u8]) -> Answer
    ensures { result ≡ read_answer bytes.now }
{
    Certificate::read(bytes)
        .map(|certificate| Answer::Says {
            header: certificate.header(),
            parent: certificate.parent(),
        })
        .map_err(Refusal::from)
        .unwrap_or_else(Answer::Refused)
}
