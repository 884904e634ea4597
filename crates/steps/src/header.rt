ghost use Rattle.std.specs.Prelude.{◌≡◌, Ok as Fine, Err as Fails, MatchResult};
ghost use Rattle.steps.specs.Format.{header_test, Heads};

use crate::fields::{number, short};
use crate::{Fault, HEADER};
use terms::TermLength;

/// Which board keeps the open asks.
#[derive(Clone, Copy, Debug, PartialEq, Eq)]
pub enum BoardKind {
    Rows,
    List,
}

/// What a stream says of its member and of its passes.
#[derive(Clone, Copy, Debug)]
pub struct Header {
    pub term_length: TermLength,
    pub board: BoardKind,
    pub epoch: u64,
    /// How many views a pass lies behind the one before it.
    pub span: u64,
    pub passes: u64,
}

impl Header {
    /// The header at the front of a stream.
    pub fn read(bytes: &[u8]) -> Result<Header, Fault>
        ensures { MatchResult result (λ h. (header_test bytes.now ≡ Fine tt) × Heads bytes.now h) (λ f. header_test bytes.now ≡ Fails f) }
    {
        if bytes.len() < HEADER {
            return Err(Fault::ShortHeader);
        }
        let Ok(term_length) = TermLength::new(short(&bytes[0..4])) else {
            return Err(Fault::ZeroLength);
        };
        let board = match short(&bytes[4..8]) {
            0 => BoardKind::Rows,
            1 => BoardKind::List,
            _ => return Err(Fault::UnknownBoard),
        };
        Ok(Header {
            term_length,
            board,
            epoch: number(&bytes[8..16]),
            span: number(&bytes[16..24]),
            passes: number(&bytes[24..32]),
        })
    }
}
