ghost use Rattle.std.specs.Prelude.{◌≡◌};
ghost use Rattle.orders.specs.Setups.{board_of, setup_of};

use words::{Problem, after, end, number, short_number, word};

/// How a member keeps its open asks.
#[derive(Clone, Copy, Debug, PartialEq, Eq)]
pub enum BoardKind {
    Rows,
    List,
}

/// What a member is made of.
#[derive(Clone, Copy, Debug)]
pub struct Setup {
    /// How many views a term has.
    pub term_length: u32,
    pub epoch: u64,
    /// How many seats there are.
    pub seats: u64,
    /// How many of them a proof needs.
    pub quorum: u64,
    pub board: BoardKind,
}

/// Reads `[rows|list]`.
#[tactic(auto, unfolding(crate::specs::Setups::board_of, words::specs::Problems::bind))]
fn board_kind(text: &[u8]) -> Result<BoardKind, Problem>
    ensures { result ≡ board_of text.now }
{
    let kind = match word(text, 0) {
        b"" => return Ok(BoardKind::Rows),
        b"rows" => BoardKind::Rows,
        b"list" => BoardKind::List,
        _ => return Err(Problem::ExtraWord),
    };
    end(after(text, 1))?;
    Ok(kind)
}

/// The setup that the words `L EPOCH N Q [rows|list]` write.
#[tactic(auto, unfolding(crate::specs::Setups::setup_of, words::specs::Problems::bind))]
pub fn read_setup(text: &[u8]) -> Result<Setup, Problem>
    ensures { result ≡ setup_of text.now }
{
    let term_length = short_number(word(text, 0))?;
    let epoch = number(word(text, 1))?;
    let seats = number(word(text, 2))?;
    let quorum = number(word(text, 3))?;
    let board = board_kind(after(text, 4))?;
    Ok(Setup {
        term_length,
        epoch,
        seats,
        quorum,
        board,
    })
}
