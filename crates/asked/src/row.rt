ghost use Rattle.std.specs.Prelude.{◌≡◌, IfSome};
ghost use Rattle.asked.specs.Rows.{Fitting, ask_of, open_of, row_of};

use board::{Ask, Open};
use effects::Kind;

/// An open ask in numbers.
#[repr(C)]
#[derive(Clone, Copy)]
pub struct Asked {
    pub view: u64,
    /// 0 background, 1 nullification, 2 notarization.
    pub rank: u32,
    /// Whether one seat alone is asked, 0 or 1.
    pub targeted: u32,
    /// That seat.
    pub target: u32,
}

/// The ask of a rank, if it has one.
fn ask(rank: u32) -> Option<Ask>
    ensures { result ≡ ask_of rank }
{
    match rank {
        0 => Some(Ask::Background),
        1 => Some(Ask::Ancestry(Kind::Nullification)),
        2 => Some(Ask::Ancestry(Kind::Notarization)),
        _ => None,
    }
}

impl Asked {
    /// The open ask that the numbers say, if they do.
    pub fn read(&self) -> Option<Open>
        ensures value { result ≡ open_of self.now }
        ensures fitting { IfSome result Fitting }
    {
        let ask = ask(self.rank)?;
        let target = match self.targeted {
            0 => None,
            1 if self.rank > 0 => Some(self.target),
            _ => return None,
        };
        Some(Open::new(self.view, ask, target))
    }

    /// The numbers of an open ask.
    pub fn of(asked: Open) -> Asked
        ensures { result ≡ row_of asked }
    {
        Asked {
            view: asked.view,
            rank: u32::from(asked.ask.rank()),
            targeted: u32::from(asked.target.is_some()),
            target: asked.target.unwrap_or(0),
        }
    }
}
