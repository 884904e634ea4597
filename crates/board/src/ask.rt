ghost use Rattle.std.specs.Prelude.{◌≡◌};
ghost use Rattle.board.specs.Asks.{rank, kind_of, until_of, is_background};

use effects::Kind;

/// What an ask wants of a view, and what ends it.
#[derive(Clone, Copy, Debug, PartialEq, Eq)]
pub enum Ask {
    /// A nullification, for the repair of a gap or of a failed view.
    Background,
    /// What a proposal named.
    Ancestry(Kind),
}

/// When an ask ends that nothing has settled.
#[derive(Clone, Copy, Debug, PartialEq, Eq)]
pub enum Until {
    /// The floor reaches its view.
    Floor,
    /// Its view is finalized.
    Finalization,
}

impl Ask {
    /// What settles it.
    pub fn kind(self) -> Kind
        ensures { result ≡ kind_of self }
    {
        match self {
            Ask::Background => Kind::Nullification,
            Ask::Ancestry(kind) => kind,
        }
    }

    /// What ends it otherwise.
    pub fn until(self) -> Until
        ensures { result ≡ until_of self }
    {
        match self {
            Ask::Background => Until::Floor,
            Ask::Ancestry(_) => Until::Finalization,
        }
    }

    /// Whether it is for background repair.
    pub fn is_background(self) -> bool
        ensures { result ≡ is_background self }
    {
        self == Ask::Background
    }

    /// Its place among the asks of one view.
    pub fn rank(self) -> u8
        ensures { result ≡ rank self }
    {
        match self {
            Ask::Background => 0,
            Ask::Ancestry(Kind::Nullification) => 1,
            Ask::Ancestry(Kind::Notarization) => 2,
        }
    }
}
