ghost use Rattle.std.specs.Prelude.{◌≡◌};
ghost use Rattle.row_board.specs.Rows.{fresh, has, with_ask, kept_target, reached, closed, is_bare};

use board::{Ask, Open, Retire};
use effects::Kind;
use views::View;

/// The open asks of one view.
#[derive(Clone, Copy, Debug, PartialEq, Eq)]
pub struct Row {
    pub(crate) view: View,
    /// Whether the background ask is open.
    pub(crate) background: bool,
    /// The target of the ancestry ask for a nullification, if it is open.
    pub(crate) nullification: Option<Option<u32>>,
    /// The target of the ancestry ask for a notarization, if it is open.
    pub(crate) notarization: Option<Option<u32>>,
}

impl Row {
    /// A view with no open ask.
    pub fn new(view: View) -> Row
        ensures { result ≡ fresh view }
    {
        Row {
            view,
            background: false,
            nullification: None,
            notarization: None,
        }
    }

    /// Whether an ask is open.
    pub(crate) fn has(&self, ask: Ask) -> bool
        ensures { result ≡ has ask self.now }
    {
        match ask {
            Ask::Background => self.background,
            Ask::Ancestry(Kind::Nullification) => self.nullification.is_some(),
            Ask::Ancestry(Kind::Notarization) => self.notarization.is_some(),
        }
    }

    /// Whether none is open.
    pub(crate) fn is_empty(&self) -> bool
        ensures { result ≡ is_bare self.now }
    {
        !self.background && self.nullification.is_none() && self.notarization.is_none()
    }

    /// Opens an ask, in the place of one that is open.
    pub(crate) fn open(&mut self, ask: Ask, target: Option<u32>)
        ensures { self.new ≡ with_ask ask target self.old }
    {
        match ask {
            Ask::Background => self.background = true,
            Ask::Ancestry(Kind::Nullification) => self.nullification = Some(target),
            Ask::Ancestry(Kind::Notarization) => self.notarization = Some(target),
        }
    }

    /// Ends the asks that it says.
    pub(crate) fn close(&mut self, retire: &Retire)
        ensures { self.new ≡ closed retire.now self.old }
    {
        let view = self.view;
        if !reaches(retire, view) {
            return;
        }
        let background = Open::new(view, Ask::Background, None);
        self.background = self.background && !retire.ends(&background);
        self.nullification = kept(retire, view, Kind::Nullification, self.nullification);
        self.notarization = kept(retire, view, Kind::Notarization, self.notarization);
    }
}

/// Whether asks at a view may end: most rows are passed over by this alone.
fn reaches(retire: &Retire, view: View) -> bool
    ensures { result ≡ reached retire.now view }
{
    match *retire {
        Retire::Settled { start, end, .. } => start <= view && view <= end,
        Retire::Finalized(last) | Retire::Raised(last) => view <= last,
    }
}

/// The target of an ancestry ask, if it stays open.
fn kept(retire: &Retire, view: View, kind: Kind, asked: Option<Option<u32>>) -> Option<Option<u32>>
    ensures { result ≡ kept_target retire.now view kind asked }
{
    let target = asked?;
    if retire.ends(&Open::new(view, Ask::Ancestry(kind), target)) {
        None
    } else {
        Some(target)
    }
}
