ghost use Rattle.std.specs.Prelude.{◌≡◌, Some};
ghost use Rattle.catching_up.specs.Entries.{bytes_of};
ghost use Rattle.catching_up.specs.Telling.{entry_text};

use record::{Kind, LENGTH};
use record_text::Defaults;
use record_text::options::Options;
use record_text::parts::frame_by;
use std::fmt;
use views::View;

/// One thing that a member records. A record is named by its kind and its view.
#[derive(Clone, Copy, Debug, PartialEq, Eq)]
pub enum Entry {
    Evidence(Kind, View),
    /// Its own software judged the notarization of a view: whether that passes.
    Verdict(View, bool),
    EndOfReplay,
}

/// The bytes of the record of a kind and a view, with the parent and the payload 0.
pub(crate) fn record_bytes(defaults: Defaults, kind: Kind, view: View) -> [u8; LENGTH]
    ensures { result ≡ bytes_of defaults kind view }
{
    let options = Options {
        epoch: None,
        parent: None,
        seats: None,
    };
    frame_by(kind, view, options, defaults)
}

impl fmt::Display for Entry {
    ghost output = { λ e. Some (entry_text e) };

    fn fmt<W: fmt::Write>(&self, f: &mut fmt::Formatter<W>) -> fmt::Result {
        match *self {
            Entry::Evidence(kind, view) => write!(f, "{kind} {view}"),
            Entry::Verdict(view, true) => write!(f, "pass {view}"),
            Entry::Verdict(view, false) => write!(f, "fail {view}"),
            Entry::EndOfReplay => f.write_str("end of replay"),
        }
    }
}
