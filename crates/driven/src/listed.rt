ghost use Rattle.std.specs.Prelude.{◌≡◌, ◌≤◌, length};
ghost use Rattle.driven.specs.Lists.{row_of, listed_as, reason_number, kind_number};

use effects::{Effect, FetchReason, Kind};
use state::EFFECTS;

/// An effect in numbers.
#[repr(C)]
#[derive(Clone, Copy)]
pub struct Did {
    /// 1 fetch, 2 settled, 3 finalized, 4 raised.
    pub what: u32,
    /// Of a fetch why: 1 a missing nullification, 2 a failed certification. Of what is settled the kind: 1 nullification,
    /// 2 notarization. Else 0.
    pub of: u32,
    /// The view; of what is settled the first one.
    pub view: u64,
    /// Of a fetch the cause, of what is settled the last view, else 0.
    pub other: u64,
}

/// The effects of a call, as many as it counts.
#[repr(C)]
#[derive(Clone, Copy)]
pub struct Listed {
    pub count: u64,
    pub effects: [Did; EFFECTS],
}

/// The number of a kind.
fn kind_number(kind: Kind) -> u32
    ensures { result ≡ kind_number kind }
{
    match kind {
        Kind::Nullification => 1,
        Kind::Notarization => 2,
    }
}

/// The number of a reason.
fn reason_number(reason: FetchReason) -> u32
    ensures { result ≡ reason_number reason }
{
    match reason {
        FetchReason::MissingNullification => 1,
        FetchReason::CertificationFailed => 2,
    }
}

/// The numbers of an effect.
fn row(effect: Effect) -> Did
    ensures { result ≡ row_of effect }
{
    let (what, of, view, other) = match effect {
        Effect::Fetch {
            view,
            cause,
            reason,
        } => (1, reason_number(reason), view, cause),
        Effect::Settled { kind, start, end } => (2, kind_number(kind), start, end),
        Effect::Finalized(view) => (3, 0, view, 0),
        Effect::Raised(view) => (4, 0, view, 0),
    };
    Did {
        what,
        of,
        view,
        other,
    }
}

/// Writes effects into a list. Places past them stay as they were.
pub fn list(effects: &[Effect], listed: &mut Listed)
    ensures { length effects.now ≤ 256 → listed.new ≡ listed_as effects.now listed.old }
{
    if effects.len() > EFFECTS {
        return;
    }
    listed.count = effects.len() as u64;
    for i in 0..effects.len() {
        listed.effects[i] = row(effects[i]);
    }
}
