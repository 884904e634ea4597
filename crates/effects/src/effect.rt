ghost use Rattle.std.specs.Prelude.{Some};
ghost use Rattle.effects.specs.Shown.{kind_name, reason_name, effect_text};

use std::fmt;
use views::View;

/// What an ask wants of a view.
#[derive(Clone, Copy, Debug, PartialEq, Eq)]
pub enum Kind {
    Nullification,
    Notarization,
}

/// Why a view is fetched.
#[derive(Clone, Copy, Debug, PartialEq, Eq)]
pub enum FetchReason {
    MissingNullification,
    CertificationFailed,
}

/// A change to the open asks that follows from what was recorded.
#[derive(Clone, Copy, Debug, PartialEq, Eq)]
pub enum Effect {
    /// Ask in the background for a nullification that covers `view`.
    Fetch {
        view: View,
        /// The view whose evidence or verdict led to it.
        cause: View,
        reason: FetchReason,
    },
    /// Asks of `kind` from `start` to `end` are settled.
    Settled {
        kind: Kind,
        start: View,
        end: View,
    },
    /// Every ask at or below this view is settled.
    Finalized(View),
    /// The floor rose to this view: background asks at or below it end.
    Raised(View),
}

impl fmt::Display for Kind {
    ghost output = { λ k. Some (kind_name k) };

    fn fmt<W: fmt::Write>(&self, f: &mut fmt::Formatter<W>) -> fmt::Result {
        match self {
            Kind::Nullification => f.write_str("nullification"),
            Kind::Notarization => f.write_str("notarization"),
        }
    }
}

impl fmt::Display for FetchReason {
    ghost output = { λ r. Some (reason_name r) };

    fn fmt<W: fmt::Write>(&self, f: &mut fmt::Formatter<W>) -> fmt::Result {
        match self {
            FetchReason::MissingNullification => f.write_str("missing_nullification"),
            FetchReason::CertificationFailed => f.write_str("certification_failed"),
        }
    }
}

impl fmt::Display for Effect {
    ghost output = { λ e. Some (effect_text e) };

    fn fmt<W: fmt::Write>(&self, f: &mut fmt::Formatter<W>) -> fmt::Result {
        match self {
            Effect::Fetch {
                view,
                cause,
                reason,
            } => write!(f, "fetch {view} {cause} {reason}"),
            Effect::Settled { kind, start, end } => write!(f, "settled {kind} {start} {end}"),
            Effect::Finalized(view) => write!(f, "finalized {view}"),
            Effect::Raised(view) => write!(f, "raised {view}"),
        }
    }
}
