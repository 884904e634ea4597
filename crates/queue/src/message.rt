ghost use Rattle.std.specs.Prelude.{◌≡◌};
ghost use Rattle.queue.specs.Messages.{view_of, is_marker, is_finalization, stays_past, repeats, asks_all, widened};

use record::Kind;
use views::View;

/// A message to a resolver. `P` is what a host needs to act on a certificate: the record, or where it keeps it.
#[derive(Clone, Copy, Debug, PartialEq, Eq)]
pub enum Message<P> {
    /// A certificate was received or made.
    Updated {
        kind: Kind,
        view: View,
        payload: P,
    },
    /// Whether a certificate's proposal passed.
    Certified {
        kind: Kind,
        view: View,
        success: bool,
        payload: P,
    },
    /// A proposal needs a certificate at `view`, and `target` is the seat that alone is asked.
    Resolve {
        proposal: View,
        view: View,
        kind: effects::Kind,
        target: Option<u32>,
    },
    /// What was recorded before has all been offered.
    Replayed,
}

impl<P> Message<P> {
    /// Its view. The marker has none, and tells 0.
    pub fn view(&self) -> View
        ensures { result ≡ view_of self.now }
    {
        match self {
            Message::Updated { view, .. } => *view,
            Message::Certified { view, .. } => *view,
            Message::Resolve { view, .. } => *view,
            Message::Replayed => 0,
        }
    }

    /// Whether it is the marker.
    pub fn is_marker(&self) -> bool
        ensures { result ≡ is_marker self.now }
    {
        match self {
            Message::Replayed => true,
            _ => false,
        }
    }

    /// Whether it is evidence of a finalization.
    pub fn is_finalization(&self) -> bool
        ensures { result ≡ is_finalization self.now }
    {
        match self {
            Message::Updated {
                kind: Kind::Finalization,
                ..
            } => true,
            _ => false,
        }
    }

    /// Whether it still waits once this view is finalized.
    pub fn stays_past(&self, view: View) -> bool
        ensures { result ≡ stays_past view self.now }
    {
        self.is_marker() || self.view() > view
    }

    /// Whether it says what another message says, but for a request's target.
    pub fn repeats(&self, other: &Message<P>) -> bool
        ensures { result ≡ repeats self.now other.now }
    {
        match (self, other) {
            (
                Message::Updated { kind, view, .. },
                Message::Updated {
                    kind: other_kind,
                    view: other_view,
                    ..
                },
            ) => kind == other_kind && view == other_view,
            (
                Message::Certified { view, .. },
                Message::Certified {
                    view: other_view,
                    ..
                },
            ) => view == other_view,
            (
                Message::Resolve {
                    proposal,
                    view,
                    kind,
                    ..
                },
                Message::Resolve {
                    proposal: other_proposal,
                    view: other_view,
                    kind: other_kind,
                    ..
                },
            ) => proposal == other_proposal && view == other_view && kind == other_kind,
            _ => false,
        }
    }

    /// Whether it is a request that names no target.
    pub fn asks_all(&self) -> bool
        ensures { result ≡ asks_all self.now }
    {
        match self {
            Message::Resolve { target, .. } => target.is_none(),
            _ => false,
        }
    }

    /// Clears the target.
    pub fn widen(&mut self)
        ensures { self.new ≡ widened self.old }
    {
        match self {
            Message::Resolve { target, .. } => *target = None,
            _ => {}
        }
    }
}
