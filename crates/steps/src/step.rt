ghost use Rattle.std.specs.Prelude.{◌≡◌};
ghost use Rattle.steps.specs.Steps.{listed, later, later_call, later_order, later_step};

use board::Ask;
use record::Kind;
use views::View;

/// What a resolver is called with. A record is named by its kind and its view.
#[derive(Clone, Copy, Debug, PartialEq, Eq)]
pub enum Call {
    Updated {
        kind: Kind,
        view: View,
    },
    Certified {
        success: bool,
        kind: Kind,
        view: View,
    },
    Replayed,
    Resolve {
        proposal: View,
        view: View,
        kind: effects::Kind,
        target: Option<u32>,
    },
}

/// The asks that a delivery may settle.
#[derive(Clone, Copy, Debug, PartialEq, Eq)]
pub struct AskSet {
    pub background: bool,
    pub nullification: bool,
    pub notarization: bool,
}

/// What has one answer.
#[derive(Clone, Copy, Debug, PartialEq, Eq)]
pub enum Order {
    Call(Call),
    /// The call is offered to the queue.
    Offer(Call),
    /// A record of this kind and of the view `at` is delivered for a view.
    Deliver {
        view: View,
        kind: Kind,
        at: View,
        asks: AskSet,
    },
    Settled {
        view: View,
        kind: effects::Kind,
    },
    Produce(View),
}

/// One step of a stream.
#[derive(Clone, Copy, Debug, PartialEq, Eq)]
pub enum Step {
    Order(Order),
    /// At most so many messages come out of the queue, and each is called.
    Drain(u64),
}

impl AskSet {
    /// The asks, in their order.
    pub fn as_slice(self) -> &'static [Ask]
        ensures { result.now ≡ listed self }
    {
        const BACKGROUND: Ask = Ask::Background;
        const NULLIFICATION: Ask = Ask::Ancestry(effects::Kind::Nullification);
        const NOTARIZATION: Ask = Ask::Ancestry(effects::Kind::Notarization);
        match (self.background, self.nullification, self.notarization) {
            (false, false, false) => &[],
            (true, false, false) => &[BACKGROUND],
            (false, true, false) => &[NULLIFICATION],
            (true, true, false) => &[BACKGROUND, NULLIFICATION],
            (false, false, true) => &[NOTARIZATION],
            (true, false, true) => &[BACKGROUND, NOTARIZATION],
            (false, true, true) => &[NULLIFICATION, NOTARIZATION],
            (true, true, true) => &[BACKGROUND, NULLIFICATION, NOTARIZATION],
        }
    }
}

impl Call {
    /// The same call, so many views later.
    pub fn later(self, by: u64) -> Call
        ensures { result ≡ later_call by self }
    {
        match self {
            Call::Updated { kind, view } => Call::Updated {
                kind,
                view: view.wrapping_add(by),
            },
            Call::Certified {
                success,
                kind,
                view,
            } => Call::Certified {
                success,
                kind,
                view: view.wrapping_add(by),
            },
            Call::Replayed => Call::Replayed,
            Call::Resolve {
                proposal,
                view,
                kind,
                target,
            } => Call::Resolve {
                proposal: proposal.wrapping_add(by),
                view: view.wrapping_add(by),
                kind,
                target,
            },
        }
    }
}

impl Order {
    /// The same order, so many views later.
    pub fn later(self, by: u64) -> Order
        ensures { result ≡ later_order by self }
    {
        match self {
            Order::Call(call) => Order::Call(call.later(by)),
            Order::Offer(call) => Order::Offer(call.later(by)),
            Order::Deliver {
                view,
                kind,
                at,
                asks,
            } => Order::Deliver {
                view: view.wrapping_add(by),
                kind,
                at: at.wrapping_add(by),
                asks,
            },
            Order::Settled { view, kind } => Order::Settled {
                view: view.wrapping_add(by),
                kind,
            },
            Order::Produce(view) => Order::Produce(view.wrapping_add(by)),
        }
    }
}

impl Step {
    /// The same step, so many views later. A drain has no view.
    pub fn later(self, by: u64) -> Step
        ensures { result ≡ later_step by self }
    {
        match self {
            Step::Order(order) => Step::Order(order.later(by)),
            Step::Drain(count) => Step::Drain(count),
        }
    }
}
