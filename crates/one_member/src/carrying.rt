ghost use Rattle.std.specs.Prelude.{◌≡◌};
ghost use Rattle.answers.specs.Answered.{found_of};
ghost use Rattle.message_text.specs.Offers.{call_of};
ghost use Rattle.one_member.specs.Carried.{Called, Offered, Carried};
ghost use Rattle.orders.specs.Orders.{update, judge, end, wish, calling, meant};
ghost use Rattle.state.specs.Serving.{served};
ghost use Rattle.state.specs.States.{held, term};

use crate::Member;
use answers::Answered;
use board::Board;
use effects::Kind;
use message_text::offer;
use orders::{Call, Order};
use queue::Message;
use record::{Certificate, LENGTH, Proof, Round};
use views::View;

impl<'a, B> Member<'a, B> {
    /// Asks which record is served for a view.
    fn produce(&self, view: View) -> Answered
        ensures { result ≡ found_of (served (term self.now.resolver.calls.state) view (held self.now.resolver.calls.state)) }
    {
        let mut place = Certificate::Nullification {
            round: Round { epoch: 0, view: 0 },
            proof: Proof([0; 32]),
        };
        if self.resolver.produce(view, &mut place) {
            Answered::Served(place)
        } else {
            Answered::Nothing
        }
    }
}

impl<'a, B: Board> Member<'a, B> {
    /// Calls the resolver with evidence.
    fn updated(&mut self, bytes: &[u8]) -> Answered
        ensures { Called B.asks result self.old self.new (update bytes.now) }
    {
        Answered::from(
            self.resolver
                .updated(&mut self.board, bytes, &mut self.effects),
        )
    }

    /// Calls the resolver with a verdict.
    fn certified(&mut self, success: bool, bytes: &[u8]) -> Answered
        ensures { Called B.asks result self.old self.new (judge success bytes.now) }
    {
        Answered::from(
            self.resolver
                .certified(&mut self.board, bytes, success, &mut self.effects),
        )
    }

    /// Calls the resolver at the end of replay.
    fn replayed(&mut self) -> Answered
        ensures { Called B.asks result self.old self.new end }
    {
        Answered::from(self.resolver.replayed(&mut self.board, &mut self.effects))
    }

    /// Calls the resolver with a request.
    fn resolve(&mut self, proposal: View, view: View, kind: Kind, target: Option<u32>) -> Answered
        ensures { Called B.asks result self.old self.new (wish proposal view kind target) }
    {
        Answered::from(
            self.resolver
                .resolve(&mut self.board, proposal, view, kind, target),
        )
    }

    /// Calls the resolver as an order says.
    fn call(&mut self, call: &Call) -> Answered
        ensures { Called B.asks result self.old self.new (calling call.now) }
    {
        match call {
            Call::Updated(bytes) => self.updated(bytes.as_slice()),
            Call::Certified { success, bytes } => self.certified(*success, bytes.as_slice()),
            Call::Replayed => self.replayed(),
            Call::Resolve {
                proposal,
                view,
                kind,
                target,
            } => self.resolve(*proposal, *view, *kind, *target),
        }
    }

    /// Calls the resolver with a message that came out of the queue.
    pub(crate) fn call_with(&mut self, message: &Message<[u8; LENGTH]>) -> Answered
        ensures { Called B.asks result self.old self.new (call_of message.now) }
    {
        match message {
            Message::Updated { payload, .. } => self.updated(payload),
            Message::Certified {
                success,
                payload,
                ..
            } => self.certified(*success, payload),
            Message::Replayed => self.replayed(),
            Message::Resolve {
                proposal,
                view,
                kind,
                target,
            } => self.resolve(*proposal, *view, *kind, *target),
        }
    }

    /// Offers the queue what the resolver may be called with later.
    fn offer(&mut self, call: &Call) -> Answered
        ensures { Offered B.asks result self.old self.new (calling call.now) }
    {
        match offer(&mut self.queue, call) {
            Ok(()) => Answered::Waiting,
            Err(refusal) => Answered::Refused(refusal),
        }
    }

    /// Carries an order out.
    pub fn carry_out(&mut self, order: &Order) -> Answered
        ensures { Carried B.asks result self.old self.new (meant order.now) }
    {
        match order {
            Order::Call(call) => self.call(call),
            Order::Offer(call) => self.offer(call),
            Order::Deliver { view, asks, bytes } => Answered::from(
                self.resolver.deliver(
                    &mut self.board,
                    &self.verifier,
                    *view,
                    bytes.as_slice(),
                    asks.as_slice(),
                    &mut self.effects,
                ),
            ),
            Order::Settled { view, kind } => Answered::from(self.resolver.settled(*view, *kind)),
            Order::Produce(view) => self.produce(*view),
            Order::Asks => Answered::Open,
            Order::State => Answered::Told,
        }
    }
}
