ghost use Rattle.std.specs.Prelude.{◌≡◌};
ghost use Rattle.state.specs.Serving.{served};
ghost use Rattle.state.specs.Settled.{settled};
ghost use Rattle.state.specs.States.{held, term, epoch_of};
ghost use Rattle.stepping.specs.Carried.{Called, Offered, Brought, Carried, recorded_of, asked_of, brought_of, done_if, found_of};
ghost use Rattle.steps.specs.Records.{message_of};

use crate::{Answer, Member};
use board::{Ask, Board};
use effects::Kind as AskKind;
use queue::Message;
use record::{Certificate, LENGTH, Proof, Round};
use resolver::{Delivered, Fault};
use steps::{Call, Order, message, record_bytes};
use views::View;

/// What a call that records something answers, where so many effects came of it.
fn recorded(outcome: Result<(), Fault>, effects: usize) -> Answer
    ensures { result ≡ recorded_of outcome effects }
{
    match outcome {
        Ok(()) => Answer::Recorded(effects),
        Err(_) => Answer::Refused,
    }
}

/// What a question of yes or no answers.
fn done_if(yes: bool) -> Answer
    ensures { result ≡ done_if yes }
{
    if yes { Answer::Done } else { Answer::Nothing }
}

/// What a request answers.
fn asked(outcome: Result<bool, Fault>) -> Answer
    ensures { result ≡ asked_of outcome }
{
    match outcome {
        Ok(asked) => done_if(asked),
        Err(_) => Answer::Refused,
    }
}

/// What a delivery answers, where so many effects came of it.
fn brought(outcome: Result<Delivered, Fault>, effects: usize) -> Answer
    ensures { result ≡ brought_of outcome effects }
{
    match outcome {
        Ok(Delivered { taken: true, .. }) => Answer::Recorded(effects),
        Ok(Delivered { taken: false, .. }) => Answer::Nothing,
        Err(_) => Answer::Refused,
    }
}

impl<'a, B> Member<'a, B> {
    /// The epoch of the records that steps name.
    fn epoch(&self) -> u64
        ensures { result ≡ epoch_of self.now.resolver.calls.state }
    {
        self.resolver.state().epoch()
    }

    /// Asks whether an ask is settled.
    fn settled(&self, view: View, kind: AskKind) -> Answer
        ensures { result ≡ done_if (settled (term self.now.resolver.calls.state) kind view (held self.now.resolver.calls.state)) }
    {
        done_if(self.resolver.settled(view, kind))
    }

    /// Asks which record is served for a view.
    fn produce(&self, view: View) -> Answer
        ensures { result ≡ found_of (served (term self.now.resolver.calls.state) view (held self.now.resolver.calls.state)) }
    {
        let mut place = Certificate::Nullification {
            round: Round { epoch: 0, view: 0 },
            proof: Proof([0; 32]),
        };
        if self.resolver.produce(view, &mut place) {
            Answer::Served(place.header().view)
        } else {
            Answer::Nothing
        }
    }
}

impl<'a, B: Board> Member<'a, B> {
    /// Calls the resolver with what a message asks for.
    pub(crate) fn call(&mut self, message: &Message<[u8; LENGTH]>) -> Answer
        ensures { Called B.asks result self.old self.new message.now }
    {
        let outcome = match message {
            Message::Updated { payload, .. } => {
                self.resolver
                    .updated(&mut self.board, payload, &mut self.effects)
            }
            Message::Certified {
                success,
                payload,
                ..
            } => {
                self.resolver
                    .certified(&mut self.board, payload, *success, &mut self.effects)
            }
            Message::Replayed => self.resolver.replayed(&mut self.board, &mut self.effects),
            Message::Resolve {
                proposal,
                view,
                kind,
                target,
            } => {
                return asked(
                    self.resolver
                        .resolve(&mut self.board, *proposal, *view, *kind, *target),
                );
            }
        };
        recorded(outcome, self.effects.len())
    }

    /// Offers the queue what the resolver may be called with later.
    fn offer(&mut self, call: &Call) -> Answer
        ensures { Offered B.asks result self.old self.new (message_of (epoch_of self.old.resolver.calls.state) call.now) }
    {
        let message = message(self.epoch(), call);
        match self.queue.handle(message) {
            Ok(()) => Answer::Done,
            Err(_) => Answer::Refused,
        }
    }

    /// Delivers a record for a view and these asks.
    fn deliver(&mut self, view: View, bytes: &[u8], asks: &[Ask]) -> Answer
        ensures { Brought B.asks result self.old self.new view asks.now bytes.now }
    {
        let outcome = self.resolver.deliver(
            &mut self.board,
            &self.verifier,
            view,
            bytes,
            asks,
            &mut self.effects,
        );
        brought(outcome, self.effects.len())
    }

    /// Carries an order out.
    pub fn carry_out(&mut self, order: &Order) -> Answer
        ensures { Carried B.asks result self.old self.new order.now }
    {
        match order {
            Order::Call(call) => {
                let message = message(self.epoch(), call);
                self.call(&message)
            }
            Order::Offer(call) => self.offer(call),
            Order::Deliver {
                view,
                kind,
                at,
                asks,
            } => {
                let bytes = record_bytes(self.epoch(), *kind, *at);
                self.deliver(*view, &bytes, asks.as_slice())
            }
            Order::Settled { view, kind } => self.settled(*view, *kind),
            Order::Produce(view) => self.produce(*view),
        }
    }
}
