ghost use Rattle.std.specs.Prelude.{◌≡◌, ◌<◌, ◌≤◌, [], length, take, filter, None, true, Err, Ok, cond, slice_get, slice_set, MatchOption};
ghost use Rattle.slot.specs.Slots.{held};
ghost use Rattle.queue.specs.Messages.{is_finalization, stays_past, widened};
ghost use Rattle.queue.specs.Queues.{is_outdated, finalized, is_full, appended, may_wait, found_at, is_repeated, merged, offered, offer_answer};
ghost use Rattle.queue.specs.Pendings.{waiting_of, queue_of};

use crate::{Fault, Lent, Message, PLACES, Pending};
use slot::Slot;
use views::View;

/// Moves the messages that stay past a view to the front of the first `len`, and returns how many these are.
fn retain<P>(messages: &mut [Message<P>], len: usize, view: View) -> usize
    requires { len ≤ length messages.old }
    ensures kept { take result messages.new ≡ filter (λ m. stays_past view m) (take len messages.old) }
    ensures fewer { result ≤ len }
{
    let mut kept = 0;
    for i in 0..len {
        if messages[i].stays_past(view) {
            messages.swap(kept, i);
            kept += 1;
        }
    }
    kept
}

/// Clears a message's target.
fn widen<P>(messages: &mut [Message<P>], at: usize)
    requires { at < length messages.old }
    ensures { MatchOption (slice_get messages.old at) ⊥ (λ m. messages.new ≡ slice_set messages.old at (widened m)) }
{
    messages[at].widen();
}

impl<'a, P: Drop> Pending<'a, P> {
    /// The empty queue.
    pub fn new(lent: Lent<'a, P>) -> Pending<'a, P>
        ensures { queue_of result ≡ record { finalization = None; messages = [] } }
    {
        let Lent {
            finalization,
            messages,
        } = lent;
        Pending {
            finalization: Slot::new(finalization),
            messages,
            len: 0,
        }
    }

    /// The messages that wait, in the order in which they came.
    fn as_slice(&self) -> &[Message<P>]
        ensures { result.now ≡ waiting_of self.now }
    {
        &self.messages[..self.len]
    }

    /// Whether a view is at or below the held finalization.
    fn is_outdated(&self, view: View) -> bool
        ensures { result ≡ is_outdated view (held self.now.finalization) }
    {
        match self.finalization.peek() {
            Some(finalization) => finalization.view() >= view,
            None => false,
        }
    }

    /// Holds a finalization, and drops what it settles.
    fn finalize(&mut self, message: Message<P>)
        requires { is_finalization message ≡ true }
        ensures { queue_of self.new ≡ finalized message (queue_of self.old) }
    {
        let len = self.len;
        // Until they are moved, none counts.
        self.len = 0;
        self.len = retain(self.messages, len, message.view());
        self.finalization.put(message);
    }

    /// Where a message waits that says the same.
    fn find(&self, message: &Message<P>) -> Option<usize>
        ensures { result ≡ found_at message.now (waiting_of self.now) }
    {
        self.as_slice()
            .iter()
            .position(|waiting| message.repeats(waiting))
    }

    /// Whether a message that waits says the same; a request with no target clears that one's target.
    fn merge(&mut self, message: &Message<P>) -> bool
        ensures found { result ≡ is_repeated message.now (waiting_of self.old) }
        ensures queue { queue_of self.new ≡ record { finalization = held self.old.finalization; messages = merged message.now (waiting_of self.old) } }
    {
        let Some(at) = self.find(message) else {
            return false;
        };
        if message.asks_all() {
            widen(self.messages, at);
        }
        true
    }

    /// Puts a message behind the others.
    fn append(&mut self, message: Message<P>) -> Result<(), Fault>
        requires { may_wait (held self.old.finalization) message ≡ true }
        ensures answer { result ≡ (cond (is_full (queue_of self.old)) (Err Fault.Full) (Ok tt)) }
        ensures queue { queue_of self.new ≡ appended message (queue_of self.old) }
    {
        let len = self.len;
        if len == PLACES {
            return Err(Fault::Full);
        }
        self.messages[len] = message;
        self.len = len + 1;
        Ok(())
    }

    /// Offers a message.
    #[tactic(auto, using(crate::proofs::Offers::offered_steps, crate::proofs::Offers::marker_may_wait, crate::proofs::Offers::newer_may_wait))]
    pub fn handle(&mut self, message: Message<P>) -> Result<(), Fault>
        ensures answer { result ≡ offer_answer message (queue_of self.old) }
        ensures queue { queue_of self.new ≡ offered message (queue_of self.old) }
        ensures refused { result ≡ Err Fault.Full → queue_of self.new ≡ queue_of self.old }
    {
        if message.is_marker() {
            return self.append(message);
        }
        if self.is_outdated(message.view()) {
            return Ok(());
        }
        if message.is_finalization() {
            self.finalize(message);
            return Ok(());
        }
        if self.merge(&message) {
            return Ok(());
        }
        self.append(message)
    }
}
