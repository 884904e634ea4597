ghost use Rattle.std.specs.Prelude.{◌≡◌, ◌+◌, ◌-◌, ◌<◌, ◌≤◌, ◌&&◌, ◌++◌, length, take, drop, min, is_some, is_none, ◌==◌};
ghost use Rattle.slot.specs.Slots.{held};
ghost use Rattle.queue.specs.Queues.{drained};
ghost use Rattle.queue.specs.Pendings.{waiting_of, queue_of};

use crate::{Message, Pending};

/// Exchanges messages for those of a list from its place `from` on, and moves those behind them to the front.
fn give<P>(
    list: &mut [Message<P>],
    from: usize,
    messages: &mut [Message<P>],
    count: usize,
    len: usize,
)
    requires room { from + count ≤ length list.old }
    requires count { count ≤ len }
    requires len { len ≤ length messages.old }
    ensures list { list.new ≡ take from list.old ++ take count messages.old ++ drop (from + count) list.old }
    ensures left { take (len - count) messages.new ≡ drop count (take len messages.old) }
{
    for i in 0..count {
        std::mem::swap(&mut list[from + i], &mut messages[i]);
    }
    messages[..len].rotate_left(count);
}

impl<'a, P: Drop> Pending<'a, P> {
    /// How many messages wait, beside a finalization.
    pub fn waiting(&self) -> usize
        ensures { result ≡ length (waiting_of self.now) }
    {
        self.len
    }

    /// Whether a finalization is held.
    pub fn holds_finalization(&self) -> bool
        ensures { result ≡ is_some (held self.now.finalization) }
    {
        self.finalization.peek().is_some()
    }

    /// Whether nothing waits.
    pub fn is_empty(&self) -> bool
        ensures { result ≡ (is_none (queue_of self.now).finalization && length (queue_of self.now).messages == 0) }
    {
        !self.holds_finalization() && self.len == 0
    }

    /// Gives the first messages to a list from its place `from` on, as many as there is room for.
    fn drain_messages(&mut self, list: &mut [Message<P>], from: usize) -> usize
        requires { from ≤ length list.old }
        ensures count { result ≡ min (length (waiting_of self.old)) (length list.old - from) }
        ensures list { list.new ≡ take from list.old ++ take result (waiting_of self.old) ++ drop (from + result) list.old }
        ensures queue { queue_of self.new ≡ record { finalization = held self.old.finalization; messages = drop result (waiting_of self.old) } }
    {
        let len = self.len;
        let count = len.min(list.len() - from);
        // Until they are moved, none counts.
        self.len = 0;
        give(list, from, self.messages, count, len);
        self.len = len - count;
        count
    }

    /// Gives the held finalization and then the other messages to a list, as many as there is room for, and returns how
    /// many these are.
    #[tactic(auto, unfolding(crate::specs::Queues::drained))]
    pub fn drain(&mut self, list: &mut [Message<P>]) -> usize
        ensures count { result ≡ length (drained (length list.old) (queue_of self.old)).0 }
        ensures list { list.new ≡ (drained (length list.old) (queue_of self.old)).0 ++ drop result list.old }
        ensures queue { queue_of self.new ≡ (drained (length list.old) (queue_of self.old)).1 }
    {
        if list.is_empty() {
            return 0;
        }
        if !self.holds_finalization() {
            return self.drain_messages(list, 0);
        }
        self.finalization.give(&mut list[0]);
        1 + self.drain_messages(list, 1)
    }
}
