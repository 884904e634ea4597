ghost use Rattle.std.specs.Prelude.{◌≡◌, ◌≤◌, true, length, take};
ghost use Rattle.std.specs.List.{All};
ghost use Rattle.slot.specs.Slots.{held, places};
ghost use Rattle.queue.specs.Queues.{is_proper, may_wait};

use crate::Message;
use slot::Slot;

/// How many messages may wait, beside a finalization.
pub const PLACES: usize = 64;

/// Messages that wait for a resolver, in memory that a host lends.
#[derive(Drop)]
pub struct Pending<'a, P> {
    pub(crate) finalization: Slot<'a, Message<P>>,
    pub(crate) messages: &'a mut [Message<P>],
    pub(crate) len: usize,
    ghost place: { 1 ≤ places finalization },
    ghost enough: { 64 ≤ length messages.now },
    ghost few: { len ≤ 64 },
    ghost proper: { is_proper (held finalization) ≡ true },
    ghost past: { All (λ m. may_wait (held finalization) m ≡ true) (take len messages.now) },
}
