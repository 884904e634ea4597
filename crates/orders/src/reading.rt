ghost use Rattle.std.specs.Prelude.{◌≡◌};
ghost use Rattle.orders.specs.Orders.{calling, meant, updated_of, certified_of, seat_of, resolve_of, plain_of, named_call, offer_of, deliver_of, settled_of, produce_of, order_of};
ghost use Rattle.words.specs.Problems.{Told};

use crate::asking::read_asks;
use crate::naming::{CallName, Name, ask_kind, verdict};
use crate::order::{Call, Order};
use record_text::{Defaults, record};
use std::alloc::Global;
use words::{Problem, after, end, number, short_number, word};

/// Reads `RECORD` as evidence.
#[tactic(auto, unfolding(crate::specs::Orders::updated_of, words::specs::Problems::bind))]
fn updated(heap: Global, text: &[u8], defaults: Defaults) -> Result<Call, Problem>
    ensures { Told result calling (updated_of defaults text.now) }
{
    record(heap, text, defaults).map(Call::Updated)
}

/// Reads `pass|fail RECORD`.
#[tactic(auto, unfolding(crate::specs::Orders::certified_of, words::specs::Problems::bind))]
fn certified(heap: Global, text: &[u8], defaults: Defaults) -> Result<Call, Problem>
    ensures { Told result calling (certified_of defaults text.now) }
{
    let success = verdict(word(text, 0))?;
    let bytes = record(heap, after(text, 1), defaults)?;
    Ok(Call::Certified { success, bytes })
}

/// Reads `[SEAT]`.
#[tactic(auto, unfolding(crate::specs::Orders::seat_of, words::specs::Problems::bind))]
fn seat(text: &[u8]) -> Result<Option<u32>, Problem>
    ensures { result ≡ seat_of text.now }
{
    let word = word(text, 0);
    if word.is_empty() {
        return Ok(None);
    }
    let seat = short_number(word)?;
    end(after(text, 1))?;
    Ok(Some(seat))
}

/// Reads `PROPOSAL VIEW ASKKIND [SEAT]`.
#[tactic(auto, unfolding(crate::specs::Orders::resolve_of, words::specs::Problems::bind))]
fn resolve(text: &[u8]) -> Result<Call, Problem>
    ensures { Told result calling (resolve_of text.now) }
{
    let proposal = number(word(text, 0))?;
    let view = number(word(text, 1))?;
    let kind = ask_kind(word(text, 2))?;
    let target = seat(after(text, 3))?;
    Ok(Call::Resolve {
        proposal,
        view,
        kind,
        target,
    })
}

/// Gives a value where no word is left.
#[tactic(auto, unfolding(crate::specs::Orders::plain_of, words::specs::Problems::bind))]
fn plain<T: Drop>(text: &[u8], value: T) -> Result<T, Problem>
    ensures { result ≡ plain_of value text.now }
{
    end(text)?;
    Ok(value)
}

/// Reads a call, by its name and the words behind that.
#[tactic(auto, unfolding(crate::specs::Orders::plain_of, words::specs::Problems::bind))]
fn read_call(heap: Global, name: CallName, text: &[u8], defaults: Defaults) -> Result<Call, Problem>
    ensures { Told result calling (named_call defaults name text.now) }
{
    match name {
        CallName::Updated => updated(heap, text, defaults),
        CallName::Certified => certified(heap, text, defaults),
        CallName::Replayed => plain(text, Call::Replayed),
        CallName::Resolve => resolve(text),
    }
}

/// Reads what is offered to the queue.
#[tactic(auto, unfolding(crate::specs::Orders::offer_of, words::specs::Problems::bind))]
fn offer(heap: Global, text: &[u8], defaults: Defaults) -> Result<Call, Problem>
    ensures { Told result calling (offer_of defaults text.now) }
{
    let name = CallName::try_from(word(text, 0))?;
    read_call(heap, name, after(text, 1), defaults)
}

/// Reads `VIEW ASKKIND`.
#[tactic(auto, unfolding(crate::specs::Orders::settled_of, words::specs::Problems::bind))]
fn settled(text: &[u8]) -> Result<Order, Problem>
    ensures { Told result meant (settled_of text.now) }
{
    let view = number(word(text, 0))?;
    let kind = ask_kind(word(text, 1))?;
    end(after(text, 2))?;
    Ok(Order::Settled { view, kind })
}

/// Reads `VIEW`.
#[tactic(auto, unfolding(crate::specs::Orders::produce_of, words::specs::Problems::bind))]
fn produce(text: &[u8]) -> Result<Order, Problem>
    ensures { Told result meant (produce_of text.now) }
{
    let view = number(word(text, 0))?;
    end(after(text, 1))?;
    Ok(Order::Produce(view))
}

/// Reads `VIEW ASKS RECORD`.
#[tactic(auto, unfolding(crate::specs::Orders::deliver_of, words::specs::Problems::bind))]
fn deliver(heap: Global, text: &[u8], defaults: Defaults) -> Result<Order, Problem>
    ensures { Told result meant (deliver_of defaults text.now) }
{
    let view = number(word(text, 0))?;
    let asks = read_asks(heap, word(text, 1))?;
    let bytes = record(heap, after(text, 2), defaults)?;
    Ok(Order::Deliver { view, asks, bytes })
}

/// The order that a line's words write.
#[tactic(auto, unfolding(crate::specs::Orders::order_of, crate::specs::Orders::plain_of, words::specs::Problems::bind))]
pub fn read_order(heap: Global, text: &[u8], defaults: Defaults) -> Result<Order, Problem>
    ensures { Told result meant (order_of defaults text.now) }
{
    let rest = after(text, 1);
    match Name::try_from(word(text, 0))? {
        Name::Call(name) => read_call(heap, name, rest, defaults).map(Order::Call),
        Name::Offer => offer(heap, rest, defaults).map(Order::Offer),
        Name::Deliver => deliver(heap, rest, defaults),
        Name::Settled => settled(rest),
        Name::Produce => produce(rest),
        Name::Asks => plain(rest, Order::Asks),
        Name::State => plain(rest, Order::State),
    }
}
