ghost use Rattle.std.specs.Prelude.{◌≡◌};
ghost use Rattle.message_text.specs.Offers.{filed, message_of, answer_to, offered_by};
ghost use Rattle.orders.specs.Orders.{calling};
ghost use Rattle.queue.specs.Pendings.{queue_of};

use orders::Call;
use queue::{Message, Pending};
use record::{Certificate, Header, LENGTH};
use refusals::Refusal;

/// A record's header, by which a queue goes, and its bytes.
fn file(bytes: &[u8]) -> Result<(Header, [u8; LENGTH]), Refusal>
    ensures { result ≡ filed bytes.now }
{
    let certificate = Certificate::read(bytes)?;
    Ok((certificate.header(), certificate.write()))
}

/// The message that a call is offered as. Its record, where it has one, is read first, and may be of any kind.
fn message(call: &Call) -> Result<Message<[u8; LENGTH]>, Refusal>
    ensures { result ≡ message_of (calling call.now) }
{
    match call {
        Call::Updated(bytes) => {
            let (Header { kind, view, .. }, payload) = file(bytes.as_slice())?;
            Ok(Message::Updated {
                kind,
                view,
                payload,
            })
        }
        Call::Certified { success, bytes } => {
            let (Header { kind, view, .. }, payload) = file(bytes.as_slice())?;
            Ok(Message::Certified {
                kind,
                view,
                success: *success,
                payload,
            })
        }
        Call::Replayed => Ok(Message::Replayed),
        Call::Resolve {
            proposal,
            view,
            kind,
            target,
        } => Ok(Message::Resolve {
            proposal: *proposal,
            view: *view,
            kind: *kind,
            target: *target,
        }),
    }
}

/// Offers a queue what it may be called with later.
pub fn offer(queue: &mut Pending<[u8; LENGTH]>, call: &Call) -> Result<(), Refusal>
    ensures answer { result ≡ answer_to (message_of (calling call.now)) (queue_of queue.old) }
    ensures queue { queue_of queue.new ≡ offered_by (message_of (calling call.now)) (queue_of queue.old) }
{
    queue.handle(message(call)?)?;
    Ok(())
}
