use queue::{Lent, Message, Pending};
use record::Kind;
use std::test::Fail;

/// A host that stores certificates itself queues the numbers of their places.
#[test]
fn places(rt: HostRuntime) -> Result<(), Fail> {
    let stored = [4_u64, 6, 5];
    let (mut held, mut others) = ([Message::Replayed; 1], [Message::Replayed; 64]);
    let mut queue = Pending::new(Lent::test(&mut held, &mut others)?);
    for place in 0..stored.len() {
        let kind = if place == 1 {
            Kind::Finalization
        } else {
            Kind::Notarization
        };
        let view = stored[place];
        queue.handle(Message::Updated {
            kind,
            view,
            payload: place,
        })?;
    }
    let mut list = [Message::Replayed; 2];
    assert_eq!(&rt; queue.drain(&mut list), 1);
    let last = Message::Updated {
        kind: Kind::Finalization,
        view: 6,
        payload: 1,
    };
    assert_eq!(&rt; list, [last, Message::Replayed]);
    assert!(&rt; queue.is_empty());
    Ok(())
}
