use board::Ask;
use effects::Kind;

/// What a resolver is called with, at once or when it comes out of a queue.
#[derive(Drop)]
pub enum Call {
    /// To record evidence.
    Updated(Vec<u8>),
    /// To record a verdict.
    Certified {
        success: bool,
        bytes: Vec<u8>,
    },
    /// To record the end of replay.
    Replayed,
    /// To ask for what a proposal names.
    Resolve {
        proposal: u64,
        view: u64,
        kind: Kind,
        target: Option<u32>,
    },
}

/// What a line asks of the member.
#[derive(Drop)]
pub enum Order {
    /// To call the resolver.
    Call(Call),
    /// To offer the queue what the resolver may be called with later.
    Offer(Call),
    /// To judge what a peer delivered.
    Deliver {
        view: u64,
        asks: Vec<Ask>,
        bytes: Vec<u8>,
    },
    /// Whether an ask is settled.
    Settled {
        view: u64,
        kind: Kind,
    },
    /// Which record is served for a view.
    Produce(u64),
    /// Which asks are open.
    Asks,
    /// What is recorded.
    State,
}
