ghost use Rattle.std.specs.Prelude.{◌≡◌};
ghost use Rattle.both_ways.specs.Faults.{refusal_of};
ghost use Rattle.both_ways.specs.declared.fault.Fault.TheVariants.{Resolver, Queue};

use refusals::Refusal;

/// Why a run stops: a resolver refuses a call, or a queue refuses a message.
#[derive(Clone, Copy, Debug, PartialEq, Eq)]
pub enum Fault {
    Resolver(resolver::Fault),
    Queue(queue::Fault),
}

impl From<resolver::Fault> for Fault {
    ghost from_gives = { λ e r. r ≡ Resolver e };

    fn from(fault: resolver::Fault) -> Fault {
        Fault::Resolver(fault)
    }
}

impl From<queue::Fault> for Fault {
    ghost from_gives = { λ e r. r ≡ Queue e };

    fn from(fault: queue::Fault) -> Fault {
        Fault::Queue(fault)
    }
}

/// The number and the layer that a host is told.
impl From<Fault> for Refusal {
    ghost from_gives = { λ fault r. r ≡ refusal_of fault };

    fn from(fault: Fault) -> Refusal {
        match fault {
            Fault::Resolver(fault) => Refusal::from(fault),
            Fault::Queue(fault) => Refusal::from(fault),
        }
    }
}
