ghost use Rattle.std.specs.Prelude.{◌≡◌};
ghost use Rattle.peer_rounds.specs.Tallies.{brings, settles, tally_of, with_all};

use crate::{Came, Put};
use resolver::{Delivered, Outcome};

/// How many asks were put, how many records came back, and how many of these settled an ask. They may wrap.
#[derive(Clone, Copy, Debug, Default, PartialEq, Eq)]
pub struct Tally {
    pub asks: u64,
    pub records: u64,
    pub settling: u64,
}

impl Came {
    /// Whether a record came back.
    pub fn is_record(&self) -> bool
        ensures { result ≡ brings self.now }
    {
        matches!(self, Came::Brought { .. })
    }

    /// Whether a record came back that settled an ask.
    pub fn settles(&self) -> bool
        ensures { result ≡ settles self.now }
    {
        matches!(
            self,
            Came::Brought {
                delivered: Ok(Delivered {
                    outcome: Outcome::Complete | Outcome::Partial,
                    ..
                }),
                ..
            }
        )
    }
}

impl Put {
    /// What it counts for.
    pub fn tally(&self) -> Tally
        ensures { result ≡ tally_of self.now }
    {
        Tally {
            asks: self.asks.len() as u64,
            records: u64::from(self.came.is_record()),
            settling: u64::from(self.came.settles()),
        }
    }
}

impl Tally {
    /// Both together.
    pub fn with(self, other: Tally) -> Tally
        ensures { result ≡ with_all self other }
    {
        Tally {
            asks: self.asks.wrapping_add(other.asks),
            records: self.records.wrapping_add(other.records),
            settling: self.settling.wrapping_add(other.settling),
        }
    }
}
