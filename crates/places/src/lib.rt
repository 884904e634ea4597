//! The memory that a program lends to a member.
#![tactic(auto)]

ghost use Rattle.std.specs.Prelude.{◌≡◌, ◌≤◌, true, length};
ghost use Rattle.places.specs.Unused.{unused};
ghost use Rattle.state.specs.States.{enough};

use effects::Effect;
use queue::{Lent, Message, PLACES};
use record::{Certificate, LENGTH, Proof, Round};
use state::{EFFECTS, ROWS};
use store::Memory;
use table::Mark;

/// As much memory as a member needs: rows, a list of effects, and what waits in its queue.
#[derive(Drop)]
pub struct Places {
    finalization: [Certificate; 1],
    nullifications: [Certificate; ROWS],
    pending_notarizations: [Mark; ROWS],
    certified_notarizations: [Certificate; ROWS],
    uncertifiable_notarizations: [Mark; ROWS],
    effects: [Effect; EFFECTS],
    queued_finalization: [Message<[u8; LENGTH]>; 1],
    queued: [Message<[u8; LENGTH]>; PLACES],
}

/// What a member is made over.
#[derive(Drop)]
pub struct Loan<'a> {
    pub memory: Memory<'a, Certificate>,
    pub effects: &'a mut [Effect],
    pub queue: Lent<'a, [u8; LENGTH]>,
}

impl Places {
    /// As many places as a member needs, with the same in each.
    pub fn new() -> Places
        ensures { result ≡ unused }
    {
        let record = Certificate::Nullification {
            round: Round { epoch: 0, view: 0 },
            proof: Proof([0; 32]),
        };
        let mark = Mark { view: 0 };
        Places {
            finalization: [record; 1],
            nullifications: [record; ROWS],
            pending_notarizations: [mark; ROWS],
            certified_notarizations: [record; ROWS],
            uncertifiable_notarizations: [mark; ROWS],
            effects: [Effect::Finalized(0); EFFECTS],
            queued_finalization: [Message::Replayed; 1],
            queued: [Message::Replayed; PLACES],
        }
    }

    /// Lends them all to one member, as they stand.
    pub fn lend(&mut self) -> Loan<'_>
        ensures rows { (result.memory.finalization.now ≡ self.old.finalization) × (result.memory.nullifications.now ≡ self.old.nullifications) × (result.memory.pending_notarizations.now ≡ self.old.pending_notarizations) × (result.memory.certified_notarizations.now ≡ self.old.certified_notarizations) × (result.memory.uncertifiable_notarizations.now ≡ self.old.uncertifiable_notarizations) }
        ensures others { (result.effects.now ≡ self.old.effects) × (result.queue.finalization.now ≡ self.old.queued_finalization) × (result.queue.messages.now ≡ self.old.queued) }
        ensures memory { enough result.memory ≡ true }
        ensures effects { 256 ≤ length result.effects.now }
    {
        let Places {
            finalization,
            nullifications,
            pending_notarizations,
            certified_notarizations,
            uncertifiable_notarizations,
            effects,
            queued_finalization,
            queued,
        } = self;
        let memory = Memory {
            finalization,
            nullifications,
            pending_notarizations,
            certified_notarizations,
            uncertifiable_notarizations,
        };
        let queue = Lent::test(queued_finalization, queued).unwrap();
        Loan {
            memory,
            effects,
            queue,
        }
    }
}
