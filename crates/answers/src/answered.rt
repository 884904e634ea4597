ghost use Rattle.std.specs.Prelude.{◌≡◌};
ghost use Rattle.answers.specs.Answered.{done_of, yes_no, asked_of, judged_of};

use record::Certificate;
use refusals::Refusal;
use resolver::{Delivered, Fault};

/// What a member answers to an order.
#[derive(Clone, Copy)]
pub enum Answered {
    /// It was recorded, and the effects stand in the member's list.
    Done,
    Refused(Refusal),
    /// An ask is open for what was requested.
    Asked,
    NotNeeded,
    /// What came of a delivery, and the effects stand in the member's list.
    Judged(Delivered),
    Yes,
    No,
    /// No record is served.
    Nothing,
    /// This record is served.
    Served(Certificate),
    /// What the board has open.
    Open,
    /// What the state says of itself.
    Told,
    /// How much waits in the queue.
    Waiting,
}

/// What a call that records something answers.
impl From<Result<(), Fault>> for Answered {
    ghost from_gives = { λ res a. a ≡ done_of res };

    fn from(res: Result<(), Fault>) -> Answered {
        match res {
            Ok(()) => Answered::Done,
            Err(fault) => Answered::Refused(Refusal::from(fault)),
        }
    }
}

/// What a request answers.
impl From<Result<bool, Fault>> for Answered {
    ghost from_gives = { λ res a. a ≡ asked_of res };

    fn from(res: Result<bool, Fault>) -> Answered {
        match res {
            Ok(true) => Answered::Asked,
            Ok(false) => Answered::NotNeeded,
            Err(fault) => Answered::Refused(Refusal::from(fault)),
        }
    }
}

/// What a delivery answers.
impl From<Result<Delivered, Fault>> for Answered {
    ghost from_gives = { λ res a. a ≡ judged_of res };

    fn from(res: Result<Delivered, Fault>) -> Answered {
        match res {
            Ok(delivered) => Answered::Judged(delivered),
            Err(fault) => Answered::Refused(Refusal::from(fault)),
        }
    }
}

/// What a question of yes or no answers.
impl From<bool> for Answered {
    ghost from_gives = { λ yes a. a ≡ yes_no yes };

    fn from(yes: bool) -> Answered {
        if yes { Answered::Yes } else { Answered::No }
    }
}
