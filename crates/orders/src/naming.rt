ghost use Rattle.std.specs.Prelude.{◌≡◌};
ghost use Rattle.orders.specs.Names.{call_name_of, name_of, verdict_of, kind_of};

use effects::Kind;
use words::Problem;

/// The calls that may also wait in a queue.
#[derive(Clone, Copy, Debug)]
pub enum CallName {
    Updated,
    Certified,
    Replayed,
    Resolve,
}

impl TryFrom<&[u8]> for CallName {
    type Error = Problem;

    ghost try_from_gives = { λ w r. r ≡ call_name_of w.now };

    fn try_from(word: &[u8]) -> Result<CallName, Problem> {
        match word {
            b"" => Err(Problem::MissingWord),
            b"updated" => Ok(CallName::Updated),
            b"certified" => Ok(CallName::Certified),
            b"replayed" => Ok(CallName::Replayed),
            b"resolve" => Ok(CallName::Resolve),
            _ => Err(Problem::UnknownCommand),
        }
    }
}

/// The commands that a member is asked by.
#[derive(Clone, Copy, Debug)]
pub enum Name {
    Call(CallName),
    Offer,
    Deliver,
    Settled,
    Produce,
    Asks,
    State,
}

impl TryFrom<&[u8]> for Name {
    type Error = Problem;

    ghost try_from_gives = { λ w r. r ≡ name_of w.now };

    fn try_from(word: &[u8]) -> Result<Name, Problem> {
        if let Ok(name) = CallName::try_from(word) {
            return Ok(Name::Call(name));
        }
        match word {
            b"offer" => Ok(Name::Offer),
            b"deliver" => Ok(Name::Deliver),
            b"settled" => Ok(Name::Settled),
            b"produce" => Ok(Name::Produce),
            b"asks" => Ok(Name::Asks),
            b"state" => Ok(Name::State),
            _ => Err(Problem::UnknownCommand),
        }
    }
}

/// Whether a word says that certification passed.
pub fn verdict(word: &[u8]) -> Result<bool, Problem>
    ensures { result ≡ verdict_of word.now }
{
    match word {
        b"" => Err(Problem::MissingWord),
        b"pass" => Ok(true),
        b"fail" => Ok(false),
        _ => Err(Problem::NotAVerdict),
    }
}

/// What a word says that an ask wants.
pub fn ask_kind(word: &[u8]) -> Result<Kind, Problem>
    ensures { result ≡ kind_of word.now }
{
    match word {
        b"" => Err(Problem::MissingWord),
        b"nullification" => Ok(Kind::Nullification),
        b"notarization" => Ok(Kind::Notarization),
        _ => Err(Problem::NotAnAsk),
    }
}
