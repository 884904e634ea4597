ghost use Rattle.std.specs.Prelude.{◌≡◌, Some};
ghost use Rattle.one_member.specs.Texts.{answer_text};

use crate::Member;
use answers::{Answered, Numbers, OpenAsks, Tables, Taking, Written};
use board::Board;
use listings::Listed;
use message_text::Waiting;
use resolver::Delivered;
use std::fmt;

/// A member's answer, as a script shows it.
#[derive(Drop)]
pub struct Shown<'m, 'a, B> {
    member: &'m Member<'a, B>,
    answered: Answered,
}

impl<'a, B> Member<'a, B> {
    /// An answer of this member, to be written out before its next one.
    pub fn shows<'m>(&'m self, answered: Answered) -> Shown<'m, 'a, B>
        ensures member { result.member.now ≡ self.now }
        ensures answered { result.answered ≡ answered }
    {
        Shown {
            member: self,
            answered,
        }
    }
}

impl<B: Board> fmt::Display for Shown<'_, '_, B> {
    ghost output = { λ s. Some (answer_text B.asks s.member.now s.answered) };

    fn fmt<W: fmt::Write>(&self, f: &mut fmt::Formatter<W>) -> fmt::Result {
        let effects = Listed(self.member.effects.as_slice());
        let resolver = &self.member.resolver;
        match self.answered {
            Answered::Done => write!(f, "ok{effects}"),
            Answered::Refused(refusal) => write!(f, "{refusal}"),
            Answered::Asked => f.write_str("asked"),
            Answered::NotNeeded => f.write_str("not needed"),
            Answered::Judged(Delivered { outcome, taken }) => {
                write!(f, "{outcome}{}{effects}", Taking(taken))
            }
            Answered::Yes => f.write_str("yes"),
            Answered::No => f.write_str("no"),
            Answered::Nothing => f.write_str("none"),
            Answered::Served(record) => write!(f, "{}", Written(record)),
            Answered::Open => write!(f, "{}", OpenAsks(&self.member.board)),
            Answered::Told => write!(f, "{}{}", Numbers(resolver), Tables(resolver)),
            Answered::Waiting => write!(f, "{}", Waiting(&self.member.queue)),
        }
    }
}
