ghost use Rattle.std.specs.Prelude.{Some};
ghost use Rattle.answers.specs.Texts.{asks_text};
ghost use Rattle.peer_rounds.specs.Texts.{delivery_text, verdict_text, came_text, put_text};

use answers::Taking;
use board::Open;
use record::Certificate;
use refusals::Refusal;
use resolver::{Delivered, Fault};
use std::fmt;

/// What came back for the asks of a view.
#[derive(Clone, Copy)]
pub enum Came {
    Nothing,
    Brought {
        record: Certificate,
        delivered: Result<Delivered, Fault>,
        /// What the pass of a notarization that was taken is answered.
        passed: Option<Result<(), Fault>>,
    },
}

/// The asks that were open at a view and were put to a peer, and what came back.
#[derive(Drop)]
pub struct Put {
    pub asks: Vec<Open>,
    pub came: Came,
}

/// Open asks, a comma and a space between each two.
#[derive(Drop)]
struct Listing<'a>(&'a [Open]);

impl fmt::Display for Listing<'_> {
    ghost output = { λ l. Some (asks_text l.0.now) };

    fn fmt<W: fmt::Write>(&self, f: &mut fmt::Formatter<W>) -> fmt::Result {
        let Some((first, rest)) = self.0.split_first() else {
            return f.write_str("none");
        };
        write!(f, "{first}")?;
        for open in rest {
            write!(f, ", {open}")?;
        }
        Ok(())
    }
}

/// What a delivery is answered.
#[derive(Clone, Copy)]
struct Delivery(Result<Delivered, Fault>);

impl fmt::Display for Delivery {
    ghost output = { λ d. Some (delivery_text d.0) };

    fn fmt<W: fmt::Write>(&self, f: &mut fmt::Formatter<W>) -> fmt::Result {
        match self.0 {
            Ok(Delivered { outcome, taken }) => write!(f, "{outcome}{}", Taking(taken)),
            Err(fault) => write!(f, "{}", Refusal::from(fault)),
        }
    }
}

/// What the verdict on a notarization is answered, if there was one.
#[derive(Clone, Copy)]
struct Verdict(Option<Result<(), Fault>>);

impl fmt::Display for Verdict {
    ghost output = { λ v. Some (verdict_text v.0) };

    fn fmt<W: fmt::Write>(&self, f: &mut fmt::Formatter<W>) -> fmt::Result {
        match self.0 {
            None => Ok(()),
            Some(Ok(())) => f.write_str(", and passes"),
            Some(Err(fault)) => write!(f, ", and its pass is {}", Refusal::from(fault)),
        }
    }
}

impl fmt::Display for Came {
    ghost output = { λ c. Some (came_text c) };

    fn fmt<W: fmt::Write>(&self, f: &mut fmt::Formatter<W>) -> fmt::Result {
        match self {
            Came::Nothing => f.write_str("the peer has nothing"),
            Came::Brought {
                record,
                delivered,
                passed,
            } => {
                let header = record.header();
                let delivery = Delivery(*delivered);
                let verdict = Verdict(*passed);
                write!(
                    f,
                    "{} {} comes back: {delivery}{verdict}",
                    header.kind, header.view
                )
            }
        }
    }
}

impl fmt::Display for Put {
    ghost output = { λ p. Some (put_text p) };

    fn fmt<W: fmt::Write>(&self, f: &mut fmt::Formatter<W>) -> fmt::Result {
        write!(f, "{}: {}", Listing(self.asks.as_slice()), self.came)
    }
}
