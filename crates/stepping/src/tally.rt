ghost use Rattle.std.specs.Prelude.{◌≡◌, Some};
ghost use Rattle.stepping.specs.Tallies.{added, line_text};

use std::fmt;
use views::View;

/// What came of an order.
#[derive(Clone, Copy, Debug, PartialEq, Eq)]
pub enum Answer {
    Refused,
    /// Nothing came of it: a needless request, a record not taken, an ask not settled, none served.
    Nothing,
    /// It did what it was to do, which leaves no effects.
    Done,
    /// It was recorded, and so many effects came of it.
    Recorded(usize),
    /// A record of this view is served.
    Served(View),
}

/// The counts of answers. They may wrap.
#[derive(Clone, Copy, Debug, Default, PartialEq, Eq)]
pub struct Tally {
    pub calls: u64,
    pub done: u64,
    pub refused: u64,
    /// The sum of the lengths of all lists of effects.
    pub effects: u64,
    /// The sum of the views of all records that were served.
    pub served: u64,
}

impl Tally {
    /// Counts one more answer.
    pub fn add(&mut self, answer: Answer)
        ensures { self.new ≡ added answer self.old }
    {
        self.calls = self.calls.wrapping_add(1);
        match answer {
            Answer::Nothing => return,
            Answer::Refused => {
                self.refused = self.refused.wrapping_add(1);
                return;
            }
            Answer::Done => {}
            Answer::Recorded(effects) => {
                self.effects = self.effects.wrapping_add(effects as u64);
            }
            Answer::Served(view) => self.served = self.served.wrapping_add(view),
        }
        self.done = self.done.wrapping_add(1);
    }
}

/// What a run of a stream ends with.
#[derive(Clone, Copy, Debug, PartialEq, Eq)]
pub struct Line {
    pub tally: Tally,
    /// How many asks are open.
    pub open_asks: usize,
}

impl fmt::Display for Line {
    ghost output = { λ l. Some (line_text l) };

    fn fmt<W: fmt::Write>(&self, f: &mut fmt::Formatter<W>) -> fmt::Result {
        let Tally {
            calls,
            done,
            refused,
            effects,
            served,
        } = self.tally;
        write!(
            f,
            "calls {calls} done {done} refused {refused} effects {effects} served {served} open {}",
            self.open_asks
        )
    }
}
