//! What a refusal tells a host: a number and the layer that it arose in.
#![tactic(auto)]

ghost use Rattle.std.specs.Prelude.{Some};
ghost use Rattle.refusals.specs.Shown.{layer_name, refusal_text};

use std::fmt;

/// The layers that refuse.
#[derive(Clone, Copy, Debug, PartialEq, Eq)]
pub enum Layer {
    Terms,
    Record,
    State,
    Verifier,
    Board,
    Queue,
    Resolver,
}

/// A refusal: its number, and the layer that it arose in.
#[derive(Clone, Copy, Debug, PartialEq, Eq)]
pub struct Refusal {
    pub number: u8,
    pub layer: Layer,
}

impl fmt::Display for Layer {
    ghost output = { λ l. Some (layer_name l) };

    fn fmt<W: fmt::Write>(&self, f: &mut fmt::Formatter<W>) -> fmt::Result {
        match self {
            Layer::Terms => f.write_str("terms"),
            Layer::Record => f.write_str("record"),
            Layer::State => f.write_str("state"),
            Layer::Verifier => f.write_str("verifier"),
            Layer::Board => f.write_str("board"),
            Layer::Queue => f.write_str("queue"),
            Layer::Resolver => f.write_str("resolver"),
        }
    }
}

impl fmt::Display for Refusal {
    ghost output = { λ r. Some (refusal_text r) };

    fn fmt<W: fmt::Write>(&self, f: &mut fmt::Formatter<W>) -> fmt::Result {
        let number = self.number;
        let layer = self.layer;
        write!(f, "refused {number} {layer}")
    }
}
