ghost use Rattle.std.specs.Prelude.{◌≡◌};
ghost use Rattle.embedded.specs.Told.{layer_number, fine, refused};
ghost use Rattle.embedded.specs.Records.{unread};

use refusals::{Layer, Refusal};

/// A number, or why there is none.
#[repr(C)]
#[derive(Clone, Copy, Debug, PartialEq, Eq)]
pub struct Told {
    /// The number of the refusal, or 0.
    pub refusal: u32,
    /// The layer that it arose in, or 0.
    pub layer: u32,
    /// What was asked for, or 0.
    pub value: u64,
}

/// What a record says, or why it is none.
#[repr(C)]
#[derive(Clone, Copy, Debug, PartialEq, Eq)]
pub struct Read {
    /// The number of the refusal, or 0.
    pub refusal: u32,
    /// The layer that it arose in, or 0.
    pub layer: u32,
    /// 1, 2 or 3: notarization, nullification, finalization.
    pub kind: u64,
    pub epoch: u64,
    pub view: u64,
    pub parent: u64,
}

/// The number of a layer.
pub(crate) fn layer_number(layer: Layer) -> u32
    ensures { result ≡ layer_number layer }
{
    match layer {
        Layer::Terms => 1,
        Layer::Record => 2,
        Layer::State => 3,
        Layer::Verifier => 4,
        Layer::Board => 5,
        Layer::Queue => 6,
        Layer::Resolver => 7,
    }
}

impl Told {
    /// A value.
    pub(crate) fn value(value: u64) -> Told
        ensures { result ≡ fine value }
    {
        Told {
            refusal: 0,
            layer: 0,
            value,
        }
    }

    /// A refusal.
    pub(crate) fn refused(refusal: Refusal) -> Told
        ensures { result ≡ refused refusal }
    {
        Told {
            refusal: u32::from(refusal.number),
            layer: layer_number(refusal.layer),
            value: 0,
        }
    }
}

impl Read {
    /// A refusal.
    pub(crate) fn refused(refusal: Refusal) -> Read
        ensures { result ≡ unread refusal }
    {
        Read {
            refusal: u32::from(refusal.number),
            layer: layer_number(refusal.layer),
            kind: 0,
            epoch: 0,
            view: 0,
            parent: 0,
        }
    }
}
