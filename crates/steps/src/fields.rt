ghost use Rattle.std.specs.Prelude.{◌≡◌, length};
ghost use Rattle.record.specs.Numbers.{number as number_in};
ghost use Rattle.steps.specs.Format.{fields_of, fields_read, record_kind, ask_kind, target_of, ask_set_of, call_in, step_in, step_of};

use crate::{AskSet, Call, Fault, Order, STEP, Step};
use record::Kind;
use views::View;

/// The fields of a step, as they stand.
#[derive(Clone, Copy)]
pub(crate) struct Fields {
    operation: u8,
    kind: u8,
    asks: u8,
    offered: u8,
    seat: u32,
    view: View,
    second: View,
}

/// The number in four bytes, the highest first.
pub(crate) fn short(bytes: &[u8]) -> u32
    requires { length bytes.now ≡ 4 }
    ensures { result ≡ number_in bytes.now }
{
    u32::from_be_bytes(bytes.try_into().unwrap())
}

/// The number in eight bytes, the highest first.
pub(crate) fn number(bytes: &[u8]) -> u64
    requires { length bytes.now ≡ 8 }
    ensures { result ≡ number_in bytes.now }
{
    u64::from_be_bytes(bytes.try_into().unwrap())
}

/// The kind of a record.
fn record_kind(byte: u8) -> Result<Kind, Fault>
    ensures { result ≡ record_kind byte }
{
    match byte {
        1 => Ok(Kind::Notarization),
        2 => Ok(Kind::Nullification),
        3 => Ok(Kind::Finalization),
        _ => Err(Fault::UnknownKind),
    }
}

/// The kind of an ask.
fn ask_kind(byte: u8) -> Result<effects::Kind, Fault>
    ensures { result ≡ ask_kind byte }
{
    match byte {
        0 => Ok(effects::Kind::Nullification),
        1 => Ok(effects::Kind::Notarization),
        _ => Err(Fault::UnknownKind),
    }
}

/// The seat that alone is asked, if there is one.
fn target(seat: u32) -> Option<u32>
    ensures { result ≡ target_of seat }
{
    match seat {
        u32::MAX => None,
        seat => Some(seat),
    }
}

/// The asks whose bits are set.
fn ask_set(bits: u8) -> Result<AskSet, Fault>
    ensures { result ≡ ask_set_of bits }
{
    if bits > 7 {
        return Err(Fault::UnknownAsks);
    }
    Ok(AskSet {
        background: bits & 1 == 1,
        nullification: bits & 2 == 2,
        notarization: bits & 4 == 4,
    })
}

impl Fields {
    /// The fields in a step's bytes.
    #[tactic(auto, unfolding(crate::specs::Format::fields_of))]
    fn read(bytes: &[u8]) -> Result<Fields, Fault>
        ensures { result ≡ fields_read bytes.now }
    {
        let ([operation, kind, asks, offered, ..], STEP) = (bytes, bytes.len()) else {
            return Err(Fault::PartOfAStep);
        };
        Ok(Fields {
            operation: *operation,
            kind: *kind,
            asks: *asks,
            offered: *offered,
            seat: short(&bytes[4..8]),
            view: number(&bytes[8..16]),
            second: number(&bytes[16..24]),
        })
    }

    /// The call that they make.
    #[tactic(auto, unfolding(crate::specs::Format::call_in))]
    fn call(&self) -> Result<Call, Fault>
        ensures { result ≡ call_in self.now }
    {
        let view = self.view;
        match self.operation {
            1 => {
                let kind = record_kind(self.kind)?;
                Ok(Call::Updated { kind, view })
            }
            2 | 3 => {
                let kind = record_kind(self.kind)?;
                Ok(Call::Certified {
                    success: self.operation == 2,
                    kind,
                    view,
                })
            }
            4 => Ok(Call::Replayed),
            5 => {
                let kind = ask_kind(self.kind)?;
                Ok(Call::Resolve {
                    proposal: self.second,
                    view,
                    kind,
                    target: target(self.seat),
                })
            }
            _ => Err(Fault::UnknownOperation),
        }
    }

    /// The step that they make, if it is not offered.
    #[tactic(auto, unfolding(crate::specs::Format::step_in))]
    fn step(&self) -> Result<Step, Fault>
        ensures { result ≡ step_in self.now }
    {
        let view = self.view;
        match self.operation {
            6 => {
                let kind = record_kind(self.kind)?;
                let asks = ask_set(self.asks)?;
                Ok(Step::Order(Order::Deliver {
                    view,
                    kind,
                    at: self.second,
                    asks,
                }))
            }
            7 => {
                let kind = ask_kind(self.kind)?;
                Ok(Step::Order(Order::Settled { view, kind }))
            }
            8 => Ok(Step::Order(Order::Produce(view))),
            9 => Ok(Step::Drain(view)),
            _ => Ok(Step::Order(Order::Call(self.call()?))),
        }
    }
}

impl Step {
    /// The step in its bytes.
    #[tactic(auto, unfolding(crate::specs::Format::step_of))]
    pub fn read(bytes: &[u8]) -> Result<Step, Fault>
        ensures { result ≡ step_of bytes.now }
    {
        let fields = Fields::read(bytes)?;
        match fields.offered {
            0 => fields.step(),
            1 => Ok(Step::Order(Order::Offer(fields.call()?))),
            _ => Err(Fault::UnknownOffer),
        }
    }
}
