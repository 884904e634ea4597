ghost use Rattle.std.specs.Prelude.{◌≡◌, ℕ, ◌≤◌, Bool, not, length, ◌==◌};
ghost use Rattle.std.specs.List.{prefix_len};
ghost use Rattle.words.specs.Classes.{decimal_digit, hex_digit, every};

/// A class of bytes.
pub trait Class {
    /// Whether a byte is in the class.
    ghost member: { Self → ℕ → Bool };

    fn has(&self, byte: u8) -> bool
        ensures { result ≡ member self.now byte };
}

/// One byte alone.
#[derive(Clone, Copy)]
pub struct Only(pub u8);

impl Class for Only {
    ghost member = { λ s b. (b == s.0) };

    fn has(&self, byte: u8) -> bool {
        byte == self.0
    }
}

/// Every byte but one.
#[derive(Clone, Copy)]
pub struct AllBut(pub u8);

impl Class for AllBut {
    ghost member = { λ s b. not (b == s.0) };

    fn has(&self, byte: u8) -> bool {
        byte != self.0
    }
}

/// The decimal digits.
#[derive(Clone, Copy)]
pub struct Decimal;

impl Class for Decimal {
    ghost member = { λ _. decimal_digit };

    fn has(&self, byte: u8) -> bool {
        matches!(byte, b'0'..=b'9')
    }
}

/// The lower-case hex digits.
#[derive(Clone, Copy)]
pub struct Hex;

impl Class for Hex {
    ghost member = { λ _. hex_digit };

    fn has(&self, byte: u8) -> bool {
        matches!(byte, b'0'..=b'9' | b'a'..=b'f')
    }
}

/// How many bytes at the front are in the class.
pub fn run<C: Class>(class: &C, bytes: &[u8]) -> usize
    ensures value { result ≡ prefix_len (C.Class.member class.now) bytes.now }
    ensures bound { result ≤ length bytes.now }
{
    bytes
        .iter()
        .position(|byte| !class.has(*byte))
        .unwrap_or(bytes.len())
}

/// Whether every byte is in the class.
pub fn all<C: Class>(class: &C, bytes: &[u8]) -> bool
    ensures { result ≡ every (C.Class.member class.now) bytes.now }
{
    bytes.iter().all(|byte| class.has(*byte))
}
