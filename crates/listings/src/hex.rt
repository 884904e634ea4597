ghost use Rattle.std.specs.Prelude.{Some};
ghost use Rattle.listings.specs.Texts.{hex_text};

use std::fmt;

/// Bytes, as two lower-case hex digits each.
#[derive(Drop)]
pub struct Hex<'a>(pub &'a [u8]);

impl fmt::Display for Hex<'_> {
    ghost output = { λ h. Some (hex_text h.0.now) };

    fn fmt<W: fmt::Write>(&self, f: &mut fmt::Formatter<W>) -> fmt::Result {
        for &byte in self.0 {
            write!(f, "{byte:02x}")?;
        }
        Ok(())
    }
}
