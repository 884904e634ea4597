ghost use Rattle.std.specs.Prelude.{Some};
ghost use Rattle.listings.specs.Texts.{effects_text};

use effects::Effect;
use std::fmt;

/// The effects of a call, behind its answer: nothing where there are none.
#[derive(Drop)]
pub struct Listed<'a>(pub &'a [Effect]);

impl fmt::Display for Listed<'_> {
    ghost output = { λ e. Some (effects_text e.0.now) };

    fn fmt<W: fmt::Write>(&self, f: &mut fmt::Formatter<W>) -> fmt::Result {
        let Some((first, rest)) = self.0.split_first() else {
            return Ok(());
        };
        write!(f, " {first}")?;
        for effect in rest {
            write!(f, ", {effect}")?;
        }
        Ok(())
    }
}
