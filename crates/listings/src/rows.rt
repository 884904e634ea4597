ghost use Rattle.std.specs.Prelude.{Some};
ghost use Rattle.listings.specs.Texts.{views_text};

use std::fmt;
use views::Viewable;

/// The views of a table's rows, or a hyphen where there are none.
#[derive(Drop)]
pub struct Rows<'a, X>(pub &'a [X]);

impl<X: Viewable> fmt::Display for Rows<'_, X> {
    ghost output = { λ r. Some (views_text X.Viewable.viewed r.0.now) };

    fn fmt<W: fmt::Write>(&self, f: &mut fmt::Formatter<W>) -> fmt::Result {
        let Some((first, rest)) = self.0.split_first() else {
            return f.write_str("-");
        };
        write!(f, "{}", first.view())?;
        for row in rest {
            write!(f, ",{}", row.view())?;
        }
        Ok(())
    }
}
