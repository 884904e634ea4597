ghost use Rattle.std.specs.Prelude.{vec_items};
ghost use Rattle.record_text.specs.Parts.{hex_record, record_of};
ghost use Rattle.words.specs.Problems.{Told};

use crate::parts::{Defaults, parts};
use std::alloc::Global;
use words::{Problem, after, end, hex, is, word};

/// The bytes of a record that a text writes in hex.
#[tactic(auto, unfolding(crate::specs::Parts::hex_record, words::specs::Problems::bind))]
fn hex_record(heap: Global, text: &[u8]) -> Result<Vec<u8>, Problem>
    ensures { Told result vec_items (hex_record text.now) }
{
    let bytes = hex(heap, word(text, 0))?;
    end(after(text, 1))?;
    Ok(bytes)
}

/// The bytes of the record that a text writes. They need not be those of a record that can be read.
#[tactic(auto, unfolding(crate::specs::Parts::record_of))]
pub fn record(heap: Global, text: &[u8], defaults: Defaults) -> Result<Vec<u8>, Problem>
    ensures { Told result vec_items (record_of defaults text.now) }
{
    if is(word(text, 0), "bytes") {
        return hex_record(heap, after(text, 1));
    }
    let bytes = parts(text, defaults)?;
    Ok(Vec::from_slice(heap, &bytes)?)
}
