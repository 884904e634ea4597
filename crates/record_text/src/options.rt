ghost use Rattle.std.specs.Prelude.{◌≡◌};
ghost use Rattle.record_text.specs.Options.{kind_named, option_of, past, options_of};

use record::Kind;
use words::{Problem, after, decimal, end, strip, word};

/// What a record's text may add to its kind and view.
#[derive(Clone, Copy, Debug)]
pub struct Options {
    pub epoch: Option<u64>,
    pub parent: Option<u64>,
    pub seats: Option<u64>,
}

/// The kind that a word names.
pub fn kind_named(word: &[u8]) -> Result<Kind, Problem>
    ensures { result ≡ kind_named word.now }
{
    match word {
        b"" => Err(Problem::MissingWord),
        b"notarization" => Ok(Kind::Notarization),
        b"nullification" => Ok(Kind::Nullification),
        b"finalization" => Ok(Kind::Finalization),
        _ => Err(Problem::NotARecord),
    }
}

/// The number after `name`, if the word begins with it.
#[tactic(auto, unfolding(crate::specs::Options::option_of, words::specs::Problems::bind))]
pub fn option(word: &[u8], name: &str) -> Result<Option<u64>, Problem>
    ensures { result ≡ option_of name.now word.now }
{
    strip(word, name).map(decimal).transpose()
}

/// What follows an option's word, if it was there.
fn past_option<'a>(text: &'a [u8], option: Option<u64>) -> &'a [u8]
    ensures { result.now ≡ past option text.now }
{
    option.map_or(text, |_| after(text, 1))
}

/// The options at the front of a text: in this order, each at most once, and nothing behind them.
#[tactic(auto, unfolding(crate::specs::Options::options_of, words::specs::Problems::bind))]
pub fn read_options(text: &[u8]) -> Result<Options, Problem>
    ensures { result ≡ options_of text.now }
{
    let epoch = option(word(text, 0), "epoch=")?;
    let text = past_option(text, epoch);
    let parent = option(word(text, 0), "parent=")?;
    let text = past_option(text, parent);
    let seats = option(word(text, 0), "seats=")?;
    end(past_option(text, seats))?;
    Ok(Options {
        epoch,
        parent,
        seats,
    })
}
