ghost use Rattle.std.specs.Prelude.{◌≡◌, ◌<◌, true, false, ◌⊎◌, MatchBool, MatchResult};
ghost use Rattle.store.specs.Fresh.{fresh};
ghost use Rattle.store.specs.Ready.{length_of};
ghost use Rattle.terms.specs.Terms.{views as views_of};
ghost use Rattle.terms.specs.declared.fault.Fault.TheVariants.{ZeroLength};
ghost use Rattle.state.specs.Resuming.{Resumable};
ghost use Rattle.state.specs.States.{held, term, epoch_of, fits as suits, enough};
ghost use Rattle.state.specs.declared.fault.Fault.TheVariants.{Terms, TooFewPlaces};

use crate::{Fault, ROWS, State};
use lawful::{is_lawful, is_roomy};
use store::{Memory, Store};
use terms::TermLength;
use views::Viewable;

/// Whether a host lends enough places.
fn suffices<R>(memory: &Memory<R>) -> bool
    ensures { result ≡ enough memory.now }
{
    !memory.finalization.is_empty()
        && memory.nullifications.len() >= ROWS
        && memory.pending_notarizations.len() >= ROWS
        && memory.certified_notarizations.len() >= ROWS
        && memory.uncertifiable_notarizations.len() >= ROWS
}

impl<'a, R: Copy + Viewable> State<'a, R> {
    /// Tests what a state is to be made over: a term length, and the places that the host would lend.
    pub fn fits(term_length: u32, memory: &Memory<R>) -> Result<TermLength, Fault>
        ensures { MatchResult result (λ l. (0 < term_length) × (views_of l ≡ term_length) × (enough memory.now ≡ true)) (λ f. ((term_length ≡ 0) × (f ≡ Terms ZeroLength)) ⊎ ((0 < term_length) × (enough memory.now ≡ false) × (f ≡ TooFewPlaces))) }
    {
        let length = TermLength::new(term_length)?;
        if suffices(memory) {
            Ok(length)
        } else {
            Err(Fault::TooFewPlaces)
        }
    }

    /// A state with nothing recorded, at the start of a replay. Over fewer places than `fits` asks for it refuses
    /// every change.
    pub fn new(term_length: TermLength, epoch: u64, memory: Memory<'a, R>) -> State<'a, R>
        ensures values { held result ≡ fresh }
        ensures fixed { (term result ≡ views_of term_length) × (epoch_of result ≡ epoch) }
        ensures fits { suits result ≡ enough memory.entry }
    {
        let fit = suffices(&memory);
        State {
            store: Store::new(term_length, epoch, memory),
            fit,
        }
    }

    /// A state over a store that holds something, exactly if it has places enough and holds what calls may leave. Else
    /// nothing is recorded, and every change is refused.
    pub fn resume(mut store: Store<'a, R>) -> State<'a, R>
        ensures value { MatchBool (suits result) (Resumable store.entry × (result.store ≡ store.entry)) ((Resumable store.entry → ⊥) × (held result ≡ fresh)) }
        ensures fixed { (term result ≡ length_of store.entry) × (epoch_of result ≡ store.entry.epoch) }
    {
        if is_roomy(&store) && is_lawful(&store) {
            return State { store, fit: true };
        }
        store.clear();
        State { store, fit: false }
    }
}
