ghost use Rattle.std.specs.Prelude.{◌≡◌, ◌<◌, ◌≤◌, [], ◌∷◌, length, MatchOption, ◌==◌, slice_index_or};

use crate::Effect;

/// The effects of a call, one after the other, in a list that the host lends.
#[derive(Drop)]
pub struct Effects<'a> {
    list: &'a mut [Effect],
    len: usize,
    ghost fits: { len ≤ length list.now },
}

impl<'a> Effects<'a> {
    ghost use Rattle.effects.specs.Lists.{entries, places, Added, NothingAdded, AddedBoth, Filled, NothingFilled, FilledBoth, AllFilled, ListedFrom};

    /// The empty list.
    pub fn new(list: &'a mut [Effect]) -> Effects<'a>
        ensures entries { entries result ≡ [] }
        ensures list { result.list.now ≡ list.old }
    {
        Effects { list, len: 0 }
    }

    /// The effects that stand in it, in their order.
    pub fn as_slice(&self) -> &[Effect]
        ensures { result.now ≡ entries self.now }
    {
        &self.list[..self.len]
    }

    /// How many effects stand in it.
    pub fn len(&self) -> usize
        ensures value { result ≡ length (entries self.now) }
        ensures bound { result ≤ places self.now }
    {
        self.as_slice().len()
    }

    /// Whether none stands in it.
    pub fn is_empty(&self) -> bool
        ensures { result ≡ (length (entries self.now) == 0) }
    {
        self.as_slice().is_empty()
    }

    /// How many the host lent room for.
    pub fn places(&self) -> usize
        ensures { result ≡ places self.now }
    {
        self.list.len()
    }

    /// The effect at the place `i`, counted from 0, if there are so many.
    pub fn nth(&self, i: usize) -> Option<Effect>
        ensures { MatchOption result (length (entries self.now) ≤ i) (λ x. (i < length (entries self.now)) × (x ≡ slice_index_or (entries self.now) i x)) }
    {
        self.as_slice().get(i).copied()
    }

    /// Takes all effects off the list.
    pub fn clear(&mut self)
        ensures entries { entries self.new ≡ [] }
        ensures list { self.new.list.now ≡ self.old.list.now }
        ensures listed_from { ListedFrom }
    {
        self.len = 0;
    }

    /// Writes one more effect. A list that is full stays as it is.
    pub fn push(&mut self, effect: Effect)
        ensures added { length (entries self.old) < places self.old → Added (effect ∷ []) self.old self.new }
        ensures filled { Filled (effect ∷ []) self.old self.new }
        ensures full { places self.old ≤ length (entries self.old) → self.new ≡ self.old }
        ensures nothing_added { NothingAdded }
        ensures added_both { AddedBoth }
        ensures nothing_filled { NothingFilled }
        ensures filled_both { FilledBoth }
        ensures all_filled { AllFilled }
    {
        if self.len == self.list.len() {
            return;
        }
        self.list[self.len] = effect;
        self.len += 1;
    }
}
