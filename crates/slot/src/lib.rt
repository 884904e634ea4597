//! One place for one value, in memory that a host lends.
#![tactic(auto)]

ghost use Rattle.std.specs.Option.{option_copied};
ghost use Rattle.std.specs.Prelude.{◌≡◌, cond, length, drop, if◌then◌else◌, is_some, Some, None, nat_lt, slice_set};
ghost use Rattle.slot.specs.Slots.{first_of, held, places};

/// A place that holds one value or none. A value in a place that holds none is free.
#[derive(Drop)]
pub struct Slot<'a, T> {
    place: &'a mut [T],
    full: bool,
}

impl<'a, T> Slot<'a, T> {
    /// The empty place.
    pub fn new(place: &'a mut [T]) -> Slot<'a, T>
        ensures empty { held result ≡ None }
        ensures places { places result ≡ length place.old }
        ensures place { result.place.now ≡ place.old }
    {
        Slot { place, full: false }
    }

    /// A place that holds what stands in it, if it is to be full and the host lent one.
    pub fn resume(place: &'a mut [T], full: bool) -> Slot<'a, T>
        ensures held { held result ≡ cond full (first_of place.old) None }
        ensures places { places result ≡ length place.old }
        ensures place { result.place.now ≡ place.old }
    {
        Slot { place, full }
    }

    /// Takes off what it holds.
    pub fn clear(&mut self)
        ensures empty { held self.new ≡ None }
        ensures places { places self.new ≡ places self.old }
    {
        self.full = false;
    }

    /// How many places the host lent.
    pub fn places(&self) -> usize
        ensures { result ≡ places self.now }
    {
        self.place.len()
    }

    /// What it holds, where it stands.
    pub fn peek(&self) -> Option<&T>
        ensures { option_copied result ≡ held self.now }
    {
        if !self.full {
            return None;
        }
        self.place.first()
    }

    /// Exchanges what it holds for a value that is free then; `false`, with no change, where it holds nothing.
    pub fn give(&mut self, to: &mut T) -> bool
        ensures given { result ≡ is_some (held self.old) }
        ensures to { Some to.new ≡ (if result then held self.old else Some to.old) }
        ensures empty { held self.new ≡ None }
        ensures place { self.new.place.now ≡ (if result then slice_set self.old.place.now 0 to.old else self.old.place.now) }
        ensures places { places self.new ≡ places self.old }
    {
        if !self.full || self.place.len() == 0 {
            return false;
        }
        self.full = false;
        std::mem::swap(&mut self.place[0], to);
        true
    }
}

impl<'a, T: Copy> Slot<'a, T> {
    /// What it holds.
    pub fn get(&self) -> Option<T>
        ensures { result ≡ held self.now }
    {
        self.peek().copied()
    }
}

impl<'a, T: Drop> Slot<'a, T> {
    /// Puts a value in the place of what it holds; `false`, with no change, where the host lent no place.
    pub fn put(&mut self, value: T) -> bool
        ensures room { result ≡ nat_lt 0 (places self.old) }
        ensures held { held self.new ≡ (if result then Some value else held self.old) }
        ensures places { places self.new ≡ places self.old }
        ensures rest { drop 1 self.new.place.now ≡ drop 1 self.old.place.now }
    {
        if self.place.len() == 0 {
            return false;
        }
        self.place[0] = value;
        self.full = true;
        true
    }
}
