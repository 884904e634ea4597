ghost use Rattle.std.specs.Prelude.{◌≡◌, Bool};

/// What says which records of a type are accepted: a fixed set of them.
pub trait Verifier<R> {
    /// Whether the set has a record.
    ghost accepted: { Self → R → Bool };

    fn accepts(&self, offered: &R) -> bool
        ensures { result ≡ accepted self.now offered.now };
}
