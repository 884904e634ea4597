ghost use Rattle.std.specs.Prelude.{◌≡◌, ℕ, ◌≤◌, Bool, true, nat_le, nat_lt};
ghost use Rattle.std.proofs.Common.{rules};

use views::View;

/// Which views are kept where lower ones retire.
pub trait Order {
    /// Whether a view is kept.
    ghost keeping: { Self → ℕ → Bool };

    fn keeps(&self, view: View) -> bool
        ensures { result ≡ keeping self.now view };

    /// What is kept at a view is kept above it.
    ghost rising: { (s : Self) (u v : ℕ) → u ≤ v → keeping s u ≡ true → keeping s v ≡ true };
}

/// Keeps the views above a bound.
#[derive(Clone, Copy, Debug)]
pub struct Past(pub View);

impl Order for Past {
    ghost keeping = { λ s v. nat_lt s.0 v };

    ghost rising = { Prim.search rules };

    fn keeps(&self, view: View) -> bool {
        self.0 < view
    }
}

/// Keeps a view and those above it.
#[derive(Clone, Copy, Debug)]
pub struct From(pub View);

impl Order for From {
    ghost keeping = { λ s v. nat_le s.0 v };

    ghost rising = { Prim.search rules };

    fn keeps(&self, view: View) -> bool {
        self.0 <= view
    }
}
