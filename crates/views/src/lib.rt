//! A view, and what tells one.
#![tactic(auto)]

ghost use Rattle.std.specs.Prelude.{◌≡◌, ℕ};

/// A view: the number of a step of the register's agreement.
pub type View = u64;

/// What belongs to a view.
pub trait Viewable {
    /// The view that it belongs to.
    ghost viewed: { Self → ℕ };

    fn view(&self) -> View
        ensures { result ≡ viewed self.now };
}
