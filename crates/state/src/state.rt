ghost use Rattle.std.specs.Prelude.{◌≡◌, true};
ghost use Rattle.store.specs.Ready.{length_of, Roomy};
ghost use Rattle.store.specs.Values.{values};
ghost use Rattle.lawful.specs.Lawful.{Lawful};

use store::Store;
use views::Viewable;

/// The state of one member. Every state that exists has what its ghost fields say: no floor lies below the finalized
/// view, no row is kept that finalization has ruled out, and after replay planning has come to each gap.
#[derive(Drop)]
pub struct State<'a, R: Viewable> {
    pub(crate) store: Store<'a, R>,
    /// Whether the host lent enough places. A state over too few refuses every change.
    pub(crate) fit: bool,
    ghost roomy: { fit ≡ true → Roomy store },
    ghost lawful: { Lawful (length_of store) (values store) },
}
