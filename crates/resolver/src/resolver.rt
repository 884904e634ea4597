use state::State;
use views::Viewable;

/// One member's state, as its calls keep a board in step with it. Board and verifier are passed to each call; they are
/// the same ones each time.
#[derive(Drop)]
pub struct Resolver<'a, R: Viewable> {
    pub(crate) state: State<'a, R>,
}
