use views::Viewable;

/// A resolver whose calls say what holds after any history of them: the calls are those of `resolver::Resolver`, and the
/// answers and all that they leave are theirs.
#[derive(Drop)]
pub struct Resolver<'a, R: Viewable> {
    pub(crate) calls: resolver::Resolver<'a, R>,
}
