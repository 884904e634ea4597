use views::{View, Viewable};

/// A row for a record that does not tell its view: the record with its view beside it.
#[derive(Clone, Copy, Debug)]
pub struct Held<R> {
    pub view: View,
    pub record: R,
}

impl<R> Viewable for Held<R> {
    ghost viewed = { λ h. h.view };

    fn view(&self) -> View {
        self.view
    }
}
