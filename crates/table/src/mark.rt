use views::{View, Viewable};

/// A row without a value: a view that is marked.
#[repr(C)]
#[derive(Clone, Copy, Debug, PartialEq, Eq)]
pub struct Mark {
    pub view: View,
}

impl Viewable for Mark {
    ghost viewed = { λ m. m.view };

    fn view(&self) -> View {
        self.view
    }
}
