// A position in a text that the caller lends.
#[derive(Clone, Copy)]
pub struct Cursor {
    pub at: usize,
}
