// An open box as it is kept.

// By its first line, and the last line written directly in it.
#[derive(Clone, Copy, PartialEq, Debug)]
pub struct OpenBox {
    pub first: usize,
    pub end: usize,
}
