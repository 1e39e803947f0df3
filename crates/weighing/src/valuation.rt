// An element of an algebra for each letter.

// The first is for a, the last for z.
#[derive(Clone, Copy, PartialEq, Debug)]
pub struct Valuation {
    pub letters: [u32; 26],
}
