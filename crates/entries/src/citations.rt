// The citations of a step.

mod list;

// One to three, as a file writes them.
#[derive(Clone, Copy, PartialEq, Debug)]
pub enum Citations {
    One([usize; 1]),
    Two([usize; 2]),
    Three([usize; 3]),
}
