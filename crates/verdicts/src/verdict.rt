// What weighing a sequent answers.

// The meet of the premises' values, the conclusion's value, and whether the first lies below the second.
#[derive(Clone, Copy, PartialEq, Debug)]
pub struct Verdict {
    pub meet: u32,
    pub conclusion: u32,
    pub holds: bool,
}
