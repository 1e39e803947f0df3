// What a derivation shows.
ghost use Rattle.std.specs.Prelude.{◌≤◌};
ghost use Rattle.fitch.specs.Limits.{most_premises};

use fitch::mode::Mode;

pub mod premises;

pub const MOST_PREMISES: usize = 32;

// The places of the premises, of which the first `count` are used and the others are 0, and of the conclusion.
// An array with its length, since nothing here has a heap: `premises` reads it as a slice.
#[derive(Clone, Copy, PartialEq, Debug)]
pub struct Sequent {
    pub mode: Mode,
    pub places: [usize; MOST_PREMISES],
    pub count: usize,
    pub conclusion: usize,
    ghost few: { count ≤ most_premises },
}
