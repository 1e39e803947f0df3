// Makes a chain.
ghost use Rattle.std.specs.Prelude.{◌≡◌, MatchResult};
ghost use Rattle.degrees.specs.Chains.{InRange};
ghost use Rattle.degrees.specs.Refusals.{number_of, place_of};

use crate::chain::Chain;
use grammar::told::Told;
use heyting::limits::MOST_SPAN;

// The number of degrees is not 1 to 65,536.
#[derive(Clone, Copy, PartialEq, Debug)]
pub struct OutOfRange;

impl Chain {
    // A chain of so many degrees.
    pub fn new(degrees: u32) -> Result<Chain, OutOfRange>
        ensures { MatchResult result (λ chain. InRange degrees × (chain.degrees ≡ degrees)) (λ _. InRange degrees → ⊥) }
    {
        if degrees < 1 || degrees > MOST_SPAN {
            return Err(OutOfRange);
        }
        Ok(Chain { degrees })
    }
}

impl Told for OutOfRange {
    ghost number_of = { number_of };

    ghost place_of = { place_of };

    fn number(self) -> u8 {
        19
    }

    fn place(self) -> usize {
        0
    }
}
