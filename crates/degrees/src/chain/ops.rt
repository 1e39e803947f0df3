// A chain is an algebra: its members are all numbers below the number of degrees.
ghost use Rattle.degrees.specs.Chains.{chain};
ghost use Rattle.degrees.specs.Laws.{chain_lawful};

use crate::chain::Chain;
use algebras::algebra::Algebra;

impl Algebra for Chain {
    ghost means = { λ c. chain c.degrees };

    ghost lawful = { λ c. chain_lawful c.degrees c.least c.most };

    fn span(&self) -> u32 {
        self.degrees
    }

    fn contains(&self, a: u32) -> bool {
        a < self.span()
    }

    fn bottom(&self) -> u32 {
        0
    }

    fn top(&self) -> u32 {
        self.span() - 1
    }

    fn meet_of(&self, a: u32, b: u32) -> u32 {
        a.min(b)
    }

    fn join_of(&self, a: u32, b: u32) -> u32 {
        a.max(b)
    }

    fn arrow_of(&self, a: u32, b: u32) -> u32 {
        if a <= b { self.top() } else { b }
    }
}
