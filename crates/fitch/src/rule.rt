// The rules.

pub mod kinds;
pub mod name;

pub const MOST_CITATIONS: usize = 3;

#[derive(Clone, Copy, PartialEq, Debug)]
pub enum Rule {
    Reiterate,
    AndIntro,
    AndLeft,
    AndRight,
    OrLeft,
    OrRight,
    OrElim,
    ImpIntro,
    ImpElim,
    ExFalso,
    Reductio,
}

// What a rule cites at one of its places.
#[derive(Clone, Copy, PartialEq, Debug)]
pub enum Kind {
    Line,
    Box,
}

// Why a line stands; citations past those that the rule takes are 0. A record takes no heap, so it has room for the most that a rule cites.
#[derive(Clone, Copy, PartialEq, Debug)]
pub enum Reason {
    Premise,
    Assumption,
    Step(Rule, [usize; MOST_CITATIONS]),
}
