// What a rule takes, and in which modes.
ghost use Rattle.std.specs.Prelude.{◌≡◌, ◌<◌, ◌≤◌, length, Decides, MatchOption, slice_index_or};
ghost use Rattle.fitch.specs.Rules.{kinds as kinds_of, Serves};

use crate::mode::Mode;
use crate::rule::{Kind, Rule};

impl Rule {
    // What the rule cites, in its order.
    pub fn kinds(self) -> &'static [Kind]
        ensures { result.now ≡ kinds_of self }
    {
        match self {
            Rule::AndIntro | Rule::ImpElim => &[Kind::Line, Kind::Line],
            Rule::OrElim => &[Kind::Line, Kind::Box, Kind::Box],
            Rule::ImpIntro | Rule::Reductio => &[Kind::Box],
            _ => &[Kind::Line],
        }
    }

    // How many citations the rule takes.
    pub fn arity(self) -> usize
        ensures { result ≡ length (kinds_of self) }
    {
        self.kinds().len()
    }

    // What the rule cites at a place, counted from 0, if it cites so many.
    pub fn kind(self, place: usize) -> Option<Kind>
        ensures { MatchOption result (length (kinds_of self) ≤ place) (λ k. (place < length (kinds_of self)) × (k ≡ slice_index_or (kinds_of self) place Kind.Line)) }
    {
        self.kinds().get(place).copied()
    }

    // Whether the rule is of a mode.
    pub fn serves(self, mode: Mode) -> bool
        ensures { Decides result (Serves mode self) }
    {
        !matches!((mode, self), (Mode::Constructive, Rule::Reductio))
    }
}
