// Takes a stored formula apart.
ghost use Rattle.std.specs.Prelude.{◌≡◌, ◌≤◌, MatchResult};
ghost use Rattle.grammar.specs.Records.{MadeOf};
ghost use Rattle.formulas.specs.Stores.{contents, count as count_of};

use crate::store::Store;
use crate::store::stored::Stored;
use grammar::node::Node;
use grammar::refusal::Refusal;

impl Store {
    // How the formula at a place is made: a letter, falsum, or a connective and the places of both parts.
    pub fn node(&self, place: usize) -> Result<Node, Refusal>
        ensures { MatchResult result (MadeOf (contents self.now) place) (λ e. (e ≡ Refusal.NotStored) × (count_of self.now ≤ place)) }
    {
        self.stored(place).map(Stored::node)
    }
}
