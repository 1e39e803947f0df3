// Finds a record, or adds it.
ghost use Rattle.std.specs.Prelude.{◌≡◌, ℕ, ◌<◌, true, MatchOption, ◌≢◌, slice_index_or};
ghost use Rattle.grammar.specs.Contents.{formula_at, added, Fitting};
ghost use Rattle.grammar.specs.Records.{meaning, parts_below};
ghost use Rattle.formulas.specs.Stores.{records, contents, count, capacity, OthersStay};

use crate::store::Store;
use grammar::node::Node;

impl Store {
    // The place of a record, which is added if it is not there.
    #[tactic(auto, using(crate::proofs::Stores::count_is_used))]
    pub(crate) fn place_of(&mut self, node: Node) -> usize
        requires room { count self.old < capacity self.old }
        requires below { parts_below (count self.old) node ≡ true }
        requires fitting { Fitting (meaning (contents self.old) node) }
        ensures held { contents self.new ≡ added (contents self.old) (meaning (contents self.old) node) }
        ensures found { formula_at (contents self.new) result ≡ meaning (contents self.old) node }
        ensures within { result < count self.new }
        ensures stay { OthersStay self.old self.new }
    {
        if let Some(place) = self.find(node) {
            return place;
        }
        let place = self.used;
        self.nodes[place] = node;
        self.used = place + 1;
        place
    }

    // The place of a record, if it is in use.
    fn find(&self, node: Node) -> Option<usize>
        ensures { MatchOption result ((k : ℕ) → k < self.now.used → slice_index_or (records self.now) k Node.Falsum ≢ node) (λ p. (p < self.now.used) × (slice_index_or (records self.now) p Node.Falsum ≡ node)) }
    {
        self.nodes[..self.used]
            .iter()
            .position(|stored| *stored == node)
    }
}
