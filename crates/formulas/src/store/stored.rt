// A formula that a store holds.
ghost use Rattle.std.specs.Prelude.{◌≡◌, ◌<◌, ◌≤◌, MatchResult};
ghost use Rattle.grammar.specs.Records.{MadeOf};
ghost use Rattle.formulas.specs.Stores.{contents, count};

use crate::store::Store;
use grammar::node::Node;
use grammar::refusal::Refusal;

// A place of a store at which a formula stands.
#[derive(Clone, Copy)]
pub(crate) struct Stored<'a> {
    pub(crate) store: &'a Store,
    pub(crate) place: usize,
    ghost held: { place < count store.now },
}

impl Store {
    // The formula at a place, or a refusal if none stands there.
    #[tactic(auto, using(crate::proofs::Stores::count_is_used))]
    pub(crate) fn stored(&self, place: usize) -> Result<Stored<'_>, Refusal>
        ensures { MatchResult result (λ s. (s.store.now ≡ self.now) × (s.place ≡ place)) (λ e. (e ≡ Refusal.NotStored) × (count self.now ≤ place)) }
    {
        if place >= self.used {
            return Err(Refusal::NotStored);
        }
        Ok(Stored { store: self, place })
    }
}

impl<'a> Stored<'a> {
    // How the formula is made of others.
    #[tactic(auto, using(crate::proofs::Stores::count_is_used))]
    pub(crate) fn node(self) -> Node
        ensures { MadeOf (contents self.entry.store.now) self.entry.place result }
    {
        self.store.nodes[self.place]
    }

    // A formula of the same store, at a place below.
    pub(crate) fn below(self, place: usize) -> Stored<'a>
        requires { place < self.place }
        ensures store { result.store.now ≡ self.entry.store.now }
        ensures place { result.place ≡ place }
    {
        Stored {
            store: self.store,
            place,
        }
    }
}
