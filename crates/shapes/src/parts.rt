// How a stored formula is joined. The store and a place stay apart: what asks has places, as records keep them.
ghost use Rattle.std.specs.Prelude.{Decides, MatchOption};
ghost use Rattle.formulas.specs.Stores.{contents};
ghost use Rattle.shapes.specs.Joined.{Joined, NotJoined};

use formulas::store::Store;
use grammar::connective::Connective;
use grammar::node::Node;

// The places of both parts, if the formula is joined so.
pub fn parts(store: &Store, place: usize, connective: Connective) -> Option<(usize, usize)>
    ensures { MatchOption result (NotJoined (contents store.now) place connective) (λ p. Joined (contents store.now) place connective p.0 p.1) }
{
    match store.node(place) {
        Ok(Node::Joined(here, first, second)) if here == connective => {
            Some((first as usize, second as usize))
        }
        _ => None,
    }
}

// Whether the formula is joined so of the formulas at two places.
pub fn is_joined(
    store: &Store,
    place: usize,
    connective: Connective,
    first: usize,
    second: usize,
) -> bool
    ensures { Decides result (Joined (contents store.now) place connective first second) }
{
    parts(store, place, connective) == Some((first, second))
}
