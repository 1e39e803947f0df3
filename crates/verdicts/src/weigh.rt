// Weighs a sequent. The algebra and the valuation stay apart, as in evaluating.
ghost use Rattle.std.specs.Prelude.{◌≡◌, Decides};
ghost use Rattle.formulas.specs.Stores.{contents};
ghost use Rattle.heyting.specs.Meaning.{Member, Below};
ghost use Rattle.verdicts.specs.Weighing.{AllBelow, Stored, Valued, meet_at, Weighed, Follows};

use crate::refusal::Unweighable;
use crate::verdict::Verdict;
use algebras::algebra::Algebra;
use formulas::store::Store;
use ledger::sequent::Sequent;
use weighing::evaluate::evaluate;
use weighing::valuation::Valuation;

// Whether all places lie below a count.
fn all_below(places: &[usize], count: usize) -> bool
    ensures { Decides result (AllBelow places.now count) }
{
    places.iter().all(|place| *place < count)
}

// Whether the premises and the conclusion are stored.
fn is_stored(sequent: &Sequent, store: &Store) -> bool
    ensures { Decides result (Stored (contents store.now) sequent.now) }
{
    let count = store.count();
    all_below(sequent.premises(), count) && sequent.conclusion < count
}

// The meet of the values at places, in their order, from the top on.
// By a `for`: a closure for `fold` would have to require that it is given members, and to ensure that it gives one.
fn meet_of_places<A: Algebra>(algebra: &A, values: &[u32], places: &[usize]) -> u32
    requires { Valued (A.Algebra.means algebra.now) values.now places.now }
    ensures meet { result ≡ meet_at (A.Algebra.means algebra.now) values.now places.now }
    ensures member { Member (A.Algebra.means algebra.now) result }
{
    let mut meet = algebra.top();
    for place in places {
        meet = algebra.meet_of(meet, values[*place]);
    }
    meet
}

// Whether one member lies below another.
fn is_below<A: Algebra>(algebra: &A, a: u32, b: u32) -> bool
    requires first { Member (A.Algebra.means algebra.now) a }
    requires second { Member (A.Algebra.means algebra.now) b }
    ensures { Decides result (Below (A.Algebra.means algebra.now) a b) }
{
    algebra.meet_of(a, b) == a
}

// The meet of the premises' values, the conclusion's value, and whether the first lies below the second.
// The buffer is left as `evaluate` leaves it.
pub fn weigh<A: Algebra>(
    sequent: &Sequent,
    store: &Store,
    algebra: &A,
    valuation: &Valuation,
    values: &mut [u32],
) -> Result<Verdict, Unweighable>
    ensures exact { Weighed (A.Algebra.means algebra.now) (contents store.now) valuation.now.letters sequent.now values.old values.new result }
    ensures follows { Follows (A.Algebra.means algebra.now) (contents store.now) sequent.now result }
{
    if !is_stored(sequent, store) {
        return Err(Unweighable::NotStored);
    }
    evaluate(store, algebra, valuation, values)?;
    let meet = meet_of_places(algebra, values, sequent.premises());
    let conclusion = values[sequent.conclusion];
    Ok(Verdict {
        meet,
        conclusion,
        holds: is_below(algebra, meet, conclusion),
    })
}
