// Evaluates the formulas of a store.
ghost use Rattle.std.specs.Prelude.{◌≡◌, ℕ, MatchResult};
ghost use Rattle.formulas.specs.Stores.{contents};
ghost use Rattle.heyting.specs.Evaluating.{FirstStranger, Evaluated, worth, Ready};
ghost use Rattle.heyting.specs.Values.{ByMembers};

use crate::valuation::Valuation;
use algebras::algebra::Algebra;
use formulas::store::Store;
use grammar::node::Node;
use heyting::refusal::Refusal;

// Whether the letters have members.
fn check_letters<A: Algebra>(algebra: &A, valuation: &Valuation) -> Result<(), Refusal>
    ensures { MatchResult result (λ _. ByMembers (A.Algebra.means algebra.now) valuation.now.letters) (λ e. (place : ℕ) × (e ≡ Refusal.LetterNotMember place) × FirstStranger (A.Algebra.means algebra.now) valuation.now.letters place) }
{
    let mut letters = valuation.letters.iter();
    match letters.position(|element| !algebra.contains(*element)) {
        Some(i) => Err(Refusal::LetterNotMember(i + 1)),
        None => Ok(()),
    }
}

// What the formula of a record is worth, from the values of its parts.
fn worth_of<A: Algebra>(algebra: &A, valuation: &Valuation, values: &[u32], node: Node) -> u32
    requires { Ready (A.Algebra.means algebra.now) values.now node }
    ensures { result ≡ worth (A.Algebra.means algebra.now) valuation.now.letters values.now node }
{
    match node {
        Node::Falsum => algebra.bottom(),
        Node::Letter(byte) => valuation.letters[(byte - b'a') as usize],
        Node::Joined(connective, first, second) => {
            algebra.operation_of(connective, values[first as usize], values[second as usize])
        }
    }
}

// Writes the value of each stored formula at its place in the buffer, and leaves the rest of the buffer.
// The four stay apart: a struct of some of them would be made for one call and taken apart in it.
pub fn evaluate<A: Algebra>(
    store: &Store,
    algebra: &A,
    valuation: &Valuation,
    values: &mut [u32],
) -> Result<(), Refusal>
    ensures { Evaluated (A.Algebra.means algebra.now) (contents store.now) valuation.now.letters values.old values.new result }
{
    let count = store.count();
    if values.len() < count {
        return Err(Refusal::ShortBuffer);
    }
    check_letters(algebra, valuation)?;
    // By place, since each value is made of those at lower places of the same buffer.
    for place in 0..count {
        let node = store.node(place).unwrap();
        values[place] = worth_of(algebra, valuation, values, node);
    }
    Ok(())
}
