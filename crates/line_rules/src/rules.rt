// The rules that cite lines alone: whether all places are stored, and the rule gives the formula.
// The store and the formula stay two parameters: the store is asked of what is cited as well, and a place may hold nothing.
ghost use Rattle.std.specs.Prelude.{[], ◌∷◌, Decides};
ghost use Rattle.formulas.specs.Stores.{contents};
ghost use Rattle.shapes.specs.Giving.{Gives};
ghost use Rattle.shapes.specs.Sides.{taking, widening};

use fitch::rule::Rule;
use formulas::store::Store;
use formulas::store::make::FALSUM;
use grammar::connective::Connective;
use shapes::cited::Cited;
use shapes::parts::{is_joined, parts};
use shapes::side::Side;

// `R`: a line again.
pub fn reiterates(store: &Store, formula: usize, a: Cited) -> bool
    ensures { Decides result (Gives (contents store.now) formula Rule.Reiterate (a ∷ [])) }
{
    let Cited::Line(line) = a else {
        return false;
    };
    formula < store.count() && line == formula
}

// `&I`: both conjuncts.
pub fn joins(store: &Store, formula: usize, a: Cited, b: Cited) -> bool
    ensures { Decides result (Gives (contents store.now) formula Rule.AndIntro (a ∷ b ∷ [])) }
{
    matches!((a, b), (Cited::Line(i), Cited::Line(j)) if is_joined(store, formula, Connective::And, i, j))
}

// `&1` and `&2`: the conjunct on a side.
pub fn takes(store: &Store, formula: usize, side: Side, a: Cited) -> bool
    ensures { Decides result (Gives (contents store.now) formula (taking side) (a ∷ [])) }
{
    let Cited::Line(line) = a else {
        return false;
    };
    parts(store, line, Connective::And).is_some_and(|conjuncts| side.part(conjuncts) == formula)
}

// `|1` and `|2`: from the disjunct on a side. Not one with `takes`, since here it is the new formula that is taken apart.
pub fn widens(store: &Store, formula: usize, side: Side, a: Cited) -> bool
    ensures { Decides result (Gives (contents store.now) formula (widening side) (a ∷ [])) }
{
    let Cited::Line(line) = a else {
        return false;
    };
    parts(store, formula, Connective::Or).is_some_and(|disjuncts| side.part(disjuncts) == line)
}

// `>E`: an implication and its first part.
pub fn detaches(store: &Store, formula: usize, a: Cited, b: Cited) -> bool
    ensures { Decides result (Gives (contents store.now) formula Rule.ImpElim (a ∷ b ∷ [])) }
{
    matches!((a, b), (Cited::Line(i), Cited::Line(j)) if is_joined(store, i, Connective::Implies, j, formula))
}

// `#E`: anything from falsum.
// Only the wanted place differs from `reiterates`: one function for both would take that place as well, and be no shorter.
pub fn explodes(store: &Store, formula: usize, a: Cited) -> bool
    ensures { Decides result (Gives (contents store.now) formula Rule.ExFalso (a ∷ [])) }
{
    let Cited::Line(line) = a else {
        return false;
    };
    formula < store.count() && line == FALSUM
}
