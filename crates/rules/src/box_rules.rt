// The rules that cite boxes: whether all places are stored, and the rule gives the formula.
// The store and the formula stay two parameters: the store is asked of what is cited as well, and a place may hold nothing.
ghost use Rattle.std.specs.Prelude.{[], ◌∷◌, Decides};
ghost use Rattle.formulas.specs.Stores.{contents};
ghost use Rattle.shapes.specs.Giving.{Gives};

use fitch::rule::Rule;
use formulas::store::Store;
use formulas::store::make::FALSUM;
use grammar::connective::Connective;
use shapes::cited::Cited;
use shapes::parts::is_joined;

// `|E`: by both cases.
pub fn splits(store: &Store, formula: usize, a: Cited, b: Cited, c: Cited) -> bool
    ensures { Decides result (Gives (contents store.now) formula Rule.OrElim (a ∷ b ∷ c ∷ [])) }
{
    match (a, b, c) {
        (Cited::Line(line), Cited::Box(first, end), Cited::Box(second, other)) => {
            formula < store.count()
                && (end, other) == (formula, formula)
                && is_joined(store, line, Connective::Or, first, second)
        }
        _ => false,
    }
}

// `>I`: what a box assumes implies what it ends with.
pub fn discharges(store: &Store, formula: usize, b: Cited) -> bool
    ensures { Decides result (Gives (contents store.now) formula Rule.ImpIntro (b ∷ [])) }
{
    let Cited::Box(first, end) = b else {
        return false;
    };
    is_joined(store, formula, Connective::Implies, first, end)
}

// `RA`: from the negation follows falsum.
pub fn refutes(store: &Store, formula: usize, b: Cited) -> bool
    ensures { Decides result (Gives (contents store.now) formula Rule.Reductio (b ∷ [])) }
{
    let Cited::Box(first, end) = b else {
        return false;
    };
    end == FALSUM && is_joined(store, first, Connective::Implies, formula, FALSUM)
}
