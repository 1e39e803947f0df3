// Whether a rule gives a formula from what is cited.
ghost use Rattle.std.specs.Prelude.{Decides};
ghost use Rattle.formulas.specs.Stores.{contents};
ghost use Rattle.shapes.specs.Giving.{Gives};

use crate::box_rules::{discharges, refutes, splits};
use fitch::rule::Rule;
use formulas::store::Store;
use line_rules::rules::{detaches, explodes, joins, reiterates, takes, widens};
use shapes::cited::Cited;
use shapes::side::Side;

// Whether all places are stored, and the rule gives the formula from what its citations stand for.
pub fn fits(store: &Store, formula: usize, rule: Rule, cited: &[Cited]) -> bool
    ensures { Decides result (Gives (contents store.now) formula rule cited.now) }
{
    match (rule, cited) {
        (Rule::Reiterate, [a]) => reiterates(store, formula, *a),
        (Rule::AndIntro, [a, b]) => joins(store, formula, *a, *b),
        (Rule::AndLeft, [a]) => takes(store, formula, Side::Left, *a),
        (Rule::AndRight, [a]) => takes(store, formula, Side::Right, *a),
        (Rule::OrLeft, [a]) => widens(store, formula, Side::Left, *a),
        (Rule::OrRight, [a]) => widens(store, formula, Side::Right, *a),
        (Rule::OrElim, [a, b, c]) => splits(store, formula, *a, *b, *c),
        (Rule::ImpIntro, [a]) => discharges(store, formula, *a),
        (Rule::ImpElim, [a, b]) => detaches(store, formula, *a, *b),
        (Rule::ExFalso, [a]) => explodes(store, formula, *a),
        (Rule::Reductio, [a]) => refutes(store, formula, *a),
        _ => false,
    }
}
