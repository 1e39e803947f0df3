// Why a sequent is not weighed.
ghost use Rattle.std.specs.Prelude.{◌≡◌};
ghost use Rattle.verdicts.specs.Refusals.{number_of, place_of};
ghost use Rattle.verdicts.specs.declared.refusal.Unweighable.TheVariants.{NotEvaluated};

use grammar::told::Told;
use heyting::refusal::Refusal;

#[derive(Clone, Copy, PartialEq, Debug)]
pub enum Unweighable {
    // A premise or the conclusion stands at a place that holds no formula.
    NotStored,
    // The formulas of the store are not evaluated.
    NotEvaluated(Refusal),
}

impl From<Refusal> for Unweighable {
    ghost from_gives = { λ refusal why. why ≡ NotEvaluated refusal };

    fn from(refusal: Refusal) -> Unweighable {
        Self::NotEvaluated(refusal)
    }
}

impl Told for Unweighable {
    ghost number_of = { number_of };

    ghost place_of = { place_of };

    fn number(self) -> u8 {
        match self {
            Unweighable::NotStored => 7,
            Unweighable::NotEvaluated(refusal) => refusal.number(),
        }
    }

    fn place(self) -> usize {
        match self {
            Unweighable::NotStored => 0,
            Unweighable::NotEvaluated(refusal) => refusal.place(),
        }
    }
}
