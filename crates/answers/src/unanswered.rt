// Why there is no answer of the kind that is asked for.
ghost use Rattle.std.specs.Prelude.{◌≡◌};
ghost use Rattle.answers.specs.Refusals.{number_of, place_of};
ghost use Rattle.answers.specs.declared.unanswered.Unanswered.TheVariants.{Faulty};

use crate::fault::Fault;
use grammar::told::Told;

#[derive(Clone, Copy, PartialEq, Debug)]
pub enum Unanswered {
    // The input has more records than the slice for them.
    ShortEntries,
    // A premise or the conclusion stands at a place that holds no formula.
    NotStored,
    // The buffer for values is shorter than the store's count.
    ShortValues,
    // The input has a fault, the first.
    Faulty(Fault),
}

impl From<Fault> for Unanswered {
    ghost from_gives = { λ fault why. why ≡ Faulty fault };

    fn from(fault: Fault) -> Unanswered {
        Unanswered::Faulty(fault)
    }
}

impl Told for Unanswered {
    ghost number_of = { number_of };

    ghost place_of = { place_of };

    fn number(self) -> u8 {
        match self {
            Unanswered::ShortEntries => 6,
            Unanswered::NotStored => 7,
            Unanswered::ShortValues => 25,
            Unanswered::Faulty(fault) => fault.number(),
        }
    }

    fn place(self) -> usize {
        match self {
            Unanswered::Faulty(fault) => fault.place(),
            _ => 0,
        }
    }
}
