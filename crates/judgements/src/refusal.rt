// Why there is no verdict on a derivation.
ghost use Rattle.std.specs.Prelude.{◌≡◌};
ghost use Rattle.judgements.specs.Refusals.{number_of, place_of};
ghost use Rattle.judgements.specs.declared.refusal.Unjudged.TheVariants.{NotConcluded, NotWeighed};

use fitch::refusal::Refusal;
use grammar::told::Told;
use verdicts::refusal::Unweighable;

#[derive(Clone, Copy, PartialEq, Debug)]
pub enum Unjudged {
    // The derivation has no sequent.
    NotConcluded(Refusal),
    // Its sequent is not weighed.
    NotWeighed(Unweighable),
}

impl From<Refusal> for Unjudged {
    ghost from_gives = { λ refusal why. why ≡ NotConcluded refusal };

    fn from(refusal: Refusal) -> Unjudged {
        Self::NotConcluded(refusal)
    }
}

impl From<Unweighable> for Unjudged {
    ghost from_gives = { λ refusal why. why ≡ NotWeighed refusal };

    fn from(refusal: Unweighable) -> Unjudged {
        Self::NotWeighed(refusal)
    }
}

impl Told for Unjudged {
    ghost number_of = { number_of };

    ghost place_of = { place_of };

    fn number(self) -> u8 {
        match self {
            Unjudged::NotConcluded(refusal) => refusal.number(),
            Unjudged::NotWeighed(refusal) => refusal.number(),
        }
    }

    fn place(self) -> usize {
        match self {
            Unjudged::NotConcluded(refusal) => refusal.place(),
            Unjudged::NotWeighed(refusal) => refusal.place(),
        }
    }
}
