// How a fault is told.
ghost use Rattle.std.specs.Prelude.{◌≡◌};
ghost use Rattle.answers.specs.Faults.{record_of, layer_of, number_of, place_of};

use crate::fault::{Fault, Layer, Reason};
use grammar::told::Told;

impl Told for Fault {
    ghost number_of = { number_of };

    ghost place_of = { place_of };

    fn number(self) -> u8 {
        match self {
            Fault::TooLong => 28,
            Fault::At(_, Reason::Form(_)) => 29,
            Fault::At(_, Reason::Formula(refusal)) => refusal.number(),
            Fault::At(_, Reason::Derivation(refusal)) => refusal.number(),
            Fault::At(_, Reason::Algebra(refusal)) => refusal.number(),
        }
    }

    fn place(self) -> usize {
        match self {
            Fault::TooLong => 0,
            Fault::At(_, Reason::Form(field)) => field,
            Fault::At(_, Reason::Formula(refusal)) => refusal.place(),
            Fault::At(_, Reason::Derivation(refusal)) => refusal.place(),
            Fault::At(_, Reason::Algebra(refusal)) => refusal.place(),
        }
    }
}

impl Fault {
    // The record, or 0 for the whole input.
    pub fn record(self) -> usize
        ensures { result ≡ record_of self }
    {
        match self {
            Fault::TooLong => 0,
            Fault::At(record, _) => record,
        }
    }

    pub fn layer(self) -> Layer
        ensures { result ≡ layer_of self }
    {
        match self {
            Fault::TooLong => Layer::Text,
            Fault::At(_, Reason::Form(_)) => Layer::Text,
            Fault::At(_, Reason::Formula(_)) => Layer::Formula,
            Fault::At(_, Reason::Derivation(_)) => Layer::Derivation,
            Fault::At(_, Reason::Algebra(_)) => Layer::Algebra,
        }
    }
}
