// The first fault of an input.
use fitch::refusal::Refusal as DerivationRefusal;
use grammar::refusal::Refusal as FormulaRefusal;
use heyting::refusal::Refusal as AlgebraRefusal;

pub mod told;

// What is wrong with a record: its form or its turn, at a field; its formula; its line, or what the lines show; or its part of an algebra.
#[derive(Clone, Copy, PartialEq, Debug)]
pub enum Reason {
    Form(usize),
    Formula(FormulaRefusal),
    Derivation(DerivationRefusal),
    Algebra(AlgebraRefusal),
}

#[derive(Clone, Copy, PartialEq, Debug)]
pub enum Fault {
    // The input is over 65,536 bytes.
    TooLong,
    // The record of a number, counted from 1.
    At(usize, Reason),
}

// The layer at which a fault is found.
#[derive(Clone, Copy, PartialEq, Debug)]
pub enum Layer {
    Text,
    Formula,
    Derivation,
    Algebra,
}
