// The reading of an input: its records one after the other, their formulas into a store.
//
//   read::read_input    what the records of an input say, with their formulas' places
//   theorems            what holds of every input
#![tactic(auto)]

mod enter;
pub mod read;
pub mod theorems;
