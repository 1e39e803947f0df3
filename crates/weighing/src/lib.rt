// What formulas are worth in an algebra.
//
//   valuation::Valuation   an element for each letter
//   evaluate::evaluate     the value of each stored formula, into a buffer
#![tactic(auto)]

pub mod evaluate;
pub mod valuation;
