// The theory of formulas: what their texts are, what a list of records stands for, and what reading and writing mean.
// The crates that use it are proved against these definitions.
//
//   connective::Connective   and, or, implies
//   symbol::Symbol           what a byte of a text stands for
//   node::Node               a record of a store: how a formula is made of others
//   refusal::Refusal         why a call on formulas is refused
//   told::Told               the number and the place by which a refusal is told
//   theorems                 what holds of every text and of every reading
#![tactic(auto)]

pub mod connective;
pub mod node;
pub mod refusal;
pub mod symbol;
pub mod theorems;
pub mod told;
