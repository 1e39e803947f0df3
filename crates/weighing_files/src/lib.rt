// The weighing of a proof file in the algebra of an algebra file, both in one input.
//
//   weigh::weigh_input   the verdict, or the first fault
//   theorems             what holds of every input
#![tactic(auto)]

mod parts;
pub mod theorems;
pub mod weigh;
