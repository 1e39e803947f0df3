// The records of a proof file as the calls of a derivation.
//
//   derive::derive   what the records show, or the first that is refused
//   theorems         what holds of every list of records
#![tactic(auto)]

pub mod derive;
mod run;
pub mod theorems;
