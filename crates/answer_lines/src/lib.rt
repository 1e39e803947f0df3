// The line that a program prints for an input: what the input shows, the verdict, or the first fault.
//
//   check::check_line      the line for a proof file
//   weigh::weigh_line      the line for a proof file and an algebra file
//   unprinted::Unprinted   which of the lent slices is too short for it
//   theorems               what holds of every input
#![tactic(auto)]

pub mod check;
mod print;
#[cfg(test)]
mod tests;
pub mod theorems;
pub mod unprinted;
pub mod weigh;
