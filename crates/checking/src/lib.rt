// The checking of a proof file.
//
//   check::check   what a proof file shows, or its first fault
//   theorems       what holds of every proof file
#![tactic(auto)]

pub mod check;
pub mod theorems;
