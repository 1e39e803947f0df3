// The algebra file: which algebra its entries mean, and the verdict on a sequent in it.
//
//   weigh::weigh_in_file   the verdict in the algebra of a file, or why there is none
//   theorems               what entries and a file settle
#![tactic(auto)]

mod file;
mod read;
mod refuse;
#[cfg(test)]
mod tests;
pub mod theorems;
pub mod weigh;
mod weigh_in;
