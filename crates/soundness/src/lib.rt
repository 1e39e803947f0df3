// The theory of soundness: what a derivation says in every algebra.
//
//   theorems   what holds of every derivation
#![tactic(auto)]

pub mod theorems;
