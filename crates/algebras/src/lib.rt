// The trait that every algebra implements.
//
//   algebra::Algebra   what an algebra answers; write your own against it
//   shared             a reference to an algebra is an algebra
#![tactic(auto)]

pub mod algebra;
pub mod shared;
