// What a derivation is worth in an algebra: the sequent of a sealed derivation, weighed.
//
//   refusal::Unjudged   why there is no verdict
//   judge::judge        the verdict, whatever the derivation and the algebra
#![tactic(auto)]

pub mod judge;
pub mod refusal;
