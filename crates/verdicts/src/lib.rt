// What a sequent is worth in an algebra.
//
//   refusal::Unweighable   why a sequent is not weighed
//   verdict::Verdict       the meet of the premises, the conclusion's value, and whether the first lies below the second
//   weigh::weigh           the verdict on a sequent, whatever the algebra
#![tactic(auto)]

pub mod refusal;
pub mod verdict;
pub mod weigh;
