// The theory of algebras: what a Heyting algebra over numbers is, what frames, products and nuclei mean, and the values of formulas.
// The code above it is proved against these definitions.
//
//   limits::MOST_SPAN   the most of a span
//   refusal::Refusal    why a call on algebras is refused
//   theorems            what holds of every algebra
#![tactic(auto)]

pub mod limits;
pub mod refusal;
pub mod theorems;
