// An algebra of one's own: truth in degrees, each truer than the one before.
//
//   chain::Chain              a chain of 1 to 65,536 degrees, which is an `algebras::algebra::Algebra`
//     Chain::new              a chain of so many degrees, or a refusal
//   chain::make::OutOfRange   why a chain is refused
//   graded::evaluate_graded   formulas evaluated in the product of a chain and a frame
#![tactic(auto)]

pub mod chain;
pub mod graded;
