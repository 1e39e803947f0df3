// The theory of derivations: Fitch's boxes, the rules, and what a history of accepted calls says.
// The crates that use it are proved against these definitions.
//
//   mode::Mode           constructive or classical
//   rule::Rule           the eleven rules, what each cites, and their names
//   rule::Reason         why a line stands
//   refusal::Refusal     why a call on derivations is refused
//   theorems             what holds of every history
#![tactic(auto)]

pub mod mode;
pub mod refusal;
pub mod rule;
pub mod theorems;
