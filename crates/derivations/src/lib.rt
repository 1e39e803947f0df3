// Derivations: three states, each a type of its own, over a store and line records that are lent.
//
//   gathering::Gathering   new, premise, line, open
//   open::Open             assume, step, close, line, seal
//   sealed::Sealed         line, sequent, store, count
//   author::Author         who writes a derivation: its premises, then its other lines, and tells of it once it is sealed
//   whole::derive_by       a derivation by an author, for who lent the slice and wants to know what it holds then
//
// Each call that writes carries every history that the state has to the history with the call accepted; a refusal changes nothing.
#![tactic(auto)]

pub mod author;
pub mod gathering;
pub mod open;
pub mod sealed;
mod sheet;
pub mod whole;
