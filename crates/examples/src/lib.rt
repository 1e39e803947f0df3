// What the definitions say of known cases.
//
//   theorems::rules_fit_their_examples      each rule gives its example, and which rules a mode has
//   theorems::theories_fit_their_examples   the examples of reading, of nested boxes, and of algebras, in one statement
#![tactic(auto)]

pub mod theorems;
