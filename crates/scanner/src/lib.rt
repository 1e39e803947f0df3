// The recogniser: whether a run of bytes is a formula's text that can be read, and if not, why.
//
//   symbol::symbol_at      what stands at a place of a text
//   recognise::recognise   a text's nesting and signs, or its refusal
#![tactic(auto)]

pub mod recognise;
mod scan;
pub mod symbol;
