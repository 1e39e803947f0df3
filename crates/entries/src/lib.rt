// The records of files by what they say.
//
//   entry::Entry           what a record says, its formula as a text or as a place
//   citations::Citations   what a step cites, as a record says it
//   kind::Kind             the kind of a record
//   turn::Turn             which kinds may come next
//   order                  where records are first out of turn
//   parse::parse           what a record says, or its first wrong, missing or surplus field
//   theorems               how records are written, and which come in their turns
#![tactic(auto)]

pub mod citations;
pub mod entry;
mod forms;
pub mod kind;
mod names;
pub mod order;
pub mod parse;
pub mod theorems;
pub mod turn;
