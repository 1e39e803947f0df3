// What is kept of a derivation: its lines and open boxes as records, and how these tell the history of its calls.
// The crates that use it are proved against these definitions.
//
//   line::Line           the record of a line
//   line::LineInfo       what is told of a line
//   open_box::OpenBox    the record of an open box
//   sequent::Sequent     what a derivation shows
#![tactic(auto)]

pub mod line;
pub mod open_box;
pub mod sequent;
