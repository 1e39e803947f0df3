// The lines that the programs print, written to a buffer.
//
//   checked::write_checked   what a proof file shows
//   verdict::write_verdict   what weighing a sequent answers
//   fault::write_fault       the first fault of an input
//   theorems                 that writing a line has one answer, and that a line is read back to its fields
//
// A line is written from its end on, so a refusal comes before any byte is written. Where a field does not fit, what follows it is
// written into nothing, and the line's last byte is refused there; the places of all formulas have then been looked at.
#![tactic(auto)]

pub mod checked;
mod ending;
pub mod fault;
mod field;
mod row;
mod spelling;
pub mod theorems;
pub mod verdict;
