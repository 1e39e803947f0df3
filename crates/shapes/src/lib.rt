// What citations stand for, by places of a store, and how stored formulas are joined.
//
//   cited::Cited       a line's formula, or what a box assumes and ends with
//   parts::parts       the places of both parts of a joined formula
//   parts::is_joined   whether a formula is joined of two others
//   side::Side         which of both parts
#![tactic(auto)]

pub mod cited;
pub mod parts;
pub mod side;
