// An input taken apart: its records, their fields, and the numbers in these.
//
//   records::Records   the records of an input, one after the other
//   fields::Fields     the fields of a record, one after the other
//   number::number     the number that a field writes
//   theorems           which records make an input, which fields a record, and that a number is written in decimal
#![tactic(auto)]

mod cut;
pub mod fields;
pub mod number;
pub mod records;
pub mod theorems;
