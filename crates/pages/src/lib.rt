// The lines of a derivation, to be read.
//
//   page::Page   cited: what citations stand for; line: what is told of a line; last_top: the last line that no box contains
#![tactic(auto)]

pub mod page;
