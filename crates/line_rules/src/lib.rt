// The eight rules that cite lines alone, over what is cited.
//
//   rules::reiterates .. rules::explodes   whether a rule gives a formula; two rules that differ in a side are one function
#![tactic(auto)]

pub mod rules;
