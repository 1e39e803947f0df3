// The eleven rules, over what their citations stand for.
//
//   box_rules::splits, discharges, refutes   the three rules that cite boxes
//   fits::fits                               whether a rule gives a formula from what is cited
#![tactic(auto)]

pub mod box_rules;
pub mod fits;
