// What is answered to an input.
//
//   checked::Checked         what an accepted proof file shows
//   fault::Fault             the first fault of an input, by record, layer, number and place
//   unanswered::Unanswered   why what is asked for is not answered
#![tactic(auto)]

pub mod checked;
pub mod fault;
pub mod unanswered;
