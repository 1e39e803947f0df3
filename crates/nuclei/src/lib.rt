// The layer that a nucleus makes of an algebra: the members that it fixes.
//
//   nucleus::Nucleus               the layer at an element of any algebra
//     Nucleus::new                 the layer, or `nucleus::make::NotMade`: a refusal with the algebra
//     Nucleus::double_negation     the layer at the bottom
#![tactic(auto)]

pub mod nucleus;
