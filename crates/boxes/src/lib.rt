// The open boxes of a derivation.
//
//   boxes::Boxes   a table of sixteen boxes: new, has_room, top, innermost, open, extend, close
#![tactic(auto)]

pub mod boxes;
