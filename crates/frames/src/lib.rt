// Frames: finite sets of worlds under an order, which are algebras.
//
//   frame::Frame                a frame of 1 to 12 worlds
//     Frame::new                a single world
//     Frame::discrete           worlds of which none is above another
//     relate                    puts a world above another
//     load                      worlds and pairs, each a world and one above it
//   frame::ops                  a frame as an algebra
#![tactic(auto)]

pub mod frame;
