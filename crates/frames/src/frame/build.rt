// Builds the order of a frame, pair by pair.
ghost use Rattle.std.specs.Prelude.{◌≡◌, [], MatchResult};
ghost use Rattle.heyting.specs.Loading.{InRange};
ghost use Rattle.frames.specs.Frames.{Ordered, Related};
ghost use Rattle.heyting.specs.declared.refusal.Refusal.TheVariants.{WorldsOutOfRange};

use crate::frame::sets::has;
use crate::frame::{Frame, MOST_WORLDS};
use heyting::refusal::Refusal;
use std::array;

impl Frame {
    fn alone(worlds: u8) -> Frame
        requires { InRange worlds }
        ensures { Ordered worlds [] result }
    {
        Frame {
            worlds,
            up: array::from_fn(|u| 1 << u),
        }
    }

    // A single world.
    pub fn new() -> Frame
        ensures { Ordered 1 [] result }
    {
        Frame::alone(1)
    }

    // Worlds of which none is above another.
    pub fn discrete(worlds: u32) -> Result<Frame, Refusal>
        ensures { MatchResult result (λ frame. InRange worlds × Ordered worlds [] frame) (λ e. (InRange worlds → ⊥) × (e ≡ WorldsOutOfRange)) }
    {
        if worlds < 1 || worlds > MOST_WORLDS as u32 {
            return Err(Refusal::WorldsOutOfRange);
        }
        Ok(Frame::alone(worlds as u8))
    }

    // Puts world `v` above world `u`.
    pub fn relate(&mut self, u: u32, v: u32) -> Result<(), Refusal>
        ensures { Related u v self.old self.new result }
    {
        let worlds = self.worlds as u32;
        if u >= worlds || v >= worlds {
            return Err(Refusal::NoSuchWorld(1));
        }
        // In a copy, since the frame's ghost fields hold of the whole table alone.
        let mut up = self.up;
        let above = up[v as usize];
        for row in &mut up {
            if has(*row as u32, u as u8) {
                *row |= above;
            }
        }
        self.up = up;
        Ok(())
    }
}
