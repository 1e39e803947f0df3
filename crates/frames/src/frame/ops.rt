// A frame is an algebra: its members are the sets that have with each world all above it.
ghost use Rattle.std.specs.Prelude.{◌≡◌, ◌<◌, slice_index};
ghost use Rattle.heyting.proofs.Kripke.{kripke_lawful};
ghost use Rattle.heyting.specs.Tables.{table, each, closed_at};
ghost use Rattle.frames.specs.Frames.{frame_means};

use crate::frame::Frame;
use crate::frame::sets::{has, inside};
use algebras::algebra::Algebra;

// The set of no worlds.
const EMPTY: u32 = 0;

impl Frame {
    // The set of the worlds at or above a world.
    fn above(&self, u: u8) -> u32
        requires { u < self.now.worlds }
        ensures { result ≡ slice_index self.now.up u }
    {
        self.up[u as usize] as u32
    }

    // Whether `a` has with each world the worlds above it.
    fn is_closed(&self, a: u32) -> bool
        ensures { result ≡ each (closed_at self.now.worlds (table self.now.up) a) self.now.worlds }
    {
        (0..self.worlds).all(|u| !has(a, u) || inside(self.above(u), a))
    }

    // The worlds `u` such that every world of `a` at or above `u` is in `b`.
    fn implication(&self, a: u32, b: u32) -> u32
        ensures { result ≡ (frame_means self.now).arrow a b }
    {
        let mut worlds = EMPTY;
        // World by world: `fold` over them would say the same, with the set and the test in one closure.
        for u in 0..self.worlds {
            if inside(self.above(u) & a, b) {
                worlds |= 1 << u;
            }
        }
        worlds
    }
}

impl Algebra for Frame {
    ghost means = { frame_means };

    ghost lawful = { λ f. kripke_lawful f.worlds (table f.up) f.ordered (f.least, f.most) };

    fn span(&self) -> u32 {
        1 << self.worlds
    }

    fn contains(&self, a: u32) -> bool {
        a < self.span() && self.is_closed(a)
    }

    fn bottom(&self) -> u32 {
        EMPTY
    }

    fn top(&self) -> u32 {
        self.span() - 1
    }

    fn meet_of(&self, a: u32, b: u32) -> u32 {
        a & b
    }

    fn join_of(&self, a: u32, b: u32) -> u32 {
        a | b
    }

    fn arrow_of(&self, a: u32, b: u32) -> u32 {
        self.implication(a, b)
    }
}
