// A finite frame of worlds.
ghost use Rattle.std.specs.Prelude.{◌≡◌, ◌≤◌, true, ◌&&◌};
ghost use Rattle.heyting.specs.Limits.{most_worlds};
ghost use Rattle.heyting.specs.Tables.{table, Within, reflexive, transitive};

mod build;
pub mod load;
pub mod ops;
mod sets;

const MOST_WORLDS: usize = 12;

// `up[u]` is the set of the worlds at or above world `u`. The table has room for the most worlds, so that a frame is copied and needs no heap.
#[derive(Clone, Copy)]
pub struct Frame {
    worlds: u8,
    up: [u16; MOST_WORLDS],
    ghost least: { 1 ≤ worlds },
    ghost most: { worlds ≤ most_worlds },
    ghost within: { Within worlds up },
    ghost ordered: { (reflexive worlds (table up) && transitive worlds (table up)) ≡ true },
}
