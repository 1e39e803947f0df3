// The open boxes of a derivation, outermost first.
ghost use Rattle.std.specs.Prelude.{◌≤◌};
ghost use Rattle.fitch.specs.Limits.{most_boxes};

use ledger::open_box::OpenBox;

pub mod stack;

const MOST_BOXES: usize = 16;

// The first `depth` places of the table are the open boxes: a table of a fixed size, since nothing here has a heap.
#[derive(Drop)]
pub struct Boxes {
    table: [OpenBox; MOST_BOXES],
    depth: usize,
    ghost shallow: { depth ≤ most_boxes },
}
