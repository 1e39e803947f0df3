// The table of open boxes as a stack.
ghost use Rattle.std.specs.Prelude.{◌≡◌, ◌<◌, ◌≤◌, [], ◌∷◌, length, Decides, MatchOption};
ghost use Rattle.fitch.specs.History.{outer};
ghost use Rattle.fitch.specs.Limits.{most_boxes};
ghost use Rattle.fitch.specs.Records.{moved, top_first};
ghost use Rattle.ledger.specs.Stack.{reach, fresh_box};
ghost use Rattle.boxes.specs.Stack.{stack};

use crate::boxes::{Boxes, MOST_BOXES};
use fitch::refusal::Refusal;
use ledger::open_box::OpenBox;

impl Boxes {
    pub fn new() -> Boxes
        ensures { stack result ≡ [] }
    {
        Boxes {
            table: [OpenBox { first: 0, end: 0 }; MOST_BOXES],
            depth: 0,
        }
    }

    // Whether one more box may be opened.
    #[tactic(auto, using(ledger::proofs::Stacking::length_stacked))]
    pub fn has_room(&self) -> bool
        ensures { Decides result (length (stack self.now) < most_boxes) }
    {
        self.depth < MOST_BOXES
    }

    // The innermost open box.
    pub fn top(&self) -> Option<OpenBox>
        ensures { MatchOption result (stack self.now ≡ []) (λ t. stack self.now ≡ reach t ∷ outer (stack self.now)) }
    {
        self.table[..self.depth].last().copied()
    }

    // The first line of the innermost open box, or 0, as it is put into a line's record.
    pub fn innermost(&self) -> usize
        ensures { result ≡ top_first (stack self.now) }
    {
        self.top().map_or(0, |top| top.first)
    }

    // Opens a box at its first line, unless sixteen are open.
    #[tactic(auto, using(ledger::proofs::Stacking::stacked_push))]
    pub fn open(&mut self, first: usize) -> Result<(), Refusal>
        ensures opened { length (stack self.old) < most_boxes → (result ≡ Ok tt) × (stack self.new ≡ fresh_box first ∷ stack self.old) }
        ensures full { most_boxes ≤ length (stack self.old) → (result ≡ Err Refusal.ManyBoxes) × (self.new ≡ self.old) }
    {
        if !self.has_room() {
            return Err(Refusal::ManyBoxes);
        }
        self.table[self.depth] = OpenBox { first, end: first };
        self.depth += 1;
        Ok(())
    }

    // A line is written in the innermost box, if any is open: it is the box's end now.
    #[tactic(auto, using(ledger::proofs::Stacking::stacked_move))]
    pub fn extend(&mut self, line: usize)
        ensures { stack self.new ≡ moved line (stack self.old) }
    {
        // By place: a box that `last_mut` lends out of a field beside a ghost field gets no proof.
        if let Some(place) = self.depth.checked_sub(1) {
            let top = &mut self.table[place];
            top.end = line;
        }
    }

    // Closes the innermost box, if any is open.
    pub fn close(&mut self)
        ensures { stack self.new ≡ outer (stack self.old) }
    {
        self.depth = self.depth.saturating_sub(1);
    }
}
