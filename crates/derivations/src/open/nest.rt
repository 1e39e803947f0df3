// Boxes: their opening and closing.
ghost use Rattle.std.specs.Prelude.{◌≡◌, suc, ◌∷◌, MatchResult, OnErr};
ghost use Rattle.fitch.specs.Calls.{close_checks};
ghost use Rattle.fitch.specs.Checks.{Accepted, Refused};
ghost use Rattle.fitch.specs.History.{History, count, assume, close};
ghost use Rattle.soundness.specs.Soundness.{Sound};
ghost use Rattle.derivations.specs.Derived.{mode_in, sheet_in, Derived, Leaves, checks_of_assume};
ghost use Rattle.derivations.specs.Sheets.{formula_of};

use crate::open::Open;
use crate::sheet::check::{check_room, check_stored};
use fitch::refusal::Refusal;
use fitch::rule::Reason;
use ledger::line::{BLANK, Line};

impl<'s, 'l> Open<'s, 'l> {
    // Opens a box with an assumption, and answers its line's number.
    #[tactic(auto, using(crate::proofs::Sounding::derived_sound, crate::proofs::Writing::write_leaves))]
    pub fn assume(&mut self, formula: usize) -> Result<usize, Refusal>
        ensures exact { (h : History) → Derived self.old h → MatchResult result (λ n. Accepted (checks_of_assume self.old h formula) × (n ≡ suc (count h)) × Derived self.new (assume (formula_of (sheet_in self.old) formula) ∷ h)) (Refused (checks_of_assume self.old h formula)) }
        ensures sound { (h : History) → Derived self.new h → Sound (mode_in self.new) h }
        ensures leaves { Leaves self.old self.new }
        ensures unchanged { OnErr result (self.new ≡ self.old) }
    {
        check_stored(self.store, formula)?;
        // Asked before anything is written; `open`, which refuses the same, comes last.
        if !self.boxes.has_room() {
            return Err(Refusal::ManyBoxes);
        }
        check_room(self.count, self.lines.len())?;
        let around = self.boxes.innermost();
        let number = self.count + 1;
        self.lines[self.count] = Line {
            formula,
            reason: Reason::Assumption,
            inside: number,
            around,
            ..BLANK
        };
        self.count = number;
        self.boxes.open(number)?;
        Ok(number)
    }

    // Closes the innermost open box: its end is put into its first line's record.
    #[tactic(auto, using(crate::proofs::Sounding::derived_sound, crate::proofs::Writing::first_some, crate::proofs::Writing::first_within, crate::proofs::Writing::end_leaves))]
    pub fn close(&mut self) -> Result<(), Refusal>
        ensures exact { (h : History) → Derived self.old h → MatchResult result (λ _. Accepted (close_checks h) × Derived self.new (close ∷ h)) (Refused (close_checks h)) }
        ensures sound { (h : History) → Derived self.new h → Sound (mode_in self.new) h }
        ensures leaves { Leaves self.old self.new }
        ensures unchanged { OnErr result (self.new ≡ self.old) }
    {
        let top = self.boxes.top().ok_or(Refusal::NoOpenBox)?;
        self.lines[top.first - 1].end = top.end;
        self.boxes.close();
        Ok(())
    }
}
