// Premises.
ghost use Rattle.std.specs.Prelude.{◌≡◌, suc, ◌∷◌, MatchResult, OnErr};
ghost use Rattle.fitch.specs.Checks.{Accepted, Refused};
ghost use Rattle.fitch.specs.History.{History, premise, count};
ghost use Rattle.soundness.specs.Soundness.{Sound};
ghost use Rattle.derivations.specs.Gathered.{mode_of, sheet_of, Gathered, checks};
ghost use Rattle.derivations.specs.Sheets.{formula_of, Leaves};

use crate::gathering::Gathering;
use crate::sheet::check::{check_room, check_stored};
use fitch::refusal::Refusal;
use fitch::rule::Reason;
use ledger::line::{BLANK, Line};
use ledger::sequent::MOST_PREMISES;

impl<'s, 'l> Gathering<'s, 'l> {
    // Writes a premise, and answers its line's number.
    #[tactic(auto, using(crate::proofs::Sounding::gathers_sound))]
    pub fn premise(&mut self, formula: usize) -> Result<usize, Refusal>
        ensures exact { (h : History) → Gathered self.old h → MatchResult result (λ n. Accepted (checks self.old h formula) × (n ≡ suc (count h)) × Gathered self.new (premise (formula_of (sheet_of self.old) formula) ∷ h)) (Refused (checks self.old h formula)) }
        ensures sound { (h : History) → Gathered self.new h → Sound (mode_of self.new) h }
        ensures leaves { Leaves (sheet_of self.old) (sheet_of self.new) }
        ensures unchanged { OnErr result (self.new ≡ self.old) }
    {
        check_stored(self.store, formula)?;
        if self.count >= MOST_PREMISES {
            return Err(Refusal::ManyPremises);
        }
        check_room(self.count, self.lines.len())?;
        self.lines[self.count] = Line {
            formula,
            reason: Reason::Premise,
            ..BLANK
        };
        self.count += 1;
        Ok(self.count)
    }
}
