// Lines by a rule.
ghost use Rattle.std.specs.Prelude.{◌≡◌, suc, ◌∷◌, MatchResult, OnErr};
ghost use Rattle.fitch.specs.Checks.{Accepted, Refused};
ghost use Rattle.fitch.specs.History.{History, count, step};
ghost use Rattle.fitch.specs.Records.{padded as kept_citations};
ghost use Rattle.soundness.specs.Soundness.{Sound};
ghost use Rattle.derivations.specs.Derived.{mode_in, sheet_in, Derived, Leaves, checks_of_step};
ghost use Rattle.derivations.specs.Sheets.{formula_of};

use crate::open::Open;
use fitch::refusal::Refusal;
use fitch::rule::{MOST_CITATIONS, Reason, Rule};
use ledger::line::{BLANK, Line};
use std::array;

// The citations as they are kept, with 0 behind them, since a record takes no heap.
fn padded(citations: &[usize]) -> [usize; MOST_CITATIONS]
    ensures { result ≡ kept_citations citations.now }
{
    array::from_fn(|place| citations.get(place).copied().unwrap_or(0))
}

impl<'s, 'l> Open<'s, 'l> {
    // Writes a line by a rule, and answers its number. A struct of formula, rule and citations would be made for the call, and taken apart in it.
    #[tactic(auto, using(crate::proofs::Sounding::derived_sound))]
    pub fn step(
        &mut self,
        formula: usize,
        rule: Rule,
        citations: &[usize],
    ) -> Result<usize, Refusal>
        ensures exact { (h : History) → Derived self.old h → MatchResult result (λ n. Accepted (checks_of_step self.old h formula rule citations.now) × (n ≡ suc (count h)) × Derived self.new (step (formula_of (sheet_in self.old) formula) rule citations.now ∷ h)) (Refused (checks_of_step self.old h formula rule citations.now)) }
        ensures sound { (h : History) → Derived self.new h → Sound (mode_in self.new) h }
        ensures leaves { Leaves self.old self.new }
        ensures unchanged { OnErr result (self.new ≡ self.old) }
    {
        self.check(formula, rule, citations)?;
        let inside = self.boxes.innermost();
        self.lines[self.count] = Line {
            formula,
            reason: Reason::Step(rule, padded(citations)),
            inside,
            ..BLANK
        };
        self.count += 1;
        self.boxes.extend(self.count);
        Ok(self.count)
    }
}
