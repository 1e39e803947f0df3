// What a finished derivation shows.
ghost use Rattle.std.specs.Prelude.{◌≡◌, map, take, IfOk, MatchResult};
ghost use Rattle.grammar.specs.Contents.{formula_at};
ghost use Rattle.fitch.specs.Calls.{sequent_checks};
ghost use Rattle.fitch.specs.Checks.{Accepted, Refused};
ghost use Rattle.fitch.specs.History.{History};
ghost use Rattle.ledger.specs.Sequents.{SequentOf, places_of, premise_places};
ghost use Rattle.soundness.specs.Soundness.{Entails};
ghost use Rattle.derivations.specs.Finished.{mode_by, Finished, formulas_by};

use crate::sealed::Sealed;
use crate::sheet::page::first_lines;
use fitch::refusal::Refusal;
use ledger::sequent::{MOST_PREMISES, Sequent};

impl<'s, 'l> Sealed<'s, 'l> {
    // The places of the premises, and 0 behind them, as a sequent keeps them, which takes no heap.
    fn premise_places(&self) -> [usize; MOST_PREMISES]
        ensures { result ≡ places_of (take self.now.premises self.now.lines.now) }
    {
        let premises = &self.lines[..self.premises];
        // By a loop, since the proof of `array::from_fn` over so many places did not close.
        let mut places = [0; MOST_PREMISES];
        for (place, line) in premises.iter().enumerate() {
            places[place] = line.formula;
        }
        places
    }

    // The mode, the premises, and the last line that no box contains.
    #[tactic(auto, using(crate::proofs::Writing::recorded_sealed))]
    pub fn sequent(&self) -> Result<Sequent, Refusal>
        ensures exact { (h : History) → Finished self.now h → MatchResult result (λ s. Accepted (sequent_checks h) × SequentOf (mode_by self.now) (formulas_by self.now) h s) (Refused (sequent_checks h)) }
        ensures mode { IfOk result (λ s. s.mode ≡ mode_by self.now) }
        ensures entails { IfOk result (λ s. Entails s.mode (map (formula_at (formulas_by self.now)) (premise_places s)) (formula_at (formulas_by self.now) s.conclusion)) }
    {
        if self.boxes.top().is_some() {
            return Err(Refusal::BoxOpen);
        }
        let page = first_lines(self.store, self.lines, self.count);
        let last = page.last_top().ok_or(Refusal::NoTopLine)?;
        Ok(Sequent {
            mode: self.mode,
            places: self.premise_places(),
            count: self.premises,
            conclusion: page.lines[last - 1].formula,
        })
    }
}
