// The checks of a step.
ghost use Rattle.std.specs.Prelude.{MatchResult};
ghost use Rattle.fitch.specs.Checks.{Accepted, Refused};
ghost use Rattle.fitch.specs.History.{History};
ghost use Rattle.derivations.specs.Derived.{Derived, checks_of_step};

use crate::open::Open;
use crate::sheet::check::{check_room, check_stored};
use crate::sheet::page::first_lines;
use fitch::refusal::Refusal;
use fitch::rule::Rule;
use rules::fits::fits;

impl<'s, 'l> Open<'s, 'l> {
    // Whether a step is taken, and if not, the first reason against it.
    #[tactic(auto, using(crate::proofs::Writing::recorded_open))]
    pub(crate) fn check(
        &self,
        formula: usize,
        rule: Rule,
        citations: &[usize],
    ) -> Result<(), Refusal>
        ensures { (h : History) → Derived self.now h → MatchResult result (λ _. Accepted (checks_of_step self.now h formula rule citations.now)) (Refused (checks_of_step self.now h formula rule citations.now)) }
    {
        check_stored(self.store, formula)?;
        let cited = first_lines(self.store, self.lines, self.count).cited(rule, citations)?;
        if !rule.serves(self.mode) {
            return Err(Refusal::NotOfMode);
        }
        if !fits(self.store, formula, rule, &cited[..citations.len()]) {
            return Err(Refusal::DoesNotFit);
        }
        check_room(self.count, self.lines.len())
    }
}
