// What the citations of a rule stand for.
ghost use Rattle.std.specs.Prelude.{◌≡◌, length, IfOk, MatchResult};
ghost use Rattle.fitch.specs.Calls.{citation_checks};
ghost use Rattle.fitch.specs.Checks.{Accepted, Refused};
ghost use Rattle.fitch.specs.History.{History};
ghost use Rattle.fitch.specs.Rules.{kinds};
ghost use Rattle.ledger.specs.Citing.{ResolvesAll, AllPlacedIn, AllResolved, AllPlaced};
ghost use Rattle.pages.specs.Pages.{Has, formulas_on};

use crate::page::Page;
use fitch::refusal::Refusal;
use fitch::rule::{MOST_CITATIONS, Rule};
use shapes::cited::Cited;

impl<'p> Page<'p> {
    // What so many citations as the rule takes stand for, or the refusal of the first that stands for nothing reachable.
    fn resolve(&self, rule: Rule, citations: &[usize]) -> Result<[Cited; MOST_CITATIONS], Refusal>
        requires { length citations.now ≡ length (kinds rule) }
        ensures resolves { (h : History) → Has self.now h → ResolvesAll (formulas_on self.now) h rule citations.now result }
        ensures placed { AllPlacedIn (formulas_on self.now) (length citations.now) result }
    {
        // As many places as a rule cites at most, since nothing here has a heap; how many are used, the citations say.
        let mut cited = [Cited::Line(0); MOST_CITATIONS];
        // The kinds by place, which is counted anyway, since the first that fails is told by its number.
        let kinds = rule.kinds();
        for (place, number) in citations.iter().enumerate() {
            cited[place] = self
                .stands_for(kinds[place], *number)
                .ok_or(Refusal::NotReachable(place + 1))?;
        }
        Ok(cited)
    }

    // What the citations of a rule stand for, in their order, or the first reason why they stand for nothing.
    pub fn cited(&self, rule: Rule, citations: &[usize]) -> Result<[Cited; MOST_CITATIONS], Refusal>
        ensures exact { (h : History) → Has self.now h → MatchResult result (λ cs. Accepted (citation_checks h rule citations.now) × AllResolved (formulas_on self.now) h rule citations.now cs) (Refused (citation_checks h rule citations.now)) }
        ensures placed { IfOk result (AllPlaced (formulas_on self.now) (length citations.now)) }
    {
        if citations.len() != rule.arity() {
            return Err(Refusal::WrongNumber);
        }
        if let Some(place) = self.missing(citations) {
            return Err(Refusal::NoSuchLine(place + 1));
        }
        self.resolve(rule, citations)
    }
}
