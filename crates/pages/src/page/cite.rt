// What citations stand for. That what they answer is stored is said of each: a place is a number, and no type of it says in which store it stands.
ghost use Rattle.std.specs.Prelude.{◌≡◌, Decides, is_none, position};
ghost use Rattle.fitch.specs.Exact.{StillOpen};
ghost use Rattle.fitch.specs.History.{History};
ghost use Rattle.ledger.specs.Citing.{Resolves, PlacedIn};
ghost use Rattle.ledger.specs.Telling.{record_of};
ghost use Rattle.pages.specs.Pages.{Has, formulas_on};

use crate::page::Page;
use fitch::rule::Kind;
use shapes::cited::Cited;

impl<'p> Page<'p> {
    // Whether a box is open, by its first line, or there is none.
    fn is_open(&self, first: usize) -> bool
        ensures { (h : History) → Has self.now h → Decides result (StillOpen h first) }
    {
        self.record_of(first).is_none_or(|line| line.end == 0)
    }

    // The formula of a reachable line.
    #[tactic(auto, using(crate::proofs::Reading::line_steps))]
    fn line_cited(&self, number: usize) -> Option<Cited>
        ensures resolves { (h : History) → Has self.now h → Resolves (formulas_on self.now) h Kind.Line number result }
        ensures placed { PlacedIn (formulas_on self.now) result }
    {
        let line = self.record_of(number)?;
        if !self.is_open(line.inside) {
            return None;
        }
        Some(Cited::Line(line.formula))
    }

    // What a reachable box assumes, and what it ends with.
    #[tactic(auto, using(crate::proofs::Reading::box_steps))]
    fn box_cited(&self, number: usize) -> Option<Cited>
        ensures resolves { (h : History) → Has self.now h → Resolves (formulas_on self.now) h Kind.Box number result }
        ensures placed { PlacedIn (formulas_on self.now) result }
    {
        let first = self.record_of(number)?;
        if first.inside != number || !self.is_open(first.around) {
            return None;
        }
        let last = self.record_of(first.end)?;
        Some(Cited::Box(first.formula, last.formula))
    }

    pub(crate) fn stands_for(&self, kind: Kind, number: usize) -> Option<Cited>
        ensures resolves { (h : History) → Has self.now h → Resolves (formulas_on self.now) h kind number result }
        ensures placed { PlacedIn (formulas_on self.now) result }
    {
        match kind {
            Kind::Line => self.line_cited(number),
            Kind::Box => self.box_cited(number),
        }
    }

    // The place, counted from 0, of the first citation that names no line.
    pub(crate) fn missing(&self, citations: &[usize]) -> Option<usize>
        ensures { result ≡ position (λ number. is_none (record_of self.now.lines.now number)) citations.now }
    {
        citations
            .iter()
            .position(|number| self.record_of(*number).is_none())
    }
}
