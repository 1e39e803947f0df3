// What is told of lines.
ghost use Rattle.std.specs.Prelude.{◌≡◌};
ghost use Rattle.fitch.specs.History.{History};
ghost use Rattle.ledger.specs.Telling.{record_of, LineTold, LastTop};
ghost use Rattle.pages.specs.Pages.{Has, formulas_on};

use crate::page::Page;
use fitch::refusal::Refusal;
use ledger::line::{Line, LineInfo};

impl<'p> Page<'p> {
    // The record of a line, by its number, counted from 1.
    pub(crate) fn record_of(&self, number: usize) -> Option<Line>
        ensures { result ≡ record_of self.now.lines.now number }
    {
        self.lines.get(number.checked_sub(1)?).copied()
    }

    // What is told of a line, by its number, counted from 1. The refusal's place is 0, since nothing is cited.
    #[tactic(auto, using(ledger::proofs::Informing::line_told))]
    pub fn line(&self, number: usize) -> Result<LineInfo, Refusal>
        ensures { (h : History) → Has self.now h → LineTold (formulas_on self.now) h number result }
    {
        self.record_of(number)
            .map(LineInfo::from)
            .ok_or(Refusal::NoSuchLine(0))
    }

    // The number, counted from 1, of the last line that no box contains, if there is one.
    pub fn last_top(&self) -> Option<usize>
        ensures { LastTop self.now.lines.now result }
    {
        self.lines
            .iter()
            .rposition(|line| line.inside == 0)
            .map(|place| place + 1)
    }
}
