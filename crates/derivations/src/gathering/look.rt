// The lines of the derivation, to be read.
ghost use Rattle.fitch.specs.History.{History};
ghost use Rattle.ledger.specs.Telling.{LineTold};
ghost use Rattle.derivations.specs.Gathered.{Gathered, sheet_of};
ghost use Rattle.derivations.specs.Sheets.{formulas_of};

use crate::gathering::Gathering;
use crate::sheet::page::first_lines;
use fitch::refusal::Refusal;
use ledger::line::LineInfo;

impl<'s, 'l> Gathering<'s, 'l> {
    // The line of a number, counted from 1. Each state has its own, since each speaks of the histories of its own type.
    #[tactic(auto, using(crate::proofs::Writing::recorded_gathering))]
    pub fn line(&self, number: usize) -> Result<LineInfo, Refusal>
        ensures { (h : History) → Gathered self.now h → LineTold (formulas_of (sheet_of self.now)) h number result }
    {
        first_lines(self.store, self.lines, self.count).line(number)
    }
}
