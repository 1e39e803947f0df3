// The lines and the store of the derivation, to be read.
ghost use Rattle.std.specs.Prelude.{◌≡◌, IfOk};
ghost use Rattle.fitch.specs.History.{History, count};
ghost use Rattle.ledger.specs.Telling.{LineTold};
ghost use Rattle.derivations.specs.Finished.{Finished, formulas_by, LineEntailed};

use crate::sealed::Sealed;
use crate::sheet::page::first_lines;
use fitch::refusal::Refusal;
use formulas::store::Store;
use ledger::line::LineInfo;

impl<'s, 'l> Sealed<'s, 'l> {
    // The line of a number, counted from 1: what is in force at it entails its formula.
    #[tactic(auto, using(crate::proofs::Writing::recorded_sealed))]
    pub fn line(&self, number: usize) -> Result<LineInfo, Refusal>
        ensures exact { (h : History) → Finished self.now h → LineTold (formulas_by self.now) h number result }
        ensures entails { (h : History) → Finished self.now h → IfOk result (LineEntailed self.now h number) }
    {
        first_lines(self.store, self.lines, self.count).line(number)
    }

    // The store that it is written over, whose places the lines and the sequent name.
    pub fn store(&self) -> &'s Store
        ensures { result.now ≡ self.now.store.now }
    {
        self.store
    }

    // How many lines it has.
    #[tactic(auto)]
    pub fn count(&self) -> usize
        ensures { (h : History) → Finished self.now h → result ≡ count h }
    {
        self.count
    }
}
