// What an accepted proof file shows.
use ledger::sequent::Sequent;

// The sequent, and how many lines the derivation has.
#[derive(Clone, Copy, PartialEq, Debug)]
pub struct Checked {
    pub sequent: Sequent,
    pub lines: usize,
}
