// Why a call on derivations is refused.
ghost use Rattle.fitch.specs.Refusals.{number_of, place_of};

use grammar::told::Told;

// A citation is counted from 1.
#[derive(Clone, Copy, PartialEq, Debug)]
pub enum Refusal {
    // A place that holds no formula.
    NotStored,
    // Already 32 premises.
    ManyPremises,
    // No line record is left.
    NoRecord,
    // Already 16 boxes open.
    ManyBoxes,
    // Not as many citations as the rule takes.
    WrongNumber,
    // A citation that names no line; the first such.
    NoSuchLine(usize),
    // A citation of a line that is not reachable, or of no reachable box; the first such.
    NotReachable(usize),
    // A rule that is not of the mode.
    NotOfMode,
    // A rule that does not give the formula from what is cited.
    DoesNotFit,
    // No box is open.
    NoOpenBox,
    // A box is open.
    BoxOpen,
    // No line stands at the top level.
    NoTopLine,
}

impl Told for Refusal {
    ghost number_of = { number_of };

    ghost place_of = { place_of };

    fn number(self) -> u8 {
        match self {
            Refusal::NotStored => 7,
            Refusal::ManyPremises => 8,
            Refusal::NoRecord => 9,
            Refusal::ManyBoxes => 10,
            Refusal::WrongNumber => 11,
            Refusal::NoSuchLine(_) => 12,
            Refusal::NotReachable(_) => 13,
            Refusal::NotOfMode => 14,
            Refusal::DoesNotFit => 15,
            Refusal::NoOpenBox => 16,
            Refusal::BoxOpen => 17,
            Refusal::NoTopLine => 18,
        }
    }

    fn place(self) -> usize {
        match self {
            Refusal::NoSuchLine(citation) => citation,
            Refusal::NotReachable(citation) => citation,
            _ => 0,
        }
    }
}
