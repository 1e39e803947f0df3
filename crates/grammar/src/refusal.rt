// Why a call on formulas is refused.
ghost use Rattle.grammar.specs.Refusals.{number_of, place_of};

use crate::told::Told;

#[derive(Clone, Copy, PartialEq, Debug)]
pub enum Refusal {
    // Fewer than 27 records.
    FewRecords,
    // A text of more than 1,024 bytes.
    LongText,
    // No formula's text, with its first wrong place.
    NotFormula(usize),
    // Nesting over 32.
    DeepFormula,
    // More signs than records are left.
    RecordsWanting,
    // A buffer that the text does not fit into.
    ShortBuffer,
    // A place that holds no formula.
    NotStored,
}

impl Told for Refusal {
    ghost number_of = { number_of };

    ghost place_of = { place_of };

    fn number(self) -> u8 {
        match self {
            Refusal::FewRecords => 1,
            Refusal::LongText => 2,
            Refusal::NotFormula(_) => 3,
            Refusal::DeepFormula => 4,
            Refusal::RecordsWanting => 5,
            Refusal::ShortBuffer => 6,
            Refusal::NotStored => 7,
        }
    }

    fn place(self) -> usize {
        match self {
            Refusal::NotFormula(at) => at,
            _ => 0,
        }
    }
}
