// Why no line is printed.
ghost use Rattle.answer_lines.specs.Refusals.{number_of, place_of};

use grammar::told::Told;

#[derive(Clone, Copy, PartialEq, Debug)]
pub enum Unprinted {
    // The input has more records than the slice for them.
    ShortEntries,
    // The buffer for values is shorter than the store's count.
    ShortValues,
    // The line is longer than the buffer for it.
    ShortBuffer,
}

impl Told for Unprinted {
    ghost number_of = { number_of };

    ghost place_of = { place_of };

    fn number(self) -> u8 {
        match self {
            Unprinted::ShortEntries => 6,
            Unprinted::ShortValues => 25,
            Unprinted::ShortBuffer => 6,
        }
    }

    fn place(self) -> usize {
        0
    }
}
