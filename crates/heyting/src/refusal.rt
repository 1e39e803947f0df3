// Why a call on algebras is refused.
ghost use Rattle.heyting.specs.Refusals.{number_of, place_of};

use grammar::told::Told;

#[derive(Clone, Copy, PartialEq, Debug)]
pub enum Refusal {
    // The number of worlds is not 1 to 12.
    WorldsOutOfRange,
    // A pair names no world; the first such pair, from 1.
    NoSuchWorld(usize),
    // The span of a product is over 65,536.
    SpanTooLarge,
    // The element of a layer is no member of the algebra below.
    NotMember,
    // A buffer shorter than the store's count.
    ShortBuffer,
    // A letter's element is no member; the first such letter, a being 1.
    LetterNotMember(usize),
}

impl Told for Refusal {
    ghost number_of = { number_of };

    ghost place_of = { place_of };

    fn number(self) -> u8 {
        match self {
            Refusal::WorldsOutOfRange => 19,
            Refusal::NoSuchWorld(_) => 20,
            Refusal::SpanTooLarge => 23,
            Refusal::NotMember => 24,
            Refusal::ShortBuffer => 25,
            Refusal::LetterNotMember(_) => 26,
        }
    }

    fn place(self) -> usize {
        match self {
            Refusal::NoSuchWorld(pair) => pair,
            Refusal::LetterNotMember(letter) => letter,
            _ => 0,
        }
    }
}
