// What a record says.
use crate::citations::Citations;
use fitch::mode::Mode;
use fitch::rule::Rule;

// The formula of a record is a text as it is read, and a place once it is stored.
#[derive(Clone, Copy, PartialEq, Debug)]
pub enum Entry<F> {
    Mode(Mode),
    Premise(F),
    Assume(F),
    Step(F, Rule, Citations),
    Close,
    Separator,
    Base(u32),
    Pair(u32, u32),
    Nucleus(u32),
    Value(u8, u32),
}
