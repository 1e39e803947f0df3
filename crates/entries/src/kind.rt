// The kinds of records.

mod name;

#[derive(Clone, Copy, PartialEq, Debug)]
pub enum Kind {
    Mode,
    Premise,
    Assume,
    Step,
    Close,
    Separator,
    Base,
    Pair,
    Nucleus,
    Value,
}
