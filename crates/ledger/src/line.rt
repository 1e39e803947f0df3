// Lines as they are kept, and as they are told.
ghost use Rattle.std.specs.Prelude.{◌≡◌};
ghost use Rattle.ledger.specs.Telling.{info};

use fitch::rule::Reason;

// `formula` is a place of the store. `inside` is the first line of the innermost box that contains the line, or 0.
// Of a box's first line, `around` is the next box out, or 0, and `end` the last line directly in the box, or 0 while it is open.
// Lines count from 1, so that 0 stands for no box, as the theory of records writes it: an Option of each number would only be taken apart again.
#[derive(Clone, Copy, PartialEq, Debug)]
pub struct Line {
    pub formula: usize,
    pub reason: Reason,
    pub inside: usize,
    pub around: usize,
    pub end: usize,
}

// A line in no box, to fill a slice with before it is lent.
pub const BLANK: Line = Line {
    formula: 0,
    reason: Reason::Premise,
    inside: 0,
    around: 0,
    end: 0,
};

// A line's formula, by its place; why it stands; and the innermost box that contains it, by its first line, or 0, as it is kept.
#[derive(Clone, Copy, PartialEq, Debug)]
pub struct LineInfo {
    pub formula: usize,
    pub reason: Reason,
    pub innermost: usize,
}

impl From<Line> for LineInfo {
    ghost from_gives = { λ line told. told ≡ info line };

    fn from(line: Line) -> LineInfo {
        LineInfo {
            formula: line.formula,
            reason: line.reason,
            innermost: line.inside,
        }
    }
}
