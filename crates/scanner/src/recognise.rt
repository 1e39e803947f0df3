// Whether a text can be read at all.
ghost use Rattle.std.specs.Result.{MatchResult};
ghost use Rattle.grammar.specs.Reading.{Recognised, Unreadable};

use crate::scan::{Scanned, scan};
use grammar::refusal::Refusal;

const MOST_BYTES: usize = 1024;

const MOST_NESTING: usize = 32;

// How deep a text nests, and how many signs ~ & | > it has.
#[derive(Clone, Copy, PartialEq, Eq, Debug)]
pub struct Measured {
    pub nesting: usize,
    pub signs: usize,
}

// The measure of a text that is a formula's, or why it can be read by no store.
pub fn recognise(text: &[u8]) -> Result<Measured, Refusal>
    ensures { MatchResult result (λ m. Recognised text.now m.nesting m.signs) (λ e. Unreadable text.now e) }
{
    if text.len() > MOST_BYTES {
        return Err(Refusal::LongText);
    }
    let Scanned { end, measured } = scan(text, 0)?;
    if end < text.len() {
        return Err(Refusal::NotFormula(end));
    }
    if measured.nesting > MOST_NESTING {
        return Err(Refusal::DeepFormula);
    }
    Ok(measured)
}
