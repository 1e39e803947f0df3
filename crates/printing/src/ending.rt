// The end of a line.
ghost use Rattle.std.specs.Prelude.{◌≡◌, [], ◌∷◌, map, length};
ghost use Rattle.grammar.specs.Writing.{text_at};
ghost use Rattle.formulas.specs.Stores.{contents};
ghost use Rattle.verdicts.specs.Weighing.{AllBelow};
ghost use Rattle.answers.specs.Rows.{after_tabs};
ghost use Rattle.printing.specs.Endings.{last_fields, IsStored};
ghost use Rattle.printing.specs.Printing.{Printed};

use crate::field::{field_len, write_field};
use crate::spelling::{MOST_BYTES, spell};
use formulas::store::Store;
use grammar::refusal::Refusal;

// What ends a line: its last byte alone, or formulas at places of a store before it.
#[derive(Clone, Copy)]
pub(crate) enum Ending<'a> {
    Nothing,
    Formulas(&'a Store, &'a [usize]),
}

// The last byte of a line.
fn write_end(buffer: &mut [u8]) -> Result<usize, Refusal>
    ensures { Printed (Unit {0}) (10 ∷ []) buffer.old buffer.new result }
{
    let Some(byte) = buffer.first_mut() else {
        return Err(Refusal::ShortBuffer);
    };
    *byte = b'\n';
    Ok(1)
}

// Formulas, each behind a tab, and the last byte.
fn write_formulas(store: &Store, places: &[usize], buffer: &mut [u8]) -> Result<usize, Refusal>
    ensures { Printed (AllBelow places.now (length (contents store.now))) (after_tabs (map (text_at (contents store.now)) places.now)) buffer.old buffer.new result }
{
    let [place, others @ ..] = places else {
        return write_end(buffer);
    };
    let mut scratch = [0; MOST_BYTES];
    let field = spell(store, *place, &mut scratch)?;
    let start = field_len(field);
    let (front, rest) = buffer.split_at_mut(start.min(buffer.len()));
    let end = start + write_formulas(store, others, rest)?;
    write_field(field, front);
    Ok(end)
}

impl Ending<'_> {
    // The last fields, each behind a tab, and the last byte.
    pub(crate) fn write(self, buffer: &mut [u8]) -> Result<usize, Refusal>
        ensures { Printed (IsStored self.entry) (after_tabs (last_fields self.entry)) buffer.old buffer.new result }
    {
        match self {
            Ending::Nothing => write_end(buffer),
            Ending::Formulas(store, places) => write_formulas(store, places, buffer),
        }
    }
}
