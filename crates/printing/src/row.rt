// The fields of a line.
ghost use Rattle.std.specs.Prelude.{◌∷◌, ◌++◌, map};
ghost use Rattle.answers.specs.Rows.{after_tabs, row};
ghost use Rattle.printing.specs.Endings.{last_fields, IsStored};
ghost use Rattle.printing.specs.Printing.{Printed};

use crate::ending::Ending;
use crate::field::{field_len, write_field};
use grammar::refusal::Refusal;

// Fields, each behind a tab, and what ends the line.
fn write_fields(fields: &[&[u8]], ending: Ending<'_>, buffer: &mut [u8]) -> Result<usize, Refusal>
    ensures { Printed (IsStored ending.entry) (after_tabs (map (λ f. f.now) fields.now ++ last_fields ending.entry)) buffer.old buffer.new result }
{
    let [field, others @ ..] = fields else {
        return ending.write(buffer);
    };
    let start = field_len(field);
    let (front, rest) = buffer.split_at_mut(start.min(buffer.len()));
    let end = start + write_fields(others, ending, rest)?;
    write_field(field, front);
    Ok(end)
}

// A line, from its first field on.
pub(crate) fn write_row(
    first: &[u8],
    others: &[&[u8]],
    ending: Ending<'_>,
    buffer: &mut [u8],
) -> Result<usize, Refusal>
    ensures { Printed (IsStored ending.entry) (row (first.now ∷ map (λ f. f.now) others.now ++ last_fields ending.entry)) buffer.old buffer.new result }
{
    let start = first.len();
    let (front, rest) = buffer.split_at_mut(start.min(buffer.len()));
    let end = start + write_fields(others, ending, rest)?;
    front.copy_from_slice(first);
    Ok(end)
}
