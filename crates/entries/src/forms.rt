// The forms of records.
ghost use Rattle.std.specs.Prelude.{◌≡◌, [], ◌∷◌, MatchResult};
ghost use Rattle.records.specs.Cursors.{fields_to_come};
ghost use Rattle.entries.specs.Entries.{cited};
ghost use Rattle.entries.specs.Forms.{onto, alone, text, mode_form, citations, step_form, one_number, pair_form, value_form, form};
ghost use Rattle.entries.specs.Texts.{seen, said_here};

use crate::citations::Citations;
use crate::entry::Entry;
use crate::kind::Kind;
use crate::names::{letter, mode_named, rule_named};
use records::fields::Fields;
use records::number::number;

// What was read, if no further field follows.
fn alone<T: Drop>(value: T, place: usize, fields: Fields) -> Result<T, usize>
    ensures { result ≡ alone value place (fields_to_come fields.entry) }
{
    let mut fields = fields;
    match fields.next() {
        None => Ok(value),
        Some(_) => Err(place),
    }
}

// The next field, which is due.
fn due<'r>(fields: &mut Fields<'r>, place: usize) -> Result<&'r [u8], usize>
    ensures { MatchResult result (λ f. fields_to_come fields.old ≡ f.now ∷ fields_to_come fields.new) (λ e. (fields_to_come fields.old ≡ []) × (e ≡ place)) }
{
    fields.next().ok_or(place)
}

fn text(fields: Fields<'_>) -> Result<&[u8], usize>
    ensures { onto seen result ≡ text (fields_to_come fields.entry) }
{
    let mut fields = fields;
    let text = due(&mut fields, 2)?;
    alone(text, 3, fields)
}

fn mode_form(fields: Fields<'_>) -> Result<Entry<&[u8]>, usize>
    ensures { onto said_here result ≡ mode_form (fields_to_come fields.entry) }
{
    let mut fields = fields;
    let mode = mode_named(due(&mut fields, 2)?).ok_or(2_usize)?;
    alone(Entry::Mode(mode), 3, fields)
}

fn citations(fields: Fields) -> Result<Citations, usize>
    ensures { onto cited result ≡ citations (fields_to_come fields.entry) }
{
    let mut fields = fields;
    let first = number(due(&mut fields, 4)?).ok_or(4_usize)? as usize;
    let Some(second) = fields.next() else {
        return Ok(Citations::One([first]));
    };
    let second = number(second).ok_or(5_usize)? as usize;
    let Some(third) = fields.next() else {
        return Ok(Citations::Two([first, second]));
    };
    let third = number(third).ok_or(6_usize)? as usize;
    alone(Citations::Three([first, second, third]), 7, fields)
}

fn step_form(fields: Fields<'_>) -> Result<Entry<&[u8]>, usize>
    ensures { onto said_here result ≡ step_form (fields_to_come fields.entry) }
{
    let mut fields = fields;
    let text = due(&mut fields, 2)?;
    let rule = rule_named(due(&mut fields, 3)?).ok_or(3_usize)?;
    Ok(Entry::Step(text, rule, citations(fields)?))
}

fn one_number(fields: Fields) -> Result<u32, usize>
    ensures { result ≡ one_number (fields_to_come fields.entry) }
{
    let mut fields = fields;
    let number = number(due(&mut fields, 2)?).ok_or(2_usize)?;
    alone(number, 3, fields)
}

fn pair_form(fields: Fields<'_>) -> Result<Entry<&[u8]>, usize>
    ensures { onto said_here result ≡ pair_form (fields_to_come fields.entry) }
{
    let mut fields = fields;
    let u = number(due(&mut fields, 2)?).ok_or(2_usize)?;
    let v = number(due(&mut fields, 3)?).ok_or(3_usize)?;
    alone(Entry::Pair(u, v), 4, fields)
}

fn value_form(fields: Fields<'_>) -> Result<Entry<&[u8]>, usize>
    ensures { onto said_here result ≡ value_form (fields_to_come fields.entry) }
{
    let mut fields = fields;
    let letter = letter(due(&mut fields, 2)?).ok_or(2_usize)?;
    let element = number(due(&mut fields, 3)?).ok_or(3_usize)?;
    alone(Entry::Value(letter, element), 4, fields)
}

// What a record of a kind says by the fields after it, or the first that is wrong, missing or surplus.
pub(crate) fn form(kind: Kind, fields: Fields<'_>) -> Result<Entry<&[u8]>, usize>
    ensures { onto said_here result ≡ form kind (fields_to_come fields.entry) }
{
    match kind {
        Kind::Mode => mode_form(fields),
        Kind::Premise => Ok(Entry::Premise(text(fields)?)),
        Kind::Assume => Ok(Entry::Assume(text(fields)?)),
        Kind::Step => step_form(fields),
        Kind::Close => alone(Entry::Close, 2, fields),
        Kind::Separator => alone(Entry::Separator, 2, fields),
        Kind::Base => Ok(Entry::Base(one_number(fields)?)),
        Kind::Pair => pair_form(fields),
        Kind::Nucleus => Ok(Entry::Nucleus(one_number(fields)?)),
        Kind::Value => value_form(fields),
    }
}
