// What a record says.
ghost use Rattle.std.specs.Prelude.{◌≡◌};
ghost use Rattle.records.specs.Cursors.{piece};
ghost use Rattle.records.specs.Pieces.{fields};
ghost use Rattle.entries.specs.Forms.{onto, head_of, entry_form, record_form};
ghost use Rattle.entries.specs.Texts.{headed, said_next};

use crate::entry::Entry;
use crate::forms::form;
use crate::kind::Kind;
use crate::turn::{Format, Turn};
use records::fields::Fields;
use records::records::Record;

// The kind of a record, and the fields after it.
fn head(bytes: &[u8]) -> Option<(Kind, Fields<'_>)>
    ensures { headed result ≡ head_of (fields bytes.now) }
{
    match bytes {
        [kind] => Some((Kind::from_byte(*kind)?, Fields { rest: None })),
        [kind, b'\t', rest @ ..] => Some((Kind::from_byte(*kind)?, Fields { rest: Some(rest) })),
        _ => None,
    }
}

fn entry_of(format: Format, turn: Turn, bytes: &[u8]) -> Result<(Entry<&[u8]>, Turn), usize>
    ensures { onto said_next result ≡ entry_form format turn (fields bytes.now) }
{
    let (kind, fields) = head(bytes).ok_or(1_usize)?;
    let next = turn.after(format, kind).ok_or(1_usize)?;
    Ok((form(kind, fields)?, next))
}

// What a record says where it stands, and the turn after it; or the number of its first wrong, missing or surplus field.
pub fn parse(format: Format, turn: Turn, source: Record<'_>) -> Result<(Entry<&[u8]>, Turn), usize>
    ensures { onto said_next result ≡ record_form format turn (piece source.entry) }
{
    if !source.ended {
        return Err(source.count_fields());
    }
    entry_of(format, turn, source.bytes)
}
