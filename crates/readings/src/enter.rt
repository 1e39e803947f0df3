// Reads one record.
ghost use Rattle.entries.specs.Texts.{said_here};
ghost use Rattle.entries.specs.Forms.{onto};
ghost use Rattle.records.specs.Cursors.{piece};
ghost use Rattle.formulas.specs.Stores.{capacity, contents, OthersStay};
ghost use Rattle.readings.specs.Reading.{EntersRecord, ReadsRecord};
ghost use Rattle.entries.specs.Entries.{stored};
ghost use Rattle.readings.specs.Answers.{stored_next, ReadsNumbered};

use answers::fault::{Fault, Reason};
use entries::entry::Entry;
use entries::parse::parse;
use entries::turn::{Format, Turn};
use formulas::store::Store;
use grammar::refusal::Refusal;
use records::records::Record;

// A record's formula goes into the store.
fn enter(store: &mut Store, said: Entry<&[u8]>) -> Result<Entry<usize>, Refusal>
    ensures enters { EntersRecord (capacity store.old) (said_here said.entry) (contents store.old) (contents store.new) (onto stored result) }
    ensures stay { OthersStay store.old store.new }
{
    Ok(match said {
        Entry::Mode(mode) => Entry::Mode(mode),
        Entry::Premise(text) => Entry::Premise(store.read(text)?),
        Entry::Assume(text) => Entry::Assume(store.read(text)?),
        Entry::Step(text, rule, citations) => Entry::Step(store.read(text)?, rule, citations),
        Entry::Close => Entry::Close,
        Entry::Separator => Entry::Separator,
        Entry::Base(worlds) => Entry::Base(worlds),
        Entry::Pair(u, v) => Entry::Pair(u, v),
        Entry::Nucleus(element) => Entry::Nucleus(element),
        Entry::Value(letter, element) => Entry::Value(letter, element),
    })
}

// Form, then formula.
fn read_one(
    store: &mut Store,
    format: Format,
    turn: Turn,
    source: Record<'_>,
) -> Result<(Entry<usize>, Turn), Reason>
    ensures reads { ReadsRecord (capacity store.old) format turn (piece source.entry) (contents store.old) (contents store.new) (onto stored_next result) }
    ensures stay { OthersStay store.old store.new }
{
    let (said, next) = parse(format, turn, source).map_err(Reason::Form)?;
    Ok((enter(store, said).map_err(Reason::Formula)?, next))
}

// The record of a number.
pub(crate) fn read_record(
    store: &mut Store,
    format: Format,
    turn: Turn,
    number: usize,
    source: Record<'_>,
) -> Result<(Entry<usize>, Turn), Fault>
    ensures reads { ReadsNumbered (capacity store.old) format turn number (piece source.entry) (contents store.old) (contents store.new) result }
    ensures stay { OthersStay store.old store.new }
{
    read_one(store, format, turn, source).map_err(|reason| Fault::At(number, reason))
}
