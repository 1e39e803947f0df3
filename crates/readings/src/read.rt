// Reads an input.
ghost use Rattle.std.specs.Prelude.{◌≡◌, ◌≤◌, length, Some, None};
ghost use Rattle.formulas.specs.Stores.{capacity, contents, OthersStay};
ghost use Rattle.records.specs.Pieces.{records};
ghost use Rattle.readings.specs.Answers.{RecordsRead, InputRead};

use crate::enter::read_record;
use answers::fault::{Fault, Reason};
use answers::unanswered::Unanswered;
use entries::entry::Entry;
use entries::turn::{Format, Turn};
use formulas::store::Store;
use records::records::Records;

const MOST_INPUT: usize = 65536;

// The records of an input for which there is room.
#[tactic(auto, using(crate::proofs::Going::still, crate::proofs::Going::stay_on))]
fn read_records(
    store: &mut Store,
    entries: &mut [Entry<usize>],
    format: Format,
    input: &[u8],
) -> Result<usize, Fault>
    requires { length (records input.now) ≤ length entries.old }
    ensures read { RecordsRead (capacity store.old) format input.now (contents store.old) (contents store.new) entries.old entries.new result }
    ensures stay { OthersStay store.old store.new }
{
    let mut turn = Turn::Start;
    let mut rest = Records { rest: input };
    let mut count = 0;
    while let Some(source) = rest.next() {
        let (entry, next) = read_record(store, format, turn, count + 1, source)?;
        entries[count] = entry;
        count += 1;
        turn = next;
    }
    if turn.is_complete(format) {
        Ok(count)
    } else {
        Err(Fault::At(count + 1, Reason::Form(1)))
    }
}

// How many records an input has; what each says is put into the entries, its formula by its place in the store.
// Or that it is too long, that there are fewer entries than records, or the first record that is wrong.
#[tactic(auto, using(crate::proofs::Going::still))]
pub fn read_input(
    store: &mut Store,
    entries: &mut [Entry<usize>],
    format: Format,
    input: &[u8],
) -> Result<usize, Unanswered>
    ensures read { InputRead (capacity store.old) format input.now (contents store.old) (contents store.new) entries.old entries.new result }
    ensures stay { OthersStay store.old store.new }
{
    if input.len() > MOST_INPUT {
        return Err(Unanswered::Faulty(Fault::TooLong));
    }
    let records = Records { rest: input };
    if records.count() > entries.len() {
        return Err(Unanswered::ShortEntries);
    }
    Ok(read_records(store, entries, format, input)?)
}
