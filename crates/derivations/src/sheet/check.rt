// The checks of every call that writes.
ghost use Rattle.std.specs.Prelude.{◌<◌, length};
ghost use Rattle.formulas.specs.Stores.{contents};
ghost use Rattle.fitch.specs.Checks.{unless};
ghost use Rattle.fitch.specs.Limits.{most_lines};
ghost use Rattle.derivations.specs.Sheets.{Checked};

use fitch::refusal::Refusal;
use formulas::store::Store;

const MOST_LINES: usize = 1024;

// Refuses a place that holds no formula.
pub(crate) fn check_stored(store: &Store, place: usize) -> Result<(), Refusal>
    ensures { Checked (unless Refusal.NotStored (place < length (contents store.now))) result }
{
    if place >= store.count() {
        return Err(Refusal::NotStored);
    }
    Ok(())
}

// Refuses where so many lines leave no record for one more, of so many.
pub(crate) fn check_room(count: usize, records: usize) -> Result<(), Refusal>
    ensures { Checked (unless Refusal.NoRecord ((count < most_lines) × (count < records))) result }
{
    if count >= MOST_LINES || count >= records {
        return Err(Refusal::NoRecord);
    }
    Ok(())
}
