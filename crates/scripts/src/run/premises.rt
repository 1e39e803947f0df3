// The records of premises.
ghost use Rattle.std.specs.Prelude.{◌≡◌, ◌+◌, ◌<◌, ◌≤◌, ◌^◌, length, map};
ghost use Rattle.fitch.specs.History.{History};
ghost use Rattle.derivations.specs.Gathered.{sheet_of, Gathered};
ghost use Rattle.derivations.specs.Sheets.{Leaves};
ghost use Rattle.entries.specs.Entries.{stored};
ghost use Rattle.scripts.specs.Runs.{gathering_calls, Ran, RanOne};

use answers::fault::{Fault, Reason};
use derivations::gathering::Gathering;
use entries::entry::Entry;

// One record, of a number; one that is no premise is passed over.
fn gather_one(gathering: &mut Gathering, entry: Entry<usize>, number: usize) -> Result<(), Fault>
    ensures ran { (h : History) → Gathered gathering.old h → RanOne (gathering_calls gathering.old) (Gathered gathering.new) h number (stored entry) result }
    ensures leaves { Leaves (sheet_of gathering.old) (sheet_of gathering.new) }
{
    if let Entry::Premise(place) = entry {
        gathering
            .premise(place)
            .map_err(|refusal| Fault::At(number, Reason::Derivation(refusal)))?;
    }
    Ok(())
}

pub(crate) fn gather(
    gathering: &mut Gathering,
    entries: &[Entry<usize>],
    first: usize,
) -> Result<(), Fault>
    requires { first + length entries.now < 2 ^ 64 }
    ensures ran { (h : History) → Gathered gathering.old h → Ran (gathering_calls gathering.old) (Gathered gathering.new) h first (map stored entries.now) result }
    ensures leaves { Leaves (sheet_of gathering.old) (sheet_of gathering.new) }
{
    for (place, entry) in entries.iter().enumerate() {
        gather_one(gathering, *entry, first + place)?;
    }
    Ok(())
}
