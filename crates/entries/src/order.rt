// Where records are first out of turn.
ghost use Rattle.std.specs.Prelude.{◌≡◌, map, MatchOption};
ghost use Rattle.entries.specs.Entries.{stored};
ghost use Rattle.entries.specs.InTurn.{kind_said, InTurn, OutOfTurn};

use crate::entry::Entry;
use crate::kind::Kind;
use crate::turn::{Format, Turn};

fn kind_said(entry: &Entry<usize>) -> Kind
    ensures { result ≡ kind_said (stored entry.now) }
{
    match entry {
        Entry::Mode(_) => Kind::Mode,
        Entry::Premise(_) => Kind::Premise,
        Entry::Assume(_) => Kind::Assume,
        Entry::Step(..) => Kind::Step,
        Entry::Close => Kind::Close,
        Entry::Separator => Kind::Separator,
        Entry::Base(_) => Kind::Base,
        Entry::Pair(..) => Kind::Pair,
        Entry::Nucleus(_) => Kind::Nucleus,
        Entry::Value(..) => Kind::Value,
    }
}

// How many records come in their turns before the first that does not, or is absent though due; none where all come in their turns.
pub fn first_out_of_turn(format: Format, turn: Turn, entries: &[Entry<usize>]) -> Option<usize>
    ensures { MatchOption result (InTurn format turn (map stored entries.now)) (OutOfTurn format turn (map stored entries.now)) }
{
    let mut reached = turn;
    for (place, entry) in entries.iter().enumerate() {
        let Some(next) = reached.after(format, kind_said(entry)) else {
            return Some(place);
        };
        reached = next;
    }
    if reached.is_complete(format) {
        None
    } else {
        Some(entries.len())
    }
}
