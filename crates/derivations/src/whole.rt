// A whole derivation, from its making to its end.
ghost use Rattle.derivations.specs.Whole.{Whole};

use crate::author::Author;
use crate::gathering::Gathering;
use crate::open::Open;
use crate::sealed::Sealed;
use boxes::boxes::Boxes;
use fitch::mode::Mode;
use formulas::store::Store;
use ledger::line::Line;

// Makes a derivation over a store and a slice of line records, has an author gather its premises, opens it, has its other lines written, seals it, and has it told; the first fault ends it.
// It is as by `new`, `open` and `seal`, which hand the slice on by value; who lent it learns here what it holds in the end.
pub fn derive_by<A: Author>(
    author: &A,
    store: &Store,
    lines: &mut [Line],
    mode: Mode,
) -> Result<A::Told, A::Fault>
    ensures { Whole (A.gathers author.now) (A.writes author.now) (A.tells author.now) store.entry lines.old mode result lines.new }
{
    let mut gathering = Gathering::new(store, lines, mode);
    author.gather(&mut gathering)?;
    let Gathering {
        store,
        lines,
        count,
        mode,
    } = gathering;
    let mut derivation = Open {
        store,
        lines,
        count,
        mode,
        premises: count,
        boxes: Boxes::new(),
    };
    author.write(&mut derivation)?;
    let Open {
        store,
        lines,
        count,
        mode,
        premises,
        boxes,
    } = derivation;
    let sealed = Sealed {
        store,
        lines,
        count,
        mode,
        premises,
        boxes,
    };
    author.tell(&sealed)
}
