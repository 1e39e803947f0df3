// Checks a proof file.
ghost use Rattle.std.specs.Prelude.{IfOk};
ghost use Rattle.formulas.specs.Stores.{capacity, contents, OthersStay};
ghost use Rattle.scripts.specs.Proofs.{Entailed};
ghost use Rattle.checking.specs.Unique.{Answers};

use answers::checked::Checked;
use answers::unanswered::Unanswered;
use entries::entry::Entry;
use entries::turn::Format;
use formulas::store::Store;
use ledger::line::Line;
use readings::read::read_input;
use scripts::derive::derive;

// What a proof file shows, its formulas read into the store, its records into the entries, and its lines written to the line records; or its first fault; or that there are fewer entries than records.
pub fn check(
    store: &mut Store,
    entries: &mut [Entry<usize>],
    lines: &mut [Line],
    input: &[u8],
) -> Result<Checked, Unanswered>
    ensures exact { Answers (capacity store.old) input.now (contents store.old) (contents store.new) entries.old entries.new lines.old lines.new result }
    ensures entails { IfOk result (Entailed (contents store.new)) }
    ensures stay { OthersStay store.old store.new }
{
    let count = read_input(store, entries, Format::Proof, input)?;
    Ok(derive(store, lines, &entries[..count])?)
}
