// Weighs an input.
ghost use Rattle.formulas.specs.Stores.{capacity, contents, OthersStay};
ghost use Rattle.weighing_files.specs.Unique.{Answers};
ghost use Rattle.weighing_files.specs.Weighing.{Confirmed};

use crate::parts::split;
use algebra_files::weigh::weigh_in_file;
use answers::unanswered::Unanswered;
use entries::entry::Entry;
use entries::turn::Format;
use formulas::store::Store;
use ledger::line::Line;
use readings::read::read_input;
use scripts::derive::derive;
use verdicts::verdict::Verdict;

// The verdict on what the proof file shows, in the algebra of the algebra file; or the first fault; or which of the lent slices is too short.
pub fn weigh_input(
    store: &mut Store,
    entries: &mut [Entry<usize>],
    lines: &mut [Line],
    values: &mut [u32],
    input: &[u8],
) -> Result<Verdict, Unanswered>
    ensures exact { Answers (capacity store.old) input.now (contents store.old) (contents store.new) entries.old entries.new lines.old lines.new values.old values.new result }
    ensures confirmed { Confirmed (capacity store.old) input.now (contents store.old) result }
    ensures stay { OthersStay store.old store.new }
{
    let count = read_input(store, entries, Format::Weighing, input)?;
    let (proof, algebra) = split(&entries[..count]);
    let checked = derive(store, lines, proof)?;
    let first = proof.len() + 2;
    weigh_in_file(&checked.sequent, store, algebra, first, values)
}
