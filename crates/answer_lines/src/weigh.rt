// The line for a proof file and an algebra file.
ghost use Rattle.std.specs.Prelude.{◌≤◌, length, IsOk};
ghost use Rattle.formulas.specs.Stores.{capacity, contents, OthersStay};
ghost use Rattle.records.specs.Pieces.{records};
ghost use Rattle.printing.specs.Limits.{longest_line};
ghost use Rattle.answer_lines.specs.Answered.{WeighedLine};

use crate::print::print_verdict;
use crate::unprinted::Unprinted;
use entries::entry::Entry;
use formulas::store::Store;
use ledger::line::Line;
use weighing_files::weigh::weigh_input;

// Weighs an input, and writes the line of the verdict, or of the first fault, to the front of a buffer; answers the line's length.
pub fn weigh_line(
    store: &mut Store,
    entries: &mut [Entry<usize>],
    lines: &mut [Line],
    values: &mut [u32],
    input: &[u8],
    buffer: &mut [u8],
) -> Result<usize, Unprinted>
    ensures line { WeighedLine (capacity store.old) input.now (contents store.old) (contents store.new) entries.old entries.new lines.old lines.new values.old values.new buffer.old buffer.new result }
    ensures stay { OthersStay store.old store.new }
    ensures always { length (records input.now) ≤ length entries.old → capacity store.old ≤ length values.old → longest_line ≤ length buffer.old → IsOk result }
{
    let answer = weigh_input(store, entries, lines, values, input);
    print_verdict(answer, buffer)
}
