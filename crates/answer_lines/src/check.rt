// The line for a proof file.
ghost use Rattle.std.specs.Prelude.{◌≤◌, length, IsOk};
ghost use Rattle.formulas.specs.Stores.{capacity, contents, OthersStay};
ghost use Rattle.records.specs.Pieces.{records};
ghost use Rattle.printing.specs.Limits.{longest_line};
ghost use Rattle.answer_lines.specs.Answered.{CheckedLine};

use crate::print::print_checked;
use crate::unprinted::Unprinted;
use checking::check::check;
use entries::entry::Entry;
use formulas::store::Store;
use ledger::line::Line;

// Checks a proof file, and writes the line of what it shows, or of its first fault, to the front of a buffer; answers the line's length.
pub fn check_line(
    store: &mut Store,
    entries: &mut [Entry<usize>],
    lines: &mut [Line],
    input: &[u8],
    buffer: &mut [u8],
) -> Result<usize, Unprinted>
    ensures line { CheckedLine (capacity store.old) input.now (contents store.old) (contents store.new) entries.old entries.new lines.old lines.new buffer.old buffer.new result }
    ensures stay { OthersStay store.old store.new }
    ensures always { length (records input.now) ≤ length entries.old → longest_line ≤ length buffer.old → IsOk result }
{
    let answer = check(store, entries, lines, input);
    print_checked(answer, store, buffer)
}
