// The line of an accepted proof file.
ghost use Rattle.std.specs.Prelude.{◌≡◌, ◌≤◌, length};
ghost use Rattle.formulas.specs.Stores.{contents};
ghost use Rattle.verdicts.specs.Weighing.{Stored};
ghost use Rattle.answers.specs.Rows.{checked_row};
ghost use Rattle.entries.specs.Kinds.{mode_letter};
ghost use Rattle.printing.specs.Limits.{longest_line};
ghost use Rattle.printing.specs.Printing.{Printed};

use crate::ending::Ending;
use crate::row::write_row;
use crate::spelling::{MOST_BYTES, spell};
use answers::checked::Checked;
use fitch::mode::Mode;
use formulas::store::Store;
use grammar::refusal::Refusal;
use itoa::Buffer;

fn mode_letter(mode: Mode) -> [u8; 1]
    ensures { result ≡ mode_letter mode }
{
    match mode {
        Mode::Constructive => *b"I",
        Mode::Classical => *b"C",
    }
}

// Writes the line of what a proof file shows to the front of a buffer, and answers its length.
pub fn write_checked(checked: &Checked, store: &Store, buffer: &mut [u8]) -> Result<usize, Refusal>
    ensures printed { Printed (Stored (contents store.now) checked.now.sequent) (checked_row (contents store.now) checked.now) buffer.old buffer.new result }
    ensures room { Stored (contents store.now) checked.now.sequent → length (checked_row (contents store.now) checked.now) ≤ longest_line }
{
    let sequent = &checked.sequent;
    let mut scratch = [0; MOST_BYTES];
    let conclusion = spell(store, sequent.conclusion, &mut scratch)?;
    let letter = mode_letter(sequent.mode);
    let mut lines = Buffer::new();
    let fields = [
        &letter[..],
        lines.format(checked.lines).as_bytes(),
        conclusion,
    ];
    let premises = Ending::Formulas(store, sequent.premises());
    write_row(b"OK", &fields, premises, buffer)
}
