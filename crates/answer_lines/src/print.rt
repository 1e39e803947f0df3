// Prints an answer.
ghost use Rattle.std.specs.Prelude.{◌≡◌, ◌≤◌, length, Err};
ghost use Rattle.formulas.specs.Stores.{contents};
ghost use Rattle.printing.specs.Limits.{longest_line};
ghost use Rattle.answer_lines.specs.Lines.{CanBeTold, CheckedCanBeTold, VerdictCanBeTold, UnansweredPrinted, CheckedPrinted, VerdictPrinted};

use crate::unprinted::Unprinted;
use answers::checked::Checked;
use answers::unanswered::Unanswered;
use formulas::store::Store;
use printing::checked::write_checked;
use printing::fault::write_fault;
use printing::verdict::write_verdict;
use verdicts::verdict::Verdict;

// The line of a fault; or which slice was too short for an answer.
fn print_unanswered(why: Unanswered, buffer: &mut [u8]) -> Result<usize, Unprinted>
    requires { CanBeTold why }
    ensures printed { UnansweredPrinted why buffer.old buffer.new result }
    ensures room { longest_line ≤ length buffer.old → result ≡ Err Unprinted.ShortBuffer → ⊥ }
{
    match why {
        Unanswered::Faulty(fault) => write_fault(&fault, buffer).map_err(
            |_| Unprinted::ShortBuffer,
        ),
        Unanswered::ShortValues => Err(Unprinted::ShortValues),
        _ => Err(Unprinted::ShortEntries),
    }
}

pub(crate) fn print_checked(
    answer: Result<Checked, Unanswered>,
    store: &Store,
    buffer: &mut [u8],
) -> Result<usize, Unprinted>
    requires { CheckedCanBeTold (contents store.now) answer }
    ensures printed { CheckedPrinted (contents store.now) answer buffer.old buffer.new result }
    ensures room { longest_line ≤ length buffer.old → result ≡ Err Unprinted.ShortBuffer → ⊥ }
{
    match answer {
        Ok(checked) => write_checked(&checked, store, buffer).map_err(|_| Unprinted::ShortBuffer),
        Err(why) => print_unanswered(why, buffer),
    }
}

pub(crate) fn print_verdict(
    answer: Result<Verdict, Unanswered>,
    buffer: &mut [u8],
) -> Result<usize, Unprinted>
    requires { VerdictCanBeTold answer }
    ensures printed { VerdictPrinted answer buffer.old buffer.new result }
    ensures room { longest_line ≤ length buffer.old → result ≡ Err Unprinted.ShortBuffer → ⊥ }
{
    match answer {
        Ok(verdict) => write_verdict(&verdict, buffer).map_err(|_| Unprinted::ShortBuffer),
        Err(why) => print_unanswered(why, buffer),
    }
}
