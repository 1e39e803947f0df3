// The line of a verdict.
ghost use Rattle.std.specs.Prelude.{◌≤◌, length};
ghost use Rattle.answers.specs.Rows.{verdict_row};
ghost use Rattle.printing.specs.Limits.{longest_line};
ghost use Rattle.printing.specs.Printing.{Printed};

use crate::ending::Ending;
use crate::row::write_row;
use grammar::refusal::Refusal;
use itoa::Buffer;
use verdicts::verdict::Verdict;

// Writes the line of a verdict to the front of a buffer, and answers its length.
pub fn write_verdict(verdict: &Verdict, buffer: &mut [u8]) -> Result<usize, Refusal>
    ensures printed { Printed (Unit {0}) (verdict_row verdict.now) buffer.old buffer.new result }
    ensures room { length (verdict_row verdict.now) ≤ longest_line }
{
    let word: &[u8] = if verdict.holds { b"HOLDS" } else { b"FAILS" };
    let (mut meet, mut conclusion) = (Buffer::new(), Buffer::new());
    let fields = [
        meet.format(verdict.meet).as_bytes(),
        conclusion.format(verdict.conclusion).as_bytes(),
    ];
    write_row(word, &fields, Ending::Nothing, buffer)
}
