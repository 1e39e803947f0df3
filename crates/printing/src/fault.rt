// The line of a fault.
ghost use Rattle.std.specs.Prelude.{◌≡◌, ◌≤◌, length};
ghost use Rattle.answers.specs.Rows.{layer_letter, fault_row};
ghost use Rattle.printing.specs.Limits.{longest_line};
ghost use Rattle.printing.specs.Printing.{Printed};

use crate::ending::Ending;
use crate::row::write_row;
use answers::fault::{Fault, Layer};
use grammar::refusal::Refusal;
use grammar::told::Told;
use itoa::Buffer;

fn layer_letter(layer: Layer) -> [u8; 1]
    ensures { result ≡ layer_letter layer }
{
    match layer {
        Layer::Text => *b"T",
        Layer::Formula => *b"F",
        Layer::Derivation => *b"D",
        Layer::Algebra => *b"A",
    }
}

// Writes the line of a fault to the front of a buffer, and answers its length.
pub fn write_fault(fault: &Fault, buffer: &mut [u8]) -> Result<usize, Refusal>
    ensures printed { Printed (Unit {0}) (fault_row fault.now) buffer.old buffer.new result }
    ensures room { length (fault_row fault.now) ≤ longest_line }
{
    let (mut record, mut number, mut place) = (Buffer::new(), Buffer::new(), Buffer::new());
    let letter = layer_letter(fault.layer());
    let fields = [
        record.format(fault.record()).as_bytes(),
        &letter,
        number.format(fault.number()).as_bytes(),
        place.format(fault.place()).as_bytes(),
    ];
    write_row(b"NO", &fields, Ending::Nothing, buffer)
}
