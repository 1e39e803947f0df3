// A fault of the algebra at a record.
ghost use Rattle.std.specs.Prelude.{◌≡◌};

use answers::fault::{Fault, Reason};
use heyting::refusal::Refusal;

pub(crate) fn at(number: usize, refusal: Refusal) -> Fault
    ensures { result ≡ Fault.At number (Reason.Algebra refusal) }
{
    Fault::At(number, Reason::Algebra(refusal))
}
