// Who writes a derivation.
ghost use Rattle.std.specs.Prelude.{Result};
ghost use Rattle.derivations.specs.Derived.{Leaves};
ghost use Rattle.derivations.specs.Gathered.{sheet_of};
ghost use Rattle.derivations.specs.Sheets.{Leaves as LeavesSheet};
ghost use Rattle.derivations.specs.declared.gathering.Gathering.{Gathering as AGathering};
ghost use Rattle.derivations.specs.declared.open.Open.{Open as AnOpen};
ghost use Rattle.derivations.specs.declared.sealed.Sealed.{Sealed as ASealed};

use crate::gathering::Gathering;
use crate::open::Open;
use crate::sealed::Sealed;

// Writes the premises of a derivation, then its other lines, and tells what it shows once it is sealed. An implementation says what each of the three does.
pub trait Author {
    // What is told of the sealed derivation.
    type Told;
    // Why nothing is told.
    type Fault;

    ghost gathers: { Self → AGathering → Result Unit Self.Fault → AGathering → Type 0 };

    ghost writes: { Self → AnOpen → Result Unit Self.Fault → AnOpen → Type 0 };

    ghost tells: { Self → ASealed → Result Self.Told Self.Fault → Type 0 };

    fn gather(&self, gathering: &mut Gathering) -> Result<(), Self::Fault>
        ensures gathers { gathers self.now gathering.old result gathering.new }
        ensures leaves { LeavesSheet (sheet_of gathering.old) (sheet_of gathering.new) };

    fn write(&self, derivation: &mut Open) -> Result<(), Self::Fault>
        ensures writes { writes self.now derivation.old result derivation.new }
        ensures leaves { Leaves derivation.old derivation.new };

    fn tell(&self, derivation: &Sealed) -> Result<Self::Told, Self::Fault>
        ensures { tells self.now derivation.now result };
}
