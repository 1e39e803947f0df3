// Which kind may follow on what, and where a file may end.
ghost use Rattle.std.specs.Prelude.{◌≡◌};
ghost use Rattle.entries.specs.Turns.{follow, complete};

use crate::kind::Kind;
use crate::turn::{Format, Turn};

impl Turn {
    // The turn after a record of a kind, if one may come now.
    pub fn after(self, format: Format, kind: Kind) -> Option<Turn>
        ensures { result ≡ follow format self kind }
    {
        match (self, kind) {
            (Turn::Start, Kind::Mode) => Some(Turn::Premises),
            (Turn::Premises, Kind::Premise) => Some(Turn::Premises),
            (Turn::Premises | Turn::Body, Kind::Assume | Kind::Step | Kind::Close) => {
                Some(Turn::Body)
            }
            (Turn::Premises | Turn::Body, Kind::Separator) => match format {
                Format::Proof => None,
                Format::Weighing => Some(Turn::Parted),
            },
            (Turn::Parted, Kind::Base) => Some(Turn::First),
            (Turn::First, Kind::Base) => Some(Turn::Second),
            (Turn::First | Turn::Second, Kind::Pair) => Some(self),
            (Turn::First | Turn::Second, Kind::Nucleus) => Some(Turn::Layered),
            (Turn::First | Turn::Second | Turn::Layered | Turn::Values, Kind::Value) => {
                Some(Turn::Values)
            }
            _ => None,
        }
    }

    // Whether the input may end now.
    pub fn is_complete(self, format: Format) -> bool
        ensures { result ≡ complete format self }
    {
        match format {
            Format::Proof => matches!(self, Turn::Premises | Turn::Body),
            Format::Weighing => {
                matches!(
                    self,
                    Turn::First | Turn::Second | Turn::Layered | Turn::Values
                )
            }
        }
    }
}
