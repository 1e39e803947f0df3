// Makes a derivation, and ends its gathering.
ghost use Rattle.std.specs.Prelude.{◌≡◌, [], ◌∷◌};
ghost use Rattle.fitch.specs.History.{History, begin};
ghost use Rattle.soundness.specs.Soundness.{Sound};
ghost use Rattle.derivations.specs.Gathered.{sheet_of, Gathered};
ghost use Rattle.derivations.specs.Derived.{mode_in, Derived};
ghost use Rattle.derivations.specs.Moved.{Opens};
ghost use Rattle.derivations.specs.Sheets.{lent_sheet};

use crate::gathering::Gathering;
use crate::open::Open;
use boxes::boxes::Boxes;
use fitch::mode::Mode;
use formulas::store::Store;
use ledger::line::Line;

impl<'s, 'l> Gathering<'s, 'l> {
    // A derivation with no line, over a store and a slice of line records, of which the first 1,024 are used.
    pub fn new(store: &'s Store, lines: &'l mut [Line], mode: Mode) -> Gathering<'s, 'l>
        ensures history { Gathered result [] }
        ensures fresh { sheet_of result ≡ lent_sheet store.entry lines.entry mode 0 }
    {
        Gathering {
            store,
            lines,
            count: 0,
            mode,
        }
    }

    // Ends the gathering.
    #[tactic(auto, using(ledger::proofs::Calling::begun))]
    pub fn open(self) -> Open<'s, 'l>
        ensures history { (h : History) → Gathered self.entry h → Derived result (begin ∷ h) }
        ensures sound { (h : History) → Derived result h → Sound (mode_in result) h }
        ensures keeps { Opens self.entry result }
    {
        let Gathering {
            store,
            lines,
            count,
            mode,
        } = self;
        Open {
            store,
            lines,
            count,
            mode,
            premises: count,
            boxes: Boxes::new(),
        }
    }
}
