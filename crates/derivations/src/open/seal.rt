// The end of the writing.
ghost use Rattle.grammar.specs.Formula.{Formula};
ghost use Rattle.fitch.specs.Exact.{Concludes};
ghost use Rattle.fitch.specs.History.{History, premises};
ghost use Rattle.soundness.specs.Soundness.{Entails, Sound};
ghost use Rattle.derivations.specs.Derived.{Derived};
ghost use Rattle.derivations.specs.Finished.{mode_by, Finished};
ghost use Rattle.derivations.specs.Moved.{Seals};

use crate::open::Open;
use crate::sealed::Sealed;

impl<'s, 'l> Open<'s, 'l> {
    // Ends the writing, with every line kept.
    pub fn seal(self) -> Sealed<'s, 'l>
        ensures history { (h : History) → Derived self.entry h → Finished result h }
        ensures sound { (h : History) → Finished result h → Sound (mode_by result) h }
        ensures entails { (h : History) (A : Formula) → Finished result h → Concludes h A → Entails (mode_by result) (premises h) A }
        ensures keeps { Seals self.entry result }
    {
        let Open {
            store,
            lines,
            count,
            mode,
            premises,
            boxes,
        } = self;
        Sealed {
            store,
            lines,
            count,
            mode,
            premises,
            boxes,
        }
    }
}
