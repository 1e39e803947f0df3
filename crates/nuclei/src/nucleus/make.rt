// Makes a layer, and applies its nucleus.
ghost use Rattle.std.specs.Prelude.{◌≡◌, MatchResult};
ghost use Rattle.heyting.specs.Layers.{closure};
ghost use Rattle.heyting.specs.Meaning.{Member, Boolean};
ghost use Rattle.heyting.specs.Theorems.{DoubleNegations};
ghost use Rattle.heyting.specs.declared.refusal.Refusal.TheVariants.{NotMember};

use crate::nucleus::Nucleus;
use algebras::algebra::Algebra;
use heyting::refusal::Refusal;

// A layer that was not made, and the algebra that was to stand below it. Not one generic type with its likes, since each names what it gives back.
#[derive(Drop)]
pub struct NotMade<A> {
    pub refusal: Refusal,
    pub below: A,
}

// The refusal alone, for `?`.
impl<A: Drop> From<NotMade<A>> for Refusal {
    ghost from_gives = { λ e r. r ≡ e.refusal };

    fn from(not_made: NotMade<A>) -> Refusal {
        not_made.refusal
    }
}

impl<A: Algebra> Nucleus<A> {
    // The layer at an element.
    pub fn new(below: A, element: u32) -> Result<Nucleus<A>, NotMade<A>>
        ensures { MatchResult result (λ n. (n.below ≡ below) × (n.element ≡ element) × Member (A.Algebra.means below) element) (λ e. (e.refusal ≡ NotMember) × (e.below ≡ below) × (Member (A.Algebra.means below) element → ⊥)) }
    {
        if !below.contains(element) {
            return Err(NotMade {
                refusal: Refusal::NotMember,
                below,
            });
        }
        Ok(Nucleus { below, element })
    }

    // The layer at the bottom, whose members are those that equal their double negation.
    pub fn double_negation(below: A) -> Nucleus<A>
        ensures below { result.below ≡ below }
        ensures element { result.element ≡ (A.Algebra.means below).bottom }
        ensures member { Member (A.Algebra.means below) result.element }
        ensures values { DoubleNegations (A.Algebra.means below) (⟦<Nucleus<A> as Algebra>⟧.means result) }
        ensures boolean { Boolean (⟦<Nucleus<A> as Algebra>⟧.means result) }
    {
        let element = below.bottom();
        Nucleus { below, element }
    }

    // Whether making it would not have been refused.
    pub(crate) fn stands(&self) -> bool
        ensures { result ≡ (A.Algebra.means self.now.below).member self.now.element }
    {
        self.below.contains(self.element)
    }

    // The least member of the layer that lies above a member below.
    pub(crate) fn closure(&self, a: u32) -> u32
        requires element { Member (A.Algebra.means self.now.below) self.now.element }
        requires member { Member (A.Algebra.means self.now.below) a }
        ensures { result ≡ closure (A.Algebra.means self.now.below) self.now.element a }
    {
        self.below
            .arrow_of(self.below.arrow_of(a, self.element), self.element)
    }
}
