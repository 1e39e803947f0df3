// A layer is an algebra: that below, with the bottom and joins under the nucleus. One that making would refuse is the algebra of one member.
ghost use Rattle.heyting.proofs.Nuclei.{nucleus_lawful};
ghost use Rattle.heyting.specs.Layers.{nucleus};

use crate::nucleus::Nucleus;
use algebras::algebra::Algebra;

impl<A: Algebra> Algebra for Nucleus<A> {
    ghost means = { λ x. nucleus (A.Algebra.means x.below) x.element };

    ghost lawful = { λ x. nucleus_lawful (A.Algebra.means x.below) (A.Algebra.lawful x.below) x.element };

    fn span(&self) -> u32 {
        if self.stands() { self.below.span() } else { 1 }
    }

    fn contains(&self, a: u32) -> bool {
        if self.stands() {
            self.below.contains(a) && self.closure(a) == a
        } else {
            a == 0
        }
    }

    fn bottom(&self) -> u32 {
        if self.stands() {
            self.closure(self.below.bottom())
        } else {
            0
        }
    }

    fn top(&self) -> u32 {
        if self.stands() { self.below.top() } else { 0 }
    }

    fn meet_of(&self, a: u32, b: u32) -> u32 {
        if self.stands() {
            self.below.meet_of(a, b)
        } else {
            0
        }
    }

    fn join_of(&self, a: u32, b: u32) -> u32 {
        if self.stands() {
            self.closure(self.below.join_of(a, b))
        } else {
            0
        }
    }

    fn arrow_of(&self, a: u32, b: u32) -> u32 {
        if self.stands() {
            self.below.arrow_of(a, b)
        } else {
            0
        }
    }
}
