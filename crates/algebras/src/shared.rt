use crate::algebra::Algebra;

// A reference to an algebra answers as the algebra does, so a layer may stand over what is only lent.
impl<A: Algebra> Algebra for &A {
    ghost means = { λ r. A.Algebra.means r.now };

    ghost lawful = { λ r. A.Algebra.lawful r.now };

    fn span(&self) -> u32 {
        (**self).span()
    }

    fn contains(&self, a: u32) -> bool {
        (**self).contains(a)
    }

    fn bottom(&self) -> u32 {
        (**self).bottom()
    }

    fn top(&self) -> u32 {
        (**self).top()
    }

    fn meet_of(&self, a: u32, b: u32) -> u32 {
        (**self).meet_of(a, b)
    }

    fn join_of(&self, a: u32, b: u32) -> u32 {
        (**self).join_of(a, b)
    }

    fn arrow_of(&self, a: u32, b: u32) -> u32 {
        (**self).arrow_of(a, b)
    }
}
