// A product is an algebra, part by part. One that making would refuse is the algebra of one member.
ghost use Rattle.heyting.proofs.Products.{product_lawful};
ghost use Rattle.heyting.specs.Layers.{product};
ghost use Rattle.heyting.specs.Meaning.{Member};
ghost use Rattle.heyting.specs.Values.{operation};
ghost use Rattle.std.specs.Prelude.{◌≡◌};

use crate::product::Product;
use algebras::algebra::Algebra;
use grammar::connective::Connective;

impl<A: Algebra, B: Algebra> Product<A, B> {
    // An operation on members: that on their first parts, and that on their second.
    fn part_by_part(&self, connective: Connective, a: u32, b: u32) -> u32
        requires first { Member (product (A.Algebra.means self.now.first) (B.Algebra.means self.now.second)) a }
        requires second { Member (product (A.Algebra.means self.now.first) (B.Algebra.means self.now.second)) b }
        ensures { result ≡ operation (product (A.Algebra.means self.now.first) (B.Algebra.means self.now.second)) connective a b }
    {
        if !self.stands() {
            return 0;
        }
        let (x, y) = self.split(a);
        let (v, w) = self.split(b);
        self.code(
            self.first.operation_of(connective, x, v),
            self.second.operation_of(connective, y, w),
        )
    }
}

impl<A: Algebra, B: Algebra> Algebra for Product<A, B> {
    ghost means = { λ x. product (A.Algebra.means x.first) (B.Algebra.means x.second) };

    ghost lawful = { λ x. product_lawful (A.Algebra.means x.first) (B.Algebra.means x.second) (A.Algebra.lawful x.first) (B.Algebra.lawful x.second) };

    fn span(&self) -> u32 {
        if self.stands() {
            self.first.span() * self.second.span()
        } else {
            1
        }
    }

    fn contains(&self, a: u32) -> bool {
        if self.stands() {
            let (x, y) = self.split(a);
            self.first.contains(x) && self.second.contains(y)
        } else {
            a == 0
        }
    }

    fn bottom(&self) -> u32 {
        if self.stands() {
            self.code(self.first.bottom(), self.second.bottom())
        } else {
            0
        }
    }

    fn top(&self) -> u32 {
        if self.stands() {
            self.code(self.first.top(), self.second.top())
        } else {
            0
        }
    }

    fn meet_of(&self, a: u32, b: u32) -> u32 {
        self.part_by_part(Connective::And, a, b)
    }

    fn join_of(&self, a: u32, b: u32) -> u32 {
        self.part_by_part(Connective::Or, a, b)
    }

    fn arrow_of(&self, a: u32, b: u32) -> u32 {
        self.part_by_part(Connective::Implies, a, b)
    }
}
