// Makes a product, and splits and makes its codes.
ghost use Rattle.std.specs.Prelude.{◌≡◌, ◌*◌, ◌/◌, ◌%◌, MatchResult, nat_le};
ghost use Rattle.heyting.specs.Layers.{coded, Pairable};
ghost use Rattle.heyting.specs.Limits.{most_span};
ghost use Rattle.heyting.specs.Meaning.{Member};
ghost use Rattle.heyting.specs.declared.refusal.Refusal.TheVariants.{SpanTooLarge};

use crate::product::Product;
use algebras::algebra::Algebra;
use heyting::limits::MOST_SPAN;
use heyting::refusal::Refusal;

// A product that was not made, and the algebras that were to be its parts. Not one generic type with its likes, since each names what it gives back.
#[derive(Drop)]
pub struct NotMade<A, B> {
    pub refusal: Refusal,
    pub first: A,
    pub second: B,
}

// The refusal alone, for `?`.
impl<A: Drop, B: Drop> From<NotMade<A, B>> for Refusal {
    ghost from_gives = { λ e r. r ≡ e.refusal };

    fn from(not_made: NotMade<A, B>) -> Refusal {
        not_made.refusal
    }
}

impl<A: Algebra, B: Algebra> Product<A, B> {
    // The product of two algebras.
    pub fn new(first: A, second: B) -> Result<Product<A, B>, NotMade<A, B>>
        ensures { MatchResult result (λ p. (p.first ≡ first) × (p.second ≡ second) × Pairable (A.Algebra.means first) (B.Algebra.means second)) (λ e. (e.refusal ≡ SpanTooLarge) × (e.first ≡ first) × (e.second ≡ second) × (Pairable (A.Algebra.means first) (B.Algebra.means second) → ⊥)) }
    {
        let product = Product { first, second };
        if product.stands() {
            return Ok(product);
        }
        let Product { first, second } = product;
        Err(NotMade {
            refusal: Refusal::SpanTooLarge,
            first,
            second,
        })
    }

    // Whether making it would not have been refused.
    pub(crate) fn stands(&self) -> bool
        ensures { result ≡ nat_le ((A.Algebra.means self.now.first).span * (B.Algebra.means self.now.second).span) most_span }
    {
        u64::from(self.first.span()) * u64::from(self.second.span()) <= u64::from(MOST_SPAN)
    }

    // The parts of a code.
    pub fn split(&self, code: u32) -> (u32, u32)
        ensures first { result.0 ≡ code / (B.Algebra.means self.now.second).span }
        ensures second { result.1 ≡ code % (B.Algebra.means self.now.second).span }
    {
        let span = self.second.span();
        (code / span, code % span)
    }

    // The code of two members.
    pub(crate) fn code(&self, x: u32, y: u32) -> u32
        requires small { Pairable (A.Algebra.means self.now.first) (B.Algebra.means self.now.second) }
        requires first { Member (A.Algebra.means self.now.first) x }
        requires second { Member (B.Algebra.means self.now.second) y }
        ensures { result ≡ coded (B.Algebra.means self.now.second).span x y }
    {
        x * self.second.span() + y
    }
}
