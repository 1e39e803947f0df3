// The pairs of a member of one algebra and a member of another.

pub mod make;
pub mod ops;

// That the span is small enough is no ghost field, since no `Clone` is derived over one that speaks of what `A` and `B` mean; each operation tests it.
#[derive(Clone, Copy, Drop)]
pub struct Product<A, B> {
    first: A,
    second: B,
}
