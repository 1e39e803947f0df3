// The members of an algebra that the nucleus at an element fixes.

pub mod make;
pub mod ops;

// That the element is a member is no ghost field, since no `Clone` is derived over one that speaks of what `A` means; each operation tests it.
#[derive(Clone, Copy, Drop)]
pub struct Nucleus<A> {
    below: A,
    element: u32,
}
