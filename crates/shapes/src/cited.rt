// What a citation stands for, by places of a store.

// A line's formula, or what a box assumes and what it ends with.
#[derive(Clone, Copy, PartialEq, Debug)]
pub enum Cited {
    Line(usize),
    Box(usize, usize),
}
