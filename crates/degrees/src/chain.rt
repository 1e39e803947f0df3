// A chain of degrees, from falsehood at 0 to truth.
ghost use Rattle.std.specs.Prelude.{◌≤◌};
ghost use Rattle.heyting.specs.Limits.{most_span};

pub mod make;
pub mod ops;

#[derive(Clone, Copy)]
pub struct Chain {
    degrees: u32,
    ghost least: { 1 ≤ degrees },
    ghost most: { degrees ≤ most_span },
}
