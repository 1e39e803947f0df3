// One of the two parts of a joined formula.
ghost use Rattle.std.specs.Prelude.{◌≡◌};
ghost use Rattle.shapes.specs.Sides.{part_on};

#[derive(Clone, Copy, PartialEq, Eq, Debug)]
pub enum Side {
    Left,
    Right,
}

impl Side {
    // The part on this side.
    pub fn part(self, parts: (usize, usize)) -> usize
        ensures { result ≡ part_on self parts }
    {
        let (first, second) = parts;
        match self {
            Side::Left => first,
            Side::Right => second,
        }
    }
}
