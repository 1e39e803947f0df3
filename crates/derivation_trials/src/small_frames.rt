// Small frames, each by its pairs and by its order.
use frames::frame::Frame;
use heyting::refusal::Refusal;

// `above` has for each world the set of those at or above it.
pub(crate) struct Shape<'t> {
    pub(crate) worlds: u32,
    pub(crate) pairs: &'t [(u32, u32)],
    pub(crate) above: &'t [u32],
}

pub(crate) const TWO_STAGES: Shape<'static> = Shape {
    worlds: 2,
    pairs: &[(0, 1)],
    above: &[3, 2],
};

pub(crate) const FORK: Shape<'static> = Shape {
    worlds: 3,
    pairs: &[(0, 1), (0, 2)],
    above: &[7, 2, 4],
};

pub(crate) const SHAPES: [Shape<'static>; 7] = [
    Shape {
        worlds: 1,
        pairs: &[],
        above: &[1],
    },
    TWO_STAGES,
    FORK,
    Shape {
        worlds: 3,
        pairs: &[(0, 2), (1, 2)],
        above: &[5, 6, 4],
    },
    Shape {
        worlds: 3,
        pairs: &[(0, 1), (1, 2)],
        above: &[7, 6, 4],
    },
    Shape {
        worlds: 3,
        pairs: &[(0, 1), (1, 0), (1, 2)],
        above: &[7, 7, 4],
    },
    Shape {
        worlds: 4,
        pairs: &[(0, 1), (0, 2), (1, 3), (2, 3)],
        above: &[15, 10, 12, 8],
    },
];

impl Shape<'_> {
    pub(crate) fn frame(&self) -> Result<Frame, Refusal> {
        let mut frame = Frame::new();
        frame.load(self.worlds, self.pairs)?;
        Ok(frame)
    }
}
