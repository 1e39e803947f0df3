// The citations as a list.
ghost use Rattle.std.specs.Prelude.{◌≡◌};
ghost use Rattle.entries.specs.Entries.{cited};

use crate::citations::Citations;

impl Citations {
    pub fn as_slice(&self) -> &[usize]
        ensures { result.now ≡ cited self.now }
    {
        match self {
            Citations::One(citations) => citations,
            Citations::Two(citations) => citations,
            Citations::Three(citations) => citations,
        }
    }
}
