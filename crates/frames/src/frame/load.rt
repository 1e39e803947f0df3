// Loads a frame from all its pairs at once.
ghost use Rattle.frames.specs.Frames.{Loaded};

use crate::frame::Frame;
use heyting::refusal::Refusal;

impl Frame {
    // Takes these worlds and pairs in place of the old ones; a pair is a world and one above it.
    // Worlds and pairs stay apart: a struct of both would be made for this call alone.
    pub fn load(&mut self, worlds: u32, pairs: &[(u32, u32)]) -> Result<(), Refusal>
        ensures { Loaded worlds pairs.now self.old self.new result }
    {
        let mut frame = Frame::discrete(worlds)?;
        for (i, (u, v)) in pairs.iter().enumerate() {
            if frame.relate(*u, *v).is_err() {
                return Err(Refusal::NoSuchWorld(i + 1));
            }
        }
        *self = frame;
        Ok(())
    }
}
