// Loads the frame of a base.
ghost use Rattle.algebra_files.specs.Cutting.{base_of};
ghost use Rattle.algebra_files.specs.Outcomes.{BaseLoaded};

use crate::file::Base;
use crate::refuse::at;
use answers::fault::Fault;
use entries::entry::Entry;
use frames::frame::Frame;
use heyting::refusal::Refusal;

impl Base<'_> {
    // The frame of a base that stands at the record of a number.
    pub(crate) fn load(&self, number: usize) -> Result<Frame, Fault>
        ensures { BaseLoaded (base_of self.now) number result }
    {
        let mut frame = Frame::discrete(self.worlds).map_err(|refusal| at(number, refusal))?;
        for (i, entry) in self.pairs.iter().enumerate() {
            let Entry::Pair(u, v) = entry else {
                continue;
            };
            if frame.relate(*u, *v).is_err() {
                let place = i + 1;
                return Err(at(number.saturating_add(place), Refusal::NoSuchWorld(place)));
            }
        }
        Ok(frame)
    }
}
