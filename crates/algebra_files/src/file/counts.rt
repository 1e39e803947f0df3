// How many records the parts of a file take.
ghost use Rattle.std.specs.Prelude.{◌≡◌, length};
ghost use Rattle.algebra_files.specs.Cutting.{base_of};
ghost use Rattle.entries.specs.AlgebraFiles.{base_said};

use crate::file::Base;

impl Base<'_> {
    pub(crate) fn count(&self) -> usize
        ensures { result ≡ length (base_said (base_of self.now)) }
    {
        self.pairs.len() + 1
    }
}
