// Goes through the fields.
ghost use Rattle.std.specs.Prelude.{◌≡◌, [], ◌∷◌, MatchOption};
ghost use Rattle.records.specs.Cursors.{fields_to_come};

use crate::cut::cut;
use crate::fields::Fields;

const TAB: u8 = b'\t';

impl<'r> Fields<'r> {
    // The next field, if one is left.
    pub fn next(&mut self) -> Option<&'r [u8]>
        ensures { MatchOption result ((fields_to_come self.old ≡ []) × (self.new ≡ self.old)) (λ field. fields_to_come self.old ≡ field.now ∷ fields_to_come self.new) }
    {
        let (field, rest) = cut(self.rest?, TAB);
        self.rest = rest;
        Some(field)
    }
}
