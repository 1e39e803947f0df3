// Goes through the records.
ghost use Rattle.std.specs.Prelude.{◌≡◌, [], ◌∷◌, length, MatchOption};
ghost use Rattle.records.specs.Pieces.{fields};
ghost use Rattle.records.specs.Cursors.{records_to_come, piece};

use crate::cut::cut;
use crate::records::{Record, Records};

const NEWLINE: u8 = b'\n';

const TAB: u8 = b'\t';

impl<'i> Records<'i> {
    // The next record, if one is left.
    #[tactic(auto, using(crate::proofs::Cutting::first_ended, crate::proofs::Cutting::only_record))]
    pub fn next(&mut self) -> Option<Record<'i>>
        ensures { MatchOption result ((records_to_come self.old ≡ []) × (self.new ≡ self.old)) (λ r. records_to_come self.old ≡ piece r ∷ records_to_come self.new) }
    {
        if self.rest.is_empty() {
            return None;
        }
        let (bytes, rest) = cut(self.rest, NEWLINE);
        match rest {
            Some(rest) => {
                self.rest = rest;
                Some(Record { bytes, ended: true })
            }
            None => {
                self.rest = &[];
                Some(Record {
                    bytes,
                    ended: false,
                })
            }
        }
    }
}

impl Records<'_> {
    // How many records are left.
    #[tactic(auto, using(crate::proofs::Cutting::few))]
    pub fn count(self) -> usize
        ensures { result ≡ length (records_to_come self.entry) }
    {
        let mut rest = self;
        let mut count = 0;
        while let Some(_) = rest.next() {
            count += 1;
        }
        count
    }
}

impl<'i> Record<'i> {
    // How many fields it has.
    pub fn count_fields(&self) -> usize
        ensures { result ≡ length (fields self.now.bytes.now) }
    {
        self.bytes.split(|byte| *byte == TAB).count()
    }
}
