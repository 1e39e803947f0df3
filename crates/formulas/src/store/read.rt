// Reads a text into a store.
ghost use Rattle.formulas.specs.Reads.{Reads};

use crate::store::Store;
use grammar::refusal::Refusal;
use scanner::recognise::recognise;

impl Store {
    // The place of the formula whose text this is; it is entered if it is not there.
    #[tactic(auto, using(crate::proofs::Stores::count_is_used))]
    pub fn read(&mut self, text: &[u8]) -> Result<usize, Refusal>
        ensures { Reads text.now self.old self.new result }
    {
        let measured = recognise(text)?;
        if measured.signs > self.capacity() - self.used {
            return Err(Refusal::RecordsWanting);
        }
        Ok(self.enter(text, 0).place)
    }
}
