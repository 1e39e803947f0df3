// The premises of a sequent.
ghost use Rattle.std.specs.Prelude.{◌≡◌};
ghost use Rattle.ledger.specs.Sequents.{premise_places};

use crate::sequent::Sequent;

impl Sequent {
    // The places of the premises, in their order.
    pub fn premises(&self) -> &[usize]
        ensures { result.now ≡ premise_places self.now }
    {
        &self.places[..self.count]
    }
}
