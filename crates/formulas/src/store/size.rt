// How large a store is.
ghost use Rattle.std.specs.Prelude.{◌≡◌};
ghost use Rattle.formulas.specs.Stores.{count as count_of, capacity as capacity_of};

use crate::store::Store;

const MOST_RECORDS: usize = 4096;

impl Store {
    // How many records are in use: the formulas stand at the places below.
    #[tactic(auto, using(crate::proofs::Stores::count_is_used))]
    pub fn count(&self) -> usize
        ensures { result ≡ count_of self.now }
    {
        self.used
    }

    // How many records may be used.
    pub fn capacity(&self) -> usize
        ensures { result ≡ capacity_of self.now }
    {
        self.nodes.len().min(MOST_RECORDS)
    }
}
