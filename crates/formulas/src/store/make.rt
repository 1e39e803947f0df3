// Makes a store, and gives its records back.
ghost use Rattle.std.specs.Prelude.{◌≡◌, ◌+◌, ◌-◌, ◌≤◌, MatchResult};
ghost use Rattle.formulas.specs.Making.{Made, NotEnough};
ghost use Rattle.formulas.specs.Stores.{records as records_of};

use crate::store::Store;
use grammar::node::Node;
use grammar::refusal::Refusal;

const BASIC: usize = 27;

// The place of # in every store.
pub const FALSUM: usize = 0;

// The place of a letter in every store.
pub(crate) fn letter_place(letter: u8) -> usize
    requires { 97 ≤ letter }
    ensures { result ≡ letter - 97 + 1 }
{
    (letter - b'a') as usize + 1
}

// A store that was not made, and the records that were to hold it. Not one generic type with its likes, since each names what it gives back.
#[derive(Drop)]
pub struct NotMade {
    pub refusal: Refusal,
    pub records: Vec<Node>,
}

// The refusal alone, for a caller that needs the records no more.
impl From<NotMade> for Refusal {
    ghost from_gives = { λ n refusal. refusal ≡ n.refusal };

    fn from(not_made: NotMade) -> Refusal {
        not_made.refusal
    }
}

impl Store {
    // A store of # and the letters, over these records.
    pub fn new(records: Vec<Node>) -> Result<Store, NotMade>
        ensures { MatchResult result (Made records) (NotEnough records) }
    {
        if records.len() < BASIC {
            return Err(NotMade {
                refusal: Refusal::FewRecords,
                records,
            });
        }
        let mut nodes = records;
        nodes[FALSUM] = Node::Falsum;
        for letter in b'a'..=b'z' {
            nodes[letter_place(letter)] = Node::Letter(letter);
        }
        Ok(Store { nodes, used: BASIC })
    }

    // The records, as the store leaves them.
    pub fn into_records(self) -> Vec<Node>
        ensures { result.items ≡ records_of self }
    {
        let Store { nodes, used: _ } = self;
        nodes
    }
}
