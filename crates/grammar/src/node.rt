// A record of a store.
use crate::connective::Connective;

// A letter is its byte; the numbers of a joined formula are the places of its first and second part, since the records are the
// caller's memory and no formula is a heap of its own.
#[derive(Clone, Copy, PartialEq, Debug)]
pub enum Node {
    Falsum,
    Letter(u8),
    Joined(Connective, u16, u16),
}
