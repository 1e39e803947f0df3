// The elements of letters.
ghost use Rattle.std.specs.Prelude.{◌≡◌, ℕ, ◌+◌, ◌<◌, ◌≤◌, length, MatchOption};
ghost use Rattle.algebra_files.specs.Cutting.{values_of, gives, given_by};
ghost use Rattle.algebra_files.specs.Meant.{Elements, ElementFor, Gives, LastFor};

use crate::file::Values;
use entries::entry::Entry;
use std::array;

const LETTERS: usize = 26;

// Whether an entry gives an element to the letter of this byte.
fn gives(entry: &Entry<usize>, byte: usize) -> bool
    ensures { result ≡ gives byte entry.now }
{
    matches!(entry, Entry::Value(letter, _) if *letter as usize == byte)
}

// The element that a value gives.
fn element_in(entry: &Entry<usize>) -> u32
    ensures { result ≡ given_by entry.now }
{
    match entry {
        Entry::Value(_, element) => *element,
        _ => 0,
    }
}

impl Values<'_> {
    // Where the last value for the letter of this byte stands.
    pub(crate) fn last_for(&self, byte: usize) -> Option<usize>
        ensures { MatchOption result ((k : ℕ) → k < length (values_of self.now) → Gives (values_of self.now) k byte → ⊥) (λ k. LastFor (values_of self.now) byte k) }
    {
        self.entries.iter().rposition(|entry| gives(entry, byte))
    }

    // What the last value for the letter of this byte gives it, or else the bottom.
    fn element(&self, byte: usize, bottom: u32) -> u32
        ensures { ElementFor bottom (values_of self.now) byte result }
    {
        match self.last_for(byte) {
            Some(k) => element_in(&self.entries[k]),
            None => bottom,
        }
    }

    pub(crate) fn elements(&self, bottom: u32) -> [u32; LETTERS]
        ensures { Elements bottom (values_of self.now) result }
    {
        array::from_fn(|i| self.element(97 + i, bottom))
    }
}
