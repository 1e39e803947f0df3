// Reads the entries of a file.
ghost use Rattle.std.specs.Prelude.{◌≡◌, ◌∷◌, map, length, take_while, MatchOption};
ghost use Rattle.std.specs.List.{list_all};
ghost use Rattle.std.specs.Option.{option_map};
ghost use Rattle.entries.specs.Entries.{Said, stored};
ghost use Rattle.algebra_files.specs.Cutting.{is_pair, is_value, to_come, base_of, file_of};
ghost use Rattle.algebra_files.specs.Reading.{base_in, after_base, layer_in, after_layer, file_in};

use crate::file::{Base, File, Values};
use entries::entry::Entry;

fn is_pair(entry: &Entry<usize>) -> bool
    ensures { result ≡ is_pair entry.now }
{
    matches!(entry, Entry::Pair(..))
}

fn is_value(entry: &Entry<usize>) -> bool
    ensures { result ≡ is_value entry.now }
{
    matches!(entry, Entry::Value(..))
}

// How many pairs the entries begin with.
fn pair_count(entries: &[Entry<usize>]) -> usize
    ensures { result ≡ length (take_while is_pair entries.now) }
{
    entries.iter().take_while(|entry| is_pair(entry)).count()
}

fn all_values(entries: &[Entry<usize>]) -> bool
    ensures { result ≡ list_all is_value entries.now }
{
    entries.iter().all(|entry| is_value(entry))
}

// What is left of the entries.
#[derive(Clone, Copy)]
pub(crate) struct Entries<'e> {
    rest: &'e [Entry<usize>],
}

impl<'e> Entries<'e> {
    fn next_worlds(&mut self) -> Option<u32>
        ensures { MatchOption result ((base_in (to_come self.old) ≡ None) × (after_base (to_come self.old) ≡ to_come self.old) × (self.new ≡ self.old)) (λ n. to_come self.old ≡ Said.base n ∷ to_come self.new) }
    {
        let [Entry::Base(worlds), rest @ ..] = self.rest else {
            return None;
        };
        self.rest = rest;
        Some(*worlds)
    }

    fn base(&mut self) -> Option<Base<'e>>
        ensures base { option_map base_of result ≡ base_in (to_come self.old) }
        ensures rest { to_come self.new ≡ after_base (to_come self.old) }
    {
        let worlds = self.next_worlds()?;
        let (pairs, rest) = self.rest.split_at(pair_count(self.rest));
        self.rest = rest;
        Some(Base { worlds, pairs })
    }

    fn layer(&mut self) -> Option<u32>
        ensures element { result ≡ layer_in (to_come self.old) }
        ensures rest { to_come self.new ≡ after_layer (to_come self.old) }
    {
        let [Entry::Nucleus(element), rest @ ..] = self.rest else {
            return None;
        };
        self.rest = rest;
        Some(*element)
    }
}

// What the entries say, if they are those of a file.
pub(crate) fn read_file(entries: &[Entry<usize>]) -> Option<File<'_>>
    ensures { option_map file_of result ≡ file_in (map stored entries.now) }
{
    let mut entries = Entries { rest: entries };
    let first = entries.base()?;
    let second = entries.base();
    let layer = entries.layer();
    if !all_values(entries.rest) {
        return None;
    }
    Some(File {
        first,
        second,
        layer,
        values: Values {
            entries: entries.rest,
        },
    })
}
