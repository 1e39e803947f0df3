// A file, cut out of its entries.
ghost use Rattle.std.specs.Prelude.{◌≡◌, [], map};
ghost use Rattle.entries.specs.Entries.{stored};
ghost use Rattle.algebra_files.specs.Reading.{after_pairs, after_values};

mod counts;
mod letters;
mod load;

use entries::entry::Entry;

// A frame of so many worlds, by pairs of a world and one above it.
#[derive(Clone, Copy)]
pub(crate) struct Base<'e> {
    pub(crate) worlds: u32,
    pub(crate) pairs: &'e [Entry<usize>],
    ghost only: { after_pairs (map stored pairs.now) ≡ [] },
}

// Elements for letters, in their order.
#[derive(Clone, Copy)]
pub(crate) struct Values<'e> {
    pub(crate) entries: &'e [Entry<usize>],
    ghost only: { after_values (map stored entries.now) ≡ [] },
}

// One base or two, the element of a layer over them, and elements for letters.
#[derive(Clone, Copy)]
pub(crate) struct File<'e> {
    pub(crate) first: Base<'e>,
    pub(crate) second: Option<Base<'e>>,
    pub(crate) layer: Option<u32>,
    pub(crate) values: Values<'e>,
}
