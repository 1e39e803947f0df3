// The bytes of a text, read as characters.
ghost use Rattle.std.specs.Prelude.{◌≡◌, slice_index};
ghost use Rattle.grammar.specs.Symbols.{symbol};

use grammar::symbol::Symbol;

// What stands at a place of a text; past its end that is `Other`, as for a byte that no text has.
pub fn symbol_at(text: &[u8], at: usize) -> Symbol
    ensures { result ≡ symbol (slice_index text.now at) }
{
    text.get(at)
        .map_or(Symbol::Other, |byte| Symbol::from(*byte))
}
