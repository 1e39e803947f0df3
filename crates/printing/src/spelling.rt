// The text of a formula, as a field.
ghost use Rattle.std.specs.Prelude.{◌≡◌, ◌<◌, ◌≤◌, MatchResult};
ghost use Rattle.grammar.specs.Writing.{text_at};
ghost use Rattle.formulas.specs.Stores.{contents, count};

use formulas::store::Store;
use grammar::refusal::Refusal;

// The longest text of a stored formula.
pub(crate) const MOST_BYTES: usize = 1024;

// A formula's text, which is written to a buffer that has room for any.
pub(crate) fn spell<'a>(
    store: &Store,
    place: usize,
    buffer: &'a mut [u8; MOST_BYTES],
) -> Result<&'a [u8], Refusal>
    ensures { MatchResult result (λ text. (place < count store.now) × (text.now ≡ text_at (contents store.now) place)) (λ e. (e ≡ Refusal.NotStored) × (count store.now ≤ place)) }
{
    let length = store.write(place, buffer)?;
    Ok(&buffer[..length])
}
