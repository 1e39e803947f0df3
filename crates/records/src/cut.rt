// Cuts a text at a byte.
ghost use Rattle.std.specs.Prelude.{◌≡◌, ◌==◌, ◌∷◌, IfNone, position};
ghost use Rattle.std.specs.List.{slice_split};
ghost use Rattle.records.specs.Cursors.{left};

fn place_of(text: &[u8], byte: u8) -> Option<usize>
    ensures { result ≡ position (λ b. b == byte) text.now }
{
    text.iter().position(|b| *b == byte)
}

// What stands before the first such byte, and what stands behind it, if there is one.
#[tactic(auto, using(crate::proofs::Cutting::cut_some, crate::proofs::Cutting::cut_none))]
pub(crate) fn cut(text: &[u8], byte: u8) -> (&[u8], Option<&[u8]>)
    ensures first { slice_split (λ b. b == byte) text.now ≡ result.0.now ∷ left byte result.1 }
    ensures whole { IfNone result.1 (result.0.now ≡ text.now) }
{
    match place_of(text, byte) {
        Some(place) => (&text[..place], Some(&text[place + 1..])),
        None => (text, None),
    }
}
