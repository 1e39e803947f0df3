// What joins two formulas.
ghost use Rattle.std.specs.Prelude.{◌≡◌};
ghost use Rattle.grammar.specs.Symbols.{sign};

#[derive(Clone, Copy, PartialEq, Eq, Debug)]
pub enum Connective {
    And,
    Or,
    Implies,
}

// The byte of its sign.
impl From<Connective> for u8 {
    ghost from_gives = { λ connective byte. byte ≡ sign connective };

    fn from(connective: Connective) -> u8 {
        match connective {
            Connective::And => b'&',
            Connective::Or => b'|',
            Connective::Implies => b'>',
        }
    }
}
