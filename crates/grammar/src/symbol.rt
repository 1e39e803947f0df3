// What a byte of a text stands for.
ghost use Rattle.std.specs.Prelude.{◌≡◌};
ghost use Rattle.grammar.specs.Symbols.{symbol};

use crate::connective::Connective;

#[derive(Clone, Copy, PartialEq, Debug)]
pub enum Symbol {
    Falsum,
    Letter,
    Not,
    Open,
    Close,
    Sign(Connective),
    Other,
}

impl From<u8> for Symbol {
    ghost from_gives = { λ byte s. s ≡ symbol byte };

    fn from(byte: u8) -> Symbol {
        match byte as char {
            '#' => Symbol::Falsum,
            'a'..='z' => Symbol::Letter,
            '~' => Symbol::Not,
            '(' => Symbol::Open,
            ')' => Symbol::Close,
            '&' => Symbol::Sign(Connective::And),
            '|' => Symbol::Sign(Connective::Or),
            '>' => Symbol::Sign(Connective::Implies),
            _ => Symbol::Other,
        }
    }
}
