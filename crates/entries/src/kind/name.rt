// Kinds by their bytes.
ghost use Rattle.std.specs.Prelude.{◌≡◌};
ghost use Rattle.entries.specs.Kinds.{kind_of};

use crate::kind::Kind;

impl Kind {
    // The kind that a byte stands for.
    pub fn from_byte(byte: u8) -> Option<Kind>
        ensures { result ≡ kind_of byte }
    {
        match byte as char {
            'M' => Some(Kind::Mode),
            'P' => Some(Kind::Premise),
            'A' => Some(Kind::Assume),
            'S' => Some(Kind::Step),
            'Z' => Some(Kind::Close),
            '=' => Some(Kind::Separator),
            'K' => Some(Kind::Base),
            'L' => Some(Kind::Pair),
            'N' => Some(Kind::Nucleus),
            'V' => Some(Kind::Value),
            _ => None,
        }
    }
}
