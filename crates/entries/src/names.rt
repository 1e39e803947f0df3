// Names in fields.
ghost use Rattle.std.specs.Prelude.{◌≡◌};
ghost use Rattle.entries.specs.Kinds.{rule_named, mode_named, letter};

use fitch::mode::Mode;
use fitch::rule::Rule;

pub(crate) fn mode_named(name: &[u8]) -> Option<Mode>
    ensures { result ≡ mode_named name.now }
{
    match name {
        b"I" => Some(Mode::Constructive),
        b"C" => Some(Mode::Classical),
        _ => None,
    }
}

pub(crate) fn rule_named(name: &[u8]) -> Option<Rule>
    ensures { result ≡ rule_named name.now }
{
    Rule::from_name(name)
}

pub(crate) fn letter(name: &[u8]) -> Option<u8>
    ensures { result ≡ letter name.now }
{
    match name {
        [byte] if byte.is_ascii_lowercase() => Some(*byte),
        _ => None,
    }
}
