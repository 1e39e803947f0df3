// The names of the rules.
ghost use Rattle.std.specs.Prelude.{◌≡◌, MatchOption, ◌≢◌};
ghost use Rattle.fitch.specs.Names.{name_of};

use crate::rule::Rule;

impl Rule {
    // The rule of a name, if it is exactly one of the eleven. By `TryFrom` the error would be a type that says nothing.
    pub fn from_name(name: &[u8]) -> Option<Rule>
        ensures { MatchOption result ((rule : Rule) → name.now ≢ name_of rule) (λ rule. name.now ≡ name_of rule) }
    {
        match name {
            [one] => match *one as char {
                'R' => Some(Rule::Reiterate),
                _ => None,
            },
            [one, two] => match (*one as char, *two as char) {
                ('&', 'I') => Some(Rule::AndIntro),
                ('&', '1') => Some(Rule::AndLeft),
                ('&', '2') => Some(Rule::AndRight),
                ('|', '1') => Some(Rule::OrLeft),
                ('|', '2') => Some(Rule::OrRight),
                ('|', 'E') => Some(Rule::OrElim),
                ('>', 'I') => Some(Rule::ImpIntro),
                ('>', 'E') => Some(Rule::ImpElim),
                ('#', 'E') => Some(Rule::ExFalso),
                ('R', 'A') => Some(Rule::Reductio),
                _ => None,
            },
            _ => None,
        }
    }
}
