// Enters a text that was recognised.
ghost use Rattle.std.specs.Prelude.{◌≡◌, ℕ};
ghost use Rattle.grammar.specs.Entering.{Enterable};
ghost use Rattle.grammar.specs.Formula.{Formula};
ghost use Rattle.grammar.specs.Reading.{Enters};
ghost use Rattle.grammar.specs.Scanning.{Stands};
ghost use Rattle.formulas.specs.Stores.{contents, capacity, OthersStay};

use crate::store::Store;
use crate::store::make::{FALSUM, letter_place};
use grammar::connective::Connective;
use grammar::node::Node;
use grammar::symbol::Symbol;
use scanner::symbol::symbol_at;

// Where a formula is stored, and where its text ends.
#[derive(Clone, Copy)]
pub(crate) struct Entered {
    pub(crate) place: usize,
    pub(crate) end: usize,
}

impl Store {
    // Enters the formula whose text stands at a place, its missing parts first.
    pub(crate) fn enter(&mut self, text: &[u8], at: usize) -> Entered
        requires { Enterable text.now at (contents self.old) (capacity self.old) }
        ensures enters { (f : Formula) (end : ℕ) → Stands text.now at end f → (result.end ≡ end) × Enters (contents self.old) (contents self.new) f result.place }
        ensures stay { OthersStay self.old self.new }
    {
        match symbol_at(text, at) {
            Symbol::Letter => Entered {
                place: letter_place(text[at]),
                end: at + 1,
            },
            Symbol::Not => {
                let part = self.enter(text, at + 1);
                let place = self.place_of(Node::Joined(
                    Connective::Implies,
                    part.place as u16,
                    FALSUM as u16,
                ));
                Entered {
                    place,
                    end: part.end,
                }
            }
            Symbol::Open => {
                let first = self.enter(text, at + 1);
                // A sign stands there, since the text can be entered.
                let Symbol::Sign(connective) = symbol_at(text, first.end) else {
                    unreachable!()
                };
                let second = self.enter(text, first.end + 1);
                let place = self.place_of(Node::Joined(
                    connective,
                    first.place as u16,
                    second.place as u16,
                ));
                Entered {
                    place,
                    end: second.end + 1,
                }
            }
            // What begins a formula and is none of these is falsum.
            _ => Entered {
                place: FALSUM,
                end: at + 1,
            },
        }
    }
}
