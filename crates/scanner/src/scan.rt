// One pass over a text, without a store. The text goes along with each place: a struct of both would be made anew at each step, and be no plainer.
ghost use Rattle.std.specs.Prelude.{◌≡◌, ℕ, ◌≤◌, length, MatchResult};
ghost use Rattle.grammar.specs.Scanning.{Found, Breaks};

use crate::recognise::Measured;
use crate::symbol::symbol_at;
use grammar::refusal::Refusal;
use grammar::symbol::Symbol;

// A formula's measure, and where its text ends.
#[derive(Clone, Copy)]
pub(crate) struct Scanned {
    pub(crate) end: usize,
    pub(crate) measured: Measured,
}

// The formula that begins at a place, or a refusal that tells the first wrong place.
#[tactic(auto, using(grammar::proofs::Scans::bounds))]
pub(crate) fn scan(text: &[u8], at: usize) -> Result<Scanned, Refusal>
    requires { at ≤ length text.now }
    ensures { MatchResult result (λ s. Found text.now at s.end s.measured.nesting s.measured.signs) (λ e. (i : ℕ) × (e ≡ Refusal.NotFormula i) × Breaks text.now at i) }
{
    match symbol_at(text, at) {
        Symbol::Falsum | Symbol::Letter => Ok(Scanned {
            end: at + 1,
            measured: Measured {
                nesting: 0,
                signs: 0,
            },
        }),
        Symbol::Not => {
            let part = scan(text, at + 1)?;
            Ok(Scanned {
                end: part.end,
                measured: Measured {
                    nesting: part.measured.nesting + 1,
                    signs: part.measured.signs + 1,
                },
            })
        }
        Symbol::Open => {
            let first = scan(text, at + 1)?;
            let Symbol::Sign(_) = symbol_at(text, first.end) else {
                return Err(Refusal::NotFormula(first.end));
            };
            let second = scan(text, first.end + 1)?;
            let Symbol::Close = symbol_at(text, second.end) else {
                return Err(Refusal::NotFormula(second.end));
            };
            Ok(Scanned {
                end: second.end + 1,
                measured: Measured {
                    nesting: first.measured.nesting.max(second.measured.nesting) + 1,
                    signs: first.measured.signs + second.measured.signs + 1,
                },
            })
        }
        _ => Err(Refusal::NotFormula(at)),
    }
}
