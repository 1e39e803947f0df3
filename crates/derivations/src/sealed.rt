// A finished derivation.
ghost use Rattle.std.specs.Prelude.{◌≤◌, length};
ghost use Rattle.formulas.specs.Stores.{contents};
ghost use Rattle.fitch.specs.History.{History};
ghost use Rattle.fitch.specs.Limits.{most_premises, most_lines};
ghost use Rattle.ledger.specs.Recorded.{Derives};
ghost use Rattle.boxes.specs.Stack.{stack};

use boxes::boxes::Boxes;
use fitch::mode::Mode;
use formulas::store::Store;
use ledger::line::Line;

pub mod conclude;
pub mod look;

// Nothing can be written to it any more.
// Only this crate reaches its fields. Its records are those of a history.
#[derive(Drop)]
pub struct Sealed<'s, 'l> {
    pub(crate) store: &'s Store,
    pub(crate) lines: &'l mut [Line],
    pub(crate) count: usize,
    pub(crate) mode: Mode,
    pub(crate) premises: usize,
    pub(crate) boxes: Boxes,
    ghost small: { count ≤ most_lines },
    ghost fits: { count ≤ length lines.now },
    ghost few: { premises ≤ most_premises },
    ghost recorded: { ∥ ((h : History) × Derives mode (contents store.now) lines.now count premises (stack boxes) h) ∥₁ },
}
