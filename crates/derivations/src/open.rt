// A derivation under way.
ghost use Rattle.std.specs.Prelude.{◌≤◌, length};
ghost use Rattle.formulas.specs.Stores.{contents};
ghost use Rattle.fitch.specs.History.{History};
ghost use Rattle.fitch.specs.Limits.{most_premises, most_lines};
ghost use Rattle.ledger.specs.Recorded.{Derives};
ghost use Rattle.boxes.specs.Stack.{stack};

use boxes::boxes::Boxes;
use fitch::mode::Mode;
use formulas::store::Store;
use ledger::line::Line;

mod check;
pub mod look;
pub mod nest;
pub mod seal;
pub mod step;

// The records are those of some history of accepted calls, of which `premises` were premises.
// Only this crate reaches its fields: what another crate holds is written by calls alone.
// That each such history is sound is no ghost field: it stands on the calls, where a caller reads it, with what each leaves and refuses.
#[derive(Drop)]
pub struct Open<'s, 'l> {
    pub(crate) store: &'s Store,
    pub(crate) lines: &'l mut [Line],
    pub(crate) count: usize,
    pub(crate) mode: Mode,
    pub(crate) premises: usize,
    pub(crate) boxes: Boxes,
    ghost small: { count ≤ most_lines },
    ghost fits: { count ≤ length lines.now },
    ghost few: { premises ≤ most_premises },
    ghost recorded: { ∥ ((h : History) × Derives mode (contents store.now) lines.now count premises (stack boxes) h) ∥₁ },
}
