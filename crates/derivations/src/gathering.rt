// A derivation that gathers its premises.
ghost use Rattle.std.specs.Prelude.{◌≤◌, length};
ghost use Rattle.formulas.specs.Stores.{contents};
ghost use Rattle.fitch.specs.History.{History};
ghost use Rattle.fitch.specs.Limits.{most_premises, most_lines};
ghost use Rattle.ledger.specs.Recorded.{Gathers};

use fitch::mode::Mode;
use formulas::store::Store;
use ledger::line::Line;

pub mod look;
pub mod premise;
pub mod start;

// The records are those of some history of accepted calls.
// Only this crate reaches its fields: what another crate holds is written by calls alone.
#[derive(Drop)]
pub struct Gathering<'s, 'l> {
    pub(crate) store: &'s Store,
    pub(crate) lines: &'l mut [Line],
    pub(crate) count: usize,
    pub(crate) mode: Mode,
    ghost small: { count ≤ most_lines },
    ghost fits: { count ≤ length lines.now },
    ghost few: { count ≤ most_premises },
    ghost recorded: { ∥ ((h : History) × Gathers mode (contents store.now) lines.now count h) ∥₁ },
}
