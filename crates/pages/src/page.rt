// The lines of a derivation, to be read.
ghost use Rattle.std.specs.Prelude.{◌≤◌, length};
ghost use Rattle.fitch.specs.History.{History};
ghost use Rattle.fitch.specs.Limits.{most_lines};
ghost use Rattle.formulas.specs.Stores.{contents};
ghost use Rattle.ledger.specs.Recorded.{Recorded};

use formulas::store::Store;
use ledger::line::Line;

mod cite;
pub mod look;
pub mod resolve;

// The records are those of the lines of some history. What is told of them is said of every history that they have.
#[derive(Clone, Copy)]
pub struct Page<'p> {
    pub store: &'p Store,
    pub lines: &'p [Line],
    ghost small: { length lines.now ≤ most_lines },
    ghost recorded: { ∥ ((h : History) × Recorded (contents store.now) lines.now (length lines.now) h) ∥₁ },
}
