// The lines of a derivation, to be read.
ghost use Rattle.std.specs.Prelude.{◌≤◌, length};
ghost use Rattle.formulas.specs.Stores.{contents};
ghost use Rattle.fitch.specs.History.{History};
ghost use Rattle.fitch.specs.Limits.{most_lines};
ghost use Rattle.ledger.specs.Recorded.{Recorded};
ghost use Rattle.pages.specs.Of.{PageOf};

use formulas::store::Store;
use ledger::line::Line;
use pages::page::Page;

// The first so many records.
pub(crate) fn first_lines<'p>(store: &'p Store, lines: &'p [Line], count: usize) -> Page<'p>
    requires small { count ≤ most_lines }
    requires fits { count ≤ length lines.now }
    requires recorded { ∥ ((h : History) × Recorded (contents store.now) lines.now count h) ∥₁ }
    ensures { PageOf store.now lines.now count result }
{
    Page {
        store,
        lines: &lines[..count],
    }
}
