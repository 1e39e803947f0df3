// Weighs a sequent in the algebra of a file.
ghost use Rattle.std.specs.Prelude.{◌≡◌, map};
ghost use Rattle.entries.specs.Entries.{stored};
ghost use Rattle.formulas.specs.Stores.{contents};
ghost use Rattle.algebra_files.specs.Cutting.{file_of, values_of};
ghost use Rattle.algebra_files.specs.Faults.{FileFault};
ghost use Rattle.algebra_files.specs.Meant.{Means};
ghost use Rattle.algebra_files.specs.Outcomes.{Outcome, WeighedInFile};

use crate::file::File;
use crate::read::read_file;
use crate::refuse::at;
use crate::weigh_in::weigh_over;
use answers::fault::{Fault, Reason};
use answers::unanswered::Unanswered;
use entries::entry::Entry;
use entries::order::first_out_of_turn;
use entries::turn::{Format, Turn};
use formulas::store::Store;
use heyting::refusal::Refusal;
use layers::product::Product;
use ledger::sequent::Sequent;
use verdicts::verdict::Verdict;

// The verdict in the algebra of a file whose entries are records from `first` on.
fn weigh_with(
    file: &File,
    sequent: &Sequent,
    store: &Store,
    first: usize,
    buffer: &mut [u32],
) -> Result<Verdict, Unanswered>
    ensures { Outcome (Means (file_of file.now)) (FileFault first (file_of file.now)) (contents store.now) (values_of file.now.values) sequent.now buffer.old buffer.new result }
{
    let frame = file.first.load(first)?;
    let number = first.saturating_add(file.first.count());
    let Some(second) = &file.second else {
        return weigh_over(
            &frame,
            file.layer,
            sequent,
            store,
            &file.values,
            number,
            buffer,
        );
    };
    let other = second.load(number)?;
    match Product::new(frame, other) {
        Ok(product) => weigh_over(
            &product,
            file.layer,
            sequent,
            store,
            &file.values,
            number.saturating_add(second.count()),
            buffer,
        ),
        Err(_) => Err(Unanswered::Faulty(at(number, Refusal::SpanTooLarge))),
    }
}

// The verdict in the algebra that entries mean, which are records from `first` on; or why there is none, and then the buffer is as it was.
// The faults of the bases, of their product and of the layer come first, then a sequent that is not stored, a short buffer, and a letter with no member.
// Of entries that are those of no file, the first that is out of turn is refused, or the one that is due behind the last.
pub fn weigh_in_file(
    sequent: &Sequent,
    store: &Store,
    entries: &[Entry<usize>],
    first: usize,
    values: &mut [u32],
) -> Result<Verdict, Unanswered>
    ensures { WeighedInFile first (map stored entries.now) (contents store.now) sequent.now values.old values.new result }
{
    match read_file(entries) {
        Some(file) => weigh_with(&file, sequent, store, first, values),
        None => {
            let place = first_out_of_turn(Format::Weighing, Turn::Parted, entries).unwrap_or(0);
            let number = first.saturating_add(place);
            Err(Unanswered::Faulty(Fault::At(number, Reason::Form(1))))
        }
    }
}
