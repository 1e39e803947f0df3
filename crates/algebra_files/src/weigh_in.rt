// Weighs in one algebra, and in the layer over one.
ghost use Rattle.std.specs.Prelude.{◌≡◌, ℕ, ◌+◌, ◌<◌, ◌≤◌, length};
ghost use Rattle.formulas.specs.Stores.{contents};
ghost use Rattle.algebra_files.specs.Blame.{SmallLetter, SmallLetterIn, ValueBlamed, WhyNot};
ghost use Rattle.algebra_files.specs.Cutting.{values_of};
ghost use Rattle.algebra_files.specs.Faults.{LetterFault, LayerFault};
ghost use Rattle.algebra_files.specs.Meant.{Layered};
ghost use Rattle.algebra_files.specs.Outcomes.{Outcome};

use crate::file::Values;
use crate::refuse::at;
use algebras::algebra::Algebra;
use answers::unanswered::Unanswered;
use formulas::store::Store;
use heyting::refusal::Refusal;
use ledger::sequent::Sequent;
use nuclei::nucleus::Nucleus;
use verdicts::refusal::Unweighable;
use verdicts::verdict::Verdict;
use verdicts::weigh::weigh;
use weighing::valuation::Valuation;

// How far behind the first value the one at fault stands.
fn blamed_value(refusal: Refusal, values: &Values) -> usize
    requires { SmallLetter refusal }
    ensures { ValueBlamed refusal (values_of values.now) result }
{
    match refusal {
        Refusal::LetterNotMember(letter) => values.last_for(96 + letter).unwrap_or(0),
        _ => 0,
    }
}

// Why a sequent is not weighed, where the values are records from a number on.
fn unweighed(why: Unweighable, values: &Values, number: usize) -> Unanswered
    requires { SmallLetterIn why }
    ensures { WhyNot why (values_of values.now) number result }
{
    match why {
        Unweighable::NotStored => Unanswered::NotStored,
        Unweighable::NotEvaluated(Refusal::ShortBuffer) => Unanswered::ShortValues,
        Unweighable::NotEvaluated(refusal) => {
            let number = number.saturating_add(blamed_value(refusal, values));
            Unanswered::Faulty(at(number, refusal))
        }
    }
}

// The verdict in an algebra, where the values are records from a number on.
fn weigh_in<A: Algebra>(
    algebra: &A,
    sequent: &Sequent,
    store: &Store,
    values: &Values,
    number: usize,
    buffer: &mut [u32],
) -> Result<Verdict, Unanswered>
    ensures { Outcome (λ m. m ≡ A.Algebra.means algebra.now) (LetterFault (A.Algebra.means algebra.now) (values_of values.now) number) (contents store.now) (values_of values.now) sequent.now buffer.old buffer.new result }
{
    let valuation = Valuation {
        letters: values.elements(algebra.bottom()),
    };
    match weigh(sequent, store, algebra, &valuation, buffer) {
        Ok(verdict) => Ok(verdict),
        Err(why) => Err(unweighed(why, values, number)),
    }
}

// The verdict in the layer over an algebra, if there is one, where the layer is the record of a number and the values come after it.
pub(crate) fn weigh_over<A: Algebra>(
    below: &A,
    layer: Option<u32>,
    sequent: &Sequent,
    store: &Store,
    values: &Values,
    number: usize,
    buffer: &mut [u32],
) -> Result<Verdict, Unanswered>
    ensures { Outcome (Layered (A.Algebra.means below.now) layer) (LayerFault (A.Algebra.means below.now) layer (values_of values.now) number) (contents store.now) (values_of values.now) sequent.now buffer.old buffer.new result }
{
    let Some(element) = layer else {
        return weigh_in(below, sequent, store, values, number, buffer);
    };
    match Nucleus::new(below, element) {
        Ok(nucleus) => weigh_in(
            &nucleus,
            sequent,
            store,
            values,
            number.saturating_add(1),
            buffer,
        ),
        Err(_) => Err(Unanswered::Faulty(at(number, Refusal::NotMember))),
    }
}
