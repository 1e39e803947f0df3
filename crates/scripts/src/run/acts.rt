// The records of assumptions, steps and closes.
ghost use Rattle.std.specs.Prelude.{◌≡◌, ◌+◌, ◌<◌, ◌^◌, ◌∷◌, length, map, MatchResult, OnErr};
ghost use Rattle.fitch.specs.Checks.{Accepted, Refused};
ghost use Rattle.fitch.specs.History.{History, step as next_step};
ghost use Rattle.derivations.specs.Derived.{sheet_in, Derived, Leaves, checks_of_step};
ghost use Rattle.derivations.specs.Sheets.{formula_of};
ghost use Rattle.entries.specs.Entries.{cited, stored};
ghost use Rattle.scripts.specs.Runs.{open_calls, Ran, RanOne};

use answers::fault::{Fault, Reason};
use derivations::open::Open;
use entries::citations::Citations;
use entries::entry::Entry;
use fitch::refusal::Refusal;
use fitch::rule::Rule;

// A step whose citations are written in a record.
fn step(
    derivation: &mut Open,
    place: usize,
    rule: Rule,
    citations: Citations,
) -> Result<(), Refusal>
    ensures ran { (h : History) → Derived derivation.old h → MatchResult result (λ _. Accepted (checks_of_step derivation.old h place rule (cited citations)) × Derived derivation.new (next_step (formula_of (sheet_in derivation.old) place) rule (cited citations) ∷ h)) (Refused (checks_of_step derivation.old h place rule (cited citations))) }
    ensures leaves { Leaves derivation.old derivation.new }
    ensures unchanged { OnErr result (derivation.new ≡ derivation.old) }
{
    derivation.step(place, rule, citations.as_slice())?;
    Ok(())
}

// One record; one that is no assumption, step or close is passed over.
fn act(derivation: &mut Open, entry: Entry<usize>) -> Result<(), Refusal>
    ensures ran { (h : History) → Derived derivation.old h → MatchResult result (λ _. Accepted ((open_calls derivation.old).checks h (stored entry)) × Derived derivation.new ((open_calls derivation.old).after h (stored entry))) (Refused ((open_calls derivation.old).checks h (stored entry))) }
    ensures leaves { Leaves derivation.old derivation.new }
    ensures unchanged { OnErr result (derivation.new ≡ derivation.old) }
{
    match entry {
        Entry::Assume(place) => {
            derivation.assume(place)?;
        }
        Entry::Step(place, rule, citations) => step(derivation, place, rule, citations)?,
        Entry::Close => derivation.close()?,
        _ => {}
    }
    Ok(())
}

// The record of a number.
fn act_one(derivation: &mut Open, entry: Entry<usize>, number: usize) -> Result<(), Fault>
    ensures ran { (h : History) → Derived derivation.old h → RanOne (open_calls derivation.old) (Derived derivation.new) h number (stored entry) result }
    ensures leaves { Leaves derivation.old derivation.new }
{
    act(derivation, entry).map_err(|refusal| Fault::At(number, Reason::Derivation(refusal)))
}

pub(crate) fn act_all(
    derivation: &mut Open,
    entries: &[Entry<usize>],
    first: usize,
) -> Result<(), Fault>
    requires { first + length entries.now < 2 ^ 64 }
    ensures ran { (h : History) → Derived derivation.old h → Ran (open_calls derivation.old) (Derived derivation.new) h first (map stored entries.now) result }
    ensures leaves { Leaves derivation.old derivation.new }
{
    for (place, entry) in entries.iter().enumerate() {
        act_one(derivation, *entry, first + place)?;
    }
    Ok(())
}
