// Derivations out of textbooks, weighed in small algebras under all valuations of p, q and r by members.
use crate::small_frames::{FORK, SHAPES, TWO_STAGES};
use crate::textbook::{CLASSICAL, CONSTRUCTIVE, Textbook};
use crate::writing::{Script, read};
use algebras::algebra::Algebra;
use degrees::chain::Chain;
use fitch::mode::Mode;
use heyting::refusal::Refusal;
use layers::product::Product;
use ledger::sequent::Sequent;
use nuclei::nucleus::Nucleus;
use std::alloc::{AllocError, Global};
use std::process::Abort;
use std::test::Fail;
use verdicts::refusal::Unweighable;
use verdicts::verdict::Verdict;
use verdicts::weigh::weigh;
use weighing::valuation::Valuation;

// A derivation, and the sequent that it shows.
#[derive(Drop)]
struct Shown<'t> {
    script: Script<'t>,
    sequent: Sequent,
}

// How many valuations there are, and under how many of them a sequent holds.
#[derive(Clone, Copy)]
struct Tally {
    valuations: u32,
    holding: u32,
}

fn show<'t>(
    rt: &impl Abort,
    heap: Global,
    textbook: &Textbook<'t>,
    mode: Mode,
) -> Result<Shown<'t>, Fail> {
    let script = read(heap, textbook)?;
    let sequent = script.derive(rt, mode)?;
    Ok(Shown { script, sequent })
}

fn members<A: Algebra>(heap: Global, algebra: &A) -> Result<Vec<u32>, AllocError> {
    let mut members = Vec::new(heap);
    for a in 0..algebra.span() {
        if algebra.contains(a) {
            members.push(a)?;
        }
    }
    Ok(members)
}

// With p, q and r so, and the bottom for every other letter.
fn verdict_at<A: Algebra>(
    shown: &Shown,
    algebra: &A,
    letters: [u32; 3],
) -> Result<Verdict, Unweighable> {
    let mut valuation = Valuation {
        letters: [algebra.bottom(); 26],
    };
    for (letter, element) in letters.iter().enumerate() {
        valuation.letters[15 + letter] = *element;
    }
    weigh(
        &shown.sequent,
        &shown.script.store,
        algebra,
        &valuation,
        &mut [0; 64],
    )
}

fn is_below_twice_negated<A: Algebra>(algebra: &A, verdict: Verdict) -> bool {
    let negated = algebra.arrow(verdict.conclusion, algebra.bottom());
    let twice = algebra.arrow(negated, algebra.bottom());
    algebra.meet(verdict.meet, twice) == verdict.meet
}

fn weigh_under_all<A: Algebra>(
    rt: &impl Abort,
    heap: Global,
    shown: &Shown,
    algebra: &A,
) -> Result<Tally, Fail> {
    let mut tally = Tally {
        valuations: 0,
        holding: 0,
    };
    let members = members(heap, algebra)?;
    for p in &members {
        for q in &members {
            for r in &members {
                let verdict = verdict_at(shown, algebra, [*p, *q, *r])?;
                assert!(rt; is_below_twice_negated(algebra, verdict));
                tally.valuations = tally.valuations.saturating_add(1);
                if verdict.holds {
                    tally.holding = tally.holding.saturating_add(1);
                }
            }
        }
    }
    Ok(tally)
}

fn holds_always<A: Algebra>(
    rt: &impl Abort,
    heap: Global,
    shown: &Shown,
    algebra: &A,
) -> Result<(), Fail> {
    let tally = weigh_under_all(rt, heap, shown, algebra)?;
    assert!(rt; tally.valuations > 0);
    assert_eq!(rt; tally.holding, tally.valuations, "{}", shown.script.title);
    Ok(())
}

fn holds_in_frames_and_layers(rt: &impl Abort, heap: Global, shown: &Shown) -> Result<(), Fail> {
    for shape in &SHAPES {
        let frame = shape.frame()?;
        holds_always(rt, heap, shown, &frame)?;
        for element in &members(heap, &frame)? {
            let layer = Nucleus::new(&frame, *element).map_err(Refusal::from)?;
            holds_always(rt, heap, shown, &layer)?;
        }
    }
    Ok(())
}

// In a chain, in a product of a layer and the chain, and in a layer over that product.
fn holds_in_a_pile(rt: &impl Abort, heap: Global, shown: &Shown) -> Result<(), Fail> {
    let chain = Chain::new(4)?;
    holds_always(rt, heap, shown, &chain)?;
    let layer = Nucleus::double_negation(TWO_STAGES.frame()?);
    let product = Product::new(layer, chain).map_err(Refusal::from)?;
    holds_always(rt, heap, shown, &product)?;
    let upper = Nucleus::new(&product, 1).map_err(Refusal::from)?;
    holds_always(rt, heap, shown, &upper)
}

#[test]
fn constructive_derivations_hold_in_every_algebra(rt: HostRuntime) -> Result<(), Fail> {
    for textbook in &CONSTRUCTIVE {
        let shown = show(&rt, rt.alloc(), textbook, Mode::Constructive)?;
        holds_in_frames_and_layers(&rt, rt.alloc(), &shown)?;
        holds_in_a_pile(&rt, rt.alloc(), &shown)?;
    }
    Ok(())
}

#[test]
fn classical_derivations_fail_in_a_frame_and_hold_in_its_double_negation_layer(
    rt: HostRuntime,
) -> Result<(), Fail> {
    for textbook in &CLASSICAL {
        let shown = show(&rt, rt.alloc(), textbook, Mode::Classical)?;
        let tally = weigh_under_all(&rt, rt.alloc(), &shown, &FORK.frame()?)?;
        assert!(rt; tally.holding < tally.valuations, "{}", textbook.title);
        for shape in &SHAPES {
            let layer = Nucleus::double_negation(shape.frame()?);
            holds_always(&rt, rt.alloc(), &shown, &layer)?;
        }
    }
    Ok(())
}
