// Why a sequent or a derivation has no verdict, by number and place, and the verdicts of excluded middle at two stages.
use crate::small_frames::TWO_STAGES;
use crate::writing::{assert_refused, fresh_store};
use algebras::algebra::Algebra;
use derivations::gathering::Gathering;
use fitch::mode::Mode;
use fitch::rule::Rule;
use formulas::store::Store;
use judgements::judge::judge;
use ledger::line::BLANK;
use nuclei::nucleus::Nucleus;
use std::alloc::Global;
use std::process::Abort;
use std::test::Fail;
use verdicts::verdict::Verdict;
use verdicts::weigh::weigh;
use weighing::valuation::Valuation;

const P: usize = 16;

// The place of (p|~p), behind that of ~p.
const EXCLUDED_MIDDLE: usize = 28;

const UNTOUCHED: u32 = 77;

fn store_of_excluded_middle(heap: Global) -> Result<Store, Fail> {
    let mut store = fresh_store(heap)?;
    store.read(b"(p|~p)")?;
    Ok(store)
}

fn valuation_of(p: u32) -> Valuation {
    let mut letters = [0; 26];
    letters[15] = p;
    Valuation { letters }
}

#[test]
fn sequents_are_refused_in_turn(rt: HostRuntime) -> Result<(), Fail> {
    let store = store_of_excluded_middle(rt.alloc())?;
    let mut lines = [BLANK; 2];
    let mut gathering = Gathering::new(&store, &mut lines, Mode::Constructive);
    gathering.premise(EXCLUDED_MIDDLE)?;
    let sequent = gathering.open().seal().sequent()?;
    let frame = TWO_STAGES.frame()?;
    let other = fresh_store(rt.alloc())?;
    let mut buffer = [UNTOUCHED; 30];
    assert_refused(
        &rt,
        weigh(&sequent, &other, &frame, &valuation_of(1), &mut []),
        7,
        0,
    );
    assert_refused(
        &rt,
        weigh(
            &sequent,
            &store,
            &frame,
            &valuation_of(1),
            &mut buffer[..28],
        ),
        25,
        0,
    );
    assert_refused(
        &rt,
        weigh(&sequent, &store, &frame, &valuation_of(1), &mut buffer),
        26,
        16,
    );
    assert!(rt; buffer == [UNTOUCHED; 30]);
    let verdict = Verdict {
        meet: 2,
        conclusion: 2,
        holds: true,
    };
    assert_eq!(rt;
        weigh(
            &sequent,
            &store,
            &frame,
            &valuation_of(2),
            &mut buffer[..29]
        ),
        Ok(verdict)
    );
    assert!(rt; buffer[28] == 2 && buffer[29] == UNTOUCHED);
    Ok(())
}

#[test]
fn derivations_are_judged(rt: HostRuntime) -> Result<(), Fail> {
    let store = store_of_excluded_middle(rt.alloc())?;
    let mut lines = [BLANK; 2];
    let mut gathering = Gathering::new(&store, &mut lines, Mode::Constructive);
    gathering.premise(P)?;
    let mut open = gathering.open();
    open.step(EXCLUDED_MIDDLE, Rule::OrLeft, &[1])?;
    let sealed = open.seal();
    let frame = TWO_STAGES.frame()?;
    let layer = Nucleus::double_negation(&frame);
    let mut buffer = [UNTOUCHED; 29];
    assert_refused(
        &rt,
        judge(&sealed, &frame, &valuation_of(2), &mut []),
        25,
        0,
    );
    assert_refused(
        &rt,
        judge(&sealed, &layer, &valuation_of(2), &mut buffer),
        26,
        16,
    );
    assert!(rt; buffer == [UNTOUCHED; 29]);
    let early = Verdict {
        meet: 2,
        conclusion: 2,
        holds: true,
    };
    assert_eq!(rt;
        judge(&sealed, &frame, &valuation_of(2), &mut buffer),
        Ok(early)
    );
    let settled = Verdict {
        meet: 0,
        conclusion: 3,
        holds: true,
    };
    assert_eq!(rt;
        judge(&sealed, &layer, &valuation_of(0), &mut buffer),
        Ok(settled)
    );
    Ok(())
}

#[test]
fn unfinished_derivations_are_not_judged(rt: HostRuntime) -> Result<(), Fail> {
    let store = store_of_excluded_middle(rt.alloc())?;
    let frame = TWO_STAGES.frame()?;
    let empty = Gathering::new(&store, &mut [], Mode::Constructive)
        .open()
        .seal();
    assert_refused(&rt, judge(&empty, &frame, &valuation_of(0), &mut []), 18, 0);
    let mut lines = [BLANK; 1];
    let mut open = Gathering::new(&store, &mut lines, Mode::Classical).open();
    open.assume(P)?;
    assert_refused(
        &rt,
        judge(&open.seal(), &frame, &valuation_of(0), &mut []),
        17,
        0,
    );
    Ok(())
}
