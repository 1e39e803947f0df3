// Steps after premises and boxes, closed and open: which are refused, by number and place, and which are accepted.
use crate::writing::{assert_line, assert_refused, fresh_store, told};
use derivations::gathering::Gathering;
use derivations::open::Open;
use fitch::mode::Mode;
use fitch::refusal::Refusal;
use fitch::rule::{Reason, Rule};
use formulas::store::Store;
use ledger::line::{BLANK, LineInfo};
use std::alloc::Global;
use std::process::Abort;
use std::test::Fail;

const P: usize = 16;

const Q: usize = 17;

const R: usize = 18;

// The places of joined formulas, in the order in which they are read.
const P_OR_Q: usize = 27;

const P_IMPLIES_Q: usize = 28;

const Q_IMPLIES_R: usize = 29;

const Q_IMPLIES_Q: usize = 30;

const NOT_P: usize = 31;

const NOT_Q: usize = 32;

const NOWHERE: usize = 33;

fn joined(heap: Global) -> Result<Store, Fail> {
    let mut store = fresh_store(heap)?;
    for text in ["(p|q)", "(p>q)", "(q>r)", "(q>q)", "~p", "~q"] {
        store.read(text.as_bytes())?;
    }
    Ok(store)
}

// Lines 1 to 3.
fn gather(gathering: &mut Gathering) -> Result<(), Refusal> {
    gathering.premise(P)?;
    gathering.premise(P_IMPLIES_Q)?;
    gathering.premise(P_OR_Q)?;
    Ok(())
}

// Box 4 is closed, with box 5 in it and line 6 behind that. Box 7 is open.
fn nest(open: &mut Open) -> Result<(), Refusal> {
    open.assume(Q)?;
    open.assume(R)?;
    open.close()?;
    open.step(Q, Rule::Reiterate, &[4])?;
    open.close()?;
    open.assume(P)?;
    Ok(())
}

// A step's formula, rule and citations, and the number and the place of its refusal.
type Wrong<'t> = (usize, Rule, &'t [usize], u8, usize);

const WRONG: [Wrong<'static>; 29] = [
    (NOWHERE, Rule::Reiterate, &[], 7, 0),
    (Q, Rule::ImpElim, &[], 11, 0),
    (Q, Rule::ImpElim, &[2], 11, 0),
    (Q, Rule::ImpElim, &[2, 1, 1], 11, 0),
    (P, Rule::Reiterate, &[1, 1, 1, 1], 11, 0),
    (Q, Rule::ImpElim, &[99], 11, 0),
    (Q, Rule::ImpElim, &[0, 1], 12, 1),
    (Q, Rule::ImpElim, &[2, 8], 12, 2),
    (Q, Rule::ImpElim, &[8, 8], 12, 1),
    (Q, Rule::ImpElim, &[4, 8], 12, 2),
    (Q, Rule::ImpElim, &[2, 18446744073709551615], 12, 2),
    (Q, Rule::OrElim, &[3, 4, 99], 12, 3),
    (Q, Rule::Reiterate, &[4], 13, 1),
    (Q, Rule::Reiterate, &[6], 13, 1),
    (Q, Rule::ImpElim, &[2, 6], 13, 2),
    (R, Rule::ImpElim, &[6, 5], 13, 1),
    (Q_IMPLIES_Q, Rule::ImpIntro, &[1], 13, 1),
    (Q_IMPLIES_Q, Rule::ImpIntro, &[5], 13, 1),
    (Q_IMPLIES_Q, Rule::ImpIntro, &[6], 13, 1),
    (Q_IMPLIES_Q, Rule::ImpIntro, &[7], 13, 1),
    (Q, Rule::OrElim, &[3, 4, 7], 13, 3),
    (Q, Rule::OrElim, &[3, 5, 7], 13, 2),
    (P, Rule::Reductio, &[7], 13, 1),
    (P, Rule::Reductio, &[4], 14, 0),
    (P, Rule::ImpElim, &[2, 1], 15, 0),
    (Q, Rule::ImpElim, &[1, 2], 15, 0),
    (Q_IMPLIES_R, Rule::ImpIntro, &[4], 15, 0),
    (P_IMPLIES_Q, Rule::ImpIntro, &[4], 15, 0),
    (P_OR_Q, Rule::OrRight, &[1], 15, 0),
];

fn refuses_the_wrong(rt: &impl Abort, open: &mut Open) {
    for (formula, rule, citations, number, place) in &WRONG {
        assert_eq!(rt;
            told(open.step(*formula, *rule, *citations)),
            Some((*number, *place)),
            "a step by {rule:?} from {citations:?}"
        );
    }
}

#[test]
fn steps_after_boxes(rt: HostRuntime) -> Result<(), Fail> {
    let store = joined(rt.alloc())?;
    let mut lines = [BLANK; 11];
    let mut gathering = Gathering::new(&store, &mut lines, Mode::Constructive);
    gather(&mut gathering)?;
    let mut open = gathering.open();
    nest(&mut open)?;
    refuses_the_wrong(&rt, &mut open);
    assert_line(&rt, open.step(Q, Rule::ImpElim, &[2, 1]), 8);
    assert_line(&rt, open.step(Q_IMPLIES_Q, Rule::ImpIntro, &[4]), 9);
    assert_line(&rt, open.step(P_OR_Q, Rule::OrLeft, &[1]), 10);
    assert_line(&rt, open.step(P, Rule::Reiterate, &[7]), 11);
    assert_refused(&rt, open.step(P, Rule::ImpElim, &[2, 1]), 15, 0);
    assert_refused(&rt, open.step(Q, Rule::ImpElim, &[2, 1]), 9, 0);
    open.close()?;
    let sequent = open.seal().sequent()?;
    assert_eq!(rt; sequent.conclusion, P_OR_Q);
    assert!(rt; sequent.premises() == [P, P_IMPLIES_Q, P_OR_Q].as_slice());
    Ok(())
}

#[test]
fn lines_are_told_in_every_state(rt: HostRuntime) -> Result<(), Fail> {
    let store = joined(rt.alloc())?;
    let mut lines = [BLANK; 8];
    let mut gathering = Gathering::new(&store, &mut lines, Mode::Classical);
    gather(&mut gathering)?;
    let mut open = gathering.open();
    nest(&mut open)?;
    let table = [
        (1, P, Reason::Premise, 0),
        (2, P_IMPLIES_Q, Reason::Premise, 0),
        (4, Q, Reason::Assumption, 4),
        (5, R, Reason::Assumption, 5),
        (6, Q, Reason::Step(Rule::Reiterate, [4, 0, 0]), 4),
        (7, P, Reason::Assumption, 7),
    ];
    for (number, formula, reason, innermost) in table {
        let info = LineInfo {
            formula,
            reason,
            innermost,
        };
        assert_eq!(rt; open.line(number), Ok(info));
    }
    assert_refused(&rt, open.line(0), 12, 0);
    assert_refused(&rt, open.line(8), 12, 0);
    let sealed = open.seal();
    assert_refused(&rt, sealed.line(8), 12, 0);
    assert_refused(&rt, sealed.sequent(), 17, 0);
    Ok(())
}

// A contradiction under q gives ~q in both modes; no formula by `RA`, since q is no negation.
#[test]
fn what_is_assumed_must_be_a_negation(rt: HostRuntime) -> Result<(), Fail> {
    let store = joined(rt.alloc())?;
    let mut lines = [BLANK; 6];
    let mut gathering = Gathering::new(&store, &mut lines, Mode::Classical);
    gathering.premise(P)?;
    gathering.premise(NOT_P)?;
    let mut open = gathering.open();
    open.assume(Q)?;
    open.step(0, Rule::ImpElim, &[2, 1])?;
    open.close()?;
    for formula in 0..store.count() {
        assert_refused(&rt, open.step(formula, Rule::Reductio, &[3]), 15, 0);
    }
    assert_line(&rt, open.step(NOT_Q, Rule::ImpIntro, &[3]), 5);
    Ok(())
}

#[test]
fn rules_by_their_names(rt: HostRuntime) {
    let table: [(&[u8], Rule); 11] = [
        (b"R", Rule::Reiterate),
        (b"&I", Rule::AndIntro),
        (b"&1", Rule::AndLeft),
        (b"&2", Rule::AndRight),
        (b"|1", Rule::OrLeft),
        (b"|2", Rule::OrRight),
        (b"|E", Rule::OrElim),
        (b">I", Rule::ImpIntro),
        (b">E", Rule::ImpElim),
        (b"#E", Rule::ExFalso),
        (b"RA", Rule::Reductio),
    ];
    for (name, rule) in table {
        assert_eq!(rt; Rule::from_name(name), Some(rule));
    }
    let wrong: [&[u8]; 10] = [
        b"", b"r", b"R ", b"RAA", b"A", b"&", b"&3", b"|I", b"E>", b"#",
    ];
    for name in wrong {
        assert_eq!(rt; Rule::from_name(name), None);
    }
}
