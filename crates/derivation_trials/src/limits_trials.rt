// Derivations with just as many premises, boxes and lines as there may be, and one more; every refusal by number and place.
use crate::writing::{assert_line, assert_refused, fresh_store};
use derivations::gathering::Gathering;
use fitch::mode::Mode;
use fitch::rule::{Reason, Rule};
use ledger::line::{BLANK, Line, LineInfo};
use std::test::Fail;

// What the caller's line records hold before they are lent.
const MARK: Line = Line {
    formula: 99,
    inside: 98,
    ..BLANK
};

// The places of p, of q, and of none in a fresh store.
const P: usize = 16;

const Q: usize = 17;

const NOWHERE: usize = 27;

fn all_marked(lines: &[Line]) -> bool {
    lines.iter().all(|line| *line == MARK)
}

#[test]
fn thirty_two_premises_and_one_more(rt: HostRuntime) -> Result<(), Fail> {
    let store = fresh_store(rt.alloc())?;
    let mut lines = [MARK; 34];
    let mut gathering = Gathering::new(&store, &mut lines, Mode::Constructive);
    for number in 1..33 {
        assert_refused(&rt, gathering.premise(NOWHERE), 7, 0);
        assert_line(&rt, gathering.premise(P), number);
    }
    assert_refused(&rt, gathering.premise(NOWHERE), 7, 0);
    assert_refused(&rt, gathering.premise(P), 8, 0);
    assert_refused(&rt, gathering.line(33), 12, 0);
    let mut open = gathering.open();
    assert_line(&rt, open.step(P, Rule::Reiterate, &[32]), 33);
    let sequent = open.seal().sequent()?;
    assert!(rt; sequent.premises() == [P; 32].as_slice());
    assert_eq!(rt; sequent.conclusion, P);
    assert!(rt; all_marked(&lines[33..]));
    Ok(())
}

#[test]
fn the_thirty_third_premise_is_refused_before_its_record(rt: HostRuntime) -> Result<(), Fail> {
    let store = fresh_store(rt.alloc())?;
    let mut lines = [MARK; 32];
    let mut gathering = Gathering::new(&store, &mut lines, Mode::Classical);
    for number in 1..33 {
        assert_line(&rt, gathering.premise(Q), number);
    }
    assert_refused(&rt, gathering.premise(P), 8, 0);
    let mut open = gathering.open();
    assert_refused(&rt, open.step(Q, Rule::Reiterate, &[1]), 9, 0);
    Ok(())
}

#[test]
fn empty_line_memory(rt: HostRuntime) -> Result<(), Fail> {
    let store = fresh_store(rt.alloc())?;
    let mut gathering = Gathering::new(&store, &mut [], Mode::Constructive);
    assert_refused(&rt, gathering.premise(NOWHERE), 7, 0);
    assert_refused(&rt, gathering.premise(P), 9, 0);
    assert_refused(&rt, gathering.line(0), 12, 0);
    assert_refused(&rt, gathering.line(1), 12, 0);
    let mut open = gathering.open();
    assert_refused(&rt, open.assume(NOWHERE), 7, 0);
    assert_refused(&rt, open.assume(P), 9, 0);
    assert_refused(&rt, open.step(P, Rule::Reiterate, &[1]), 12, 1);
    assert_refused(&rt, open.close(), 16, 0);
    assert_refused(&rt, open.seal().sequent(), 18, 0);
    Ok(())
}

#[test]
fn sixteen_boxes_and_one_more(rt: HostRuntime) -> Result<(), Fail> {
    let store = fresh_store(rt.alloc())?;
    let mut lines = [MARK; 18];
    let mut open = Gathering::new(&store, &mut lines, Mode::Constructive).open();
    for number in 1..17 {
        assert_line(&rt, open.assume(P), number);
    }
    assert_refused(&rt, open.assume(NOWHERE), 7, 0);
    assert_refused(&rt, open.assume(P), 10, 0);
    assert_line(&rt, open.step(P, Rule::Reiterate, &[1]), 17);
    for _ in 0..16 {
        open.close()?;
    }
    assert_refused(&rt, open.close(), 16, 0);
    assert_line(&rt, open.assume(Q), 18);
    assert_refused(&rt, open.assume(Q), 9, 0);
    open.close()?;
    assert_refused(&rt, open.close(), 16, 0);
    assert_refused(&rt, open.seal().sequent(), 18, 0);
    Ok(())
}

#[test]
fn the_seventeenth_box_is_refused_before_its_record(rt: HostRuntime) -> Result<(), Fail> {
    let store = fresh_store(rt.alloc())?;
    let mut lines = [MARK; 16];
    let mut open = Gathering::new(&store, &mut lines, Mode::Constructive).open();
    for number in 1..17 {
        assert_line(&rt, open.assume(P), number);
    }
    assert_refused(&rt, open.assume(P), 10, 0);
    assert_refused(&rt, open.seal().sequent(), 17, 0);
    Ok(())
}

#[test]
fn all_lines_and_one_more(rt: HostRuntime) -> Result<(), Fail> {
    let store = fresh_store(rt.alloc())?;
    let mut lines = vec![in rt.alloc(); MARK; 1030]?;
    let mut gathering = Gathering::new(&store, &mut lines, Mode::Constructive);
    assert_line(&rt, gathering.premise(P), 1);
    let mut open = gathering.open();
    assert_line(&rt, open.assume(Q), 2);
    for number in 3..1025 {
        assert_line(&rt, open.step(P, Rule::Reiterate, &[1]), number);
    }
    assert_refused(&rt, open.step(Q, Rule::Reiterate, &[1]), 15, 0);
    assert_refused(&rt, open.step(P, Rule::Reiterate, &[1024]), 9, 0);
    assert_refused(&rt, open.step(P, Rule::Reiterate, &[1025]), 12, 1);
    assert_refused(&rt, open.assume(P), 9, 0);
    let last = LineInfo {
        formula: P,
        reason: Reason::Step(Rule::Reiterate, [1, 0, 0]),
        innermost: 2,
    };
    assert_eq!(rt; open.line(1024), Ok(last));
    assert_refused(&rt, open.line(1025), 12, 0);
    open.close()?;
    let sealed = open.seal();
    assert_eq!(rt; sealed.line(1024), Ok(last));
    assert_eq!(rt; sealed.sequent()?.conclusion, P);
    assert!(rt; all_marked(&lines[1024..]));
    Ok(())
}
