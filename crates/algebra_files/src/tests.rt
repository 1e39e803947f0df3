use crate::weigh::weigh_in_file;
use answers::fault::{Fault, Reason};
use answers::unanswered::Unanswered;
use entries::entry::Entry;
use fitch::mode::Mode;
use formulas::store::Store;
use grammar::node::Node;
use heyting::refusal::Refusal;
use ledger::sequent::{MOST_PREMISES, Sequent};
use std::alloc::Global;
use std::test::Fail;
use verdicts::verdict::Verdict;

const P: usize = 16;

// A place that holds no formula.
const MISSING: usize = 28;

// The record of the first entry.
const FIRST: usize = 8;

// From p follows what stands at a place, or else (q>p).
fn weighed_by(
    heap: Global,
    entries: &[Entry<usize>],
    place: Option<usize>,
    values: &mut [u32],
) -> Result<Result<Verdict, Unanswered>, Fail> {
    let mut store = Store::new(vec![in heap; Node::Falsum; 28]?).map_err(
        grammar::refusal::Refusal::from,
    )?;
    let conclusion = store.read(b"(q>p)")?;
    let mut places = [0; MOST_PREMISES];
    places[0] = P;
    let sequent = Sequent {
        mode: Mode::Constructive,
        places,
        count: 1,
        conclusion: place.unwrap_or(conclusion),
    };
    Ok(weigh_in_file(&sequent, &store, entries, FIRST, values))
}

fn weighed(heap: Global, entries: &[Entry<usize>]) -> Result<Result<Verdict, Unanswered>, Fail> {
    weighed_by(heap, entries, None, &mut [0; 28])
}

fn holds(meet: u32, conclusion: u32) -> Result<Verdict, Unanswered> {
    Ok(Verdict {
        meet,
        conclusion,
        holds: true,
    })
}

fn fault(record: usize, refusal: Refusal) -> Result<Verdict, Unanswered> {
    Err(Unanswered::Faulty(Fault::At(record, Reason::Algebra(refusal))))
}

fn out_of_turn(record: usize) -> Result<Verdict, Unanswered> {
    Err(Unanswered::Faulty(Fault::At(record, Reason::Form(1))))
}

#[test]
fn verdicts(rt: HostRuntime) -> Result<(), Fail> {
    let stages = [
        Entry::Base(2),
        Entry::Pair(0, 1),
        Entry::Value(b'p', 1),
        Entry::Value(b'p', 2),
    ];
    assert_eq!(rt; weighed(rt.alloc(), &stages)?, holds(2, 3));
    let squares = [Entry::Base(1), Entry::Base(1), Entry::Nucleus(2)];
    assert_eq!(rt; weighed(rt.alloc(), &squares)?, holds(2, 3));
    Ok(())
}

#[test]
fn faults(rt: HostRuntime) -> Result<(), Fail> {
    let heap = rt.alloc();
    let letter = [Entry::Base(2), Entry::Pair(0, 1), Entry::Value(b'p', 1)];
    assert_eq!(rt;
        weighed(heap, &letter)?,
        fault(10, Refusal::LetterNotMember(16))
    );
    let pair = [
        Entry::Base(2),
        Entry::Pair(0, 1),
        Entry::Base(2),
        Entry::Pair(0, 1),
        Entry::Pair(0, 2),
    ];
    assert_eq!(rt; weighed(heap, &pair)?, fault(12, Refusal::NoSuchWorld(2)));
    let span = [Entry::Base(12), Entry::Base(12), Entry::Value(b'p', 1)];
    assert_eq!(rt; weighed(heap, &span)?, fault(9, Refusal::SpanTooLarge));
    let layer = [Entry::Base(2), Entry::Pair(0, 1), Entry::Nucleus(1)];
    assert_eq!(rt; weighed(heap, &layer)?, fault(10, Refusal::NotMember));
    Ok(())
}

// The first record out of turn is told before any fault of the algebra.
#[test]
fn turns(rt: HostRuntime) -> Result<(), Fail> {
    let heap = rt.alloc();
    assert_eq!(rt; weighed(heap, &[Entry::Close])?, out_of_turn(8));
    assert_eq!(rt; weighed(heap, &[])?, out_of_turn(8));
    let third = [Entry::Base(0), Entry::Base(1), Entry::Base(1)];
    assert_eq!(rt; weighed(heap, &third)?, out_of_turn(10));
    let late = [
        Entry::Base(2),
        Entry::Value(b'p', 1),
        Entry::Pair(0, 1),
        Entry::Close,
    ];
    assert_eq!(rt; weighed(heap, &late)?, out_of_turn(10));
    Ok(())
}

#[test]
fn order(rt: HostRuntime) -> Result<(), Fail> {
    let heap = rt.alloc();
    let letter = [Entry::Base(2), Entry::Pair(0, 1), Entry::Value(b'p', 1)];
    assert_eq!(rt;
        weighed_by(heap, &letter, Some(MISSING), &mut [])?,
        Err(Unanswered::NotStored)
    );
    assert_eq!(rt;
        weighed_by(heap, &letter, None, &mut [])?,
        Err(Unanswered::ShortValues)
    );
    let layer = [Entry::Base(2), Entry::Pair(0, 1), Entry::Nucleus(1)];
    assert_eq!(rt;
        weighed_by(heap, &layer, Some(MISSING), &mut [])?,
        fault(10, Refusal::NotMember)
    );
    Ok(())
}
