use crate::check::check_line;
use crate::unprinted::Unprinted;
use crate::weigh::weigh_line;
use answers::fault::{Fault, Reason};
use answers::unanswered::Unanswered;
use entries::entry::Entry;
use formulas::store::Store;
use grammar::node::Node;
use grammar::told::Told;
use ledger::line::BLANK;
use std::alloc::Global;
use std::test::Fail;

const PROOF: &[u8] = b"M\tI\nP\tp\nS\tp\tR\t1\n";

const SHOWN: &[u8] = b"OK\tI\t2\tp\tp\n";

const BOTH: &[u8] = b"M\tI\nP\tp\nS\tp\tR\t1\n=\nK\t1\n";

const HOLDS: &[u8] = b"HOLDS\t0\t0\n";

fn store(heap: Global) -> Result<Store, Fail> {
    Ok(Store::new(vec![in heap; Node::Falsum; 27]?).map_err(grammar::refusal::Refusal::from)?)
}

fn checked(
    heap: Global,
    entries: usize,
    input: &[u8],
    buffer: &mut [u8],
) -> Result<Result<usize, Unprinted>, Fail> {
    let mut entries = vec![in heap; Entry::Close; entries]?;
    Ok(check_line(
        &mut store(heap)?,
        &mut entries,
        &mut [BLANK; 2],
        input,
        buffer,
    ))
}

fn weighed(
    heap: Global,
    entries: usize,
    values: usize,
    buffer: &mut [u8],
) -> Result<Result<usize, Unprinted>, Fail> {
    let mut entries = vec![in heap; Entry::Close; entries]?;
    let mut values = vec![in heap; 7; values]?;
    Ok(weigh_line(
        &mut store(heap)?,
        &mut entries,
        &mut [BLANK; 2],
        &mut values,
        BOTH,
        buffer,
    ))
}

#[test]
fn just_enough(rt: HostRuntime) -> Result<(), Fail> {
    let mut line = [7; 12];
    assert_eq!(rt; checked(rt.alloc(), 3, PROOF, &mut line)?, Ok(11));
    assert_eq!(rt; line[..11], *SHOWN);
    assert_eq!(rt; line[11], 7);
    let mut line = [7; 10];
    assert_eq!(rt; weighed(rt.alloc(), 5, 27, &mut line)?, Ok(10));
    assert_eq!(rt; line[..], *HOLDS);
    Ok(())
}

#[test]
fn one_too_few(rt: HostRuntime) -> Result<(), Fail> {
    let mut line = [7; 10];
    assert_eq!(rt;
        checked(rt.alloc(), 2, PROOF, &mut line)?,
        Err(Unprinted::ShortEntries)
    );
    assert_eq!(rt;
        checked(rt.alloc(), 3, PROOF, &mut line)?,
        Err(Unprinted::ShortBuffer)
    );
    assert_eq!(rt;
        weighed(rt.alloc(), 4, 27, &mut line)?,
        Err(Unprinted::ShortEntries)
    );
    assert_eq!(rt;
        weighed(rt.alloc(), 5, 26, &mut line)?,
        Err(Unprinted::ShortValues)
    );
    assert_eq!(rt; line, [7; 10]);
    Ok(())
}

#[test]
fn too_long_before_too_few(rt: HostRuntime) -> Result<(), Fail> {
    let input = vec![in rt.alloc(); b'\n'; 65537]?;
    let mut line = [7; 12];
    assert_eq!(rt; checked(rt.alloc(), 0, &input, &mut line)?, Ok(12));
    assert_eq!(rt; line, *b"NO\t0\tT\t28\t0\n");
    Ok(())
}

fn told<R: Told + Copy>(why: R) -> (u8, usize) {
    (why.number(), why.place())
}

#[test]
fn numbers_and_places(rt: HostRuntime) {
    assert_eq!(rt; told(Unprinted::ShortEntries), (6, 0));
    assert_eq!(rt; told(Unprinted::ShortValues), (25, 0));
    assert_eq!(rt; told(Unprinted::ShortBuffer), (6, 0));
    assert_eq!(rt; told(Unanswered::ShortEntries), (6, 0));
    assert_eq!(rt; told(Unanswered::NotStored), (7, 0));
    assert_eq!(rt; told(Unanswered::ShortValues), (25, 0));
    let fault = Fault::At(2, Reason::Form(4));
    assert_eq!(rt; told(Unanswered::Faulty(fault)), (29, 4));
}
