// Stores, texts and buffers that are just large enough, and just too small.
use formulas::store::Store;
use grammar::connective::Connective;
use grammar::node::Node;
use grammar::refusal::Refusal;
use std::alloc::{AllocError, Global};
use std::process::Abort;
use std::test::Fail;

// What the caller's records hold before a store is made over them.
const MARK: Node = Node::Letter(b'!');

fn fresh(heap: Global, records: usize) -> Result<Store, Fail> {
    Ok(Store::new(vec![in heap; MARK; records]?).map_err(Refusal::from)?)
}

fn check_reads(rt: &impl Abort, store: &mut Store, table: &[(&[u8], Result<usize, Refusal>)]) {
    for (text, answer) in table {
        assert_eq!(rt; store.read(*text), *answer);
    }
}

// A text of a balanced conjunction of p, of 2^(depth + 2) - 3 bytes.
fn balanced(heap: Global, depth: usize) -> Result<Vec<u8>, AllocError> {
    let mut text = Vec::from_slice(heap, b"p")?;
    for _ in 0..depth {
        let mut longer = Vec::from_slice(heap, b"(")?;
        longer.extend_from_slice(&text)?;
        longer.extend_from_slice(b"&")?;
        longer.extend_from_slice(&text)?;
        longer.extend_from_slice(b")")?;
        text = longer;
    }
    Ok(text)
}

fn tildes_then(heap: Global, count: usize, text: &[u8]) -> Result<Vec<u8>, AllocError> {
    let mut whole = vec![in heap; b'~'; count]?;
    whole.extend_from_slice(text)?;
    Ok(whole)
}

#[test]
fn texts_read_or_are_refused_at_the_first_wrong_place(rt: HostRuntime) -> Result<(), Fail> {
    let table: [(&[u8], Result<usize, Refusal>); 24] = [
        (b"#", Ok(0)),
        (b"a", Ok(1)),
        (b"z", Ok(26)),
        (b"~p", Ok(27)),
        (b"(p>#)", Ok(27)),
        (b"((p&q)|r)", Ok(29)),
        (b"(r|(p&q))", Ok(30)),
        (b"(p&q)", Ok(28)),
        (b"(q&p)", Ok(31)),
        (b"(p|q)", Ok(32)),
        (b"(p>q)", Ok(33)),
        (b"", Err(Refusal::NotFormula(0))),
        (b"\0", Err(Refusal::NotFormula(0))),
        (b"p\0", Err(Refusal::NotFormula(1))),
        (b"\x80", Err(Refusal::NotFormula(0))),
        (b"(p&\xff)", Err(Refusal::NotFormula(3))),
        (b"P", Err(Refusal::NotFormula(0))),
        (b"`", Err(Refusal::NotFormula(0))),
        (b"{", Err(Refusal::NotFormula(0))),
        (b"(p&q", Err(Refusal::NotFormula(4))),
        (b"(p&q))", Err(Refusal::NotFormula(5))),
        (b"(p & q)", Err(Refusal::NotFormula(2))),
        (b"(p&q&r)", Err(Refusal::NotFormula(4))),
        (b"p&q", Err(Refusal::NotFormula(1))),
    ];
    check_reads(&rt, &mut fresh(rt.alloc(), 64)?, &table);
    Ok(())
}

#[test]
fn records_reach_exactly_as_far_as_the_signs(rt: HostRuntime) -> Result<(), Fail> {
    let table: [(&[u8], Result<usize, Refusal>); 7] = [
        (b"(a&b)", Ok(27)),
        (b"~(a&b)", Err(Refusal::RecordsWanting)),
        (b"~c", Ok(28)),
        (b"~c", Err(Refusal::RecordsWanting)),
        (b"~(", Err(Refusal::NotFormula(2))),
        (b"c", Ok(3)),
        (b"#", Ok(0)),
    ];
    let mut store = fresh(rt.alloc(), 29)?;
    check_reads(&rt, &mut store, &table);
    assert_eq!(rt; store.count(), 29);
    assert_eq!(rt; store.node(27), Ok(Node::Joined(Connective::And, 1, 2)));
    assert_eq!(rt; store.node(28), Ok(Node::Joined(Connective::Implies, 3, 0)));
    assert_eq!(rt; store.node(29), Err(Refusal::NotStored));
    Ok(())
}

#[test]
fn long_and_deep_texts(rt: HostRuntime) -> Result<(), Fail> {
    let heap = rt.alloc();
    let conjunction = balanced(heap, 8)?;
    assert_eq!(rt; conjunction.len(), 1021);
    let longest = tildes_then(heap, 3, &conjunction)?;
    let too_long = tildes_then(heap, 4, &conjunction)?;
    let deepest = tildes_then(heap, 32, b"p")?;
    let too_deep = tildes_then(heap, 33, b"p")?;
    let brackets = vec![in heap; b'('; 1024]?;
    let more_brackets = vec![in heap; b'('; 1025]?;
    let table: [(&[u8], Result<usize, Refusal>); 6] = [
        (&longest, Ok(37)),
        (&too_long, Err(Refusal::LongText)),
        (&deepest, Ok(69)),
        (&too_deep, Err(Refusal::DeepFormula)),
        (&brackets, Err(Refusal::NotFormula(1024))),
        (&more_brackets, Err(Refusal::LongText)),
    ];
    check_reads(&rt, &mut fresh(heap, 4096)?, &table);
    Ok(())
}

#[test]
fn buffers_just_long_enough_and_one_short(rt: HostRuntime) -> Result<(), Fail> {
    let mut store = fresh(rt.alloc(), 64)?;
    assert_eq!(rt; store.read(b"((p&(q>#))|~(r>s))"), Ok(31));
    let mut exact = [b'.'; 15];
    assert_eq!(rt; store.write(31, &mut exact), Ok(15));
    assert!(rt; &exact == b"((p&~q)|~(r>s))");
    let mut longer = [b'.'; 17];
    assert_eq!(rt; store.write(31, &mut longer), Ok(15));
    assert!(rt; &longer == b"((p&~q)|~(r>s))..");
    let mut short = [b'.'; 14];
    assert_eq!(rt; store.write(31, &mut short), Err(Refusal::ShortBuffer));
    assert_eq!(rt; store.write(32, &mut short), Err(Refusal::NotStored));
    assert!(rt; &short == b"..............");
    assert_eq!(rt; store.write(0, &mut []), Err(Refusal::ShortBuffer));
    assert_eq!(rt; store.read(&exact), Ok(31));
    Ok(())
}

#[test]
fn records_are_written_no_further_than_they_are_used(rt: HostRuntime) -> Result<(), Fail> {
    let heap = rt.alloc();
    let Err(not_made) = Store::new(vec![in heap; MARK; 26]?) else {
        return Err(Fail::new("made over 26 records"));
    };
    assert_eq!(rt; not_made.refusal, Refusal::FewRecords);
    assert_eq!(rt; not_made.records.len(), 26);
    assert!(rt; !not_made.records.contains(&Node::Falsum));
    assert_eq!(rt; fresh(heap, 27)?.capacity(), 27);
    assert_eq!(rt; fresh(heap, 5000)?.capacity(), 4096);
    let mut store = fresh(heap, 30)?;
    assert_eq!(rt; store.read(b"~a"), Ok(27));
    let records = store.into_records();
    let marked = [MARK; 2];
    assert!(rt; records.ends_with(&marked));
    assert_eq!(rt;
        records.get(27).copied(),
        Some(Node::Joined(Connective::Implies, 1, 0))
    );
    Ok(())
}
