// An editor's clauses are read, stored once, taken apart and written back, and slips are refused.
use crate::words::{Refused, Words};
use formulas::store::Store;
use formulas::store::make::NotMade;
use grammar::node::Node;
use std::io;

// No stored formula has a longer text.
pub(crate) const LONGEST_TEXT: usize = 1024;

pub(crate) fn tell(rt: &HostRuntime) -> anyhow::Result<()> {
    rt.println("Formulas")?;
    tell_making(rt, 26)?;
    tell_making(rt, 40)
}

fn tell_making(rt: &HostRuntime, records: usize) -> anyhow::Result<()> {
    println!(rt; "\nA store is made over {records} records:")?;
    match Store::new(vec![in rt.alloc(); Node::Falsum; records]?) {
        Ok(store) => tell_store(rt, store),
        Err(not_made) => tell_not_made(rt, not_made),
    }
}

fn tell_not_made(rt: &HostRuntime, not_made: NotMade) -> anyhow::Result<()> {
    let NotMade { refusal, records } = not_made;
    println!(rt; "  {}", Refused(refusal))?;
    tell_back(rt, &records)?;
    Ok(())
}

fn tell_store(rt: &HostRuntime, mut store: Store) -> anyhow::Result<()> {
    tell_count(rt, &store)?;
    tell_clauses(rt, &mut store)?;
    tell_parts(rt, &store)?;
    tell_texts(rt, &store)?;
    tell_slips(rt, &mut store)?;
    rt.println("\nAt the end the records are the caller's again:")?;
    let records = store.into_records();
    tell_back(rt, &records)?;
    Ok(())
}

fn tell_clauses(rt: &HostRuntime, store: &mut Store) -> io::Result<()> {
    rt.println("")?;
    rt.println(
        "An editor's clauses are read. A clause that was read before is found at its place, in any of its texts:",
    )?;
    for clause in ["((p&q)>r)", "~~p", "((p&q)>r)", "((p>#)>#)", "((s|t)>~r)"] {
        tell_read(rt, store, clause)?;
    }
    tell_count(rt, store)
}

fn tell_parts(rt: &HostRuntime, store: &Store) -> io::Result<()> {
    rt.println("\nThe first clause is taken apart:")?;
    for place in [28, 27, 16, 0] {
        match store.node(place) {
            Ok(node) => println!(rt; "  node  {place}: {}", Words(node))?,
            Err(refusal) => println!(rt; "{}", Refused(refusal))?,
        }
    }
    Ok(())
}

fn tell_texts(rt: &HostRuntime, store: &Store) -> anyhow::Result<()> {
    rt.println("\nClauses are written back, with ~ for each implication to #:")?;
    for place in [28, 30, 33] {
        tell_write(rt, store, place, &mut [b' '; LONGEST_TEXT])?;
    }
    Ok(())
}

fn tell_slips(rt: &HostRuntime, store: &mut Store) -> anyhow::Result<()> {
    rt.println("\nSlips are refused by number and place, and leave the store as it was:")?;
    for slip in [
        "(p&q",
        "p&q",
        "",
        "(p&Q)",
        "~~~~~~~~~~~~~~~~~~~~~~~~~~~~~~~~~p",
        "(((a&b)|(c&d))>((e&f)|(g&h)))",
    ] {
        tell_read(rt, store, slip)?;
    }
    tell_write(rt, store, 34, &mut [b' '; LONGEST_TEXT])?;
    tell_write(rt, store, 28, &mut [b' '; 8])?;
    tell_count(rt, store)?;
    Ok(())
}

fn tell_back(rt: &HostRuntime, records: &[Node]) -> io::Result<()> {
    println!(rt; "  {} records are back", records.len())
}

fn tell_count(rt: &HostRuntime, store: &Store) -> io::Result<()> {
    println!(rt;
        "  {} of {} records in use",
        store.count(),
        store.capacity()
    )
}

fn tell_read(rt: &HostRuntime, store: &mut Store, text: &str) -> io::Result<()> {
    print!(rt; "  read  '{text}': ")?;
    match store.read(text.as_bytes()) {
        Ok(place) => println!(rt; "place {place}"),
        Err(refusal) => println!(rt; "{}", Refused(refusal)),
    }
}

fn tell_write(
    rt: &HostRuntime,
    store: &Store,
    place: usize,
    buffer: &mut [u8],
) -> anyhow::Result<()> {
    print!(rt; "  write {place} into {} bytes: ", buffer.len())?;
    match store.write(place, buffer) {
        Ok(length) => {
            let text = std::str::from_utf8(&buffer[..length])?;
            println!(rt; "{length} bytes, '{text}'")?;
        }
        Err(refusal) => println!(rt; "{}", Refused(refusal))?,
    }
    Ok(())
}
