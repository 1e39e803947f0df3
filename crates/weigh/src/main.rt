// Weighs a proof file in the algebra of an algebra file, both from standard input, and prints the verdict, or the first fault.
#![tactic(auto)]

use answer_lines::weigh::weigh_line;
use console::limits::{ANSWER_ROOM, LINE_RECORDS, MOST_READ, STORE_RECORDS};
use console::{fill, write_line};
use entries::entry::Entry;
use formulas::store::Store;
use grammar::node::Node;
use ledger::line::BLANK;
use records::records::Records;
use std::io;
use std::io::Input;

// Where nothing can be answered, the program ends with an error: input that can't be read, output that can't be written, no memory.
fn main(rt: HostRuntime) -> anyhow::Result<()> {
    let mut input = vec![in rt.alloc(); 0; MOST_READ]?;
    let length = fill(&mut rt.reader(), &mut input)?;
    let input = &input[..length];
    let mut store = Store::new(vec![in rt.alloc(); Node::Falsum; STORE_RECORDS]?).map_err(
        |_| anyhow::anyhow!("too few records for a store"),
    )?;
    let count = Records { rest: input }.count();
    let mut entries = vec![in rt.alloc(); Entry::Close; count]?;
    let mut lines = vec![in rt.alloc(); BLANK; LINE_RECORDS]?;
    let mut values = vec![in rt.alloc(); 0; STORE_RECORDS]?;
    let mut printed = vec![in rt.alloc(); 0; ANSWER_ROOM]?;
    let written = weigh_line(
        &mut store,
        &mut entries,
        &mut lines,
        &mut values,
        input,
        &mut printed,
    );
    let line = written
        .ok()
        .and_then(|written| printed.get(..written))
        .ok_or(anyhow::anyhow!("the answer can't be written"))?;
    write_line(&mut io::writer(&rt), line)?;
    Ok(())
}
