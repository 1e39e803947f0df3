// Files with their answers: each file that is named is checked, or weighed if its name ends in `.weigh`, and its name and its answer are printed.
#![tactic(auto)]

use answer_lines::check::check_line;
use answer_lines::weigh::weigh_line;
use console::limits::{ANSWER_ROOM, LINE_RECORDS, STORE_RECORDS};
use entries::entry::Entry;
use formulas::store::Store;
use grammar::node::Node;
use ledger::line::BLANK;
use records::records::Records;
use std::{env, fs};

fn main(rt: HostRuntime) -> anyhow::Result<()> {
    for name in env::args(&rt)?.skip(1) {
        let input = fs::read(&rt, name.as_str())?;
        let mut printed = vec![in rt.alloc(); 0; ANSWER_ROOM]?;
        let weighs = name.as_str().ends_with(".weigh");
        let length = answer(&rt, &input, weighs, &mut printed)?;
        let line = std::str::from_utf8(printed.get(..length).unwrap_or(&[]))?;
        print!(rt; "{name}\t{line}")?;
    }
    Ok(())
}

fn answer(
    rt: &HostRuntime,
    input: &[u8],
    weighs: bool,
    printed: &mut [u8],
) -> anyhow::Result<usize> {
    let mut store = Store::new(vec![in rt.alloc(); Node::Falsum; STORE_RECORDS]?).map_err(
        |_| anyhow::anyhow!("too few records for a store"),
    )?;
    let count = Records { rest: input }.count();
    let mut entries = vec![in rt.alloc(); Entry::Close; count]?;
    let mut lines = vec![in rt.alloc(); BLANK; LINE_RECORDS]?;
    let mut values = vec![in rt.alloc(); 0; STORE_RECORDS]?;
    let written = if weighs {
        weigh_line(
            &mut store,
            &mut entries,
            &mut lines,
            &mut values,
            input,
            printed,
        )
    } else {
        check_line(&mut store, &mut entries, &mut lines, input, printed)
    };
    written.map_err(|_| anyhow::anyhow!("no line"))
}
