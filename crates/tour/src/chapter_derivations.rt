// A release rule is derived step by step, two wrong steps are refused, and the finished derivation tells what it shows.
use crate::chapter_formulas::LONGEST_TEXT;
use crate::chapter_weighing;
use crate::words::{Refused, ending};
use derivations::gathering::Gathering;
use derivations::open::Open;
use derivations::sealed::Sealed;
use fitch::mode::Mode;
use fitch::refusal::Refusal;
use fitch::rule::Rule;
use formulas::store::Store;
use grammar::node::Node;
use ledger::line::BLANK;
use std::io;

const RECORDS: usize = 64;

const LINES: usize = 8;

// A formula by its text, and its place in the store.
#[derive(Clone, Copy)]
struct Clause<'t> {
    text: &'t str,
    place: usize,
}

pub(crate) fn tell(rt: &HostRuntime) -> anyhow::Result<()> {
    rt.println("\nDerivations")?;
    match Store::new(vec![in rt.alloc(); Node::Falsum; RECORDS]?) {
        Ok(store) => tell_release(rt, store),
        Err(not_made) => {
            println!(rt; "{}", Refused(not_made.refusal))?;
            Ok(())
        }
    }
}

// What is catalogued (p) and reviewed (q) is released (r); so, once a document is reviewed, cataloguing releases it.
fn tell_release(rt: &HostRuntime, mut store: Store) -> anyhow::Result<()> {
    rt.println(
        "\nThe clauses of a release rule are read: p is catalogued, q reviewed, r released.",
    )?;
    let rule = read(rt, &mut store, "((p&q)>r)")?;
    let both = read(rt, &mut store, "(p&q)")?;
    let shown = read(rt, &mut store, "(p>r)")?;
    let catalogued = read(rt, &mut store, "p")?;
    let reviewed = read(rt, &mut store, "q")?;
    let released = read(rt, &mut store, "r")?;
    let mut lines = [BLANK; LINES];
    rt.println("\nThe premises are gathered:")?;
    let mut gathering = Gathering::new(&store, &mut lines, Mode::Constructive);
    for premise in [rule, reviewed] {
        tell_premise(rt, &mut gathering, premise)?;
    }
    rt.println("\nLines are written, a wrong one refused:")?;
    let mut open = gathering.open();
    tell_assume(rt, &mut open, catalogued)?;
    tell_step(rt, &mut open, released, ">E", &[1, 3])?;
    tell_step(rt, &mut open, both, "&I", &[3, 2])?;
    tell_step(rt, &mut open, released, ">E", &[1, 4])?;
    tell_close(rt, &mut open)?;
    rt.println("\nA line of the closed box is out of reach; the box itself can be cited:")?;
    tell_step(rt, &mut open, released, "R", &[5])?;
    tell_step(rt, &mut open, shown, ">I", &[3])?;
    rt.println("\nThe derivation is sealed:")?;
    let sealed = open.seal();
    tell_shown(rt, &store, &sealed)?;
    chapter_weighing::tell_release(rt, &sealed)
}

fn read<'t>(rt: &HostRuntime, store: &mut Store, text: &'t str) -> anyhow::Result<Clause<'t>> {
    let place = store.read(text.as_bytes()).map_err(ending)?;
    println!(rt; "  read    '{text}': place {place}")?;
    Ok(Clause { text, place })
}

fn tell_premise(rt: &HostRuntime, gathering: &mut Gathering, clause: Clause) -> io::Result<()> {
    print!(rt; "  premise '{}': ", clause.text)?;
    tell_line(rt, gathering.premise(clause.place))
}

fn tell_assume(rt: &HostRuntime, open: &mut Open, clause: Clause) -> io::Result<()> {
    print!(rt; "  assume  '{}': ", clause.text)?;
    tell_line(rt, open.assume(clause.place))
}

fn tell_step(
    rt: &HostRuntime,
    open: &mut Open,
    clause: Clause,
    name: &str,
    citations: &[usize],
) -> io::Result<()> {
    print!(rt; "  step    '{}' by {name} from", clause.text)?;
    for citation in citations {
        print!(rt; " {citation}")?;
    }
    rt.print(": ")?;
    match Rule::from_name(name.as_bytes()) {
        Some(rule) => tell_line(rt, open.step(clause.place, rule, citations)),
        None => rt.println("no such rule"),
    }
}

fn tell_close(rt: &HostRuntime, open: &mut Open) -> io::Result<()> {
    rt.print("  close: ")?;
    match open.close() {
        Ok(()) => rt.println("closed"),
        Err(refusal) => println!(rt; "{}", Refused(refusal)),
    }
}

fn tell_line(rt: &HostRuntime, written: Result<usize, Refusal>) -> io::Result<()> {
    match written {
        Ok(number) => println!(rt; "line {number}"),
        Err(refusal) => println!(rt; "{}", Refused(refusal)),
    }
}

fn tell_shown(rt: &HostRuntime, store: &Store, sealed: &Sealed) -> anyhow::Result<()> {
    match sealed.line(5) {
        Ok(line) => println!(rt;
            "  line 5: place {}, in box {}",
            line.formula, line.innermost
        )?,
        Err(refusal) => println!(rt; "  line 5: {}", Refused(refusal))?,
    }
    rt.print("  sequent:")?;
    match sealed.sequent() {
        Ok(sequent) => {
            for place in sequent.premises() {
                print_text(rt, store, *place)?;
            }
            rt.print(" give")?;
            print_text(rt, store, sequent.conclusion)?;
            rt.println("")?;
        }
        Err(refusal) => println!(rt; " {}", Refused(refusal))?,
    }
    Ok(())
}

fn print_text(rt: &HostRuntime, store: &Store, place: usize) -> anyhow::Result<()> {
    let mut buffer = [b' '; LONGEST_TEXT];
    match store.write(place, &mut buffer) {
        Ok(length) => print!(rt; " {}", std::str::from_utf8(&buffer[..length])?)?,
        Err(refusal) => print!(rt; " {}", Refused(refusal))?,
    }
    Ok(())
}
