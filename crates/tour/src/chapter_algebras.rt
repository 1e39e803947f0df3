// Release stages are loaded as a frame, clauses are evaluated there, and bad stages are refused.
use crate::words::Refused;
use algebras::algebra::Algebra;
use formulas::store::Store;
use frames::frame::Frame;
use grammar::node::Node;
use layers::product::Product;
use layers::product::make::NotMade as NotPaired;
use std::io;
use weighing::evaluate::evaluate;
use weighing::valuation::Valuation;

const RECORDS: usize = 64;

// A document is received (0), catalogued (1), reviewed (2) and released (3); a review may reopen the catalogue.
pub(crate) const STAGES: u32 = 4;

pub(crate) const STEPS: [(u32, u32); 4] = [(0, 1), (1, 2), (2, 1), (2, 3)];

// p from the catalogue on, q once released.
const CATALOGUED: u32 = 14;

const RELEASED: u32 = 8;

pub(crate) fn tell(rt: &HostRuntime) -> anyhow::Result<()> {
    rt.println("\nAlgebras")?;
    let mut frame = Frame::new();
    rt.println("\nA place for a frame holds one world:")?;
    tell_members(rt, &frame)?;
    rt.println(
        "\nStages 0 to 3 are loaded, 0 below 1, 1 and 2 in a ring, 2 below 3. A member has with a stage all above it:",
    )?;
    tell_load(rt, &mut frame, STAGES, &STEPS)?;
    tell_members(rt, &frame)?;
    tell_values(rt, &frame)?;
    tell_bad_loads(rt, &mut frame)?;
    tell_product(rt)
}

fn tell_values(rt: &HostRuntime, frame: &Frame) -> anyhow::Result<()> {
    rt.println("\nClauses are evaluated, with p = 14 (from stage 1 on) and q = 8 (stage 3):")?;
    match Store::new(vec![in rt.alloc(); Node::Falsum; RECORDS]?) {
        Ok(store) => tell_clauses(rt, frame, store)?,
        Err(not_made) => println!(rt; "{}", Refused(not_made.refusal))?,
    }
    Ok(())
}

fn tell_clauses(rt: &HostRuntime, frame: &Frame, mut store: Store) -> anyhow::Result<()> {
    let valuation = valuation_of(frame);
    for clause in ["(p|~p)", "~~p", "(p>q)", "(q>p)"] {
        match store.read(clause.as_bytes()) {
            Ok(place) => tell_value(rt, frame, &store, &valuation, clause, place)?,
            Err(refusal) => println!(rt; "{}", Refused(refusal))?,
        }
    }
    Ok(())
}

fn valuation_of(frame: &Frame) -> Valuation {
    let mut letters = [frame.bottom(); 26];
    letters[15] = CATALOGUED;
    letters[16] = RELEASED;
    Valuation { letters }
}

fn tell_value(
    rt: &HostRuntime,
    frame: &Frame,
    store: &Store,
    valuation: &Valuation,
    clause: &str,
    place: usize,
) -> anyhow::Result<()> {
    let mut values = [0; RECORDS];
    print!(rt; "  value '{clause}': ")?;
    match evaluate(store, frame, valuation, &mut values) {
        Ok(()) => match values.get(place) {
            Some(value) => println!(rt; "{value}")?,
            None => println!(rt; "no value")?,
        },
        Err(refusal) => println!(rt; "{}", Refused(refusal))?,
    }
    Ok(())
}

fn tell_bad_loads(rt: &HostRuntime, frame: &mut Frame) -> io::Result<()> {
    rt.println("\nBad stages are refused, and the frame stays as it was:")?;
    tell_load(rt, frame, 13, &STEPS)?;
    tell_load(rt, frame, 4, &[(0, 1), (1, 4)])?;
    tell_load(rt, frame, 4, &[(99999, 0)])?;
    tell_members(rt, frame)
}

fn tell_product(rt: &HostRuntime) -> anyhow::Result<()> {
    rt.println("\nTwo single worlds are paired:")?;
    tell_pair(rt, Product::new(Frame::new(), Frame::new()))?;
    rt.println("\nA product whose span is over 65,536 is refused, and both algebras come back:")?;
    let mut wide = Frame::new();
    tell_load(rt, &mut wide, 12, &[])?;
    tell_pair(rt, Product::new(wide, wide))?;
    Ok(())
}

fn tell_pair(
    rt: &HostRuntime,
    made: Result<Product<Frame, Frame>, NotPaired<Frame, Frame>>,
) -> io::Result<()> {
    match made {
        Ok(pair) => { println!(rt; "  product: the arrow from 2 to 1 is {}", pair.arrow(2, 1)) }
        Err(not_made) => {
            println!(rt;
                "  product: the first has span {}, {}",
                not_made.first.span(),
                Refused(not_made.refusal)
            )
        }
    }
}

fn tell_load(
    rt: &HostRuntime,
    frame: &mut Frame,
    worlds: u32,
    pairs: &[(u32, u32)],
) -> io::Result<()> {
    print!(rt; "  load worlds {worlds}, pairs {}: ", pairs.len())?;
    match frame.load(worlds, pairs) {
        Ok(()) => rt.println("loaded"),
        Err(refusal) => println!(rt; "{}", Refused(refusal)),
    }
}

fn tell_members<A: Algebra>(rt: &HostRuntime, algebra: &A) -> io::Result<()> {
    rt.print("  members")?;
    for a in 0..algebra.span() {
        if algebra.contains(a) {
            print!(rt; " {a}")?;
        }
    }
    rt.println("")
}
