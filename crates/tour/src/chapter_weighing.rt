// One derivation is weighed in a frame, a product, layers and a chain of degrees; a classical one fails in the frame and holds in its layer.
use crate::chapter_algebras::{STAGES, STEPS};
use crate::words::{Refused, ending};
use algebras::algebra::Algebra;
use degrees::chain::Chain;
use derivations::gathering::Gathering;
use derivations::open::Open;
use derivations::sealed::Sealed;
use fitch::mode::Mode;
use fitch::refusal::Refusal;
use fitch::rule::Rule;
use formulas::store::Store;
use frames::frame::Frame;
use grammar::node::Node;
use judgements::judge::judge;
use layers::product::Product;
use ledger::line::BLANK;
use nuclei::nucleus::Nucleus;
use std::io;
use weighing::valuation::Valuation;

const MOST_VALUES: usize = 64;

pub(crate) fn tell_release(rt: &HostRuntime, derivation: &Sealed) -> anyhow::Result<()> {
    rt.println("\nWeighing")?;
    rt.println("\nWhat it shows is weighed in four stages of release, as loaded above:")?;
    let frame = stages()?;
    tell_verdict(rt, derivation, &frame, [14, 15, 8])?;
    tell_verdict(rt, derivation, &frame, [8, 14, 0])?;
    rt.println("\nIn the stages beside a single world, where 2a + b codes the pair of a and b:")?;
    let product = Product::new(&frame, Frame::new()).map_err(|not_made| ending(not_made.refusal))?;
    tell_verdict(rt, derivation, &product, [29, 30, 17])?;
    rt.println("\nIn the layer of the stages at 8:")?;
    let layer = Nucleus::new(&frame, 8).map_err(|not_made| ending(not_made.refusal))?;
    tell_verdict(rt, derivation, &layer, [15, 15, 8])?;
    rt.println("\nIn an algebra of one's own, a chain of five degrees:")?;
    let chain = Chain::new(5).map_err(|_| anyhow::Error::msg("no chain of five degrees"))?;
    tell_verdict(rt, derivation, &chain, [3, 4, 2])?;
    Ok(())
}

// Excluded middle is derived in classical mode.
pub(crate) fn tell_excluded_middle(rt: &HostRuntime) -> anyhow::Result<()> {
    rt.println(
        "\nA classical derivation shows (p|~p). It fails in the stages, and holds in their double-negation layer:",
    )?;
    let mut store = Store::new(vec![in rt.alloc(); Node::Falsum; MOST_VALUES]?).map_err(
        |not_made| ending(not_made.refusal),
    )?;
    let clauses = Clauses {
        p: store.read(b"p").map_err(ending)?,
        not_p: store.read(b"~p").map_err(ending)?,
        either: store.read(b"(p|~p)").map_err(ending)?,
        neither: store.read(b"~(p|~p)").map_err(ending)?,
        falsum: store.read(b"#").map_err(ending)?,
    };
    let mut lines = [BLANK; 8];
    let mut open = Gathering::new(&store, &mut lines, Mode::Classical).open();
    derive_excluded_middle(&mut open, &clauses).map_err(ending)?;
    let derivation = open.seal();
    let frame = stages()?;
    tell_verdict(rt, &derivation, &frame, [14, 0, 0])?;
    let layer = Nucleus::double_negation(&frame);
    tell_verdict(rt, &derivation, &layer, [14, 0, 0])?;
    tell_verdict(rt, &derivation, &layer, [15, 0, 0])?;
    tell_verdict(rt, &derivation, &layer, [0, 0, 0])?;
    Ok(())
}

// The places of the formulas.
#[derive(Clone, Copy)]
struct Clauses {
    p: usize,
    not_p: usize,
    either: usize,
    neither: usize,
    falsum: usize,
}

fn derive_excluded_middle(open: &mut Open, clauses: &Clauses) -> Result<(), Refusal> {
    open.assume(clauses.neither)?;
    open.assume(clauses.p)?;
    open.step(clauses.either, Rule::OrLeft, &[2])?;
    open.step(clauses.falsum, Rule::ImpElim, &[1, 3])?;
    open.close()?;
    open.step(clauses.not_p, Rule::ImpIntro, &[2])?;
    open.step(clauses.either, Rule::OrRight, &[5])?;
    open.step(clauses.falsum, Rule::ImpElim, &[1, 6])?;
    open.close()?;
    open.step(clauses.either, Rule::Reductio, &[1])?;
    Ok(())
}

fn stages() -> anyhow::Result<Frame> {
    let mut frame = Frame::new();
    frame.load(STAGES, &STEPS).map_err(ending)?;
    Ok(frame)
}

fn tell_verdict<A: Algebra>(
    rt: &HostRuntime,
    derivation: &Sealed,
    algebra: &A,
    letters: [u32; 3],
) -> io::Result<()> {
    let [p, q, r] = letters;
    print!(rt; "  p = {p}, q = {q}, r = {r}: ")?;
    let mut valuation = Valuation {
        letters: [algebra.bottom(); 26],
    };
    valuation.letters[15] = p;
    valuation.letters[16] = q;
    valuation.letters[17] = r;
    match judge(derivation, algebra, &valuation, &mut [0; MOST_VALUES]) {
        Ok(verdict) => {
            let holds = if verdict.holds { "holds" } else { "fails" };
            println!(rt;
                "{holds}, the meet is {}, the conclusion {}",
                verdict.meet, verdict.conclusion
            )
        }
        Err(refusal) => println!(rt; "{}", Refused(refusal)),
    }
}
