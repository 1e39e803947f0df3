// Verdicts in frames, compared with what the worlds force: a second way to the same answers.
use crate::small_frames::{SHAPES, Shape};
use crate::textbook::{CLASSICAL, CONSTRUCTIVE, Textbook};
use crate::writing::{Script, read};
use algebras::algebra::Algebra;
use fitch::mode::Mode;
use formulas::store::Store;
use grammar::connective::Connective;
use grammar::node::Node;
use ledger::sequent::Sequent;
use std::alloc::{AllocError, Global};
use std::process::Abort;
use std::test::Fail;
use verdicts::weigh::weigh;
use weighing::valuation::Valuation;

fn at(sets: &[u32], place: usize) -> u32 {
    sets.get(place).copied().unwrap_or(0)
}

impl Shape<'_> {
    // The worlds from which on every world that forces the one forces the other.
    fn forcing_implication(&self, one: u32, other: u32) -> u32 {
        let mut set = 0;
        for (world, above) in self.above.iter().enumerate() {
            if *above & one & !other == 0 && world < 32 {
                set |= 1 << world;
            }
        }
        set
    }

    // For each formula of a store, the set of worlds that force it.
    fn forcing(
        &self,
        heap: Global,
        store: &Store,
        letters: &[u32],
    ) -> Result<Vec<u32>, AllocError> {
        let mut sets = Vec::new(heap);
        for place in 0..store.count() {
            let set = match store.node(place) {
                Ok(Node::Letter(byte)) => at(letters, byte.saturating_sub(b'a') as usize),
                Ok(Node::Joined(Connective::And, a, b)) => at(&sets, a as usize)
                    & at(&sets, b as usize),
                Ok(Node::Joined(Connective::Or, a, b)) => at(&sets, a as usize)
                    | at(&sets, b as usize),
                Ok(Node::Joined(Connective::Implies, a, b)) => self.forcing_implication(
                    at(&sets, a as usize),
                    at(&sets, b as usize),
                ),
                _ => 0,
            };
            sets.push(set)?;
        }
        Ok(sets)
    }
}

fn compare(
    rt: &impl Abort,
    heap: Global,
    shape: &Shape,
    script: &Script,
    sequent: &Sequent,
) -> Result<(), Fail> {
    let frame = shape.frame()?;
    let mut valuation = Valuation { letters: [0; 26] };
    for p in (0..frame.span()).filter(|a| frame.contains(*a)) {
        for q in (0..frame.span()).filter(|a| frame.contains(*a)) {
            for r in (0..frame.span()).filter(|a| frame.contains(*a)) {
                valuation.letters[15] = p;
                valuation.letters[16] = q;
                valuation.letters[17] = r;
                let verdict = weigh(sequent, &script.store, &frame, &valuation, &mut [0; 64])?;
                let sets = shape.forcing(heap, &script.store, &valuation.letters)?;
                let mut premises = frame.top();
                for place in sequent.premises() {
                    premises &= at(&sets, *place);
                }
                let conclusion = at(&sets, sequent.conclusion);
                assert_eq!(rt; verdict.meet, premises);
                assert_eq!(rt; verdict.conclusion, conclusion);
                assert_eq!(rt; verdict.holds, premises & !conclusion == 0);
            }
        }
    }
    Ok(())
}

fn compare_all(rt: &impl Abort, heap: Global, textbook: &Textbook, mode: Mode) -> Result<(), Fail> {
    let script = read(heap, textbook)?;
    let sequent = script.derive(rt, mode)?;
    for shape in &SHAPES {
        compare(rt, heap, shape, &script, &sequent)?;
    }
    Ok(())
}

#[test]
fn verdicts_are_what_the_worlds_force(rt: HostRuntime) -> Result<(), Fail> {
    for textbook in &CONSTRUCTIVE {
        compare_all(&rt, rt.alloc(), textbook, Mode::Constructive)?;
    }
    for textbook in &CLASSICAL {
        compare_all(&rt, rt.alloc(), textbook, Mode::Classical)?;
    }
    Ok(())
}
