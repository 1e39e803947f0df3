// The writing of a derivation from formulas by their texts.
use crate::textbook::Textbook;
use derivations::gathering::Gathering;
use derivations::open::Open;
use fitch::mode::Mode;
use fitch::refusal::Refusal;
use fitch::rule::Rule;
use formulas::store::Store;
use grammar::node::Node;
use grammar::told::Told;
use ledger::line::BLANK;
use ledger::sequent::Sequent;
use std::alloc::Global;
use std::process::Abort;
use std::test::Fail;

// What is written after the premises: an assumption, a line by a rule, or the end of a box.
#[derive(Clone, Copy)]
pub(crate) enum Act<'t> {
    Assume(&'t str),
    By(&'t str, Rule, &'t [usize]),
    Close,
}

// The formulas of a derivation in a store, each by its place; the end of a box has none, and 0.
#[derive(Drop)]
pub(crate) struct Script<'t> {
    pub(crate) title: &'t str,
    pub(crate) store: Store,
    pub(crate) premises: Vec<usize>,
    pub(crate) acts: Vec<(Act<'t>, usize)>,
    pub(crate) conclusion: usize,
}

pub(crate) fn fresh_store(heap: Global) -> Result<Store, Fail> {
    Ok(Store::new(vec![in heap; Node::Falsum; 64]?).map_err(grammar::refusal::Refusal::from)?)
}

pub(crate) fn read<'t>(heap: Global, textbook: &Textbook<'t>) -> Result<Script<'t>, Fail> {
    let mut store = fresh_store(heap)?;
    let mut premises = Vec::new(heap);
    for text in textbook.premises {
        premises.push(store.read(text.as_bytes())?)?;
    }
    let mut acts = Vec::new(heap);
    for act in textbook.acts {
        let place = match *act {
            Act::Assume(text) => store.read(text.as_bytes())?,
            Act::By(text, _, _) => store.read(text.as_bytes())?,
            Act::Close => 0,
        };
        acts.push((*act, place))?;
    }
    let conclusion = store.read(textbook.conclusion.as_bytes())?;
    Ok(Script {
        title: textbook.title,
        store,
        premises,
        acts,
        conclusion,
    })
}

// The number and the place of a refusal.
pub(crate) fn told<T: Drop, R: Told + Copy>(answer: Result<T, R>) -> Option<(u8, usize)> {
    answer
        .err()
        .map(|refusal| (refusal.number(), refusal.place()))
}

pub(crate) fn assert_line(rt: &impl Abort, answer: Result<usize, Refusal>, number: usize) {
    assert_eq!(rt; answer, Ok(number));
}

pub(crate) fn assert_refused<T: Drop, R: Told + Copy>(
    rt: &impl Abort,
    answer: Result<T, R>,
    number: u8,
    place: usize,
) {
    assert_eq!(rt; told(answer), Some((number, place)));
}

// Writes one act, and answers the line's number, or 0 for the end of a box.
fn write(open: &mut Open, act: Act, place: usize) -> Result<usize, Refusal> {
    match act {
        Act::Assume(_) => open.assume(place),
        Act::By(_, rule, citations) => open.step(place, rule, citations),
        Act::Close => open.close().map(|_| 0),
    }
}

// The rules that give one formula only from what is cited.
fn gives_one(rule: Rule) -> bool {
    !matches!(rule, Rule::OrLeft | Rule::OrRight | Rule::ExFalso)
}

// Every other formula of the store is refused, where the rule gives one only.
fn refuses_others(rt: &impl Abort, store: &Store, open: &mut Open, act: Act, place: usize) {
    if let Act::By(_, rule, citations) = act {
        if gives_one(rule) {
            for other in 0..store.count() {
                if other != place {
                    assert_eq!(rt; open.step(other, rule, citations), Err(Refusal::DoesNotFit));
                }
            }
        }
    }
}

impl<'t> Script<'t> {
    // Writes the derivation as far as it is accepted, and answers its sequent, or the refusal.
    pub(crate) fn derive(&self, rt: &impl Abort, mode: Mode) -> Result<Sequent, Refusal> {
        let mut lines = [BLANK; 64];
        let mut gathering = Gathering::new(&self.store, &mut lines, mode);
        for place in &self.premises {
            gathering.premise(*place)?;
        }
        let mut open = gathering.open();
        for (act, place) in &self.acts {
            if let Mode::Classical = mode {
                refuses_others(rt, &self.store, &mut open, *act, *place);
            }
            write(&mut open, *act, *place)?;
        }
        open.seal().sequent()
    }
}
