// Writes a derivation by the records of a proof file.
ghost use Rattle.std.specs.Prelude.{◌≡◌, ◌+◌, ◌≤◌, length, map, position, IfOk};
ghost use Rattle.std.specs.List.{position_or_len};
ghost use Rattle.formulas.specs.Stores.{contents};
ghost use Rattle.entries.specs.Entries.{stored};
ghost use Rattle.fitch.specs.History.{History};
ghost use Rattle.derivations.specs.Finished.{mode_by, Finished, formulas_by};
ghost use Rattle.scripts.specs.Authoring.{GathersBy, WritesBy, TellsBy};
ghost use Rattle.scripts.specs.Proofs.{acts, mode_of, front, back, Entailed, Concluded, DerivesRecords};

use crate::run::acts::act_all;
use crate::run::premises::gather;
use answers::checked::Checked;
use answers::fault::{Fault, Reason};
use derivations::author::Author;
use derivations::gathering::Gathering;
use derivations::open::Open;
use derivations::sealed::Sealed;
use derivations::whole::derive_by;
use entries::entry::Entry;
use entries::order::first_out_of_turn;
use entries::turn::{Format, Turn};
use fitch::mode::Mode;
use formulas::store::Store;
use ledger::line::Line;

fn mode_of(entries: &[Entry<usize>]) -> Mode
    ensures { result ≡ mode_of (map stored entries.now) }
{
    match entries.first() {
        Some(Entry::Mode(mode)) => *mode,
        _ => Mode::Constructive,
    }
}

fn acts(entry: Entry<usize>) -> bool
    ensures { result ≡ acts (stored entry) }
{
    matches!(
        entry,
        Entry::Assume(_) | Entry::Step(_, _, _) | Entry::Close
    )
}

fn first_act(entries: &[Entry<usize>]) -> Option<usize>
    ensures { result ≡ position (λ e. acts (stored e)) entries.now }
{
    entries.iter().position(|entry| acts(*entry))
}

// How many records come before the first that ends the gathering.
#[tactic(auto, using(crate::proofs::Fronts::first_within))]
fn count_front(entries: &[Entry<usize>]) -> usize
    ensures place { result ≡ position_or_len acts (map stored entries.now) }
    ensures within { result ≤ length entries.now }
{
    first_act(entries).unwrap_or(entries.len())
}

// What a sealed derivation of so many records shows; a fault of the sequent is told at the last of them.
fn conclude(derivation: &Sealed, records: usize) -> Result<Checked, Fault>
    ensures exact { (h : History) → Finished derivation.now h → Concluded (mode_by derivation.now) (formulas_by derivation.now) h records result }
    ensures entails { IfOk result (Entailed (formulas_by derivation.now)) }
{
    let sequent = derivation
        .sequent()
        .map_err(|refusal| Fault::At(records, Reason::Derivation(refusal)))?;
    Ok(Checked {
        sequent,
        lines: derivation.count(),
    })
}

// The records of a proof file, numbered from 1, as the author of its derivation.
#[derive(Drop)]
struct Script<'e> {
    entries: &'e [Entry<usize>],
}

impl<'e> Script<'e> {
    // The records before the first that ends the gathering, and those from it on.
    fn split(&self) -> (&'e [Entry<usize>], &'e [Entry<usize>])
        ensures front { map stored result.0.now ≡ front (map stored self.now.entries.now) }
        ensures back { map stored result.1.now ≡ back (map stored self.now.entries.now) }
        ensures whole { length result.0.now + length result.1.now ≡ length self.now.entries.now }
    {
        self.entries.split_at(count_front(self.entries))
    }
}

impl Author for Script<'_> {
    type Told = Checked;

    type Fault = Fault;

    ghost gathers = { λ script g r after. GathersBy (map stored script.entries.now) g r after };

    ghost writes = { λ script o r after. WritesBy (map stored script.entries.now) o r after };

    ghost tells = { λ script d r. TellsBy (map stored script.entries.now) d r };

    fn gather(&self, gathering: &mut Gathering) -> Result<(), Fault> {
        let (front, _) = self.split();
        gather(gathering, front, 1)
    }

    fn write(&self, derivation: &mut Open) -> Result<(), Fault> {
        let (front, back) = self.split();
        act_all(derivation, back, front.len() + 1)
    }

    fn tell(&self, derivation: &Sealed) -> Result<Checked, Fault> {
        conclude(derivation, self.entries.len())
    }
}

// Writes a derivation by the records of a proof file, numbered from 1, over the store of their formulas: what it shows, or the first fault.
// Where they are those of no proof file, the first that is out of turn is refused, or the one that is due behind the last, and the line records are as they were.
pub fn derive(store: &Store, lines: &mut [Line], entries: &[Entry<usize>]) -> Result<Checked, Fault>
    ensures exact { DerivesRecords (contents store.now) lines.old lines.new (map stored entries.now) result }
    ensures entails { IfOk result (Entailed (contents store.now)) }
{
    match first_out_of_turn(Format::Proof, Turn::Start, entries) {
        Some(place) => Err(Fault::At(place + 1, Reason::Form(1))),
        None => derive_by(&Script { entries }, store, lines, mode_of(entries)),
    }
}
