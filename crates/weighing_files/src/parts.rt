// The records of the two files.
ghost use Rattle.std.specs.Prelude.{◌≡◌, ◌≤◌, length, map, position};
ghost use Rattle.std.specs.List.{position_or_len};
ghost use Rattle.entries.specs.Entries.{stored};
ghost use Rattle.weighing_files.specs.Weighing.{separates, proof_part, algebra_part};

use entries::entry::Entry;

fn separator(entries: &[Entry<usize>]) -> Option<usize>
    ensures { result ≡ position (λ e. separates (stored e)) entries.now }
{
    entries
        .iter()
        .position(|entry| matches!(entry, Entry::Separator))
}

// How many records the proof file has.
#[tactic(auto, using(scripts::proofs::Fronts::first_within))]
fn count_proof(entries: &[Entry<usize>]) -> usize
    ensures place { result ≡ position_or_len separates (map stored entries.now) }
    ensures within { result ≤ length entries.now }
{
    separator(entries).unwrap_or(entries.len())
}

// The records before `=`, and those after it.
pub(crate) fn split(entries: &[Entry<usize>]) -> (&[Entry<usize>], &[Entry<usize>])
    ensures proof { map stored result.0.now ≡ proof_part (map stored entries.now) }
    ensures algebra { map stored result.1.now ≡ algebra_part (map stored entries.now) }
    ensures within { length result.0.now ≤ length entries.now }
{
    let (proof, rest) = entries.split_at(count_proof(entries));
    match rest {
        [] => (proof, rest),
        [_, algebra @ ..] => (proof, algebra),
    }
}
