// What entries and a file settle.
ghost use Rattle.algebra_files.specs.Theorems.{Settled};

// No two files are written alike; no file has two algebras, two first faults, or a fault and letters that all have members; and no entries get two answers.
pub fn files_are_settled()
    ensures { Settled }
{}
