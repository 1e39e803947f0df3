// What holds of every record, and of every list of records. Each function stands for the theorem that its contract states.
ghost use Rattle.entries.specs.InTurn.{OnePlace};
ghost use Rattle.entries.specs.ProofFiles.{TurnsOfFiles};
ghost use Rattle.entries.specs.Written.{RecordsAreWritten};

// The records that come in their turns are those of a proof file, or of one, a separator, and what may come after it: an algebra file.
pub fn turns_make_files()
    ensures { TurnsOfFiles }
{}

// Records come in their turns, or are out of turn at one place.
pub fn turns_are_settled()
    ensures { OnePlace }
{}

// Fields say a thing just where they are how it is written, in form and in turn; a fault is at the first field that no such record goes on with.
pub fn records_are_written()
    ensures { RecordsAreWritten }
{}
