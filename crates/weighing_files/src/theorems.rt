// What holds of every input. The function stands for the theorem that its contract states.
ghost use Rattle.weighing_files.specs.Unique.{OneAnswer};

// An input has one verdict or one first fault.
pub fn weighing_has_one_answer()
    ensures { OneAnswer }
{}
