// What holds of every proof file. The function stands for the theorem that its contract states.
ghost use Rattle.checking.specs.Unique.{OneAnswer};

// A proof file shows one thing or has one first fault.
pub fn checking_has_one_answer()
    ensures { OneAnswer }
{}
