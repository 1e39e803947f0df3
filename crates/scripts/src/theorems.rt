// What holds of every list of records. Each function stands for the theorem that its contract states.
ghost use Rattle.scripts.specs.Settled.{OneDerivation};

// Records reach one history, and are stopped by one fault or by none; over formulas that are held once they show one thing, or have one first fault.
pub fn derivations_are_settled()
    ensures { OneDerivation }
{}
