// What holds of every input. Each function stands for the theorem that its contract states.
ghost use Rattle.readings.specs.Settled.{OneReading, AllInTurn};

// An input says one thing up to one first fault.
pub fn inputs_say_one_thing()
    ensures { OneReading }
{}

// What an input without a fault says comes in the turns of its format.
pub fn inputs_come_in_turn()
    ensures { AllInTurn }
{}
