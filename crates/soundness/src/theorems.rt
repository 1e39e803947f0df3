// What holds of every derivation. Each function stands for the theorem that its contract states.
ghost use Rattle.soundness.specs.Soundness.{ConstructiveSound, ClassicalSound, ClassicalInBoolean, ClassicalInLayers, ConclusionsFollow};

// At every line the meet of the formulas in force lies below the line's value, or classically below the double negation of it, and in a Boolean algebra, as a double-negation layer is, below the value itself.
pub fn derivations_are_sound()
    ensures constructive { ConstructiveSound }
    ensures classical { ClassicalSound }
    ensures in_boolean { ClassicalInBoolean }
    ensures in_layers { ClassicalInLayers }
{}

// What a derivation concludes follows from its premises.
pub fn conclusions_follow()
    ensures { ConclusionsFollow }
{}
