// What the definitions say of known cases. Each function stands for the theorem that its contract states.
ghost use Rattle.examples.specs.RuleExamples.{RuleExamples};
ghost use Rattle.examples.specs.TheoryExamples.{TheoryExamples};

// Each rule fits its example, whatever the formulas; a constructive derivation has all rules but one, a classical one has all.
pub fn rules_fit_their_examples()
    ensures { RuleExamples }
{}

// Texts and a fresh store, a box with a box inside it, frames, a double-negation layer and a product are as the examples say.
pub fn theories_fit_their_examples()
    ensures { TheoryExamples }
{}
