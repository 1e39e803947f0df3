// What holds of every algebra. Each function stands for the theorem that its contract states.
ghost use Rattle.heyting.specs.Examples.{Examples};
ghost use Rattle.heyting.specs.Theorems.{Frames, Layers, ValuesAreMembers, LayerValuesAreDoubleNegations, MeetsAreGreatest};

// Worlds and pairs that can be loaded make an algebra, no two, and it obeys the laws.
pub fn frames_are_algebras()
    ensures { Frames }
{}

// Each layer obeys the laws whenever what it stands on does, and in a double-negation layer a double negation lies below what it negates.
pub fn layers_are_algebras()
    ensures { Layers }
{}

// Under a valuation by members every formula has a member for its value.
pub fn values_are_members()
    ensures { ValuesAreMembers }
{}

// Where each letter has in the double-negation layer the double negation of its value, so has every formula.
pub fn layer_values_are_double_negations()
    ensures { LayerValuesAreDoubleNegations }
{}

// The meet of a list of formulas is the greatest member below the value of each.
pub fn meets_are_greatest()
    ensures { MeetsAreGreatest }
{}

// Two stages and their double-negation layer, three worlds in a ring, and two single worlds paired.
pub fn examples_hold()
    ensures { Examples }
{}
