// What holds of every text and of every reading. Each function stands for the theorem that its contract states.
ghost use Rattle.grammar.specs.EnteringLaws.{EnteringLaws};
ghost use Rattle.grammar.specs.Examples.{Examples};
ghost use Rattle.grammar.specs.Reading.{OneAnswer};
ghost use Rattle.grammar.specs.Records.{OneMaking};
ghost use Rattle.grammar.specs.TextLaws.{TextLaws};
ghost use Rattle.grammar.specs.Texts.{Unambiguous};

// A text is the text of one formula, and no text is the beginning of another.
pub fn texts_are_unambiguous()
    ensures { Unambiguous }
{}

// The written text is a text of its formula and none is shorter, and all texts have as many signs.
pub fn texts_agree()
    ensures { TextLaws }
{}

// A text that is read into a store has no two answers, and no two lists of formulas that the store then holds.
pub fn reading_has_one_answer()
    ensures { OneAnswer }
{}

// Entering a formula keeps every place, and adds parts of it alone, none twice.
pub fn entering_adds_parts()
    ensures { EnteringLaws }
{}

// Where each formula is held once, a formula is made of others in one way.
pub fn formulas_are_made_one_way()
    ensures { OneMaking }
{}

// What a fresh store answers to some texts.
pub fn examples_hold()
    ensures { Examples }
{}
