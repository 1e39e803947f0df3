// What holds of every input, of every record and of every number. Each function stands for the theorem that its contract states.
ghost use Rattle.records.specs.Decimals.{NumbersAreDecimals};
ghost use Rattle.records.specs.Joining.{PiecesMakeInputs};

// An input's records are those that make it, one after the other; a record's fields are those that make it, with tabs between.
pub fn pieces_make_inputs()
    ensures { PiecesMakeInputs }
{}

// A field writes a number just where it is the number's decimal, in at most five digits.
pub fn numbers_are_decimals()
    ensures { NumbersAreDecimals }
{}
