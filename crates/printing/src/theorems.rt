// What holds of every line. Each function stands for the theorem that its contract states.
ghost use Rattle.printing.specs.ReadingBack.{LinesReadBack};
ghost use Rattle.printing.specs.Settled.{OnePrinting};

// Writing a line has one answer.
pub fn lines_are_settled()
    ensures { OnePrinting }
{}

// A line is one record, and has the fields that were printed.
pub fn lines_read_back()
    ensures { LinesReadBack }
{}
