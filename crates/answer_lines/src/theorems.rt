// What holds of every input. The function stands for the theorem that its contract states.
ghost use Rattle.answer_lines.specs.Settled.{OneLine};

// An input has one line.
pub fn inputs_have_one_line()
    ensures { OneLine }
{}
