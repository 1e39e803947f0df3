// What holds of every history. Each function stands for the theorem that its contract states.
ghost use Rattle.fitch.specs.Calls.{OneAnswers, ExactAcceptance};
ghost use Rattle.fitch.specs.Exact.{OfTheirKinds, CitedOnce, NumberedBoxes};
ghost use Rattle.fitch.specs.Example.{InnerBox, InnerBoxAnswered};

// A rule fits only as many lines and boxes as it takes, each of its kind. What a citation stands for is one thing at most, and the records of a history say whether a line or a box is reachable, and where a box ends.
pub fn citations_are_exact()
    ensures kinds { OfTheirKinds }
    ensures once { CitedOnce }
    ensures boxes { NumberedBoxes }
{}

// A box ends with its own last line: after two nested boxes, (p>p) follows and (p>q) does not; in the calls, >I citing the outer one gives (p>p), and (p>q) is refused 15.
pub fn inner_boxes_do_not_count()
    ensures permits { InnerBox }
    ensures answers { InnerBoxAnswered }
{}

// No call has two answers: what is accepted is not refused, and what is refused is refused by one refusal.
pub fn calls_have_one_answer()
    ensures { OneAnswers }
{}

// A call that writes passes its checks exactly where the formula is stored, a record is left, and the history accepts the call: of a step, where the rules permit the line.
pub fn acceptance_is_exact()
    ensures { ExactAcceptance }
{}
