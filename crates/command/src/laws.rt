//! Laws of the definition of an answer.
ghost use Rattle.command.specs.OneAnswer.{AlikeDesignsRunAlike, VcdAnswersReadBack, WordsHaveOneAnswer};

/// Two flat designs with the same signals, nodes and step, whose processes do the same, have the same runs, and these write the same lines. So it
/// doesn't matter which of the flat designs is run that a text stands for.
pub fn alike_designs_run_alike()
    ensures { AlikeDesignsRunAlike }
{}

/// Where the files are told, words have one answer: the same lines and the same status, unless a read failed.
pub fn one_answer()
    ensures { WordsHaveOneAnswer }
{}

/// With `--vcd` the bytes of a run's answer are the VCD text of the changes that the run tells, and a reader gives of them just these changes, in
/// order, where the design is one that can be traced.
pub fn vcd_answers_read_back()
    ensures { VcdAnswersReadBack }
{}
