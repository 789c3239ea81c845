//! What the lines of a run tell.
ghost use Rattle.run_laws.specs.Waves.Texts.{Changes_are_of_runs, Texts_of_runs_read_back};
ghost use Rattle.run_laws.specs.Waves.Times.{Lines_rise};

/// Of the lines that a run has written none begins with a time before that of a line in front of it, or after the time at which the run stands.
pub fn lines_are_in_order()
    ensures { Lines_rise }
{}

/// So the changes that these lines tell are changes of the run's design, in order of time.
pub fn changes_are_of_runs()
    ensures { Changes_are_of_runs }
{}

/// The VCD text of a run on a design that can be traced keeps the rules of a reader, and tells exactly the changes that the run's lines tell, in
/// order.
pub fn texts_of_runs_read_back()
    ensures { Texts_of_runs_read_back }
{}
