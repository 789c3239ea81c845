//! Laws of the definition of elaboration, for all texts.

ghost use Rattle.v_laws.specs.Drivers.{One_driver, Processes_keep_to_their_kind, Updates_are_recorded};
ghost use Rattle.v_laws.specs.Instances.{Names_differ, Names_have_their_paths};
ghost use Rattle.v_laws.specs.Joints.{Joints_are_counted};
ghost use Rattle.v_laws.specs.Least.{First_faults_count, First_faults_end_procedures};
ghost use Rattle.v_laws.specs.Traces.{Designs_are_traceable};
ghost use Rattle.v_laws.specs.Reads.{
  Assignments_wait_for_enough,
  Expressions_read_enough,
  Implicit_controls_wait_for_enough,
  Procedures_wait_for_enough,
  Statements_read_enough,
  Targets_read_enough,
};

/// Each digit that a continuous assignment updates lies in a drive that is recorded for its target, and in none that was recorded before
/// (IEEE 1364-2005, clause 6.1).
pub fn updates_are_recorded()
    ensures { Updates_are_recorded }
{}

/// Each digit of a net has at most one driver: a digit that a continuous assignment of a design gives a value, one of a connected port among
/// them, gets none from any other process, whatever the maps are. Clause 4.6.1 of the standard lets several drivers meet; here that is refused.
pub fn one_driver()
    ensures { One_driver }
{}

/// What a name of an instance stands for has that name behind the instance's path (IEEE 1364-2005, clause 12.5): an instance, a signal, or all
/// words of a memory, by rising index.
pub fn names_have_their_paths()
    ensures { Names_have_their_paths }
{}

/// The names of an instance differ (IEEE 1364-2005, clause 4.11).
pub fn names_differ()
    ensures { Names_differ }
{}

/// A rule that is broken in an operand is hidden by none that is broken later in the expression: what counts in the whole is that rule, or an
/// earlier.
pub fn first_faults_count()
    ensures { First_faults_count }
{}

/// A rule that is broken in an expression of a procedure ends the walk at that item, with that rule or an earlier one.
pub fn first_faults_end_procedures()
    ensures { First_faults_end_procedures }
{}

/// The connected ports of an instance give exactly as many assignments as there was asked to be room for (IEEE 1364-2005, clause 12.3).
pub fn joints_are_counted()
    ensures { Joints_are_counted }
{}

/// Continuous assignments give values to nets alone (IEEE 1364-2005, clause 6.1), and procedures to registers and words of memories (clause 9.2).
pub fn processes_keep_to_their_kind()
    ensures { Processes_keep_to_their_kind }
{}

/// What an expression reads suffices for its value in each context: on two maps that agree on these signals it has one value, with the
/// indices of its selects and the words of memories among it (IEEE 1364-2005, clause 5).
pub fn expressions_read_enough()
    ensures { Expressions_read_enough }
{}

/// What the indices of a target of a procedure read suffices for its updates: on two maps that agree on these signals it gets the same digits at
/// the same places (IEEE 1364-2005, clause 9.2).
pub fn targets_read_enough()
    ensures { Targets_read_enough }
{}

/// What a statement reads, as `@*` waits for it, suffices for all that an activation of it does: on two maps of as many signals that agree on what
/// it reads it makes the same updates, at once and for later, in the same order (IEEE 1364-2005, clause 9.7.5). A `for` reads what all of its
/// turns read, and what is read after the activation wrote it counts as read.
pub fn statements_read_enough()
    ensures { Statements_read_enough }
{}

/// An `always @*` waits for enough: on two maps of as many signals that agree on all signals that its process waits for, an activation makes the
/// same updates, at once and for later, in the same order (IEEE 1364-2005, clause 9.7.5).
pub fn implicit_controls_wait_for_enough()
    ensures { Implicit_controls_wait_for_enough }
{}

/// Each continuous assignment of a design waits for enough, those of connected ports among them: on two maps of as many signals that agree on all
/// signals that its process waits for, an activation makes the same updates in the same order (IEEE 1364-2005, clauses 6.1.2 and 12.3.9).
pub fn assignments_wait_for_enough()
    ensures { Assignments_wait_for_enough }
{}

/// Each `always` of a design waits for enough, but for those that list events: on two maps of as many signals that agree on all signals that its
/// process waits for, an activation makes the same updates, at once and for later, in the same order (IEEE 1364-2005, clause 9.7.5).
pub fn procedures_wait_for_enough()
    ensures { Procedures_wait_for_enough }
{}

/// Of each sound flat design that a text stands for a VCD text can be written (IEEE 1364-2005, clause 18), where its names are names of such a text.
pub fn designs_are_traceable()
    ensures { Designs_are_traceable }
{}
