//! What holds of all tasks, and of the tasks of worked rows.
ghost use Rattle.std.specs.Prelude.{◌≡◌, ◌<◌, ◌≤◌, ℕ, List, [], length, Option, None, Some, IfSome};
ghost use Rattle.py_evaluate.specs.Attribute.Look.{View};
ghost use Rattle.test_meaning.specs.Body.BodyTrees.{Function};
ghost use Rattle.rig_model.specs.Task.ControlRows.{
  Acts,
  Calls_and_names,
  Handler_names,
  Left_loops,
  Nested_handlers,
  Refused_release,
  Results,
  Spans,
  Writes,
};
ghost use Rattle.rig_model.specs.Task.Cost.{next_cost};
ghost use Rattle.rig_model.specs.Task.FaultRows.{Clock_starts, Far_numbers, Which_faults};
ghost use Rattle.rig_model.specs.Task.Frame.{Course, Task, Todo};
ghost use Rattle.rig_model.specs.Task.Kept.{names_of};
ghost use Rattle.py_evaluate.specs.Attribute.Knows.{KnowsDesign, KnowsEvents};
ghost use Rattle.rig_model.specs.Task.Known.{KnowsGiven, KnowsTurned, KnowsWhole};
ghost use Rattle.rig_model.specs.Task.Moves.{At};
ghost use Rattle.rig_model.specs.Task.Poll.{Polled};
ghost use Rattle.rig_model.specs.Task.Rows.{Bad_fails, Deep_calls, Joined_and_killed, Loops_and_handlers, Whole_numbers};
ghost use Rattle.rig_model.specs.Task.Step.{frame_limit, next, step};
ghost use Rattle.rig_model.specs.Task.WaitRows.{Late_times, Locks_and_leaving, One_cycle, Timeouts};
ghost use Rattle.rig_model.specs.Task.Weight.{frames_given, frames_weight};
ghost use Rattle.await_tree.specs.declared.cause.Given.{Given};
ghost use Rattle.rig_model.specs.declared.task.task.Turned.{Turned};
ghost use Rattle.rig_model.specs.declared.task.task.Turned.TheVariants.{Spent};

/// A step that costs nothing and wants nothing leaves a lower weight; so only finitely many such steps follow one another.
pub fn free_step_falls()
    ensures { (functions : List Function) (task : Task) (g : Option Given) (view : View)
        → next_cost task g ≡ 0 → (next functions task g view).turned ≡ None
        → frames_weight (next functions task g view).task.frames < frames_weight (frames_given g task.frames) }
{}

/// So does one that costs nothing and wants something, whatever is given next: only finitely many steps in a row cost nothing, as long as the task
/// has an open call.
pub fn free_wish_falls()
    ensures { (functions : List Function) (task : Task) (g : Option Given) (view : View) (turned : Turned) (next_given : Option Given)
        → next_cost task g ≡ 0 → (task.frames ≡ [] → ⊥) → (next functions task g view).turned ≡ Some turned
        → frames_weight (frames_given next_given (next functions task g view).task.frames) < frames_weight (frames_given g task.frames) }
{}

/// A step costs 1 or nothing.
pub fn cost_at_most_one()
    ensures { (task : Task) (g : Option Given) → next_cost task g ≤ 1 }
{}

/// No step wants `Spent`: that is what a poll answers where the fuel doesn't suffice.
pub fn never_spent()
    ensures { (functions : List Function) (task : Task) (g : Option Given) (view : View) → (next functions task g view).turned ≡ Some Spent → ⊥ }
{}

/// A task keeps its number.
pub fn number_stays()
    ensures { (functions : List Function) (task : Task) (g : Option Given) (view : View) → (next functions task g view).task.number ≡ task.number }
{}

/// It has at most 1,000 open calls.
pub fn few_frames()
    ensures { (functions : List Function) (task : Task) (g : Option Given) (view : View)
        → length task.frames ≤ frame_limit → length (next functions task g view).task.frames ≤ frame_limit }
{}

/// A step of a call keeps its names.
pub fn names_stay()
    ensures { (course : Course) (todo : List Todo) (a : At) → names_of (step course todo a).frame.names ≡ names_of a.scope.names }
{}

/// Each poll comes to an end, whatever the task, its fuel, what it sees and what it is given.
pub fn poll_exists()
    ensures { (functions : List Function) (view : View) (fuel : ℕ) (task : Task) (g : Option Given)
        → (turned : Turned) × (left : ℕ) × (rest : Task) × Polled functions view fuel task g turned left rest }
{}

/// Two polls of one task, alike in all that goes in, come to the same end.
pub fn poll_is_one()
    ensures { (functions : List Function) (view : View) (fuel : ℕ) (task : Task) (g : Option Given)
        (one other : Turned) (left over : ℕ) (rest end : Task) → Polled functions view fuel task g one left rest
        → Polled functions view fuel task g other over end → (one ≡ other) × (left ≡ over) × (rest ≡ end) }
{}

/// A poll keeps the task's number.
pub fn poll_keeps_number()
    ensures { (functions : List Function) (view : View) (fuel : ℕ) (task : Task) (g : Option Given) (turned : Turned) (left : ℕ) (rest : Task)
        → Polled functions view fuel task g turned left rest → rest.number ≡ task.number }
{}

/// Where a view knows what a task holds and what it is given, what the names of its design stand for, and the events of its queues, it knows what a
/// poll leaves of the task, and what it answers.
pub fn poll_is_known()
    ensures { (functions : List Function) (view : View) (fuel : ℕ) (task : Task) (g : Option Given) (turned : Turned) (left : ℕ) (rest : Task)
        → KnowsDesign view → KnowsEvents view → KnowsWhole functions view task → IfSome g (KnowsGiven view)
        → Polled functions view fuel task g turned left rest
        → KnowsTurned functions view turned × KnowsWhole functions view rest }
{}

/// Operators of an f-string, and a number that no value can hold.
pub fn whole_numbers()
    ensures { Whole_numbers }
{}

/// A `for` that is left by `return`, a fault with a text that an `except` catches, a `while`; and what all this costs.
pub fn loops_and_handlers()
    ensures { Loops_and_handlers }
{}

/// A task with 1,000 open calls, and one more.
pub fn deep_calls()
    ensures { Deep_calls }
{}

/// A task whose assertion fails, with its text.
pub fn bad_fails()
    ensures { Bad_fails }
{}

/// A task whose join fails, and the join of one that was killed.
pub fn joined_and_killed()
    ensures { Joined_and_killed }
{}

/// Times around the longest one that can be waited for.
pub fn late_times()
    ensures { Late_times }
{}

/// `with_timeout` of a call, whose task is killed, and of a task, which isn't.
pub fn timeouts()
    ensures { Timeouts }
{}

/// A clock of one cycle.
pub fn one_cycle()
    ensures { One_cycle }
{}

/// How the block of an `async with` is left by a fault and by `return`.
pub fn locks_and_leaving()
    ensures { Locks_and_leaving }
{}

/// The name of an `except` is unassigned behind its block.
pub fn handler_names()
    ensures { Handler_names }
{}

/// A fault in a handler goes to the `try` around.
pub fn nested_handlers()
    ensures { Nested_handlers }
{}

/// `continue`, `break`, `elif` and `else` in a `try` in a loop.
pub fn left_loops()
    ensures { Left_loops }
{}

/// Names of a call, operands that are named, and a fault of an operand.
pub fn calls_and_names()
    ensures { Calls_and_names }
{}

/// The end of an `async with` whose lock is free.
pub fn refused_release()
    ensures { Refused_release }
{}

/// What a `for` goes over, and its questions.
pub fn spans()
    ensures { Spans }
{}

/// Writes, with the digits that a signal gets, and their faults.
pub fn writes()
    ensures { Writes }
{}

/// A random number, a log line with `%s`, and methods that act.
pub fn acts()
    ensures { Acts }
{}

/// What a call under a limit gives, and a start that gives way.
pub fn results()
    ensures { Results }
{}

/// Which faults statements raise, and which of two comes first.
pub fn which_faults()
    ensures { Which_faults }
{}

/// What a clock's task is given, a clock that runs in the task that awaits it, and a limit without a unit.
pub fn clock_starts()
    ensures { Clock_starts }
{}

/// A `for` that comes to a number that no value can hold.
pub fn far_numbers()
    ensures { Far_numbers }
{}
