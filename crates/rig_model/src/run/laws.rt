//! What holds of all runs, and of worked ones.
ghost use Rattle.std.specs.Prelude.{◌≡◌, ◌≤◌, ◌++◌, ℕ, List};
ghost use Rattle.py_value.specs.declared.trigger.TaskNo.{TaskNo};
ghost use Rattle.test_meaning.specs.Body.BodyTrees.{Case};
ghost use Rattle.rig_model.specs.Run.Case.{ended};
ghost use Rattle.rig_model.specs.Run.Effect.{killed};
ghost use Rattle.rig_model.specs.Run.Gone.{IsEmpty, IsGone};
ghost use Rattle.rig_model.specs.Run.Known.{AreAsWide, IsKnown};
ghost use Rattle.rig_model.specs.Run.ObjectRows.{Gives_way, Joined_faults, Locks, Random_numbers, Set_and_clear};
ghost use Rattle.rig_model.specs.Run.Rig.{Rig, Setup};
ghost use Rattle.rig_model.specs.Run.Run.{IsRun, IsStart, Run, step, step_cost, written};
ghost use Rattle.rig_model.specs.Run.Step.{rig_step};
ghost use Rattle.rig_model.specs.Run.DelayRows.{Amid_delay, Delayed_update, Update_of_ended_test};
ghost use Rattle.rig_model.specs.Run.TestRows.{Budgets, Deadlines, Exact_budget, Least_run, No_test, Options, Read_only_end, Stalled_test, Verdicts};
ghost use Rattle.rig_model.specs.Run.WaitRows.{
  Clock_cycles,
  Just_killed,
  Kill_in_combine,
  Kill_of_woken,
  Largest_time,
  No_past_edge,
  Phase_last,
  Read_only_write,
  Repeated_writes,
  Rise_first,
  Ties,
  With_timeout,
};

/// A run stops under every budget: it is over, or its next step doesn't fit what is left of the budget.
pub fn run_exists()
    ensures { (setup : Setup) (seed : ℕ) (cases : List Case) (budget : ℕ) → (run : Run) × IsRun setup seed cases budget run }
{}

/// Two runs of the same tests with one seed under one budget are the same, in all that they reach, write and cost.
pub fn run_is_one()
    ensures { (setup : Setup) (seed : ℕ) (cases : List Case) (budget : ℕ) (one other : Run)
        → IsRun setup seed cases budget one → IsRun setup seed cases budget other → one ≡ other }
{}

/// Lines that a run has written at some time are the first of the lines that the whole run writes.
pub fn lines_are_a_front()
    ensures { (setup : Setup) (seed : ℕ) (cases : List Case) (budget : ℕ) (run : Run) (lines : List (List ℕ))
        → IsRun setup seed cases budget run → IsStart setup seed cases budget lines
        → (more : List (List ℕ)) × (written setup budget run ≡ lines ++ more) }
{}

/// A step costs 1 or nothing.
pub fn step_costs_at_most_one()
    ensures { (setup : Setup) (run : Run) → step_cost setup run ≤ 1 }
{}

/// A run costs no more than its budget.
pub fn run_is_within_budget()
    ensures { (setup : Setup) (seed : ℕ) (cases : List Case) (budget : ℕ) (run : Run) → IsRun setup seed cases budget run → run.cost ≤ budget }
{}

/// A task that was killed has no entry and no tree, and isn't live.
pub fn killed_is_gone()
    ensures { (task : TaskNo) (c : Rig) → IsGone task (killed task c) }
{}

/// After an end nothing of the test is left.
pub fn ended_is_empty()
    ensures { (c : Rig) → IsEmpty (ended c) }
{}

/// A step serves all keys that it fired.
pub fn fired_is_served()
    ensures { (setup : Setup) (c : Rig) → (rig_step setup c).rig.fired ≡ c.fired }
{}

/// A step keeps what is known of a configuration, where each signal stays as wide as it is: each value, trigger and number in it is of the design,
/// or was made in the test.
pub fn step_keeps_known()
    ensures { (setup : Setup) (run : Run) → IsKnown setup run.rig → AreAsWide run.rig (step setup run).rig → IsKnown setup (step setup run).rig }
{}

/// The least run: one test, whose one statement is `pass`.
pub fn least_run()
    ensures { Least_run }
{}

/// A test ends in the read-only phase, and the next one begins in the next time step.
pub fn read_only_end()
    ensures { Read_only_end }
{}

/// A test that waits for what never comes, and the next one.
pub fn stalled_test()
    ensures { Stalled_test }
{}

/// A test that is skipped, one that is to fail, and one whose time is limited.
pub fn options()
    ensures { Options }
{}

/// Expected faults that come and that don't, and a limit of time that is refused.
pub fn verdicts()
    ensures { Verdicts }
{}

/// A file without a test.
pub fn no_test()
    ensures { No_test }
{}

/// A run that writes told changes, and is far from its budget.
pub fn exact_budget()
    ensures { Exact_budget }
{}

/// The same with a budget that is used up exactly, and with one that is too small by one.
pub fn budgets()
    ensures { Budgets }
{}

/// A deadline that comes with what the test waits for, and one that comes later.
pub fn deadlines()
    ensures { Deadlines }
{}

/// Times around the longest that can be waited for.
pub fn largest_time()
    ensures { Largest_time }
{}

/// Of two parts that one key completes the left one counts.
pub fn ties()
    ensures { Ties }
{}

/// A kill of a task that waits for a `Combine` of which one part is done.
pub fn kill_in_combine()
    ensures { Kill_in_combine }
{}

/// The keys of the leaves leave with the kill, not with the end of the test.
pub fn just_killed()
    ensures { Just_killed }
{}

/// A change that came before is no edge for one who waits now.
pub fn no_past_edge()
    ensures { No_past_edge }
{}

/// A write in the read-only phase ends the test, and no handler sees it.
pub fn read_only_write()
    ensures { Read_only_write }
{}

/// A kill of a task that was woken and hasn't run yet.
pub fn kill_of_woken()
    ensures { Kill_of_woken }
{}

/// `with_timeout` of a call, whose task is killed, and of a task, which isn't.
pub fn with_timeout()
    ensures { With_timeout }
{}

/// A write that is staged again stands last.
pub fn repeated_writes()
    ensures { Repeated_writes }
{}

/// A clock of three cycles, and `ClockCycles`.
pub fn clock_cycles()
    ensures { Clock_cycles }
{}

/// Who awaits the read-write phase is woken after those whom the staged writes wake.
pub fn phase_last()
    ensures { Phase_last }
{}

/// A rise is served before the change.
pub fn rise_first()
    ensures { Rise_first }
{}

/// An event that is set and cleared wakes those who waited.
pub fn set_and_clear()
    ensures { Set_and_clear }
{}

/// A lock goes to its first waiter, and not to one that was killed.
pub fn locks()
    ensures { Locks }
{}

/// A fault that is joined, the join of a task that was killed, and a fault that nobody joins.
pub fn joined_faults()
    ensures { Joined_faults }
{}

/// A start that gives way.
pub fn gives_way()
    ensures { Gives_way }
{}

/// Random numbers of a seed.
pub fn random_numbers()
    ensures { Random_numbers }
{}

/// A delayed update alone makes a time step, in which `NextTimeStep` fires.
pub fn delayed_update()
    ensures { Delayed_update }
{}

/// A run that ends at its budget while an update waits for its time.
pub fn amid_delay()
    ensures { Amid_delay }
{}

/// A delayed update comes at its time though its test has ended.
pub fn update_of_ended_test()
    ensures { Update_of_ended_test }
{}
