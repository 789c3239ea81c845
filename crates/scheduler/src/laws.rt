//! How late a run can come.
ghost use Rattle.std.specs.Prelude.{◌+◌, ◌≤◌, ℕ, List, length};
ghost use Rattle.py_value.specs.declared.trigger.TaskNo.{TaskNo};
ghost use Rattle.await_tree.specs.Check.{last_time};
ghost use Rattle.test_meaning.specs.Body.BodyTrees.{Case};
ghost use Rattle.rig_model.specs.declared.task.task.Turned.{Turned};
ghost use Rattle.rig_model.specs.Run.Rig.{Rig, Setup};
ghost use Rattle.rig_model.specs.Run.Effect.{effect};
ghost use Rattle.rig_model.specs.Run.Step.{rig_step};
ghost use Rattle.rig_model.specs.Run.Case.{ended, start_planned, test_begun};
ghost use Rattle.rig_model.specs.Run.Run.{opening, steps};
ghost use Rattle.scheduler.specs.Timely.{IsTimely};

/// What is timely within a bound is so within a later one.
pub fn later_bound_is_wider()
    ensures { (bound more : ℕ) (c : Rig) → bound ≤ more → IsTimely bound c → IsTimely more c }
{}

/// What a task wants keeps all times of a configuration within the bound.
pub fn effect_is_timely()
    ensures { (setup : Setup) (bound : ℕ) (task : TaskNo) (turned : Turned) (c : Rig)
        → IsTimely bound c → IsTimely bound (effect setup task turned c).rig }
{}

/// So does a step, where all that may be waited for is within it.
pub fn step_is_timely()
    ensures { (setup : Setup) (bound : ℕ) (c : Rig) → last_time ≤ bound → IsTimely bound c → IsTimely bound (rig_step setup c).rig }
{}

/// So does the begin of a test.
pub fn begin_is_timely()
    ensures { (setup : Setup) (case : Case) (bound : ℕ) (c : Rig) → IsTimely bound c → IsTimely bound (test_begun setup case c) }
{}

/// So does its end.
pub fn end_is_timely()
    ensures { (bound : ℕ) (c : Rig) → IsTimely bound c → IsTimely bound (ended c) }
{}

/// The planned start of the next test is later by one at most.
pub fn plan_is_timely()
    ensures { (bound : ℕ) (c : Rig) → IsTimely bound c → IsTimely (bound + 1) (start_planned c) }
{}

/// A run has no more verdicts than tests.
pub fn verdicts_are_few()
    ensures { (setup : Setup) (seed : ℕ) (cases : List Case) (budget count : ℕ)
        → length (steps setup budget count (opening setup seed cases)).verdicts ≤ length cases }
{}

/// At each step of a run no time in its configuration is later than the latest that may be waited for, and one for each verdict.
pub fn run_is_timely()
    ensures { (setup : Setup) (seed : ℕ) (cases : List Case) (budget count : ℕ)
        → let run = steps setup budget count (opening setup seed cases) in IsTimely (last_time + length run.verdicts) run.rig }
{}

/// At each step of a run the time is no later than the latest that may be waited for, and one for each test.
pub fn time_is_bounded()
    ensures { (setup : Setup) (seed : ℕ) (cases : List Case) (budget count : ℕ)
        → (steps setup budget count (opening setup seed cases)).rig.sim.time ≤ last_time + length cases }
{}
