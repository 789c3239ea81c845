//! What holds of each configuration that a run reaches.
ghost use Rattle.std.specs.Prelude.{◌≡◌, ℕ, true, List, None};
ghost use Rattle.gpi.specs.Design.{widths};
ghost use Rattle.gpi.specs.Terms.{widths_of};
ghost use Rattle.py_value.specs.declared.trigger.TaskNo.{TaskNo};
ghost use Rattle.await_tree.specs.EndedTasks.Endings.{is_done};
ghost use Rattle.test_meaning.specs.Body.BodyTrees.{Case};
ghost use Rattle.rig_model.specs.Run.Known.{IsKnown};
ghost use Rattle.rig_model.specs.Run.Rig.{Setup};
ghost use Rattle.rig_model.specs.Run.Run.{Run, opening};
ghost use Rattle.rig_model.specs.Run.Step.{rig_step};
ghost use Rattle.run_laws.specs.Places.Needed.{AwaitsNeeded};
ghost use Rattle.run_laws.specs.Places.Places.{AreInPlace, AreLive, IsOut, KeepEndings};
ghost use Rattle.run_laws.specs.Places.Unmet.{JoinTheLiving, WaitsForOthers, WaitsInNeed};
ghost use Rattle.run_laws.specs.Places.Reached.{IsReached, IsSoundSetup};

/// Of a sound design and a sound file the opening configuration is known: each value, trigger and number in it is of the design, or was made in the
/// test.
pub fn opening_is_known()
    ensures { (setup : Setup) (seed : ℕ) (cases : List Case) → IsSoundSetup setup → IsKnown setup (opening setup seed cases).rig }
{}

/// So is each configuration that a run reaches.
pub fn reached_is_known()
    ensures { (setup : Setup) (seed : ℕ) (cases : List Case) (run : Run)
        → IsSoundSetup setup → IsReached setup seed cases run → IsKnown setup run.rig }
{}

/// There each signal is as wide as the design says.
pub fn signals_keep_their_widths()
    ensures { (setup : Setup) (seed : ℕ) (cases : List Case) (run : Run) → IsSoundSetup setup → IsReached setup seed cases run
        → widths_of run.rig.sim.signals ≡ widths setup.flat.signals }
{}

/// Between two steps no key that fired is left to be served, and the awaited keys are those of the leaves that wait and those of the runner.
pub fn awaited_are_needed()
    ensures { (setup : Setup) (seed : ℕ) (cases : List Case) (run : Run) → IsReached setup seed cases run → AwaitsNeeded run.rig }
{}

/// Each task that was started has one place: it has its turn, has one entry among those that are ready, has one tree among those that wait, or has
/// ended. Only the task whose write in the read-only phase has ended the test has none.
pub fn tasks_are_in_place()
    ensures { (setup : Setup) (seed : ℕ) (cases : List Case) (run : Run) → IsReached setup seed cases run → AreInPlace run.rig }
{}

/// The task that has its turn, those that are ready, and those that wait are live. So no step drops a turn.
pub fn turns_are_live()
    ensures { (setup : Setup) (seed : ℕ) (cases : List Case) (run : Run) → IsReached setup seed cases run → AreLive run.rig }
{}

/// No task waits for a lock that is free, or a task that has ended; and of a sound design and a sound file, none for an event that is set.
pub fn waits_are_unmet()
    ensures others { (setup : Setup) (seed : ℕ) (cases : List Case) (run : Run) → IsReached setup seed cases run → WaitsForOthers run.rig }
    ensures all { (setup : Setup) (seed : ℕ) (cases : List Case) (run : Run) → IsSoundSetup setup → IsReached setup seed cases run
        → WaitsInNeed run.rig }
{}

/// A task that has ended, as one that was killed, has no turn, no entry and no tree, isn't live, and all who joined it were served.
pub fn ended_are_out()
    ensures { (setup : Setup) (seed : ℕ) (cases : List Case) (run : Run) (task : TaskNo) → IsReached setup seed cases run
        → is_done task run.rig.endings ≡ true → IsOut task run.rig }
{}

/// A step in a test leaves it as it is how each task has ended: none ends twice, and one that was killed stays killed.
pub fn endings_stay()
    ensures { (setup : Setup) (seed : ℕ) (cases : List Case) (run : Run) → IsReached setup seed cases run
        → run.rig.outcome ≡ None → KeepEndings run.rig (rig_step setup run.rig).rig }
{}

/// Of a sound design and a sound file each leaf that waits and joins a task joins one that lives.
pub fn joins_are_live()
    ensures { (setup : Setup) (seed : ℕ) (cases : List Case) (run : Run) → IsSoundSetup setup → IsReached setup seed cases run
        → JoinTheLiving run.rig.tasks run.rig.waiting }
{}
