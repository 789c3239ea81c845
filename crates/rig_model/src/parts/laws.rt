//! What holds of all queues, and of all steps that fit a fuel.
ghost use Rattle.std.specs.Prelude.{◌≡◌, ◌++◌, ◌+◌, ℕ, Bool, true, suc, List, Option, None};
ghost use Rattle.gpi.specs.Content.{Content};
ghost use Rattle.gpi.specs.State.{State};
ghost use Rattle.gpi.specs.declared.types.Counts.{Counts};
ghost use Rattle.gpi.specs.declared.types.Key.{Key};
ghost use Rattle.await_tree.specs.EndedTasks.Endings.{Endings};
ghost use Rattle.py_value.specs.declared.trigger.TaskNo.{TaskNo};
ghost use Rattle.run_view.specs.RandomStream.Generator.{Generator};
ghost use Rattle.rig_model.specs.Task.Frame.{Task};
ghost use Rattle.test_meaning.specs.Body.BodyTrees.{Case};
ghost use Rattle.await_tree.specs.WaitList.Waiting.{Waiting};
ghost use Rattle.await_tree.specs.declared.wait_list.ready.Entry.{Entry};
ghost use Rattle.rig_model.specs.Run.Case.{emptied, test_begun};
ghost use Rattle.rig_model.specs.Run.Rig.{Rig, Setup, awaited};
ghost use Rattle.rig_model.specs.Run.Run.{Run, Runs, goes, place_by};
ghost use Rattle.rig_model.specs.Run.Step.{rig_step};
ghost use Rattle.rig_model.specs.Parts.Fits.{FitsQueue, StandsFor};
ghost use Rattle.rig_model.specs.Parts.Placed.{ArePlaced, placed};
ghost use Rattle.rig_model.specs.Parts.Queue.{Leads, Queue, queue_awaited, rig_amid, rig_at};
ghost use Rattle.rig_model.specs.Parts.Steps.{FitSteps, Short, TurnSteps, anywhere, in_turn};
ghost use Rattle.rig_model.specs.Parts.Made.{HasOwnKeys, IsMadeOf, queue_in};
ghost use Rattle.rig_model.specs.Parts.Apart.{AreApart, IsPlaced};
ghost use Rattle.rig_model.specs.Parts.Runs.{RunsOn, StopsAt, is_planned};

/// A configuration that is made of a queue and a simulator's state has that queue and that state, and all else of the one that it was made from.
/// Made of its own queue it is as it was; and the keys that are awaited in it are those that the queue awaits.
pub fn queue_is_kept()
    ensures made { (fired : List Key) (counts : Counts) (q : Queue) (sim : State) (c : Rig)
        → IsMadeOf fired counts q sim c (rig_amid fired counts q sim c) }
    ensures own { (c : Rig) → rig_amid c.fired c.counts (queue_in c) c.sim c ≡ c }
    ensures keys { (fired : List Key) (counts : Counts) (q : Queue) (sim : State) (c : Rig)
        → awaited (rig_amid fired counts q sim c) ≡ queue_awaited fired q }
{}

/// Of two effects, where the second leads on from where the first has led, both together lead there.
pub fn effects_lead_on()
    ensures { (first second : Rig → Rig) (q : Queue) (k : Content) (q' : Queue) (k' : Content) (q'' : Queue) (k'' : Content)
        → Leads first q k q' k' → Leads second q' k' q'' k'' → Leads (λ c. second (first c)) q k q'' k'' }
{}

/// Where a queue and a simulator fit, the simulator stands for the configuration of the two; and it has the keys registered that the runner itself
/// awaits.
pub fn fitting_simulator_stands()
    ensures stands { (setup : Setup) (room : ℕ) (held : List Key) (q : Queue) (content : Content) (c : Rig)
        → FitsQueue setup.flat room held q content → StandsFor setup content (rig_at q content c) }
    ensures own { (setup : Setup) (room : ℕ) (held : List Key) (q : Queue) (content : Content)
        → FitsQueue setup.flat room held q content → HasOwnKeys q content.keys }
{}

/// Tasks that have their places live, and none has two: one that is ready doesn't wait, and one that has its turn is neither ready nor waits.
pub fn placed_tasks_are_apart()
    ensures { (tasks : List Task) (endings : Endings) (turn : Option TaskNo) (ready : List Entry) (waiting : List Waiting)
        → ArePlaced tasks endings (placed turn ready waiting) → AreApart tasks turn ready waiting }
{}

/// When a test begins, its tasks have their places.
pub fn begun_test_is_placed()
    ensures { (setup : Setup) (case : Case) (sim : State) (random : Generator) (counts : Counts)
        → IsPlaced (test_begun setup case (emptied sim random counts)) }
{}

/// Steps of a turn are steps, wherever they begin.
pub fn turn_steps_are_steps()
    ensures { (setup : Setup) (count fuel : ℕ) (c : Rig) (lines : List (List ℕ)) (left : ℕ) (d : Rig)
        → TurnSteps setup count fuel c lines left d → FitSteps anywhere setup count fuel c lines left d }
{}

/// Steps, and those that follow them, are steps together: so are those of a turn, where a task goes on.
pub fn steps_follow_steps()
    ensures steps { (from : Rig → Bool) (setup : Setup) (first second fuel : ℕ) (c : Rig) (lines : List (List ℕ))
        (between : ℕ) (d : Rig) (more : List (List ℕ)) (left : ℕ) (e : Rig) → FitSteps from setup first fuel c lines between d
        → FitSteps from setup second between d more left e → FitSteps from setup (first + second) fuel c (lines ++ more) left e }
    ensures turn { (setup : Setup) (first second fuel : ℕ) (c : Rig) (lines : List (List ℕ)) (between : ℕ)
        (d : Rig) (more : List (List ℕ)) (left : ℕ) (e : Rig) → TurnSteps setup (suc first) fuel c lines between d
        → FitSteps in_turn setup second between d more left e → TurnSteps setup (suc first + second) fuel c (lines ++ more) left e }
{}

/// A step that a run does while a test runs that has no outcome fits what is left of the budget: it is one step from where it may begin, and one of
/// a turn.
pub fn one_step_fits()
    ensures step { (from : Rig → Bool) (setup : Setup) (budget fuel : ℕ) (run : Run) (case : Case) (cases : List Case)
        → run.place ≡ Runs case cases → run.cost + fuel ≡ budget → run.rig.outcome ≡ None → goes setup budget run ≡ true → from run.rig ≡ true
        → (left : ℕ) × FitSteps from setup 1 fuel run.rig (rig_step setup run.rig).lines left (rig_step setup run.rig).rig }
    ensures turn { (setup : Setup) (budget fuel : ℕ) (run : Run) (case : Case) (cases : List Case)
        → run.place ≡ Runs case cases → run.cost + fuel ≡ budget → run.rig.outcome ≡ None → goes setup budget run ≡ true
        → (left : ℕ) × TurnSteps setup 1 fuel run.rig (rig_step setup run.rig).lines left (rig_step setup run.rig).rig }
{}

/// Steps that fit are as many steps of a run in which a test runs and whose budget has so much left: they lead to the same configuration, write the
/// same lines, and leave as much.
pub fn steps_of_a_test_are_of_the_run()
    ensures { (from : Rig → Bool) (setup : Setup) (count budget fuel : ℕ) (run : Run) (case : Case) (cases : List Case)
        (lines : List (List ℕ)) (left : ℕ) (d : Rig) → run.place ≡ Runs case cases → run.cost + fuel ≡ budget
        → FitSteps from setup count fuel run.rig lines left d → RunsOn setup budget count run (Runs case cases) lines left d }
{}

/// So are steps of the wait for the next test, each of which begins while a start is planned. Once it has fired that test is to begin.
pub fn steps_of_a_wait_are_of_the_run()
    ensures { (setup : Setup) (count budget fuel : ℕ) (run : Run) (cases : List Case) (lines : List (List ℕ)) (left : ℕ) (d : Rig)
        → run.place ≡ place_by run.rig.planned cases → run.cost + fuel ≡ budget → FitSteps is_planned setup count fuel run.rig lines left d
        → RunsOn setup budget count run (place_by d.planned cases) lines left d }
{}

/// Where steps lead to one that doesn't fit, a run whose budget has so much left stops there. What stays is all of the configuration but who has the
/// turn, who is ready, and the outcome.
pub fn short_steps_end_the_run()
    ensures { (from : Rig → Bool) (setup : Setup) (budget fuel : ℕ) (run : Run) (case : Case) (cases : List Case)
        (lines : List (List ℕ)) (left : ℕ) (e : Rig) → run.place ≡ Runs case cases → run.cost + fuel ≡ budget
        → Short (FitSteps from setup) setup fuel run.rig lines left e → StopsAt setup budget run lines e }
{}
