//! What holds of all turns.
ghost use Rattle.std.specs.Prelude.{◌≡◌, ◌<◌, ◌≤◌, ◌⊎◌, ℕ, suc, List, [], None};
ghost use Rattle.py_value.specs.declared.trigger.TaskNo.{TaskNo};
ghost use Rattle.rig_model.specs.declared.task.task.Turned.{Turned};
ghost use Rattle.rig_model.specs.Run.Effect.{effect};
ghost use Rattle.rig_model.specs.Run.Rig.{Rig, Setup};
ghost use Rattle.rig_model.proofs.RunLemmas.Falls.{mass};
ghost use Rattle.rig_model.specs.Parts.Steps.{Moves, TurnSteps};

/// After a turn there is less fuel, or less is left to do.
pub fn turn_falls()
    ensures { (setup : Setup) (fuel : ℕ) (c : Rig) (lines : List (List ℕ)) (left : ℕ) (d : Rig)
        → Moves (TurnSteps setup) fuel c lines left d → (left < fuel) ⊎ ((left ≤ fuel) × (mass d < mass c)) }
{}

/// A turn in which no task runs and none is ready is one event.
pub fn waiting_turn_is_one_event()
    ensures { (setup : Setup) (count fuel : ℕ) (c : Rig) (lines : List (List ℕ)) (left : ℕ) (d : Rig) → c.running ≡ None → c.ready ≡ []
        → TurnSteps setup (suc count) fuel c lines left d → count ≡ 0 }
{}

/// While no start is planned, nothing that a task wants plans one.
pub fn effects_plan_nothing()
    ensures { (setup : Setup) (task : TaskNo) (turned : Turned) (c : Rig) → c.planned ≡ None → (effect setup task turned c).rig.planned ≡ None }
{}
