//! What stays of the places of tasks.
ghost use Rattle.std.specs.Prelude.{◌≡◌, List, ◌∷◌, None, Some};
ghost use Rattle.py_value.specs.declared.trigger.TaskNo.{TaskNo};
ghost use Rattle.gpi.specs.Events.{Event};
ghost use Rattle.scheduler.specs.EffectLaws.Stands.{StandsIn, StandsOwn};
ghost use Rattle.rig_model.specs.Run.Effect.{effect};
ghost use Rattle.rig_model.specs.Run.Rig.{Rig, Setup};
ghost use Rattle.rig_model.specs.Run.Step.{evented, kept, resumed, taken};
ghost use Rattle.rig_model.specs.Task.Frame.{Task};
ghost use Rattle.rig_model.specs.declared.task.task.Turned.{Turned};
ghost use Rattle.await_tree.specs.declared.wait_list.ready.Entry.{Entry};

/// Whatever the task wants that has its turn: after it each task that has its turn, is ready or waits is live, and stands in one place alone.
pub fn effect_keeps_places()
    ensures { (setup : Setup) (task : TaskNo) (turned : Turned) (c : Rig) → c.running ≡ None
        → StandsIn (Some task) c → StandsOwn (effect setup task turned c).rig }
{}

/// So it is after an event, with all that it fires.
pub fn event_keeps_places()
    ensures { (setup : Setup) (e : Event) (c : Rig) → c.running ≡ None → StandsIn None c → StandsOwn (evented setup e c).rig }
{}

/// So it is where the first that is ready gets its turn.
pub fn first_keeps_places()
    ensures { (e : Entry) (es : List Entry) (c : Rig) → c.ready ≡ e ∷ es → StandsIn None c → StandsOwn (resumed e es c) }
{}

/// So it is where something is left of a task that was polled, with its number.
pub fn rest_keeps_places()
    ensures { (task : TaskNo) (rest : Task) (c : Rig) → rest.number ≡ task → StandsIn (Some task) c → StandsIn (Some task) (kept task rest c) }
{}
