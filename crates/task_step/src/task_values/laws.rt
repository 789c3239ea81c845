//! Laws of what statements evaluate.
ghost use Rattle.std.specs.Prelude.{◌≡◌, false, [], ◌∷◌, Option};
ghost use Rattle.py_syntax.specs.ExpressionTrees.{Tree};
ghost use Rattle.test_meaning.specs.Body.BodyTrees.{
  AwaitedItem,
  AwaitedRoom,
  AwaitedValue,
  Block,
  Call,
  TimedCall,
  TimedValue,
  WithTimeout,
};
ghost use Rattle.rig_model.specs.Task.Awaits.{await, waits};
ghost use Rattle.rig_model.specs.Task.Blocks.{enter};
ghost use Rattle.rig_model.specs.Task.Calls.{starts};
ghost use Rattle.rig_model.specs.Task.Frame.{Uses, Times, Enters};
ghost use Rattle.rig_model.specs.Task.Moves.{At, first_do, with_value};
ghost use Rattle.task_step.specs.TaskValues.Waits.{eval_wait, eval_limit, eval_queue, eval_timed_call, eval_lock};

/// A statement that waits does one evaluation, and then what its value asks for: `await` of a trigger or a task, of room or an item in a queue,
/// `with_timeout` of a trigger or a task and of a call, and `async with`.
pub fn waits_are_outcomes()
    ensures value { (e : Tree) (a : At) → await (AwaitedValue e) a ≡ with_value a (λ k. eval_wait a.scope e k) waits }
    ensures room { (e : Tree) (a : At) → await (AwaitedRoom e) a ≡ with_value a (λ k. eval_queue (λ q. q.space_event) a.scope e k) waits }
    ensures items { (e : Tree) (a : At) → await (AwaitedItem e) a ≡ with_value a (λ k. eval_queue (λ q. q.items_event) a.scope e k) waits }
    ensures limit { (e time : Tree) (unit : Option Tree) (a : At)
        → await (WithTimeout (TimedValue e) time unit) a ≡ with_value a (λ k. eval_limit a.scope e time unit k) waits }
    ensures call { (c : Call) (time : Tree) (unit : Option Tree) (a : At)
        → await (WithTimeout (TimedCall c) time unit) a
        ≡ with_value a (λ k. eval_timed_call a.scope c time unit k) (λ t b. starts false t.called (first_do (Uses (Times t.steps) ∷ []) b)) }
    ensures lock { (e : Tree) (block : Block) (a : At)
        → enter e block a ≡ with_value a (λ k. eval_lock a.scope e k) (λ l b. waits l.trigger (first_do (Uses (Enters l.lock block) ∷ []) b)) }
{}
