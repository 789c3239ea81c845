//! Laws of evaluations.

ghost use Rattle.std.specs.Prelude.{ℕ, ◌≤◌, Bool, IfOk};
ghost use Rattle.py_syntax.specs.ExpressionTrees.{Tree};
ghost use Rattle.py_value.specs.declared.trigger.TrigId.{TrigId};
ghost use Rattle.py_evaluate.specs.Attribute.Numbers.{Each, EachName, EachNumber, is_below};
ghost use Rattle.py_evaluate.specs.Attribute.Outcome.{Scope};
ghost use Rattle.py_evaluate.specs.Eval.{eval};
ghost use Rattle.py_evaluate.specs.Wants.{Wants};

/// No evaluation lowers the number of the task's next trigger.
pub fn numbers_never_fall()
    ensures { (s : Scope) (e : Tree) (k : ℕ) → k ≤ (eval s e k).next }
{}

/// Where memory runs out in an evaluation, the number of the task's next trigger is no lower than the old one, and no higher than that
/// which the evaluation would leave.
pub fn want_lies_on_the_way()
    ensures { (s : Scope) (e : Tree) (k j : ℕ) → Wants s e k j → (k ≤ j) × (j ≤ (eval s e k).next) }
{}

/// Each trigger in the value of an expression, those inside others among them, is one in a value of the names, or the evaluation made it:
/// then it is the task's, and its number is at least the old next one and below the new one. So a test that holds of all of those holds of
/// each trigger in the value.
pub fn triggers_are_old_or_new()
    ensures { (test : TrigId → Bool) (s : Scope) (e : Tree) (k : ℕ) → EachName test s.names
        → EachNumber test s.task k (eval s e k).next → IfOk (eval s e k).answer (Each test) }
{}

/// Where the numbers of the task's triggers in the names lie below its next one, those in the value of an expression lie below the next one
/// behind it.
pub fn numbers_stay_below()
    ensures { (s : Scope) (e : Tree) (k : ℕ) → EachName (is_below s.task k) s.names
        → IfOk (eval s e k).answer (Each (is_below s.task (eval s e k).next)) }
{}
