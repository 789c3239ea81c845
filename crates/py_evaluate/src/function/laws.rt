//! Laws of calls.

ghost use Rattle.std.specs.Prelude.{ℕ, ◌≤◌, List};
ghost use Rattle.py_syntax.specs.declared.expression.Function.{Function};
ghost use Rattle.py_syntax.specs.declared.expression.Method.{Method};
ghost use Rattle.py_value.specs.declared.trigger.TaskNo.{TaskNo};
ghost use Rattle.py_value.specs.declared.value.Value.{Value};
ghost use Rattle.py_evaluate.specs.Attribute.Look.{View};
ghost use Rattle.py_evaluate.specs.Function.Functions.{called, method_value};

/// No call lowers the number of the task's next trigger.
pub fn numbers_never_fall_by_calls()
    ensures function { (task : TaskNo) (view : View) (f : Function) (values : List Value) (k : ℕ) → k ≤ (called task view f values k).next }
    ensures method { (task : TaskNo) (view : View) (v : Value) (m : Method) (k : ℕ) → k ≤ (method_value task view v m k).next }
{}
