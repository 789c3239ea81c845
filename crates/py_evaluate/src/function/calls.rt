//! Calls of functions.
ghost use Rattle.std.specs.Prelude.{◌≡◌, ◌≤◌, Ok, false, is_ok, IsTrue};
ghost use Rattle.py_value.specs.Answer.{and_then};
ghost use Rattle.py_value.specs.Truth.{truth};
ghost use Rattle.py_evaluate.specs.Attribute.Attribute.{str_value};
ghost use Rattle.py_evaluate.specs.Attribute.Gives.{Gives, IfWant};
ghost use Rattle.py_evaluate.specs.Attribute.Look as look;
ghost use Rattle.py_evaluate.specs.Attribute.Knows.{KnowsAll};
ghost use Rattle.py_evaluate.specs.Attribute.Outcome.{Ends, Evaluates, lift};
ghost use Rattle.py_evaluate.specs.Function.Functions as meaning;

use crate::attribute::{Look, OperationFault, len, str_text};
use crate::function::argument::{argument, unit_argument};
use crate::function::forms::{change, clock, cycles, fall, join, rise, timer};
use crate::function::making::new_value;
use crate::function::several::{combine, first};
use py_syntax::{FaultKind, Function};
use py_value::operator::int;
use py_value::time::time_in;
use py_value::{Form, TaskNo, Value, truth};
use std::alloc::Global;

/// `int(value)`
fn int_call(values: &[Value]) -> Result<Value, FaultKind>
    ensures { result ≡ and_then (meaning.argument values.now 0) meaning.int }
{
    int(argument(values, 0)?)
}

/// `bool(value)`
fn bool_call(values: &[Value]) -> Result<Value, FaultKind>
    ensures { result ≡ and_then (meaning.argument values.now 0) (λ v. Ok (Value.Truth (truth v))) }
{
    let v = argument(values, 0)?;
    Ok(Value::Truth(truth(v)))
}

/// `len(signal)`
fn len_call<V: Look>(view: &V, values: &[Value]) -> Result<Value, FaultKind>
    requires { KnowsAll (V.view view.now) values.now }
    ensures { result ≡ and_then (meaning.argument values.now 0) (look.len (V.view view.now)) }
{
    len(view, argument(values, 0)?)
}

/// `str(value)`
fn str_call<V: Look>(alloc: Global, view: &V, values: &[Value]) -> Result<Value, OperationFault>
    requires { KnowsAll (V.view view.now) values.now }
    ensures gives { Gives (and_then (meaning.argument values.now 0) (str_value (V.view view.now).places)) result }
    ensures want { IfWant result (IsTrue (is_ok (meaning.argument values.now 0))) }
{
    str_text(alloc, view, argument(values, 0)?)
}

/// `get_sim_time(units)`: a unit that is no text is a TypeError, and one that isn't known or doesn't divide the time a ValueError.
fn sim_time<V: Look>(view: &V, values: &[Value]) -> Result<Value, FaultKind>
    ensures { result ≡ meaning.sim_time (V.view view.now) values.now }
{
    time_in(view.step_fs(), view.now(), unit_argument(view, values, 0))
}

/// A call of a function that takes no memory.
fn plain_call<V: Look>(
    view: &V,
    task: TaskNo,
    function: Function,
    values: &[Value],
    next: &mut u64,
) -> Result<Value, FaultKind>
    requires known { KnowsAll (V.view view.now) values.now }
    requires plain { meaning.takes_memory function ≡ false }
    ensures is { lift result next.new ≡ meaning.called task (V.view view.now) function values.now next.old }
    ensures rises { next.old ≤ next.new }
{
    match function {
        Function::Int => int_call(values),
        Function::Bool => bool_call(values),
        Function::Len => len_call(view, values),
        Function::GetSimTime => sim_time(view, values),
        Function::Timer => new_value(task, timer(view, values), next),
        Function::Edge => new_value(task, change(values), next),
        Function::RisingEdge => new_value(task, rise(view, values), next),
        Function::FallingEdge => new_value(task, fall(view, values), next),
        Function::ReadWrite => new_value(task, Ok(Form::ReadWrite), next),
        Function::ReadOnly => new_value(task, Ok(Form::ReadOnly), next),
        Function::NextTimeStep => new_value(task, Ok(Form::NextStep), next),
        Function::ClockCycles => new_value(task, cycles(view, values), next),
        Function::Join => new_value(task, join(values), next),
        Function::Clock => clock(view, values),
        Function::Str | Function::First | Function::Combine => unreachable!(),
    }
}

/// A call of any function. Want of memory comes only of those that take some.
fn call<V: Look>(
    alloc: Global,
    view: &V,
    task: TaskNo,
    function: Function,
    values: &[Value],
    next: &mut u64,
) -> Result<Value, OperationFault>
    requires { KnowsAll (V.view view.now) values.now }
    ensures ends { Ends result next.new (meaning.called task (V.view view.now) function values.now next.old) }
    ensures rises { next.old ≤ next.new }
    ensures want { IfWant result
        (meaning.MayWant function values.now next.old next.new (meaning.called task (V.view view.now) function values.now next.old)) }
{
    match function {
        Function::Str => str_call(alloc, view, values),
        Function::First => first(alloc, task, values, next),
        Function::Combine => combine(alloc, task, values, next),
        _ => Ok(plain_call(view, task, function, values, next)?),
    }
}

/// A call of a function with these arguments, by a task whose next trigger has this number: `int`, `str`, `bool` and `len` (the library
/// reference, "Built-in Functions"); cocotb 1.8's `get_sim_time`, `Clock`, and the triggers `Timer`, `Edge`, `RisingEdge`, `FallingEdge`,
/// `ReadWrite`, `ReadOnly`, `NextTimeStep`, `ClockCycles`, `Join`, `First` and `Combine`. The faults are, the first that holds but for what
/// is said behind them:
///
/// - TypeError: an argument is missing or of another kind, as a signal of more than one digit is for `Clock`, `ClockCycles`, `RisingEdge` and
///   `FallingEdge`;
/// - ValueError: a digit is x or z where a number is needed; a unit isn't known; a time is no whole number of steps from 1 on; a clock's
///   period is odd; a count of cycles is below 1; `get_sim_time`'s unit doesn't divide the time; a `First` or `Combine` doesn't have 1 to 64
///   leaves, or has more than 64 triggers inside one another;
/// - OverflowError: a whole number lies outside -2^127 .. 2^127 - 1, a text has over 65,536 bytes, a time is over 2^62 steps, a count of
///   cycles is over 2^64 - 1;
/// - RuntimeError: the task has made 2^63 triggers, the most that it may.
///
/// A new trigger takes the next number, and so does the join of a task among the arguments of `First` and `Combine`, before a ValueError
/// or a RuntimeError of the whole: where that join finds no number left, its RuntimeError comes before the ValueError of the whole. Want of
/// memory is an error of `str`, `First` and `Combine` alone, and comes behind the TypeError; the next number is then from the old one to that
/// which the call would leave.
pub fn called<V: Look>(
    alloc: Global,
    view: &V,
    task: TaskNo,
    function: Function,
    values: &[Value],
    next: &mut u64,
) -> Result<Value, OperationFault>
    requires { KnowsAll (V.view view.now) values.now }
    ensures { let o = meaning.called task (V.view view.now) function values.now next.old in
        Evaluates (V.view view.now) result next.old next.new o (meaning.MayWant function values.now next.old next.new o) }
{
    call(alloc, view, task, function, values, next)
}
