//! Calls that are started, what is awaited, and right sides.

ghost use Rattle.std.specs.Prelude.{◌≡◌, ◌+◌, Some, map, option_map, IfOk};
ghost use Rattle.py_syntax.specs.ExpressionTrees.{view};
ghost use Rattle.py_syntax.specs.StatementTrees.{
  ClockStart,
  QueueGet,
  QueuePut,
  WithTimeout,
  optional,
  view_argument,
  view_awaited as view_waiting,
  view_right as view_side,
  view_started,
  view_timed as view_limited,
  view_write_action as view_written,
};
ghost use Rattle.test_meaning.specs.Body.BodyTrees as body;
ghost use Rattle.test_meaning.specs.Body.Views.{view_awaited, view_call, view_right, view_timed, view_write_action};
ghost use Rattle.test_meaning.specs.Bodies.{
  awaited_in,
  call_in,
  called,
  clock_number,
  clock_parameters,
  operands_in,
  right_in,
  timed_in,
  tree_in,
  write_action_in,
};
ghost use Rattle.test_meaning.specs.Rules.File.{function};

use crate::expressions::{CalledFunction, Meanings, expression};
use crate::statements::operands::{given_operands, operands};
use port_io::{Name, NoMemory};
use py_syntax as syntax;
use py_syntax::{Argument, Const, Expression, Parameter};
use std::alloc::Global;
use test_meaning::body::{Awaited, Call, RightSide, Timed, WriteAction};

/// An expression that may be left out. Only want of memory is an error.
pub(crate) fn optional<M: Meanings>(
    alloc: Global,
    meanings: &M,
    tree: &Option<Expression>,
) -> Result<Option<Expression>, NoMemory>
    ensures { IfOk result (λ made. option_map view made ≡ option_map (tree_in (M.inside meanings.now)) (optional view tree.now)) }
{
    match tree {
        Some(tree) => Ok(Some(expression(alloc, meanings, tree)?)),
        None => Ok(None),
    }
}

/// The number of a function, as calls have it; memory is wanting where there are more functions than have a number.
fn function_number(number: usize) -> Result<u32, NoMemory>
    ensures { IfOk result (λ n. n ≡ number) }
{
    match u32::try_from(number) {
        Ok(number) => Ok(number),
        Err(_) => Err(NoMemory),
    }
}

/// A call of the function of this number, which has these parameters. Only want of memory is an error.
fn numbered_call<M: Meanings>(
    alloc: Global,
    meanings: &M,
    number: usize,
    parameters: &[Parameter],
    arguments: &[Argument],
) -> Result<Call, NoMemory>
    ensures { IfOk result
        (λ made. view_call made ≡ body.FunctionCall number (operands_in (M.inside meanings.now) parameters.now (map view_argument arguments.now))) }
{
    let number = function_number(number)?;
    let operands = operands(alloc, meanings, parameters, arguments)?;
    Ok(Call::Function(number, operands))
}

/// A call of the function of this name. Only want of memory is an error.
fn function_call<M: Meanings>(
    alloc: Global,
    meanings: &M,
    name: &[u8],
    arguments: &[Argument],
) -> Result<Call, NoMemory>
    ensures { IfOk result (λ made. view_call made
        ≡ called (M.inside meanings.now) (map view_argument arguments.now) (function (M.inside meanings.now).file name.now)) }
{
    match meanings.function(name) {
        Some(CalledFunction { number, parameters }) => numbered_call(
            alloc, meanings, number, parameters, arguments,
        ),
        None => Ok(Call::Function(0, Vec::new(alloc))),
    }
}

/// A parameter with a default. Only want of memory is an error.
fn defaulted(alloc: Global, name: &[u8], default: Const) -> Result<Parameter, NoMemory>
    ensures { IfOk result (λ made. made ≡ record { name = name.now; default = Some default }) }
{
    Ok(Parameter {
        name: Name::of(alloc, name)?,
        default: Some(default),
    })
}

/// The parameters of a clock's start (cocotb 1.8, `cocotb.clock.Clock.start`). Only want of memory is an error.
fn clock_parameters(alloc: Global) -> Result<Vec<Parameter>, NoMemory>
    ensures { IfOk result (λ parameters. parameters.items ≡ clock_parameters) }
{
    let mut parameters = Vec::new(alloc);
    parameters.push(defaulted(alloc, b"cycles", Const::Absent)?)?;
    parameters.push(defaulted(alloc, b"start_high", Const::Truth(true))?)?;
    Ok(parameters)
}

/// The start of a clock. Only want of memory is an error.
fn clock_start<M: Meanings>(
    alloc: Global,
    meanings: &M,
    clock: &Expression,
    arguments: &[Argument],
) -> Result<Call, NoMemory>
    ensures { IfOk result (λ made. view_call made ≡ call_in (M.inside meanings.now) (ClockStart (view clock.now) (map view_argument arguments.now))) }
{
    let number = function_number(meanings.function_count())?;
    let parameters = clock_parameters(alloc)?;
    let operands = given_operands(alloc, meanings, &parameters, arguments)?;
    Ok(Call::Clock(number, expression(alloc, meanings, clock)?, operands))
}

/// The number of a function of the library, which stands so many places behind `Clock.start`; memory is wanting where it is no number that calls
/// have.
fn library_number<M: Meanings>(meanings: &M, place: u32) -> Result<u32, NoMemory>
    ensures { IfOk result (λ n. n ≡ clock_number (M.inside meanings.now).file + place) }
{
    let first = function_number(meanings.function_count())?;
    first.checked_add(place).ok_or(NoMemory)
}

/// A put into a queue. Only want of memory is an error.
fn queue_put<M: Meanings>(
    alloc: Global,
    meanings: &M,
    queue: &Expression,
    item: &Expression,
) -> Result<Call, NoMemory>
    ensures { IfOk result (λ made. view_call made ≡ call_in (M.inside meanings.now) (QueuePut (view queue.now) (view item.now))) }
{
    let number = library_number(meanings, 1)?;
    let queue = expression(alloc, meanings, queue)?;
    Ok(Call::Put(number, queue, expression(alloc, meanings, item)?))
}

/// A get from a queue. Only want of memory is an error.
fn queue_get<M: Meanings>(alloc: Global, meanings: &M, queue: &Expression) -> Result<Call, NoMemory>
    ensures { IfOk result (λ made. view_call made ≡ call_in (M.inside meanings.now) (QueueGet (view queue.now))) }
{
    let number = library_number(meanings, 2)?;
    Ok(Call::Get(number, expression(alloc, meanings, queue)?))
}

/// A call that makes a task, by its function's number, with an operand for each parameter. Only want of memory is an error.
pub fn call<M: Meanings>(
    alloc: Global,
    meanings: &M,
    call: &syntax::StartedCall,
) -> Result<Call, NoMemory>
    ensures { IfOk result (λ made. view_call made ≡ call_in (M.inside meanings.now) (view_started call.now)) }
{
    match call {
        syntax::StartedCall::Function(name, arguments) => function_call(
            alloc,
            meanings,
            name.bytes(),
            arguments,
        ),
        syntax::StartedCall::Clock(clock, arguments) => clock_start(
            alloc, meanings, clock, arguments,
        ),
        syntax::StartedCall::Put(queue, item) => queue_put(alloc, meanings, queue, item),
        syntax::StartedCall::Get(queue) => queue_get(alloc, meanings, queue),
    }
}

/// What `with_timeout` waits for. Only want of memory is an error.
fn timed<M: Meanings>(alloc: Global, meanings: &M, timed: &syntax::Timed) -> Result<Timed, NoMemory>
    ensures { IfOk result (λ made. view_timed made ≡ timed_in (M.inside meanings.now) (view_limited timed.now)) }
{
    match timed {
        syntax::Timed::Value(value) => Ok(Timed::Value(expression(alloc, meanings, value)?)),
        syntax::Timed::Call(started) => Ok(Timed::Call(call(alloc, meanings, started)?)),
    }
}

/// A call of `with_timeout`. Only want of memory is an error.
fn with_timeout<M: Meanings>(
    alloc: Global,
    meanings: &M,
    limited: &syntax::Timed,
    time: &Expression,
    unit: &Option<Expression>,
) -> Result<Awaited, NoMemory>
    ensures { IfOk result (λ made. view_awaited made
        ≡ awaited_in (M.inside meanings.now) (WithTimeout (view_limited limited.now) (view time.now) (optional view unit.now))) }
{
    let limited = timed(alloc, meanings, limited)?;
    let time = expression(alloc, meanings, time)?;
    Ok(Awaited::WithTimeout(limited, time, optional(alloc, meanings, unit)?))
}

/// What stands behind `await`. Only want of memory is an error.
pub(crate) fn awaited<M: Meanings>(
    alloc: Global,
    meanings: &M,
    awaited: &syntax::Awaited,
) -> Result<Awaited, NoMemory>
    ensures { IfOk result (λ made. view_awaited made ≡ awaited_in (M.inside meanings.now) (view_waiting awaited.now)) }
{
    match awaited {
        syntax::Awaited::Value(value) => Ok(Awaited::Value(expression(alloc, meanings, value)?)),
        syntax::Awaited::Call(started) => Ok(Awaited::Call(call(alloc, meanings, started)?)),
        syntax::Awaited::Start(started) => Ok(Awaited::Start(call(alloc, meanings, started)?)),
        syntax::Awaited::WithTimeout(limited, time, unit) => with_timeout(
            alloc, meanings, limited, time, unit,
        ),
    }
}

/// A right side. Only want of memory is an error.
pub(crate) fn right_side<M: Meanings>(
    alloc: Global,
    meanings: &M,
    side: &syntax::RightSide,
) -> Result<RightSide, NoMemory>
    ensures { IfOk result (λ made. view_right made ≡ right_in (M.inside meanings.now) (view_side side.now)) }
{
    match side {
        syntax::RightSide::Value(value) => Ok(RightSide::Value(expression(
            alloc, meanings, value,
        )?)),
        syntax::RightSide::Await(waiting) => Ok(RightSide::Await(awaited(
            alloc, meanings, waiting,
        )?)),
        syntax::RightSide::StartSoon(started) => Ok(RightSide::StartSoon(call(
            alloc, meanings, started,
        )?)),
        syntax::RightSide::Event => Ok(RightSide::Event),
        syntax::RightSide::Lock => Ok(RightSide::Lock),
        syntax::RightSide::RandomInt(low, high) => {
            let low = expression(alloc, meanings, low)?;
            Ok(RightSide::RandomInt(low, expression(alloc, meanings, high)?))
        }
        syntax::RightSide::Queue(bound) => Ok(RightSide::Queue(optional(alloc, meanings, bound)?)),
        syntax::RightSide::GetNow(queue) => Ok(RightSide::GetNow(expression(
            alloc, meanings, queue,
        )?)),
    }
}

/// A write that is no value. Only want of memory is an error.
pub(crate) fn write_action<M: Meanings>(
    alloc: Global,
    meanings: &M,
    action: &syntax::WriteAction,
) -> Result<WriteAction, NoMemory>
    ensures { IfOk result (λ made. view_write_action made ≡ write_action_in (M.inside meanings.now) (view_written action.now)) }
{
    match action {
        syntax::WriteAction::Force(value) => Ok(WriteAction::Force(expression(
            alloc, meanings, value,
        )?)),
        syntax::WriteAction::Freeze => Ok(WriteAction::Freeze),
        syntax::WriteAction::Release => Ok(WriteAction::Release),
    }
}
