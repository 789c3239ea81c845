//! Started calls, what is awaited, and right sides.

ghost use Rattle.std.specs.Prelude.{◌≡◌, IfOk, codes, map};
ghost use Rattle.std.specs.List.{flat_map};
ghost use Rattle.py_syntax.specs.ExpressionTrees.{view};
ghost use Rattle.py_syntax.specs.StatementTrees.{
  RandomInt,
  WithTimeout,
  optional,
  view_argument,
  view_awaited,
  view_right,
  view_started,
  view_timed,
  view_write_action,
};
ghost use Rattle.python_tests.specs.Trees.TreeText.{tree_text};
ghost use Rattle.python_tests.specs.Trees.CallText.{
  argument_text,
  await_text,
  awaited_text,
  call_text,
  given_text,
  member_call,
  optional_text,
  right_text,
  start_text,
  started_text,
  timed_text,
  write_action_text,
};

use crate::trees::expression::{expression_text, member_text, pair_text, spaced_text};
use crate::trees::piece::joined;
use port_io::Name;
use py_syntax::{Argument, Awaited, Expression, RightSide, StartedCall, Timed, WriteAction};
use std::alloc::{AllocError, Global};

/// The name by which an argument is given, and `=`; nothing where it is given by its place.
fn given_text(alloc: Global, name: &Option<Name>) -> Result<Vec<u8>, AllocError>
    ensures { IfOk result (λ text. text.items ≡ given_text name.now) }
{
    match name {
        Some(name) => joined(alloc, &[name.bytes(), b"="]),
        None => Ok(Vec::new(alloc)),
    }
}

/// An argument behind a space.
fn argument_text(alloc: Global, argument: &Argument) -> Result<Vec<u8>, AllocError>
    ensures { IfOk result (λ text. text.items ≡ argument_text (view_argument argument.now)) }
{
    let name = given_text(alloc, &argument.name)?;
    let value = expression_text(alloc, &argument.value)?;
    joined(alloc, &[b" ", &name, &value])
}

/// Arguments, each behind a space.
fn arguments_text(alloc: Global, arguments: &[Argument]) -> Result<Vec<u8>, AllocError>
    ensures { IfOk result (λ text. text.items ≡ flat_map argument_text (map view_argument arguments.now)) }
{
    let mut text = Vec::new(alloc);
    for argument in arguments {
        let more = argument_text(alloc, argument)?;
        text.extend_from_slice(&more)?;
    }
    Ok(text)
}

/// A call of what is written so.
fn call_text(alloc: Global, called: &[u8], arguments: &[Argument]) -> Result<Vec<u8>, AllocError>
    ensures { IfOk result (λ text. text.items ≡ call_text called.now (map view_argument arguments.now)) }
{
    let arguments = arguments_text(alloc, arguments)?;
    joined(alloc, &[b"(call ", called, &arguments, b")"])
}

/// A call of a member of what an expression gives, with these arguments, each behind a space.
fn called_text(
    alloc: Global,
    base: &Expression,
    name: &[u8],
    arguments: &[u8],
) -> Result<Vec<u8>, AllocError>
    ensures { IfOk result (λ text. text.items ≡ member_call (tree_text (view base.now)) name.now arguments.now) }
{
    let member = member_text(alloc, base, name)?;
    joined(alloc, &[b"(call ", &member, arguments, b")"])
}

/// A started call.
fn started_text(alloc: Global, call: &StartedCall) -> Result<Vec<u8>, AllocError>
    ensures { IfOk result (λ text. text.items ≡ started_text (view_started call.now)) }
{
    match call {
        StartedCall::Function(name, arguments) => call_text(alloc, name.bytes(), arguments),
        StartedCall::Clock(clock, arguments) => {
            let start = member_text(alloc, clock, b"start")?;
            call_text(alloc, &start, arguments)
        }
        StartedCall::Put(queue, item) => {
            let item = spaced_text(alloc, item)?;
            called_text(alloc, queue, b"put", &item)
        }
        StartedCall::Get(queue) => called_text(alloc, queue, b"get", b""),
    }
}

/// A call of this member of `cocotb`, which starts the call.
pub fn start_text(alloc: Global, name: &[u8], call: &StartedCall) -> Result<Vec<u8>, AllocError>
    ensures { IfOk result (λ text. text.items ≡ start_text name.now (view_started call.now)) }
{
    let member = pair_text(alloc, b".", b"cocotb", name)?;
    let call = started_text(alloc, call)?;
    joined(alloc, &[b"(call ", &member, b" ", &call, b")"])
}

/// What a timeout waits for.
fn timed_text(alloc: Global, timed: &Timed) -> Result<Vec<u8>, AllocError>
    ensures { IfOk result (λ text. text.items ≡ timed_text (view_timed timed.now)) }
{
    match timed {
        Timed::Value(value) => expression_text(alloc, value),
        Timed::Call(call) => started_text(alloc, call),
    }
}

/// An expression behind a space, if there is one.
pub fn optional_text(alloc: Global, tree: &Option<Expression>) -> Result<Vec<u8>, AllocError>
    ensures { IfOk result (λ text. text.items ≡ optional_text (optional view tree.now)) }
{
    match tree {
        Some(tree) => spaced_text(alloc, tree),
        None => Ok(Vec::new(alloc)),
    }
}

/// A call of `with_timeout`.
fn timeout_text(
    alloc: Global,
    timed: &Timed,
    time: &Expression,
    unit: &Option<Expression>,
) -> Result<Vec<u8>, AllocError>
    ensures { IfOk result (λ text. text.items ≡ awaited_text (WithTimeout (view_timed timed.now) (view time.now) (optional view unit.now))) }
{
    let timed = timed_text(alloc, timed)?;
    let time = spaced_text(alloc, time)?;
    let unit = optional_text(alloc, unit)?;
    joined(alloc, &[b"(call with_timeout ", &timed, &time, &unit, b")"])
}

/// What stands behind `await`.
fn awaited_text(alloc: Global, awaited: &Awaited) -> Result<Vec<u8>, AllocError>
    ensures { IfOk result (λ text. text.items ≡ awaited_text (view_awaited awaited.now)) }
{
    match awaited {
        Awaited::Value(value) => expression_text(alloc, value),
        Awaited::Call(call) => started_text(alloc, call),
        Awaited::Start(call) => start_text(alloc, b"start", call),
        Awaited::WithTimeout(timed, time, unit) => timeout_text(alloc, timed, time, unit),
    }
}

/// `await` and what it waits for.
pub fn await_text(alloc: Global, awaited: &Awaited) -> Result<Vec<u8>, AllocError>
    ensures { IfOk result (λ text. text.items ≡ await_text (view_awaited awaited.now)) }
{
    let awaited = awaited_text(alloc, awaited)?;
    joined(alloc, &[b"(await ", &awaited, b")"])
}

/// A call of `random.randint`.
fn random_text(alloc: Global, low: &Expression, high: &Expression) -> Result<Vec<u8>, AllocError>
    ensures { IfOk result (λ text. text.items ≡ right_text (RandomInt (view low.now) (view high.now))) }
{
    let low = spaced_text(alloc, low)?;
    let high = spaced_text(alloc, high)?;
    joined(alloc, &[b"(call (. random randint)", &low, &high, b")"])
}

/// A right side.
pub fn right_text(alloc: Global, right: &RightSide) -> Result<Vec<u8>, AllocError>
    ensures { IfOk result (λ text. text.items ≡ right_text (view_right right.now)) }
{
    match right {
        RightSide::Value(value) => expression_text(alloc, value),
        RightSide::Await(awaited) => await_text(alloc, awaited),
        RightSide::StartSoon(call) => start_text(alloc, b"start_soon", call),
        RightSide::Event => joined(alloc, &[b"(call Event)"]),
        RightSide::Lock => joined(alloc, &[b"(call Lock)"]),
        RightSide::RandomInt(low, high) => random_text(alloc, low, high),
        RightSide::Queue(bound) => {
            let bound = optional_text(alloc, bound)?;
            joined(alloc, &[b"(call Queue", &bound, b")"])
        }
        RightSide::GetNow(queue) => called_text(alloc, queue, b"get_nowait", b""),
    }
}

/// A write that is no value.
pub fn write_action_text(alloc: Global, action: &WriteAction) -> Result<Vec<u8>, AllocError>
    ensures { IfOk result (λ text. text.items ≡ write_action_text (view_write_action action.now)) }
{
    match action {
        WriteAction::Force(value) => {
            let value = spaced_text(alloc, value)?;
            joined(alloc, &[b"(call Force", &value, b")"])
        }
        WriteAction::Freeze => joined(alloc, &[b"(call Freeze)"]),
        WriteAction::Release => joined(alloc, &[b"(call Release)"]),
    }
}
