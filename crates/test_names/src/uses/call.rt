//! Calls that are started, what is awaited, and right sides.

ghost use Rattle.std.specs.Prelude.{◌≡◌, ◌∷◌, ◌++◌, map, IfOk};
ghost use Rattle.std.specs.List.{flat_map};
ghost use Rattle.py_syntax.specs.ExpressionTrees.{view};
ghost use Rattle.py_syntax.specs.StatementTrees.{WithTimeout, optional, view_awaited, view_right, view_started, view_timed, view_write_action};
ghost use Rattle.test_meaning.specs.Rules.Uses.{Calls, awaited_uses, call_uses, cocotb, if_given, right_uses, timed_uses, tree_uses, write_action_uses};
ghost use Rattle.test_names.specs.Uses.Answer.{answer};

use crate::uses::{Scope, first_of, of_tree};
use port_io::NoMemory;
use py_syntax::{Argument, Awaited, Expression, RightSide, StartedCall, Timed, WriteAction};
use std::alloc::Global;
use test_meaning::rules::FileRule;

/// The rule that the uses of two expressions break.
pub(crate) fn of_both<S: Scope>(
    scope: &S,
    left: &Expression,
    right: &Expression,
) -> Option<FileRule>
    ensures { result ≡ answer (S.file scope.now) (S.around scope.now) (tree_uses (view left.now) ++ tree_uses (view right.now)) }
{
    first_of(of_tree(scope, left), of_tree(scope, right))
}

/// The rule that the uses of an expression break that may be left out.
pub(crate) fn of_optional<S: Scope>(scope: &S, tree: &Option<Expression>) -> Option<FileRule>
    ensures { result ≡ answer (S.file scope.now) (S.around scope.now) (if_given tree_uses (optional view tree.now)) }
{
    match tree {
        Some(tree) => of_tree(scope, tree),
        None => None,
    }
}

/// The rule that the uses of an expression break, and those of one behind it that may be left out.
pub(crate) fn of_tree_and<S: Scope>(
    scope: &S,
    tree: &Expression,
    other: &Option<Expression>,
) -> Option<FileRule>
    ensures { result ≡ answer (S.file scope.now) (S.around scope.now) (tree_uses (view tree.now) ++ if_given tree_uses (optional view other.now)) }
{
    first_of(of_tree(scope, tree), of_optional(scope, other))
}

/// The rule that the values of arguments break.
fn of_arguments<S: Scope>(scope: &S, arguments: &[Argument]) -> Option<FileRule>
    ensures { result ≡ answer (S.file scope.now) (S.around scope.now) (flat_map (λ a. tree_uses (view a.value)) arguments.now) }
{
    let mut found = None;
    for argument in arguments {
        found = first_of(found, of_tree(scope, &argument.value));
    }
    found
}

/// The rule that a call of a function of the file breaks. Only want of memory is an error.
fn of_function_call<S: Scope>(
    alloc: Global,
    scope: &S,
    name: &[u8],
    arguments: &[Argument],
) -> Result<Option<FileRule>, NoMemory>
    ensures { IfOk result (λ rule. rule ≡ answer (S.file scope.now) (S.around scope.now)
        (Calls name.now (map (λ a. a.name) arguments.now) ∷ flat_map (λ a. tree_uses (view a.value)) arguments.now)) }
{
    let called = scope.calls(alloc, name, arguments)?;
    Ok(first_of(called, of_arguments(scope, arguments)))
}

/// The rule that the uses of a call break. Only want of memory is an error.
pub(crate) fn of_started<S: Scope>(
    alloc: Global,
    scope: &S,
    call: &StartedCall,
) -> Result<Option<FileRule>, NoMemory>
    ensures { IfOk result (λ rule. rule ≡ answer (S.file scope.now) (S.around scope.now) (call_uses (view_started call.now))) }
{
    match call {
        StartedCall::Function(name, arguments) => {
            of_function_call(alloc, scope, name.bytes(), arguments)
        }
        StartedCall::Clock(clock, arguments) => Ok(first_of(
            of_tree(scope, clock),
            of_arguments(scope, arguments),
        )),
        StartedCall::Put(queue, item) => Ok(of_both(scope, queue, item)),
        StartedCall::Get(queue) => Ok(of_tree(scope, queue)),
    }
}

/// The rule that the uses of a call break that `cocotb` starts. Only want of memory is an error.
pub(crate) fn of_start<S: Scope>(
    alloc: Global,
    scope: &S,
    call: &StartedCall,
) -> Result<Option<FileRule>, NoMemory>
    ensures { IfOk result (λ rule. rule ≡ answer (S.file scope.now) (S.around scope.now) (cocotb ∷ call_uses (view_started call.now))) }
{
    let started = of_started(alloc, scope, call)?;
    Ok(first_of(scope.needs(b"cocotb"), started))
}

/// The rule that the uses of what has a limit break. Only want of memory is an error.
fn of_timed<S: Scope>(alloc: Global, scope: &S, timed: &Timed) -> Result<Option<FileRule>, NoMemory>
    ensures { IfOk result (λ rule. rule ≡ answer (S.file scope.now) (S.around scope.now) (timed_uses (view_timed timed.now))) }
{
    match timed {
        Timed::Value(value) => Ok(of_tree(scope, value)),
        Timed::Call(call) => of_started(alloc, scope, call),
    }
}

/// The rule that the uses of a call of `with_timeout` break. Only want of memory is an error.
fn of_timeout<S: Scope>(
    alloc: Global,
    scope: &S,
    timed: &Timed,
    time: &Expression,
    unit: &Option<Expression>,
) -> Result<Option<FileRule>, NoMemory>
    ensures { IfOk result (λ rule. rule ≡ answer (S.file scope.now) (S.around scope.now)
        (awaited_uses (WithTimeout (view_timed timed.now) (view time.now) (optional view unit.now)))) }
{
    let timed = of_timed(alloc, scope, timed)?;
    let limited = first_of(timed, of_tree(scope, time));
    let waiting = first_of(limited, of_optional(scope, unit));
    Ok(first_of(scope.needs(b"with_timeout"), waiting))
}

/// The rule that the uses of what is awaited break. Only want of memory is an error.
pub(crate) fn of_awaited<S: Scope>(
    alloc: Global,
    scope: &S,
    awaited: &Awaited,
) -> Result<Option<FileRule>, NoMemory>
    ensures { IfOk result (λ rule. rule ≡ answer (S.file scope.now) (S.around scope.now) (awaited_uses (view_awaited awaited.now))) }
{
    match awaited {
        Awaited::Value(value) => Ok(of_tree(scope, value)),
        Awaited::Call(call) => of_started(alloc, scope, call),
        Awaited::Start(call) => of_start(alloc, scope, call),
        Awaited::WithTimeout(timed, time, unit) => of_timeout(alloc, scope, timed, time, unit),
    }
}

/// The rule that the uses of a right side break. Only want of memory is an error.
pub(crate) fn of_right<S: Scope>(
    alloc: Global,
    scope: &S,
    right: &RightSide,
) -> Result<Option<FileRule>, NoMemory>
    ensures { IfOk result (λ rule. rule ≡ answer (S.file scope.now) (S.around scope.now) (right_uses (view_right right.now))) }
{
    match right {
        RightSide::Value(value) => Ok(of_tree(scope, value)),
        RightSide::Await(awaited) => of_awaited(alloc, scope, awaited),
        RightSide::StartSoon(call) => of_start(alloc, scope, call),
        RightSide::Event => Ok(scope.needs(b"Event")),
        RightSide::Lock => Ok(scope.needs(b"Lock")),
        RightSide::RandomInt(low, high) => Ok(first_of(
            scope.needs(b"random"),
            of_both(scope, low, high),
        )),
        RightSide::Queue(bound) => Ok(first_of(scope.needs(b"Queue"), of_optional(scope, bound))),
        RightSide::GetNow(queue) => Ok(of_tree(scope, queue)),
    }
}

/// The rule that the uses of an action break.
fn of_action<S: Scope>(scope: &S, action: &WriteAction) -> Option<FileRule>
    ensures { result ≡ answer (S.file scope.now) (S.around scope.now) (write_action_uses (view_write_action action.now)) }
{
    match action {
        WriteAction::Force(value) => first_of(scope.needs(b"Force"), of_tree(scope, value)),
        WriteAction::Freeze => scope.needs(b"Freeze"),
        WriteAction::Release => scope.needs(b"Release"),
    }
}

/// The rule that the uses of an expression break, and those of an action behind it.
pub(crate) fn of_tree_action<S: Scope>(
    scope: &S,
    tree: &Expression,
    action: &WriteAction,
) -> Option<FileRule>
    ensures { result ≡ answer (S.file scope.now) (S.around scope.now)
        (tree_uses (view tree.now) ++ write_action_uses (view_write_action action.now)) }
{
    first_of(of_tree(scope, tree), of_action(scope, action))
}
