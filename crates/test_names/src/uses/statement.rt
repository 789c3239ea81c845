//! Statements.

ghost use Rattle.std.specs.Prelude.{◌≡◌, [], ◌∷◌, ◌++◌, map, IfOk};
ghost use Rattle.std.specs.List.{flat_map};
ghost use Rattle.py_syntax.specs.ExpressionTrees.{view};
ghost use Rattle.py_syntax.specs.StatementTrees.{Break, optional, view_logger, view_right, view_statement};
ghost use Rattle.test_meaning.specs.Rules.Uses.{if_given, kind_use, logger_uses, right_uses, statement_uses, tree_uses};
ghost use Rattle.test_names.specs.Uses.Answer.{answer};

use crate::uses::call::{
    of_awaited, of_both, of_optional, of_right, of_start, of_tree_action, of_tree_and,
};
use crate::uses::{Scope, first_of, of_tree, of_trees};
use port_io::NoMemory;
use py_syntax::{Expression, FaultKind, Logger, RightSide, Statement};
use std::alloc::Global;
use test_meaning::rules::FileRule;

/// The rule that the name of a kind of fault breaks.
pub(crate) fn of_kind<S: Scope>(scope: &S, kind: FaultKind) -> Option<FileRule>
    ensures { result ≡ answer (S.file scope.now) (S.around scope.now) (kind_use kind ∷ []) }
{
    scope.needs(kind.name())
}

/// The rule that `break` and `continue` break, in a loop or outside.
#[tactic(auto, using(crate::proofs::UsesLemmas::Answers::nothing, crate::proofs::UsesLemmas::Answers::leaving))]
fn of_leaving<S: Scope>(_scope: &S, looped: bool) -> Option<FileRule>
    ensures { result ≡ answer (S.file _scope.now) (S.around _scope.now) (statement_uses looped Break) }
{
    if looped {
        None
    } else {
        Some(FileRule::Misplaced)
    }
}

/// The rule that what is returned breaks. Only want of memory is an error.
fn of_returned<S: Scope>(
    alloc: Global,
    scope: &S,
    right: &Option<RightSide>,
) -> Result<Option<FileRule>, NoMemory>
    ensures { IfOk result (λ rule. rule ≡ answer (S.file scope.now) (S.around scope.now) (if_given right_uses (optional view_right right.now))) }
{
    match right {
        Some(right) => of_right(alloc, scope, right),
        None => Ok(None),
    }
}

/// The rule that an assignment to a signal breaks. Only want of memory is an error.
fn of_signal_value<S: Scope>(
    alloc: Global,
    scope: &S,
    signal: &Expression,
    right: &RightSide,
) -> Result<Option<FileRule>, NoMemory>
    ensures { IfOk result
        (λ rule. rule ≡ answer (S.file scope.now) (S.around scope.now) (tree_uses (view signal.now) ++ right_uses (view_right right.now))) }
{
    let given = of_right(alloc, scope, right)?;
    Ok(first_of(of_tree(scope, signal), given))
}

/// The rule that a `raise` breaks.
fn of_raise<S: Scope>(scope: &S, kind: FaultKind, value: &Option<Expression>) -> Option<FileRule>
    ensures { result ≡ answer (S.file scope.now) (S.around scope.now) (kind_use kind ∷ if_given tree_uses (optional view value.now)) }
{
    first_of(of_kind(scope, kind), of_optional(scope, value))
}

/// The rule that the logger of a log call breaks.
fn of_logger<S: Scope>(scope: &S, logger: &Logger) -> Option<FileRule>
    ensures { result ≡ answer (S.file scope.now) (S.around scope.now) (logger_uses (view_logger logger.now)) }
{
    match logger {
        Logger::Cocotb => scope.needs(b"cocotb"),
        Logger::Hierarchy(hierarchy) => of_tree(scope, hierarchy),
    }
}

/// The rule that the head of a log call breaks: its logger, and what is logged first.
fn of_logged<S: Scope>(scope: &S, logger: &Logger, text: &Expression) -> Option<FileRule>
    ensures { result ≡ answer (S.file scope.now) (S.around scope.now) (logger_uses (view_logger logger.now) ++ tree_uses (view text.now)) }
{
    first_of(of_logger(scope, logger), of_tree(scope, text))
}

/// The rule that the further values of a log call break.
#[tactic(auto, using(crate::proofs::UsesLemmas::Rows::tree_values))]
fn of_values<S: Scope>(scope: &S, values: &[Expression]) -> Option<FileRule>
    ensures { result ≡ answer (S.file scope.now) (S.around scope.now) (flat_map tree_uses (map view values.now)) }
{
    of_trees(scope, values)
}

/// The rule that the uses of a statement break, which stands in a loop or doesn't. Only want of memory is an error.
pub fn of_statement<S: Scope>(
    alloc: Global,
    scope: &S,
    looped: bool,
    statement: &Statement,
) -> Result<Option<FileRule>, NoMemory>
    ensures { IfOk result (λ rule. rule ≡ answer (S.file scope.now) (S.around scope.now) (statement_uses looped (view_statement statement.now))) }
{
    match statement {
        Statement::Pass => Ok(None),
        Statement::Break => Ok(of_leaving(scope, looped)),
        Statement::Continue => Ok(of_leaving(scope, looped)),
        Statement::Return(right) => of_returned(alloc, scope, right),
        Statement::Raise(kind, value) => Ok(of_raise(scope, *kind, value)),
        Statement::Assert(condition, value) => Ok(of_tree_and(scope, condition, value)),
        Statement::Assign(_, right) => of_right(alloc, scope, right),
        Statement::AugmentedAssign(_, _, value) => Ok(of_tree(scope, value)),
        Statement::AssignValue(signal, right) => of_signal_value(alloc, scope, signal, right),
        Statement::SetImmediateValue(signal, value) => Ok(of_both(scope, signal, value)),
        Statement::Await(awaited) => of_awaited(alloc, scope, awaited),
        Statement::Act(object, _) => Ok(of_tree(scope, object)),
        Statement::Log(logger, _, text, values) => Ok(first_of(
            of_logged(scope, logger, text),
            of_values(scope, values),
        )),
        Statement::StartSoon(call) => of_start(alloc, scope, call),
        Statement::PutNow(queue, item) => Ok(of_both(scope, queue, item)),
        Statement::AssignAction(signal, action) => Ok(of_tree_action(scope, signal, action)),
        Statement::SetImmediateAction(signal, action) => Ok(of_tree_action(scope, signal, action)),
    }
}
