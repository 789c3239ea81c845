//! Statements and headers.

ghost use Rattle.std.specs.Prelude.{◌≡◌, ◌++◌, ◌∷◌, [], IfOk, codes, map};
ghost use Rattle.std.specs.List.{concat, flat_map};
ghost use Rattle.py_syntax.specs.ExpressionTrees.{view};
ghost use Rattle.py_syntax.specs.StatementTrees as node;
ghost use Rattle.py_syntax.specs.StatementTrees.{
  optional,
  view_awaited,
  view_caught,
  view_header,
  view_logger,
  view_right,
  view_span,
  view_statement,
  view_write_action,
};
ghost use Rattle.python_tests.specs.Trees.CallText.{member_call, spaced_text};
ghost use Rattle.python_tests.specs.Trees.StatementText.{
  alone,
  caught_text,
  constants_text,
  header_text,
  logger_text,
  raised_text,
  returned_text,
  span_text,
  spaced_constant,
  spaced_kind,
  statement_text,
};

use crate::trees::call::{await_text, optional_text, right_text, start_text, write_action_text};
use crate::trees::expression::{
    constant_text, expression_text, infix, member_text, pair_text, spaced_text, spaced_texts,
};
use crate::trees::piece::joined;
use py_syntax::{
    Action, BinOp, Caught, Const, Expression, FaultKind, Header, LogLevel, Logger, RightSide, Span,
    Statement, WriteAction,
};
use std::alloc::{AllocError, Global};

/// What is returned, behind a space, if anything is.
fn returned_text(alloc: Global, right: &Option<RightSide>) -> Result<Vec<u8>, AllocError>
    ensures { IfOk result (λ text. text.items ≡ returned_text (optional view_right right.now)) }
{
    match right {
        Some(right) => {
            let right = right_text(alloc, right)?;
            joined(alloc, &[b" ", &right])
        }
        None => Ok(Vec::new(alloc)),
    }
}

/// A `return`.
fn return_text(alloc: Global, right: &Option<RightSide>) -> Result<Vec<u8>, AllocError>
    ensures { IfOk result (λ text. text.items ≡ statement_text (node.Return (optional view_right right.now))) }
{
    let returned = returned_text(alloc, right)?;
    joined(alloc, &[b"(return", &returned, b")"])
}

/// A kind, or a call of it with its value.
fn raised_text(
    alloc: Global,
    kind: FaultKind,
    value: &Option<Expression>,
) -> Result<Vec<u8>, AllocError>
    ensures { IfOk result (λ text. text.items ≡ raised_text kind (optional view value.now)) }
{
    match value {
        None => joined(alloc, &[kind.name()]),
        Some(value) => {
            let value = spaced_text(alloc, value)?;
            joined(alloc, &[b"(call ", kind.name(), &value, b")"])
        }
    }
}

/// A `raise`.
fn raise_text(
    alloc: Global,
    kind: FaultKind,
    value: &Option<Expression>,
) -> Result<Vec<u8>, AllocError>
    ensures { IfOk result (λ text. text.items ≡ statement_text (node.Raise kind (optional view value.now))) }
{
    let raised = raised_text(alloc, kind, value)?;
    joined(alloc, &[b"(raise ", &raised, b")"])
}

/// An `assert`.
fn assert_text(
    alloc: Global,
    condition: &Expression,
    value: &Option<Expression>,
) -> Result<Vec<u8>, AllocError>
    ensures { IfOk result (λ text. text.items ≡ statement_text (node.Assert (view condition.now) (optional view value.now))) }
{
    let condition = spaced_text(alloc, condition)?;
    let value = optional_text(alloc, value)?;
    joined(alloc, &[b"(assert", &condition, &value, b")"])
}

/// An assignment to a name.
fn assign_text(alloc: Global, name: &[u8], right: &RightSide) -> Result<Vec<u8>, AllocError>
    ensures { IfOk result (λ text. text.items ≡ statement_text (node.Assign name.now (view_right right.now))) }
{
    let right = right_text(alloc, right)?;
    pair_text(alloc, b"=", name, &right)
}

/// An assignment with an operator.
fn augmented_text(
    alloc: Global,
    name: &[u8],
    op: BinOp,
    value: &Expression,
) -> Result<Vec<u8>, AllocError>
    ensures { IfOk result (λ text. text.items ≡ statement_text (node.AugmentedAssign name.now op (view value.now))) }
{
    let value = expression_text(alloc, value)?;
    let operation = joined(alloc, &[b"(", infix(op), b" ", &value, b")"])?;
    pair_text(alloc, b"augment", name, &operation)
}

/// An assignment to the value of a signal.
fn assign_value_text(
    alloc: Global,
    base: &Expression,
    right: &RightSide,
) -> Result<Vec<u8>, AllocError>
    ensures { IfOk result (λ text. text.items ≡ statement_text (node.AssignValue (view base.now) (view_right right.now))) }
{
    let member = member_text(alloc, base, b"value")?;
    let right = right_text(alloc, right)?;
    pair_text(alloc, b"=", &member, &right)
}

/// A statement that is a call of a member with these arguments, each behind a space.
pub fn member_call_text(
    alloc: Global,
    base: &[u8],
    name: &[u8],
    arguments: &[u8],
) -> Result<Vec<u8>, AllocError>
    ensures { IfOk result (λ text. text.items ≡ alone (member_call base.now name.now arguments.now)) }
{
    let member = pair_text(alloc, b".", base, name)?;
    joined(alloc, &[b"(expr (call ", &member, arguments, b"))"])
}

/// A value that is set at once.
fn immediate_text(
    alloc: Global,
    base: &Expression,
    value: &Expression,
) -> Result<Vec<u8>, AllocError>
    ensures { IfOk result (λ text. text.items ≡ statement_text (node.SetImmediateValue (view base.now) (view value.now))) }
{
    let base = expression_text(alloc, base)?;
    let value = spaced_text(alloc, value)?;
    member_call_text(alloc, &base, b"setimmediatevalue", &value)
}

/// An action that is assigned to the value of a signal.
fn assign_action_text(
    alloc: Global,
    base: &Expression,
    action: &WriteAction,
) -> Result<Vec<u8>, AllocError>
    ensures { IfOk result (λ text. text.items ≡ statement_text (node.AssignAction (view base.now) (view_write_action action.now))) }
{
    let member = member_text(alloc, base, b"value")?;
    let action = write_action_text(alloc, action)?;
    pair_text(alloc, b"=", &member, &action)
}

/// An action that is done at once.
fn immediate_action_text(
    alloc: Global,
    base: &Expression,
    action: &WriteAction,
) -> Result<Vec<u8>, AllocError>
    ensures { IfOk result (λ text. text.items ≡ statement_text (node.SetImmediateAction (view base.now) (view_write_action action.now))) }
{
    let base = expression_text(alloc, base)?;
    let action = write_action_text(alloc, action)?;
    let action = joined(alloc, &[b" ", &action])?;
    member_call_text(alloc, &base, b"setimmediatevalue", &action)
}

/// An item that is put into a queue at once.
fn put_now_text(alloc: Global, queue: &Expression, item: &Expression) -> Result<Vec<u8>, AllocError>
    ensures { IfOk result (λ text. text.items ≡ statement_text (node.PutNow (view queue.now) (view item.now))) }
{
    let queue = expression_text(alloc, queue)?;
    let item = spaced_text(alloc, item)?;
    member_call_text(alloc, &queue, b"put_nowait", &item)
}

/// A method without arguments that is called.
fn act_text(alloc: Global, base: &Expression, action: Action) -> Result<Vec<u8>, AllocError>
    ensures { IfOk result (λ text. text.items ≡ statement_text (node.Act (view base.now) action)) }
{
    let base = expression_text(alloc, base)?;
    member_call_text(alloc, &base, action.name(), b"")
}

/// What a line is logged for.
fn logger_text(alloc: Global, logger: &Logger) -> Result<Vec<u8>, AllocError>
    ensures { IfOk result (λ text. text.items ≡ logger_text (view_logger logger.now)) }
{
    match logger {
        Logger::Cocotb => pair_text(alloc, b".", b"cocotb", b"log"),
        Logger::Hierarchy(base) => member_text(alloc, base, b"_log"),
    }
}

/// Values, each behind a space.
fn values_text(
    alloc: Global,
    first: &Expression,
    others: &[Expression],
) -> Result<Vec<u8>, AllocError>
    ensures { IfOk result (λ text. text.items ≡ spaced_text (view first.now) ++ flat_map spaced_text (map view others.now)) }
{
    let first = spaced_text(alloc, first)?;
    let others = spaced_texts(alloc, others)?;
    joined(alloc, &[&first, &others])
}

/// A call of a logger.
fn log_text(
    alloc: Global,
    logger: &Logger,
    level: LogLevel,
    first: &Expression,
    others: &[Expression],
) -> Result<Vec<u8>, AllocError>
    ensures { IfOk result (λ text. text.items ≡ statement_text (node.Log (view_logger logger.now) level (view first.now) (map view others.now))) }
{
    let logger = logger_text(alloc, logger)?;
    let values = values_text(alloc, first, others)?;
    member_call_text(alloc, &logger, level.name(), &values)
}

/// A statement that is an expression alone.
fn alone_text(alloc: Global, text: &[u8]) -> Result<Vec<u8>, AllocError>
    ensures { IfOk result (λ whole. whole.items ≡ alone text.now) }
{
    joined(alloc, &[b"(expr ", text, b")"])
}

/// A statement.
pub fn statement_text(alloc: Global, statement: &Statement) -> Result<Vec<u8>, AllocError>
    ensures { IfOk result (λ text. text.items ≡ statement_text (view_statement statement.now)) }
{
    match statement {
        Statement::Pass => joined(alloc, &[b"(pass)"]),
        Statement::Break => joined(alloc, &[b"(break)"]),
        Statement::Continue => joined(alloc, &[b"(continue)"]),
        Statement::Return(right) => return_text(alloc, right),
        Statement::Raise(kind, value) => raise_text(alloc, *kind, value),
        Statement::Assert(condition, value) => assert_text(alloc, condition, value),
        Statement::Assign(name, right) => assign_text(alloc, name.bytes(), right),
        Statement::AugmentedAssign(name, op, value) => {
            augmented_text(alloc, name.bytes(), *op, value)
        }
        Statement::AssignValue(base, right) => assign_value_text(alloc, base, right),
        Statement::SetImmediateValue(base, value) => immediate_text(alloc, base, value),
        Statement::Await(awaited) => {
            let awaited = await_text(alloc, awaited)?;
            alone_text(alloc, &awaited)
        }
        Statement::Act(base, action) => act_text(alloc, base, *action),
        Statement::Log(logger, level, first, others) => {
            log_text(alloc, logger, *level, first, others)
        }
        Statement::StartSoon(call) => {
            let start = start_text(alloc, b"start_soon", call)?;
            alone_text(alloc, &start)
        }
        Statement::PutNow(queue, item) => put_now_text(alloc, queue, item),
        Statement::AssignAction(base, action) => assign_action_text(alloc, base, action),
        Statement::SetImmediateAction(base, action) => immediate_action_text(alloc, base, action),
    }
}

/// Constants, each behind a space.
fn spaced_constants(alloc: Global, constants: &[Const]) -> Result<Vec<u8>, AllocError>
    ensures { IfOk result (λ text. text.items ≡ flat_map spaced_constant constants.now) }
{
    let mut text = Vec::new(alloc);
    for constant in constants {
        let more = constant_text(alloc, constant)?;
        text.extend_from_slice(b" ")?;
        text.extend_from_slice(&more)?;
    }
    Ok(text)
}

/// A list of constants.
pub fn constants_text(alloc: Global, constants: &[Const]) -> Result<Vec<u8>, AllocError>
    ensures { IfOk result (λ text. text.items ≡ constants_text constants.now) }
{
    let constants = spaced_constants(alloc, constants)?;
    joined(alloc, &[b"(list", &constants, b")"])
}

/// A range from a start to a stop.
fn range_text(alloc: Global, start: &Expression, stop: &Expression) -> Result<Vec<u8>, AllocError>
    ensures { IfOk result (λ text. text.items ≡ span_text (node.StartStop (view start.now) (view stop.now))) }
{
    let start = spaced_text(alloc, start)?;
    let stop = spaced_text(alloc, stop)?;
    joined(alloc, &[b"(call range", &start, &stop, b")"])
}

/// A range from a start to a stop in steps.
fn stepped_text(
    alloc: Global,
    start: &Expression,
    stop: &Expression,
    step: &Expression,
) -> Result<Vec<u8>, AllocError>
    ensures { IfOk result (λ text. text.items ≡ span_text (node.StartStopStep (view start.now) (view stop.now) (view step.now))) }
{
    let start = spaced_text(alloc, start)?;
    let stop = spaced_text(alloc, stop)?;
    let step = spaced_text(alloc, step)?;
    joined(alloc, &[b"(call range", &start, &stop, &step, b")"])
}

/// What a loop goes over.
fn span_text(alloc: Global, span: &Span) -> Result<Vec<u8>, AllocError>
    ensures { IfOk result (λ text. text.items ≡ span_text (view_span span.now)) }
{
    match span {
        Span::Stop(stop) => {
            let stop = spaced_text(alloc, stop)?;
            joined(alloc, &[b"(call range", &stop, b")"])
        }
        Span::StartStop(start, stop) => range_text(alloc, start, stop),
        Span::StartStopStep(start, stop, step) => stepped_text(alloc, start, stop, step),
        Span::Constants(constants) => constants_text(alloc, constants),
    }
}

/// Kinds of faults, each behind a space.
fn spaced_kinds(alloc: Global, kinds: &[FaultKind]) -> Result<Vec<u8>, AllocError>
    ensures { IfOk result (λ text. text.items ≡ flat_map spaced_kind kinds.now) }
{
    let mut text = Vec::new(alloc);
    for kind in kinds {
        text.extend_from_slice(b" ")?;
        text.extend_from_slice(kind.name())?;
    }
    Ok(text)
}

/// A kind and the name that is given to what is caught.
fn named_kind(alloc: Global, kind: &[u8], name: &[u8]) -> Result<Vec<u8>, AllocError>
    ensures { IfOk result (λ text. text.items ≡ concat (codes " " ∷ kind.now ∷ codes " as " ∷ name.now ∷ [])) }
{
    joined(alloc, &[b" ", kind, b" as ", name])
}

/// What an `except` catches.
fn caught_text(alloc: Global, caught: &Caught) -> Result<Vec<u8>, AllocError>
    ensures { IfOk result (λ text. text.items ≡ caught_text (view_caught caught.now)) }
{
    match caught {
        Caught::All => Ok(Vec::new(alloc)),
        Caught::Kind(kind) => joined(alloc, &[b" ", kind.name()]),
        Caught::Kinds(kinds) => {
            let kinds = spaced_kinds(alloc, kinds)?;
            joined(alloc, &[b" (tuple", &kinds, b")"])
        }
        Caught::As(kind, name) => named_kind(alloc, kind.name(), name.bytes()),
    }
}

/// A word, and an expression behind a space.
fn headed_text(alloc: Global, word: &[u8], tree: &Expression) -> Result<Vec<u8>, AllocError>
    ensures { IfOk result (λ text. text.items ≡ word.now ++ spaced_text (view tree.now)) }
{
    let tree = spaced_text(alloc, tree)?;
    joined(alloc, &[word, &tree])
}

/// A header, whose bracket stays open.
pub fn header_text(alloc: Global, header: &Header) -> Result<Vec<u8>, AllocError>
    ensures { IfOk result (λ text. text.items ≡ header_text (view_header header.now)) }
{
    match header {
        Header::If(condition) => headed_text(alloc, b"(if", condition),
        Header::Elif(condition) => headed_text(alloc, b"(elif", condition),
        Header::Else => joined(alloc, &[b"(else"]),
        Header::While(condition) => headed_text(alloc, b"(while", condition),
        Header::For(name, span) => {
            let span = span_text(alloc, span)?;
            joined(alloc, &[b"(for ", name.bytes(), b" ", &span])
        }
        Header::Try => joined(alloc, &[b"(try"]),
        Header::Except(caught) => {
            let caught = caught_text(alloc, caught)?;
            joined(alloc, &[b"(except", &caught])
        }
        Header::With(lock) => headed_text(alloc, b"(with", lock),
    }
}
