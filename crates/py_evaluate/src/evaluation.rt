//! The evaluation of expressions.
ghost use Rattle.std.specs.Prelude.{◌≡◌, ◌≤◌, IfOk};
ghost use Rattle.py_syntax.specs.ExpressionTrees as tree;
ghost use Rattle.py_syntax.specs.declared.expression.Operation.TheVariants as operation;
ghost use Rattle.py_evaluate.specs.Attribute.Knows.{KnowsNames, KnowsAll};
ghost use Rattle.py_evaluate.specs.Attribute.Gives.{IfWant};
ghost use Rattle.py_evaluate.specs.Attribute.Outcome.{Ends, EndsAs};
ghost use Rattle.py_evaluate.specs.Eval.{eval_row, eval_parts};
ghost use Rattle.py_evaluate.specs.Wants.{RowWants, PartsWant};
ghost use Rattle.py_evaluate.specs.Gives as told;
ghost use Rattle.py_evaluate.specs.Rows as rows;

use crate::attribute::{Locals, Look, OperationFault, attribute, operated, shown_text, text_value};
use crate::function::{called, method_value};
use crate::operations::{constant_value, name_value, unary_value, word_value};
use port_io::{Name, boxed};
use py_syntax::{BinOp, BoolOp, Expression, FormatPart, Function, Method, UnOp};
use py_value::{Fault, TaskNo, Value, truth};
use std::alloc::Global;

/// Why an expression has no value.
#[derive(Drop)]
pub enum EvalFault {
    /// It raises this fault, whose text is empty.
    Raised(Fault),
    /// There is no memory for the value, or for one on the way to it.
    OutOfMemory,
}

/// The value of an expression.
#[cycle(evaluating)]
fn value_of<N: Locals, V: Look>(
    alloc: Global,
    e: &Expression,
    names: &N,
    view: &V,
    task: TaskNo,
    next: &mut u64,
) -> Result<Value, OperationFault>
    requires { KnowsNames (V.view view.now) (N.names names.now) }
    ensures { told.Evaluated (told.scope task (N.names names.now) (V.view view.now)) (tree.view e.now) next.old result next.new }
{
    match e {
        Expression::Constant(constant) => constant_value(alloc, view, constant),
        Expression::FormatString(parts) => format_string(alloc, parts, names, view, task, next),
        Expression::Name(name) => name_value(alloc, names, view, name),
        Expression::Bracketed(inner) => value_of(alloc, inner, names, view, task, next),
        Expression::Attribute(base, name) => {
            attribute_of(alloc, base, name, names, view, task, next)
        }
        Expression::Subscript(base, index) => {
            subscript(alloc, base, index, names, view, task, next)
        }
        Expression::Call(function, arguments) => {
            call(alloc, *function, arguments, names, view, task, next)
        }
        Expression::MethodCall(base, method) => {
            method_call(alloc, base, *method, names, view, task, next)
        }
        Expression::Unary(op, operand) => unary(alloc, *op, operand, names, view, task, next),
        Expression::Binary(op, left, right) => {
            binary(alloc, *op, left, right, names, view, task, next)
        }
        Expression::Bool(op, left, right) => {
            choice(alloc, *op, left, right, names, view, task, next)
        }
    }
}

/// `base.name`
#[cycle(evaluating)]
fn attribute_of<N: Locals, V: Look>(
    alloc: Global,
    base: &Expression,
    name: &Name,
    names: &N,
    view: &V,
    task: TaskNo,
    next: &mut u64,
) -> Result<Value, OperationFault>
    requires { KnowsNames (V.view view.now) (N.names names.now) }
    ensures { told.Evaluated (told.scope task (N.names names.now) (V.view view.now))
        (tree.Attribute (tree.view base.now) name.now) next.old result next.new }
{
    let v = value_of(alloc, base, names, view, task, next)?;
    attribute(alloc, view, &v, name)
}

/// `base[index]`
#[cycle(evaluating)]
fn subscript<N: Locals, V: Look>(
    alloc: Global,
    base: &Expression,
    index: &Expression,
    names: &N,
    view: &V,
    task: TaskNo,
    next: &mut u64,
) -> Result<Value, OperationFault>
    requires { KnowsNames (V.view view.now) (N.names names.now) }
    ensures { told.Evaluated (told.scope task (N.names names.now) (V.view view.now))
        (tree.Subscript (tree.view base.now) (tree.view index.now)) next.old result next.new }
{
    let v = boxed(alloc, value_of(alloc, base, names, view, task, next)?)?;
    let index = value_of(alloc, index, names, view, task, next)?;
    Ok(word_value(view, &v, &index)?)
}

/// `function(arguments)`
#[cycle(evaluating)]
fn call<N: Locals, V: Look>(
    alloc: Global,
    function: Function,
    arguments: &[Expression],
    names: &N,
    view: &V,
    task: TaskNo,
    next: &mut u64,
) -> Result<Value, OperationFault>
    requires { KnowsNames (V.view view.now) (N.names names.now) }
    ensures { told.Evaluated (told.scope task (N.names names.now) (V.view view.now))
        (tree.Call function (rows.trees_of arguments.now)) next.old result next.new }
{
    let values = values_of(alloc, arguments, names, view, task, next)?;
    called(alloc, view, task, function, &values, next)
}

/// The values of arguments, from left to right.
#[cycle(evaluating)]
fn values_of<N: Locals, V: Look>(
    alloc: Global,
    arguments: &[Expression],
    names: &N,
    view: &V,
    task: TaskNo,
    next: &mut u64,
) -> Result<Vec<Value>, OperationFault>
    requires { KnowsNames (V.view view.now) (N.names names.now) }
    ensures ends { EndsAs result (λ values. values.items) next.new
        (eval_row (told.scope task (N.names names.now) (V.view view.now)) (rows.trees_of arguments.now) next.old) }
    ensures known { IfOk result (λ values. KnowsAll (V.view view.now) values.items) }
    ensures rises { next.old ≤ next.new }
    ensures want { IfWant result (RowWants (told.scope task (N.names names.now) (V.view view.now)) (rows.trees_of arguments.now) next.old next.new) }
{
    let mut values = Vec::new(alloc);
    for e in arguments {
        let v = value_of(alloc, e, names, view, task, next)?;
        values.push(v)?;
    }
    Ok(values)
}

/// `base.method()`
#[cycle(evaluating)]
fn method_call<N: Locals, V: Look>(
    alloc: Global,
    base: &Expression,
    method: Method,
    names: &N,
    view: &V,
    task: TaskNo,
    next: &mut u64,
) -> Result<Value, OperationFault>
    requires { KnowsNames (V.view view.now) (N.names names.now) }
    ensures { told.Evaluated (told.scope task (N.names names.now) (V.view view.now))
        (tree.MethodCall (tree.view base.now) method) next.old result next.new }
{
    let v = value_of(alloc, base, names, view, task, next)?;
    Ok(method_value(view, task, &v, method, next)?)
}

/// An operator with one operand.
#[cycle(evaluating)]
fn unary<N: Locals, V: Look>(
    alloc: Global,
    op: UnOp,
    operand: &Expression,
    names: &N,
    view: &V,
    task: TaskNo,
    next: &mut u64,
) -> Result<Value, OperationFault>
    requires { KnowsNames (V.view view.now) (N.names names.now) }
    ensures { told.Evaluated (told.scope task (N.names names.now) (V.view view.now))
        (tree.Unary op (tree.view operand.now)) next.old result next.new }
{
    let v = value_of(alloc, operand, names, view, task, next)?;
    Ok(unary_value(view, op, v)?)
}

/// An operator with two operands, the left of which is evaluated first.
#[cycle(evaluating)]
fn binary<N: Locals, V: Look>(
    alloc: Global,
    op: BinOp,
    left: &Expression,
    right: &Expression,
    names: &N,
    view: &V,
    task: TaskNo,
    next: &mut u64,
) -> Result<Value, OperationFault>
    requires { KnowsNames (V.view view.now) (N.names names.now) }
    ensures { told.Evaluated (told.scope task (N.names names.now) (V.view view.now))
        (tree.Infix (operation.Binary op) (tree.view left.now) (tree.view right.now)) next.old result next.new }
{
    let a = boxed(alloc, value_of(alloc, left, names, view, task, next)?)?;
    let b = value_of(alloc, right, names, view, task, next)?;
    Ok(operated(view, op, &a, &b)?)
}

/// `or` or `and`: the first operand where it decides, else the second, which is evaluated only then.
#[cycle(evaluating)]
fn choice<N: Locals, V: Look>(
    alloc: Global,
    op: BoolOp,
    left: &Expression,
    right: &Expression,
    names: &N,
    view: &V,
    task: TaskNo,
    next: &mut u64,
) -> Result<Value, OperationFault>
    requires { KnowsNames (V.view view.now) (N.names names.now) }
    ensures { told.Evaluated (told.scope task (N.names names.now) (V.view view.now))
        (tree.Infix (operation.Bool op) (tree.view left.now) (tree.view right.now)) next.old result next.new }
{
    let v = value_of(alloc, left, names, view, task, next)?;
    match (op, truth(&v)) {
        (BoolOp::Or, true) => Ok(v),
        (BoolOp::And, false) => Ok(v),
        (BoolOp::Or, false) => value_of(alloc, right, names, view, task, next),
        (BoolOp::And, true) => value_of(alloc, right, names, view, task, next),
    }
}

/// `f".."`
#[cycle(evaluating)]
fn format_string<N: Locals, V: Look>(
    alloc: Global,
    parts: &[FormatPart],
    names: &N,
    view: &V,
    task: TaskNo,
    next: &mut u64,
) -> Result<Value, OperationFault>
    requires { KnowsNames (V.view view.now) (N.names names.now) }
    ensures { told.Evaluated (told.scope task (N.names names.now) (V.view view.now))
        (tree.FormatString (rows.parts_of parts.now)) next.old result next.new }
{
    let text = text_of(alloc, parts, names, view, task, next)?;
    text_value(alloc, &text)
}

/// The text of the parts of an f-string, from left to right.
#[cycle(evaluating)]
fn text_of<N: Locals, V: Look>(
    alloc: Global,
    parts: &[FormatPart],
    names: &N,
    view: &V,
    task: TaskNo,
    next: &mut u64,
) -> Result<Vec<u8>, OperationFault>
    requires { KnowsNames (V.view view.now) (N.names names.now) }
    ensures ends { EndsAs result (λ text. text.items) next.new
        (eval_parts (told.scope task (N.names names.now) (V.view view.now)) (rows.parts_of parts.now) next.old) }
    ensures rises { next.old ≤ next.new }
    ensures want { IfWant result (PartsWant (told.scope task (N.names names.now) (V.view view.now)) (rows.parts_of parts.now) next.old next.new) }
{
    let mut text = Vec::new(alloc);
    for part in parts {
        let shown = part_text(alloc, part, names, view, task, next)?;
        text.extend_from_slice(shown.bytes())?;
    }
    Ok(text)
}

/// The text of a part of an f-string.
#[cycle(evaluating)]
fn part_text<N: Locals, V: Look>(
    alloc: Global,
    part: &FormatPart,
    names: &N,
    view: &V,
    task: TaskNo,
    next: &mut u64,
) -> Result<Name, OperationFault>
    requires { KnowsNames (V.view view.now) (N.names names.now) }
    ensures ends { Ends result next.new (rows.part_bytes (told.scope task (N.names names.now) (V.view view.now)) part.now next.old) }
    ensures rises { next.old ≤ next.new }
    ensures want { IfWant result (rows.PartWants (told.scope task (N.names names.now) (V.view view.now)) part.now next.old next.new) }
{
    match part {
        FormatPart::Text(text) => Ok(Name::of(alloc, text.bytes())?),
        FormatPart::Formatted(e) => {
            let v = value_of(alloc, e, names, view, task, next)?;
            Ok(shown_text(alloc, view, &v)?)
        }
    }
}

/// The value of an expression (the language reference, 6), or the fault that it raises, whose text is empty, where a task evaluates it
/// that has these names and whose next trigger has this number. The view knows every value of the names, and then the value that comes
/// out. Operands are evaluated from left to right, and the second of `or` and `and` only where it is needed.
///
/// The fault is the first that is met: UnboundLocalError of a name that is unassigned; of an operator TypeError, ValueError,
/// ZeroDivisionError or OverflowError (`crate::attribute::operated`, `py_value::operator::unary`); of an attribute AttributeError, ValueError or
/// OverflowError (`crate::attribute::attribute`); of an index TypeError, ValueError or IndexError (`crate::attribute::indexed`); of a call
/// TypeError, ValueError, OverflowError or RuntimeError (`crate::function::called`); of a method AttributeError or RuntimeError
/// (`crate::function::method_value`); of a text of over 65,536 bytes, an f-string's among them, OverflowError.
///
/// Each trigger that is made takes the next number, which never falls. `OutOfMemory` may come only where a text is made, a part of an f-string
/// among them; where a name's value is copied that is a text, a caught fault or a trigger that holds others; where a value is kept while
/// others are evaluated, as the left operand of an operator but `or` and `and`, the base of an index, and each argument of a call; and in a
/// call of `str`, `First` or `Combine` whose arguments are of the right kinds. The next number is then what the triggers made until there
/// leave; amid a call of `First` or `Combine` it may be any from there to what the call would leave.
pub fn evaluate<N: Locals, V: Look>(
    alloc: Global,
    e: &Expression,
    names: &N,
    view: &V,
    task: TaskNo,
    next: &mut u64,
) -> Result<Value, EvalFault>
    requires { KnowsNames (V.view view.now) (N.names names.now) }
    ensures gives { told.Gives (told.scope task (N.names names.now) (V.view view.now)) (tree.view e.now) next.old result next.new }
    ensures rises { next.old ≤ next.new }
{
    match value_of(alloc, e, names, view, task, next) {
        Ok(v) => Ok(v),
        Err(OperationFault::Raised(kind)) => Err(EvalFault::Raised(Fault::plain(kind))),
        Err(OperationFault::OutOfMemory) => Err(EvalFault::OutOfMemory),
    }
}
