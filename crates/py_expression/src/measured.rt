//! A tree with its height, and what is kept of a tree that is too high.

ghost use Rattle.py_expression.specs.Shown.{height_limit};
ghost use Rattle.std.specs.Prelude.{◌≡◌, max, IfOk};
ghost use Rattle.py_syntax.specs.ExpressionTrees.{Tree, Constant, Name, view};
ghost use Rattle.py_expression.specs.Kept.{measured, arguments_in, parts_in};
ghost use Rattle.py_expression.specs.Shown;

use crate::arguments::FunctionArguments;
use crate::parts::Parts;
use port_io::{Name, NoMemory, boxed};
use py_syntax::{Const, Expression, Function, Method, Operation, UnOp};
use std::alloc::Global;

/// The greatest height of a tree that is kept whole. It is two above the limit on an expression's height, 64, since a statement
/// as `a.value = b` or `a._log.info(b)` takes the attributes off its first expression, and they don't count.
pub const KEPT: usize = 66;

/// A tree with its height. Of a tree higher than [`KEPT`] only the names of its two outermost attributes are kept, and its
/// height counts as one above that.
#[derive(Drop)]
pub struct Measured {
    /// The tree, or what is kept of it.
    pub tree: Box<Expression>,
    /// The height, or `KEPT + 1`.
    pub height: usize,
}

/// What stands for a tree that isn't kept.
fn nothing() -> Expression
    ensures { view result ≡ Shown.nothing }
{
    Expression::Constant(Const::Absent)
}

/// An attribute of nothing.
fn bare_attribute(alloc: Global, name: Name) -> Result<Expression, NoMemory>
    ensures { IfOk result (λ e. view e ≡ Tree.Attribute Shown.nothing name) }
{
    Ok(Expression::Attribute(Box::new(alloc, nothing())?, name))
}

/// What is kept below the outermost node of a tree that is too high.
#[tactic(auto, unfolding(crate::specs::Shown::cut))]
fn cut(alloc: Global, tree: Expression) -> Result<Expression, NoMemory>
    ensures { IfOk result (λ e. view e ≡ Shown.cut (view tree)) }
{
    match tree {
        Expression::Attribute(_, name) => bare_attribute(alloc, name),
        _ => Ok(nothing()),
    }
}

/// What is kept of a tree that is too high.
#[tactic(auto, unfolding(crate::specs::Shown::hollow))]
fn hollow(alloc: Global, tree: Expression) -> Result<Expression, NoMemory>
    ensures { IfOk result (λ e. view e ≡ Shown.hollow (view tree)) }
{
    match tree {
        Expression::Attribute(base, name) => {
            let base = cut(alloc, Box::into_inner(base))?;
            Ok(Expression::Attribute(Box::new(alloc, base)?, name))
        }
        _ => Ok(nothing()),
    }
}

/// A tree whose greatest part has this height, or what is kept of it.
#[tactic(auto, unfolding(crate::specs::Shown::fitted))]
fn fitted(alloc: Global, tree: Expression, part: usize) -> Result<Measured, NoMemory>
    ensures { IfOk result (λ m. measured m ≡ Shown.fitted height_limit (view tree) part) }
{
    if part < KEPT {
        return Ok(Measured {
            tree: boxed(alloc, tree)?,
            height: part + 1,
        });
    }
    let tree = hollow(alloc, tree)?;
    Ok(Measured {
        tree: boxed(alloc, tree)?,
        height: KEPT + 1,
    })
}

impl Measured {
    /// A constant.
    pub fn constant(alloc: Global, value: Const) -> Result<Measured, NoMemory>
        ensures { IfOk result (λ m. measured m ≡ Shown.constant value) }
    {
        Ok(Measured {
            tree: boxed(alloc, Expression::Constant(value))?,
            height: 1,
        })
    }

    /// A name.
    pub fn name(alloc: Global, name: Name) -> Result<Measured, NoMemory>
        ensures { IfOk result (λ m. measured m ≡ Shown.name name) }
    {
        Ok(Measured {
            tree: boxed(alloc, Expression::Name(name))?,
            height: 1,
        })
    }

    /// `(inner)`
    #[tactic(auto, unfolding(crate::specs::Shown::bracketed))]
    pub fn bracketed(alloc: Global, inner: Measured) -> Result<Measured, NoMemory>
        ensures { IfOk result (λ m. measured m ≡ Shown.bracketed height_limit (measured inner)) }
    {
        let height = inner.height;
        fitted(alloc, Expression::Bracketed(inner.tree), height)
    }

    /// `base.name`
    #[tactic(auto, unfolding(crate::specs::Shown::attribute))]
    pub fn attribute(alloc: Global, base: Measured, name: Name) -> Result<Measured, NoMemory>
        ensures { IfOk result (λ m. measured m ≡ Shown.attribute height_limit (measured base) name) }
    {
        let height = base.height;
        fitted(alloc, Expression::Attribute(base.tree, name), height)
    }

    /// `base[index]`
    #[tactic(auto, unfolding(crate::specs::Shown::subscript))]
    pub fn subscript(alloc: Global, base: Measured, index: Measured) -> Result<Measured, NoMemory>
        ensures { IfOk result (λ m. measured m ≡ Shown.subscript height_limit (measured base) (measured index)) }
    {
        let height = base.height.max(index.height);
        fitted(alloc, Expression::Subscript(base.tree, index.tree), height)
    }

    /// `base.method()`
    #[tactic(auto, unfolding(crate::specs::Shown::method_call))]
    pub fn method_call(alloc: Global, base: Measured, method: Method) -> Result<Measured, NoMemory>
        ensures { IfOk result (λ m. measured m ≡ Shown.method_call height_limit (measured base) method) }
    {
        let height = base.height;
        fitted(alloc, Expression::MethodCall(base.tree, method), height)
    }

    /// An operator and its operand.
    #[tactic(auto, unfolding(crate::specs::Shown::unary))]
    pub fn unary(alloc: Global, op: UnOp, operand: Measured) -> Result<Measured, NoMemory>
        ensures { IfOk result (λ m. measured m ≡ Shown.unary height_limit op (measured operand)) }
    {
        let height = operand.height;
        fitted(alloc, Expression::Unary(op, operand.tree), height)
    }

    /// An operator between its two operands.
    #[tactic(auto, unfolding(crate::specs::Shown::infix_of))]
    pub fn infix_of(
        alloc: Global,
        op: Operation,
        left: Measured,
        right: Measured,
    ) -> Result<Measured, NoMemory>
        ensures { IfOk result (λ m. measured m ≡ Shown.infix_of height_limit op (measured left) (measured right)) }
    {
        let height = left.height.max(right.height);
        let tree = match op {
            Operation::Bool(op) => Expression::Bool(op, left.tree, right.tree),
            Operation::Binary(op) => Expression::Binary(op, left.tree, right.tree),
        };
        fitted(alloc, tree, height)
    }

    /// A call of a known function.
    #[tactic(auto, unfolding(crate::specs::Shown::call))]
    pub fn call(
        alloc: Global,
        function: Function,
        arguments: FunctionArguments,
    ) -> Result<Measured, NoMemory>
        ensures { IfOk result (λ m. measured m ≡ Shown.call height_limit function (arguments_in arguments)) }
    {
        let height = arguments.height;
        fitted(alloc, arguments.into_call(function), height)
    }

    /// An f-string of these parts.
    #[tactic(auto, unfolding(crate::specs::Shown::format_string))]
    pub fn format_string(alloc: Global, parts: Parts) -> Result<Measured, NoMemory>
        ensures { IfOk result (λ m. measured m ≡ Shown.format_string height_limit (parts_in parts)) }
    {
        let height = parts.height;
        fitted(alloc, parts.into_format_string(), height)
    }
}
